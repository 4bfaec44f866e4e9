//! The rules for methods and globals, tried where the types and the free variables of all terms are known.
ghost use Rattle.std.specs.Prelude.{◌≡◌, ◌&&◌, Some, not, position};
ghost use Rattle.library.specs.Facts.{free_sets, type_numbers};
ghost use Rattle.library.specs.Inference.{same_number};
ghost use Rattle.library.specs.Judging.{closed_function, global_stands, is_function, method_stands, stands};
ghost use Rattle.library.specs.Listing.{type_form_at};
ghost use Rattle.std.specs.List.{slice_get};

use super::facts::KnownTerms;
use super::listing::Listing;
use rows::{MethodForm, Row, TermForm, TypeForm};

impl Listing<'_> {
    // Whether the type of a number is a function type.
    fn is_function(self, number: u32) -> bool
        ensures function_form { result ≡ is_function (type_form_at self.entry.rows.now number) }
    {
        matches!(self.type_form(number), Some(TypeForm::Fun(_, _)))
    }
}

impl KnownTerms<'_, '_> {
    // Whether a term has this type and no free variable.
    fn closed_of_type(self, number: u32, term: u32) -> bool
        ensures no_free_variable { result ≡ same_number (Some number) (slice_get (type_numbers self.entry.facts.now) term) && same_number (Some 0) (slice_get (free_sets self.entry.facts.now) term) }
    {
        self.facts_of(term).is_some_and(|facts| facts.type_number == number
            && facts.free.is_empty())
    }

    // Whether a term is a closed function of a type.
    fn closed_function(self, number: u32, term: u32) -> bool
        ensures closed_lam_of_type { result ≡ closed_function self.entry.listing.rows.now (type_numbers self.entry.facts.now) (free_sets self.entry.facts.now) number term }
    {
        self.listing.is_function(number)
            && matches!(self.listing.term(term), Some(TermForm::Lam(_, _)))
            && self.closed_of_type(number, term)
    }

    // Whether a method keeps its rule.
    fn method_stands(self, form: MethodForm) -> bool
        ensures rule_of_methods { result ≡ method_stands self.entry.listing.rows.now (type_numbers self.entry.facts.now) (free_sets self.entry.facts.now) form }
    {
        match form {
            MethodForm::Abstract(number) => self.listing.is_function(number),
            MethodForm::Public(number, term) | MethodForm::Private(number, term) => {
                self.closed_function(number, term)
            }
        }
    }

    // Whether a global of a type and a term keeps its rule.
    fn global_stands(self, number: u32, term: u32) -> bool
        ensures rule_of_globals { result ≡ global_stands self.entry.listing.rows.now (type_numbers self.entry.facts.now) (free_sets self.entry.facts.now) number term }
    {
        let word = self.listing.type_form(number) == Some(TypeForm::Int)
            && matches!(self.listing.term(term), Some(TermForm::Num(_)));
        word || self.closed_function(number, term)
    }

    // Whether a row keeps its rule.
    fn stands(self, row: Row) -> bool
        ensures rule_of_row { result ≡ stands self.entry.listing.rows.now (type_numbers self.entry.facts.now) (free_sets self.entry.facts.now) row }
    {
        match row {
            Row::Type(_, _) | Row::Variable(_, _) | Row::Term(_, _) => true,
            Row::Method(_, form) => self.method_stands(form),
            Row::Global(_, number, term) => self.global_stands(number, term),
        }
    }

    // The place of the first row that breaks its rule.
    pub(crate) fn first_broken(self) -> Option<usize>
        ensures all_before_stand { result ≡ position (λ row. not (stands self.entry.listing.rows.now (type_numbers self.entry.facts.now) (free_sets self.entry.facts.now) row)) self.entry.listing.rows.now }
    {
        self.listing.rows.iter().position(|row| !self.stands(*row))
    }
}
