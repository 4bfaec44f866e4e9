//! The type of a term, from those of the terms before it.
ghost use Rattle.std.specs.Prelude.{◌≡◌};
ghost use Rattle.library.specs.Facts.{type_numbers};
ghost use Rattle.library.specs.Inference.{first_part, form_named, is_int, second_part, type_of, wanted};
ghost use Rattle.library.specs.declared.wanted.Wanted.TheVariants.{Number};
ghost use Rattle.rows.specs.declared.forms.TermForm.TheVariants.{App, If};
ghost use Rattle.std.specs.List.{slice_get};
ghost use Rattle.std.specs.Option.{option_map};

use super::facts::KnownTerms;
use super::wanted::Wanted;
use faults::TypingFault;
use rows::{TermForm, TypeForm};

impl KnownTerms<'_, '_> {
    // The number of the type of an earlier term.
    fn type_number(self, term: u32) -> Option<u32>
        ensures known_type { result ≡ slice_get (type_numbers self.entry.facts.now) term }
    {
        self.facts_of(term).map(|facts| facts.type_number)
    }

    // The form of an earlier term's type.
    fn form(self, term: u32) -> Option<TypeForm>
        ensures form_of_type { result ≡ form_named self.entry.listing.rows.now (slice_get (type_numbers self.entry.facts.now) term) }
    {
        self.listing.type_form(self.type_number(term)?)
    }

    // Whether an earlier term is an int.
    fn is_int(self, term: u32) -> bool
        ensures int_form { result ≡ is_int self.entry.listing.rows.now (slice_get (type_numbers self.entry.facts.now) term) }
    {
        self.form(term) == Some(TypeForm::Int)
    }

    // The types of the parts of an earlier term, where it is a pair.
    fn parts(self, term: u32) -> Option<(u32, u32)>
        ensures first_of_pair { option_map (λ p. Number p.0) result ≡ first_part (form_named self.entry.listing.rows.now (slice_get (type_numbers self.entry.facts.now) term)) }
        ensures second_of_pair { option_map (λ p. Number p.1) result ≡ second_part (form_named self.entry.listing.rows.now (slice_get (type_numbers self.entry.facts.now) term)) }
    {
        match self.form(term)? {
            TypeForm::Pair(first, second) => Some((first, second)),
            // Another form of type: a `let .. else` is no plainer.
            _ => None,
        }
    }

    // The type of a call: that of the function's result, where it takes this argument.
    fn type_of_call(self, function: u32, argument: u32) -> Option<Wanted>
        ensures by_its_rule { result ≡ wanted self.entry.listing.rows.now (type_numbers self.entry.facts.now) (App function argument) }
    {
        match self.form(function)? {
            TypeForm::Fun(taken, given) if taken == self.type_number(argument)? => {
                Some(Wanted::Number(given))
            }
            // Another form of type, or another argument: a `let .. else` is no plainer.
            _ => None,
        }
    }

    // The type of a conditional: that of its two branches, where they are alike and the condition is an int.
    fn type_of_branches(self, condition: u32, left: u32, right: u32) -> Option<Wanted>
        ensures by_its_rule { result ≡ wanted self.entry.listing.rows.now (type_numbers self.entry.facts.now) (If condition left right) }
    {
        let branch = self.type_number(left)?;
        let alike = self.type_number(right)? == branch;
        (alike && self.is_int(condition)).then_some(Wanted::Number(branch))
    }

    // The type that a term has by its rule, where the types of the terms before it are known.
    fn type_by_rule(self, form: TermForm) -> Option<Wanted>
        ensures by_its_rule { result ≡ wanted self.entry.listing.rows.now (type_numbers self.entry.facts.now) form }
    {
        match form {
            TermForm::Unit => Some(Wanted::Form(TypeForm::Unit)),
            TermForm::Num(_) => Some(Wanted::Form(TypeForm::Int)),
            TermForm::Var(x) => self.listing.variable_type(x).map(Wanted::Number),
            TermForm::Meth(m) => self.listing.method_type(m).map(Wanted::Number),
            TermForm::Get(r) => self.listing.global_type(r).map(Wanted::Number),
            TermForm::Lam(x, a) => {
                let taken = self.listing.variable_type(x)?;
                Some(Wanted::Form(TypeForm::Fun(taken, self.type_number(a)?)))
            }
            TermForm::Set(r, a) => {
                let kept = self.listing.global_type(r)? == self.type_number(a)?;
                kept.then_some(Wanted::Form(TypeForm::Unit))
            }
            TermForm::Op(_, a, b) => {
                let kept = self.is_int(a) && self.is_int(b);
                kept.then_some(Wanted::Form(TypeForm::Int))
            }
            TermForm::Pair(a, b) => {
                let first = self.type_number(a)?;
                Some(Wanted::Form(TypeForm::Pair(first, self.type_number(b)?)))
            }
            TermForm::Fst(a) => self.parts(a).map(|(first, _)| Wanted::Number(first)),
            TermForm::Snd(a) => self.parts(a).map(|(_, second)| Wanted::Number(second)),
            TermForm::App(f, a) => self.type_of_call(f, a),
            TermForm::If(c, a, b) => self.type_of_branches(c, a, b),
            TermForm::Let(x, a, b) => {
                let kept = self.listing.variable_type(x)? == self.type_number(a)?;
                kept.then_some(Wanted::Number(self.type_number(b)?))
            }
            TermForm::Assert(a) => self.is_int(a).then_some(Wanted::Form(TypeForm::Unit)),
        }
    }

    // The number of a term's type, where the types of the terms before it are known.
    pub(crate) fn type_of(self, form: TermForm) -> Result<u32, TypingFault>
        ensures listed_type { result ≡ type_of self.entry.listing.rows.now (type_numbers self.entry.facts.now) form }
    {
        match self.type_by_rule(form).ok_or(TypingFault::Parts)? {
            Wanted::Number(number) => Ok(number),
            Wanted::Form(form) => self.listing.number_of(form).ok_or(TypingFault::Unlisted),
        }
    }
}
