//! What is found of terms, in their order.
ghost use Rattle.std.specs.Prelude.{◌≡◌, length, Err, MatchResult, IfOk};
ghost use Rattle.library.specs.Facts.{free_sets, type_numbers};
ghost use Rattle.library.specs.Inference.{TypedBy};
ghost use Rattle.library.specs.Listing.{section_rows};
ghost use Rattle.library.specs.Mounting.{Mounts};
ghost use Rattle.library.specs.Scopes.{ScopedBy};
ghost use Rattle.std.specs.List.{slice_get};
ghost use Rattle.std.specs.Option.{option_map};
ghost use Rattle.rows.specs.Faults.{Faultless};
ghost use Rattle.rows.specs.declared.forms.Section.TheVariants.{Terms};

use super::listing::Listing;
use super::refusal::{MountFault, fault_of_row};
use super::variables::VariableSet;
use rows::Row;
use std::alloc::{AllocError, Global};

// The number of a term's type, and the term's free variables.
#[derive(Clone, Copy)]
pub(crate) struct TermFacts {
    pub(crate) type_number: u32,
    pub(crate) free: VariableSet,
}

// A listing, with what is known of its first terms.
#[derive(Clone, Copy)]
pub(crate) struct KnownTerms<'rows, 'facts> {
    pub(crate) listing: Listing<'rows>,
    pub(crate) facts: &'facts [TermFacts],
}

impl KnownTerms<'_, '_> {
    // What is known of an earlier term.
    pub(crate) fn facts_of(self, term: u32) -> Option<TermFacts>
        ensures known_type { option_map (λ facts. facts.type_number) result ≡ slice_get (type_numbers self.entry.facts.now) term }
        ensures known_set { option_map (λ facts. facts.free.bits) result ≡ slice_get (free_sets self.entry.facts.now) term }
    {
        // With `copied()` in place of the `?` no proof of the two clauses was found.
        Some(*self.facts.get(term as usize)?)
    }

    // The numbers of the types of all terms that are known.
    pub(crate) fn type_numbers(self, heap: Global) -> Result<Vec<u32>, AllocError>
        ensures numbers { IfOk result (λ types. types.items ≡ type_numbers self.entry.facts.now) }
    {
        self.facts
            .iter()
            .map(|facts| facts.type_number)
            .collect(heap)
    }
}

impl Listing<'_> {
    // The types and the free variables of all terms, or the first fault of a term's typing.
    pub(crate) fn facts_of_terms(self, heap: Global) -> Result<Vec<TermFacts>, MountFault>
        requires faultless { Faultless self.rows.now }
        ensures facts_or_first_fault { MatchResult result (λ known. TypedBy self.entry.rows.now (type_numbers known.items) × ScopedBy self.entry.rows.now (free_sets known.items) × (length known.items ≡ length (section_rows Terms self.entry.rows.now))) (λ fault. Mounts self.entry.rows.now (Err fault)) }
    {
        let mut found: Vec<TermFacts> = Vec::new(heap);
        for (place, row) in self.rows.iter().enumerate() {
            if let Row::Term(_, form) = *row {
                let known = KnownTerms {
                    listing: self,
                    facts: &found,
                };
                let type_number = known
                    .type_of(form)
                    .map_err(move |fault| fault_of_row(place, fault.into()))?;
                let free = known.free_in(form);
                found.push(TermFacts { type_number, free })?;
            }
        }
        Ok(found)
    }
}
