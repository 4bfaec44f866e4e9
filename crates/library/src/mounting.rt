//! Mounts rows: makes a library of them, and puts it in the place of the old one.
ghost use Rattle.library.specs.Definitions.{SoundDefinitions};
ghost use Rattle.library.specs.Held.{library_rows};
ghost use Rattle.library.specs.Inference.{TypedBy};
ghost use Rattle.library.specs.Listing.{section_rows};
ghost use Rattle.library.specs.Mounting.{Answered, Mounts, WellTyped};
ghost use Rattle.library.specs.Typing.{OneType};
ghost use Rattle.library.specs.declared.refusal.MountFault.{MountFault};
ghost use Rattle.library.specs.declared.refusal.MountFault.TheVariants.{Memory};
ghost use Rattle.rows.specs.Faults.{Faultless};
ghost use Rattle.rows.specs.declared.forms.Section.TheVariants.{Terms};
ghost use Rattle.std.specs.Prelude.{◌≡◌, [], length, Ok, Err, Result, MatchResult, OnOk, ◌≢◌};

use super::admitting::admit_all;
use super::facts::KnownTerms;
use super::library::Library;
use super::listing::Listing;
use super::refusal::{MountFault, fault_of_row};
use faults::TypingFault;
use rows::{Row, Tally};
use std::alloc::Global;

impl Listing<'_> {
    // The numbers of the types of all terms, where all rows keep their rules; or the first fault of the typing. The sets of
    // free variables, which nothing reads later, are let go.
    fn types_if_sound(self, heap: Global) -> Result<Vec<u32>, MountFault>
        requires faultless { Faultless self.rows.now }
        ensures types_or_first_fault { MatchResult result (λ types. TypedBy self.entry.rows.now types.items × (length types.items ≡ length (section_rows Terms self.entry.rows.now)) × WellTyped self.entry.rows.now × SoundDefinitions self.entry.rows.now) (λ fault. Mounts self.entry.rows.now (Err fault)) }
    {
        let facts = self.facts_of_terms(heap)?;
        let known = KnownTerms {
            listing: self,
            facts: &facts,
        };
        if let Some(place) = known.first_broken() {
            return Err(fault_of_row(place, TypingFault::Definition.into()));
        }
        Ok(known.type_numbers(heap)?)
    }
}

// Makes a library of rows.
fn drafted(heap: Global, rows: &[Row]) -> Result<Library, MountFault>
    ensures library_or_first_fault { MatchResult result (λ library. (library_rows library ≡ rows.now) × Answered rows.now (Ok tt) × SoundDefinitions rows.now) (λ fault. Answered rows.now (Err fault)) }
    ensures one_type_each { OneType }
{
    let tally = admit_all(rows)?;
    let listing = Listing {
        rows,
        counts: tally.counts(),
    };
    let term_types = listing.types_if_sound(heap)?;
    Ok(Library {
        rows: rows.to_vec(heap)?,
        term_types,
        tally,
    })
}

impl Library {
    /// The empty library.
    pub fn empty(heap: Global) -> Library
        ensures no_rows { library_rows result ≡ [] }
    {
        Library {
            rows: Vec::new(heap),
            term_types: Vec::new(heap),
            tally: Tally::new(),
        }
    }

    /// Puts a library of these rows in the place of this one, where they are well-formed and well-typed. Rows with a fault
    /// are refused for the first one, at its line, and the old library stays, as it does where memory runs out.
    pub fn mount(&mut self, rows: &[Row]) -> Result<(), MountFault>
        ensures answer { Mounts rows.now result }
        ensures no_other_answer { (answer : Result (Unit {0}) MountFault) → Mounts rows.now answer → (answer ≢ Err Memory) → (result ≢ Err Memory) → answer ≡ result }
        ensures library_after { MatchResult result (λ _. library_rows self.new ≡ rows.now) (λ _. self.new ≡ self.old) }
        ensures granted_definitions { OnOk result (SoundDefinitions rows.now) }
        ensures one_type_each { OneType }
    {
        *self = drafted(*self.rows.allocator(), rows)?;
        Ok(())
    }
}
