//! What a library tells of its rows.
ghost use Rattle.std.specs.Prelude.{◌≡◌, ℕ, Some, None, Option, MatchOption};
ghost use Rattle.library.specs.Definitions.{SoundDefinitions};
ghost use Rattle.library.specs.Held.{library_rows};
ghost use Rattle.library.specs.Listing.{global_term_at, global_type_at, method_at, method_type_at, term_at, type_form_at, variable_type_at};
ghost use Rattle.library.specs.Mounting.{WellTyped};
ghost use Rattle.library.specs.Typing.{HasType};
ghost use Rattle.rows.specs.Tallies.{CountsOf, leaves_at};
ghost use Rattle.rows.specs.Types.{Tree, leaves, types};
ghost use Rattle.std.specs.List.{slice_get};
ghost use Rattle.std.specs.Option.{option_map};

use super::library::Library;
use super::listing::Listing;
use rows::{Counts, MethodForm, Row, Tally, TermForm, TypeForm};

impl Library {
    // The rows, to be looked up.
    fn listing(&self) -> Listing
        ensures same_rows { result.rows.now ≡ library_rows self.now }
        ensures well_typed { WellTyped (library_rows self.now) }
        ensures sound_definitions { SoundDefinitions (library_rows self.now) }
    {
        Listing {
            rows: &self.rows,
            counts: self.tally.counts(),
        }
    }

    // The numbers of the types of all terms.
    fn types(&self) -> &[u32]
        ensures types_of_terms { (t : ℕ) (n : Option ℕ) → n ≡ slice_get result.now t → MatchOption n (term_at (library_rows self.now) t ≡ None) (λ k. (type : Tree) × (slice_get (types (library_rows self.now)) k ≡ Some type) × HasType (library_rows self.now) t type) }
    {
        &self.term_types
    }

    /// The rows of the library. They are well-formed and well-typed, its methods are closed functions of their declared
    /// types, and its globals are numbers, or closed functions of their declared types.
    pub fn rows(&self) -> &[Row]
        ensures all_rows { result.now ≡ library_rows self.now }
        ensures well_typed { WellTyped (library_rows self.now) }
        ensures sound_definitions { SoundDefinitions (library_rows self.now) }
    {
        self.listing().rows
    }

    // The tally of the rows.
    fn tallied(&self) -> Tally
        ensures counts_of_rows { CountsOf (library_rows self.now) result.counts }
        ensures leaves_of_types { (n : ℕ) → leaves_at result.counts result.leaves n ≡ option_map leaves (slice_get (types (library_rows self.now)) n) }
    {
        self.tally
    }

    /// How many rows each section has.
    pub fn counts(&self) -> Counts
        ensures counts_of_rows { CountsOf (library_rows self.now) result }
    {
        self.tallied().counts()
    }

    // What is looked up in rows that are not mounted yet as well stands in `Listing`: these are its names for a library.
    /// The form of the type of a number, or none past the last type.
    pub fn type_form(&self, number: u32) -> Option<TypeForm>
        ensures form_of_type { result ≡ type_form_at (library_rows self.now) number }
    {
        self.listing().type_form(number)
    }

    /// How many leaves the type of a number has, or none past the last type.
    pub fn leaves(&self, number: u32) -> Option<u8>
        ensures leaves_of_type { result ≡ option_map leaves (slice_get (types (library_rows self.now)) number) }
    {
        self.tallied().leaves(number)
    }

    /// The type of the variable of a number, or none past the last variable.
    pub fn variable_type(&self, number: u32) -> Option<u32>
        ensures declared_type { result ≡ variable_type_at (library_rows self.now) number }
    {
        self.listing().variable_type(number)
    }

    /// The method of a number, or none past the last method.
    pub fn method(&self, number: u32) -> Option<MethodForm>
        ensures form_of_method { result ≡ method_at (library_rows self.now) number }
    {
        self.listing().method(number)
    }

    /// The type of the method of a number, or none past the last method.
    pub fn method_type(&self, number: u32) -> Option<u32>
        ensures declared_type { result ≡ method_type_at (library_rows self.now) number }
    {
        self.listing().method_type(number)
    }

    /// The type of the global of a number, or none past the last global.
    pub fn global_type(&self, number: u32) -> Option<u32>
        ensures declared_type { result ≡ global_type_at (library_rows self.now) number }
    {
        self.listing().global_type(number)
    }

    /// The term of the global of a number, or none past the last global.
    pub fn global_term(&self, number: u32) -> Option<u32>
        ensures declared_term { result ≡ global_term_at (library_rows self.now) number }
    {
        self.listing().global_term(number)
    }

    /// The term of a number, or none past the last term.
    pub fn term(&self, number: u32) -> Option<TermForm>
        ensures form_of_term { result ≡ term_at (library_rows self.now) number }
    {
        self.listing().term(number)
    }

    /// The type of the term of a number, or none past the last term.
    pub fn term_type(&self, number: u32) -> Option<u32>
        ensures type_of_term { MatchOption result (term_at (library_rows self.now) number ≡ None) (λ n. (type : Tree) × (slice_get (types (library_rows self.now)) n ≡ Some type) × HasType (library_rows self.now) number type) }
    {
        self.types().get(number as usize).copied()
    }
}
