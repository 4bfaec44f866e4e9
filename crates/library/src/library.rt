//! A mounted library: its rows, the types of its terms, and its tally.
ghost use Rattle.library.specs.Inference.{LeavesBy, TypedBy};
ghost use Rattle.library.specs.Mounting.{WellTyped};
ghost use Rattle.rows.specs.Sections.{count};
ghost use Rattle.rows.specs.Tallies.{CountsOf};
ghost use Rattle.rows.specs.declared.forms.Section.TheVariants.{Terms};
ghost use Rattle.std.specs.Prelude.{◌≡◌, vec_len};

use rows::{Row, Tally};

// It has no model, which would hide that a refused mount leaves every field as it was.
/// A library, which owns its rows. They are well-formed and well-typed.
#[derive(Drop)]
pub struct Library {
    pub(crate) rows: Vec<Row>,
    pub(crate) term_types: Vec<u32>,
    pub(crate) tally: Tally,
    ghost well_typed: { WellTyped rows.items },
    ghost counted: { CountsOf rows.items tally.counts },
    ghost leaves: { LeavesBy rows.items tally.leaves },
    ghost typed: { TypedBy rows.items term_types.items },
    ghost all_typed: { vec_len term_types ≡ count Terms rows.items },
}
