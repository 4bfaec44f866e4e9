//! The rows so far, counted: what one more row is tried against.
ghost use Rattle.std.specs.Prelude.{◌≤◌};

/// How many rows of each section there are.
#[derive(Clone, Copy, PartialEq, Eq, Debug, Default)]
pub struct Counts {
    pub types: u32,
    pub variables: u32,
    pub methods: u32,
    pub globals: u32,
    pub terms: u32,
}

// The leaves stand in an array and not in a `Vec`: a tally is copied, and reading allocates nothing.
/// The rows so far: how many each section has, and how many leaves each type has.
#[derive(Clone, Copy)]
pub struct Tally {
    pub(crate) counts: Counts,
    pub(crate) leaves: [u8; 64],
    ghost few_types: { counts.types ≤ 64 },
}
