//! What the head lines name.
use arithmetic::{Counter, Word};

/// An arithmetic as its line names it.
#[derive(Clone, Copy, PartialEq, Eq, Debug)]
pub enum Kind {
    Word(Word),
    Counter(Counter),
}

/// A kind with the numbers of a first line, whatever its limits.
#[derive(Clone, Copy, PartialEq, Eq, Debug)]
pub enum Settings {
    Word { lo: i32, hi: i32 },
    Counter { top: u32, lo: i32, hi: i32 },
}

/// The numbers of a second line, whatever the limits of the bounds of play.
#[derive(Clone, Copy, PartialEq, Eq, Debug)]
pub struct PlayNumbers {
    pub depth: u32,
    pub insistence: u32,
    pub steps: u32,
}
