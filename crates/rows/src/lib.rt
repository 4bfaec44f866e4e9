//! The rows of a library, and the faults that a row has after the rows before it.
#![tactic(auto)]

mod forms;
mod keywords;
mod ranges;
mod tally;
mod tries;

pub use forms::{MethodForm, Row, Section, TermForm, TypeForm};
pub use tally::{Counts, Tally};
