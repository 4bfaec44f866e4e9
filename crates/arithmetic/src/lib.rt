//! An arithmetic as an interface: what it means, and the calls that tell its meaning.
#![tactic(auto)]

ghost use Rattle.arithmetic.specs.Meaning.{Closed, Listed, Meaning, WordList, operated, word_at_place};
ghost use Rattle.std.specs.Prelude.{◌≡◌};

mod counter;
mod kinds;
mod range;
#[cfg(test)]
mod tests;
mod word;
mod words;

pub use kinds::{Counter, Word};
pub use range::HostRange;

/// An operation on two words.
#[derive(Clone, Copy, PartialEq, Eq, Debug)]
pub enum Operation {
    Add,
    Sub,
    Mul,
    Less,
    Equal,
}

/// The lawful words, the operations on them, and which of them are zero or may be said by the host.
pub trait Arithmetic {
    ghost meaning: { Self → Meaning };

    /// The result of an operation, or none where a word is unlawful.
    fn operate(&self, operation: Operation, x: i32, y: i32) -> Option<i32>
        ensures result_of_lawful_words { result ≡ operated (meaning self.now) operation x y };

    /// Whether a word is lawful.
    fn lawful(&self, x: i32) -> bool
        ensures lawful_by_meaning { result ≡ (meaning self.now).lawful x };

    /// Whether a word is zero.
    fn zero(&self, x: i32) -> bool
        ensures zero_by_meaning { result ≡ (meaning self.now).zero x };

    /// Whether the host may say a word.
    fn may_say(&self, x: i32) -> bool
        ensures sayable_by_meaning { result ≡ (meaning self.now).may_say x };

    ghost closed: { (a : Self) → Closed (meaning a) };
}

/// An arithmetic with a list of the words that the host may say.
pub trait HostWords: Arithmetic {
    ghost list: { Self → WordList };

    /// How many words the list has.
    fn list_length(&self) -> u16
        ensures length_of_list { result ≡ (list self.now).length };

    /// The word at a place of the list, or none past its end.
    fn word_at(&self, place: u16) -> Option<i32>
        ensures word_at_the_place { result ≡ word_at_place (list self.now) place };

    ghost listed: { (a : Self) → Listed (Self.Arithmetic.meaning a) (list a) };
}
