//! The word arithmetic: every word is lawful, and results keep their low 32 bits.
ghost use Rattle.std.specs.Prelude.{refl};
ghost use Rattle.arithmetic.specs.Kinds.{ascending, word_meaning};
ghost use Rattle.arithmetic.specs.Made.{word_made};
ghost use Rattle.std.proofs.Common.{arith};
ghost use Rattle.std.proofs.lemmas.Int.{ints};
ghost use Rattle.arithmetic.specs.Wraps.{word_result_stays};
ghost use Rattle.arithmetic.specs.Ranges.{ascending_listed};

use crate::kinds::Word;
use crate::{Arithmetic, HostRange, HostWords, Operation};
use faults::PlayFault;

impl Word {
    /// A word arithmetic whose host may say `lo` to `hi`, if there are 1 to 4,096 such words.
    pub fn new(lo: i32, hi: i32) -> Result<Word, PlayFault>
        ensures made_within_limits_only { word_made lo hi result }
    {
        let host = HostRange::new(lo, hi)?;
        Ok(Word { host })
    }
}

impl Arithmetic for Word {
    ghost meaning = { λ w. word_meaning w.host.lo w.host.hi };

    ghost closed = { λ a. Prim.grind (arith, ints, word_result_stays) };

    // The result of an operation, which every two words have.
    #[tactic(auto, using(std::proofs::lemmas::Int::wraps, crate::specs::Wraps::fits_word))]
    fn operate(&self, operation: Operation, x: i32, y: i32) -> Option<i32> {
        Some(match operation {
            Operation::Add => x.wrapping_add(y),
            Operation::Sub => x.wrapping_sub(y),
            Operation::Mul => x.wrapping_mul(y),
            Operation::Less if x < y => 1,
            Operation::Equal if x == y => 1,
            Operation::Less | Operation::Equal => 0,
        })
    }

    // Every word is lawful.
    fn lawful(&self, _x: i32) -> bool {
        true
    }

    // Only 0 is zero: each kind says so itself, since the trait leaves open which lawful words are zero.
    fn zero(&self, x: i32) -> bool {
        x == 0
    }

    // The host may say the words of its range, which is asked: a trait for the kinds that have one would save no line.
    fn may_say(&self, x: i32) -> bool {
        self.host.holds(x)
    }
}

impl HostWords for Word {
    ghost list = { λ w. ascending w.host.lo w.host.hi };

    // The range answers both calls, and each kind passes them on: one impl for all kinds with a range would need a third trait
    // with a law of its own, and more lines than it saves.
    ghost listed = { λ a. ascending_listed _ _ a.host.limits _ (λ z. refl) };

    // The number of words of the host's range.
    fn list_length(&self) -> u16 {
        self.host.count()
    }

    // The word that stands `place` places after the least of the range.
    fn word_at(&self, place: u16) -> Option<i32> {
        self.host.at(place)
    }
}
