//! The counter arithmetic: the words from 0 to a top, where results stop at both ends.
ghost use Rattle.std.specs.Prelude.{refl};
ghost use Rattle.arithmetic.specs.Kinds.{ascending, counter_meaning};
ghost use Rattle.arithmetic.specs.Made.{counter_made};
ghost use Rattle.std.proofs.Common.{arith};
ghost use Rattle.std.proofs.lemmas.Int.{ints};
ghost use Rattle.arithmetic.specs.Counts.{counter_result_stays};
ghost use Rattle.arithmetic.specs.Ranges.{ascending_listed};

use crate::kinds::Counter;
use crate::{Arithmetic, HostRange, HostWords, Operation};
use faults::PlayFault;

impl Counter {
    /// A counter from 0 to `top` whose host may say `lo` to `hi`, if `top` is 1 to 65,535 and these are 1 to 4,096 of its words.
    pub fn new(top: u32, lo: i32, hi: i32) -> Result<Counter, PlayFault>
        ensures made_within_limits_only { counter_made top lo hi result }
    {
        let host = HostRange::new(lo, hi)?;
        match u16::try_from(top) {
            Ok(top) if 1 <= top && 0 <= lo && hi <= i32::from(top) => Ok(Counter { top, host }),
            _ => Err(PlayFault::Settings),
        }
    }
}

impl Arithmetic for Counter {
    ghost meaning = { λ k. counter_meaning k.top k.host.lo k.host.hi };

    ghost closed = { λ a. Prim.grind (arith, ints, counter_result_stays) };

    // The result of an operation on two words from 0 to the top, and none on others.
    fn operate(&self, operation: Operation, x: i32, y: i32) -> Option<i32> {
        if !self.lawful(x) || !self.lawful(y) {
            return None;
        }
        let top = i32::from(self.top);
        // A product that leaves 32 bits is past the top as well.
        let product = x.saturating_mul(y);
        Some(match operation {
            Operation::Add if x + y > top => top,
            Operation::Add => x + y,
            Operation::Sub if x < y => 0,
            Operation::Sub => x - y,
            Operation::Mul if product > top => top,
            Operation::Mul => product,
            Operation::Less if x < y => 1,
            Operation::Equal if x == y => 1,
            Operation::Less | Operation::Equal => 0,
        })
    }

    // Lawful are 0 to the top.
    fn lawful(&self, x: i32) -> bool {
        (0..=i32::from(self.top)).contains(&x)
    }

    // Only 0 is zero: each kind says so itself, since the trait leaves open which lawful words are zero.
    fn zero(&self, x: i32) -> bool {
        x == 0
    }

    // The host may say the words of its range, which is asked: a trait for the kinds that have one would save no line.
    fn may_say(&self, x: i32) -> bool {
        self.host.holds(x)
    }
}

impl HostWords for Counter {
    ghost list = { λ k. ascending k.host.lo k.host.hi };

    // The range answers both calls, and each kind passes them on: one impl for all kinds with a range would need a third trait
    // with a law of its own, and more lines than it saves.
    ghost listed = { λ a. ascending_listed _ _ a.host.limits _ (λ z. refl) };

    // The number of words of the host's range.
    fn list_length(&self) -> u16 {
        self.host.count()
    }

    // The word that stands `place` places after the least of the range.
    fn word_at(&self, place: u16) -> Option<i32> {
        self.host.at(place)
    }
}
