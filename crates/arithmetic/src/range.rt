//! The words from a least to a greatest one, as the list of what a host may say.
ghost use Rattle.arithmetic.specs.Settings.{host_range};

use faults::PlayFault;

// The most words that a host's list may have.
const MOST_WORDS: u32 = 4096;

/// The words from `lo` to `hi`, of which there are 1 to 4,096.
#[derive(Clone, Copy, PartialEq, Eq, Debug)]
pub struct HostRange {
    pub lo: i32,
    pub hi: i32,
    ghost limits: { host_range lo hi },
}

impl HostRange {
    ghost use Rattle.arithmetic.specs.Kinds.{ascending, between};
    ghost use Rattle.arithmetic.specs.Made.{range_made};
    ghost use Rattle.arithmetic.specs.Meaning.{word_at_place};
    ghost use Rattle.std.specs.Prelude.{◌≡◌};

    /// The words from `lo` to `hi`, if there are 1 to 4,096 of them.
    pub fn new(lo: i32, hi: i32) -> Result<HostRange, PlayFault>
        ensures made_within_limits_only { range_made lo hi result }
    {
        if lo <= hi && hi.abs_diff(lo) < MOST_WORDS {
            Ok(HostRange { lo, hi })
        } else {
            Err(PlayFault::Settings)
        }
    }

    /// Whether a word is one of these.
    pub fn holds(self, x: i32) -> bool
        ensures lies_between { result ≡ between self.lo self.hi x }
    {
        (self.lo..=self.hi).contains(&x)
    }

    /// How many words these are.
    pub fn count(self) -> u16
        ensures length_of_range { result ≡ (ascending self.lo self.hi).length }
    {
        // The two ends are 4,095 apart at most, so the cast loses nothing.
        self.hi.abs_diff(self.lo) as u16 + 1
    }

    /// The word at a place from `lo` on, or none past `hi`.
    pub fn at(self, place: u16) -> Option<i32>
        ensures word_at_the_place { result ≡ word_at_place (ascending self.lo self.hi) place }
    {
        (place < self.count()).then(|| self.lo + i32::from(place))
    }
}
