//! The bounds of play, made only within their limits.
#![tactic(auto)]

ghost use Rattle.bounds.specs.Made.{BoundsMade};

use faults::PlayFault;

mod limits;

pub use limits::Bounds;

/// The greatest depth.
const MOST_DEPTH: u32 = 16;

/// The greatest insistence.
const MOST_INSISTENCE: u32 = 8;

/// The most steps.
const MOST_STEPS: u32 = 2048;

impl Bounds {
    /// Bounds of just these numbers, if each is within its limits.
    pub fn new(depth: u32, insistence: u32, steps: u32) -> Result<Bounds, PlayFault>
        ensures made_within_limits_only { BoundsMade depth insistence steps result }
    {
        if depth <= MOST_DEPTH
            && insistence <= MOST_INSISTENCE
            && 1 <= steps
            && steps <= MOST_STEPS
        {
            Ok(Bounds {
                depth,
                insistence,
                steps,
            })
        } else {
            Err(PlayFault::Bounds)
        }
    }
}
