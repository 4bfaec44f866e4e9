//! The bounds of play, within their limits by their type.
ghost use Rattle.bounds.specs.Limits.{DepthLimit, InsistenceLimit, StepsLimit};

/// How deep bodies may be entered, how often the host may call at a level, and how many steps a play may take.
#[derive(Clone, Copy, PartialEq, Eq, Debug)]
pub struct Bounds {
    pub depth: u32,
    pub insistence: u32,
    pub steps: u32,
    ghost depth_limit: { DepthLimit depth },
    ghost insistence_limit: { InsistenceLimit insistence },
    ghost steps_limit: { StepsLimit steps },
}
