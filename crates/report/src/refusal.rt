//! Why an input has no counts.
ghost use Rattle.report.specs.declared.refusal.InputFault.TheVariants.{Refused, Memory};
ghost use Rattle.std.specs.Prelude.{◌≡◌};

use faults::{Placed, PlayFault};
use std::alloc::AllocError;

/// An input is refused for a fault at a line, or memory has run out.
#[derive(Clone, Copy)]
pub(crate) enum InputFault {
    /// The first fault of the input, at its line.
    Refused(Placed<PlayFault>),
    /// No memory is left.
    Memory,
}

impl From<Placed<PlayFault>> for InputFault {
    ghost from_gives = { λ placed fault. fault ≡ Refused placed };

    /// An input is refused for its first fault.
    fn from(placed: Placed<PlayFault>) -> InputFault {
        InputFault::Refused(placed)
    }
}

impl From<AllocError> for InputFault {
    ghost from_gives = { λ _ fault. fault ≡ Memory };

    /// What could not be allocated has run out of memory.
    fn from(_failed: AllocError) -> InputFault {
        InputFault::Memory
    }
}
