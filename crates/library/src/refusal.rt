//! Why rows aren't mounted.
ghost use Rattle.std.specs.Prelude.{◌≡◌, ◌+◌, ◌<◌};
ghost use Rattle.library.specs.declared.refusal.MountFault.TheVariants.{Refused, Memory};

use faults::{LibraryFault, Placed};
use std::alloc::{AllocError, AllocFailed};

/// Rows are refused for a fault at a line, or memory has run out.
#[derive(Clone, Copy, PartialEq, Eq, Debug)]
pub enum MountFault {
    /// The first fault of the rows, at its line.
    Refused(Placed<LibraryFault>),
    /// No memory is left.
    Memory,
}

impl From<AllocError> for MountFault {
    ghost from_gives = { λ _ fault. fault ≡ Memory };

    /// What could not be allocated has run out of memory.
    fn from(_failed: AllocError) -> MountFault {
        MountFault::Memory
    }
}

impl<T: Drop> From<AllocFailed<T>> for MountFault {
    ghost from_gives = { λ _ fault. fault ≡ Memory };

    /// A value that found no room has run out of memory, and is dropped.
    fn from(_failed: AllocFailed<T>) -> MountFault {
        MountFault::Memory
    }
}

// The fault of the row at a place, which counts from 0 as lines count from 1.
pub(crate) fn fault_of_row(place: usize, fault: LibraryFault) -> MountFault
    requires few_rows { place < 65536 }
    ensures fault_at_line { result ≡ Refused (record { place = place + 1; fault = fault }) }
{
    MountFault::Refused(Placed {
        place: place as u32 + 1,
        fault,
    })
}
