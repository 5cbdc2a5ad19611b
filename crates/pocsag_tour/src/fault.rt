ghost use Rattle.std.specs.Prelude.{◌≡◌};
ghost use Rattle.pocsag_tour.specs.declared.fault.TourFault.TheVariants.{OutOfMemory};

use std::alloc::AllocError;
use thiserror::Error;

/// Why a choice was given no tour.
#[derive(Clone, Copy, PartialEq, Eq, Debug, Error)]
pub enum TourFault {
    /// Some run lies outside this set, which is all the boundaries that are reached from boundary 0.
    #[error("the runs are apart")]
    Apart(u16),
    /// There is a tour for the open end, and none for the end that was asked for.
    #[error("the tour cannot be closed")]
    Unclosed,
    #[error("out of memory")]
    OutOfMemory,
}

impl From<AllocError> for TourFault {
    ghost from_gives = { λ _ fault. fault ≡ OutOfMemory };

    fn from(_fault: AllocError) -> TourFault {
        TourFault::OutOfMemory
    }
}
