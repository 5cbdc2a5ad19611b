ghost use Rattle.std.specs.Prelude.{◌≡◌};
ghost use Rattle.pocsag_capture.specs.declared.fault.CaptureFault.TheVariants as fault;

use std::alloc::AllocError;
use thiserror::Error;

/// Why nothing is extracted from a capture.
#[derive(Clone, Copy, PartialEq, Eq, Debug, Error)]
pub enum CaptureFault {
    /// It has more than 268,435,456 bytes.
    #[error("the capture is too large")]
    TooLarge,
    /// It has only this many transmissions, and not the one that was asked for.
    #[error("transmission {nth} of {found}: the capture has no such transmission")]
    NoSuchTransmission { nth: u64, found: u64 },
    #[error("out of memory")]
    OutOfMemory,
}

impl From<AllocError> for CaptureFault {
    ghost from_gives = { λ _ e. e ≡ fault.OutOfMemory };

    fn from(_refused: AllocError) -> CaptureFault {
        CaptureFault::OutOfMemory
    }
}
