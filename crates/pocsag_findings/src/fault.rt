ghost use Rattle.std.specs.Prelude.{◌≡◌};
ghost use Rattle.pocsag_findings.specs.declared.fault.ExplanationFault.TheVariants as fault;

use pocsag_words::{DeviceFault, OutOfMemory};
use std::alloc::AllocError;
use thiserror::Error;

/// Why a certificate was not explained to the end of the text.
#[derive(Clone, Copy, PartialEq, Eq, Debug, Error)]
pub enum ExplanationFault {
    /// The writer did not take the text whole; what it took is a prefix of it.
    #[error("cannot write")]
    WriteFault,
    /// A growth was refused. What was written is a prefix of the text, and not all of it.
    #[error("out of memory")]
    OutOfMemory,
}

impl From<AllocError> for ExplanationFault {
    ghost from_gives = { λ _ e. e ≡ fault.OutOfMemory };

    fn from(_refused: AllocError) -> ExplanationFault {
        ExplanationFault::OutOfMemory
    }
}

impl From<OutOfMemory> for ExplanationFault {
    ghost from_gives = { λ _ e. e ≡ fault.OutOfMemory };

    fn from(_refused: OutOfMemory) -> ExplanationFault {
        ExplanationFault::OutOfMemory
    }
}

impl From<DeviceFault> for ExplanationFault {
    ghost from_gives = { λ _ e. e ≡ fault.WriteFault };

    fn from(_refused: DeviceFault) -> ExplanationFault {
        ExplanationFault::WriteFault
    }
}
