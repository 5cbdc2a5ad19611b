ghost use Rattle.std.specs.Prelude.{◌≡◌};
ghost use Rattle.pocsag_show.specs.Shows.{of_list};
ghost use Rattle.pocsag_show.specs.declared.fault.ShowFault.TheVariants as fault;

use pocsag_decode::{DecodeFault, ListFault};
use pocsag_words::DeviceFault;
use std::alloc::AllocError;
use thiserror::Error;

/// Why a transmission was not shown.
#[derive(Clone, Copy, PartialEq, Eq, Debug, Error)]
pub enum ShowFault {
    /// The bytes are no transmission that reads as pages. Nothing was written.
    #[error(transparent)]
    Transmission(DecodeFault),
    /// The writer did not take the text whole; what it took is a prefix of it.
    #[error("cannot write")]
    WriteFault,
    /// A growth was refused. What was written is a prefix of the text, and not all of it.
    #[error("out of memory")]
    OutOfMemory,
}

impl From<AllocError> for ShowFault {
    ghost from_gives = { λ _ e. e ≡ fault.OutOfMemory };

    fn from(_refused: AllocError) -> ShowFault {
        ShowFault::OutOfMemory
    }
}

impl From<DeviceFault> for ShowFault {
    ghost from_gives = { λ _ e. e ≡ fault.WriteFault };

    fn from(_refused: DeviceFault) -> ShowFault {
        ShowFault::WriteFault
    }
}

impl From<ListFault> for ShowFault {
    ghost from_gives = { λ f e. e ≡ of_list f };

    fn from(refused: ListFault) -> ShowFault {
        match refused {
            ListFault::WriteFault => ShowFault::WriteFault,
            ListFault::OutOfMemory => ShowFault::OutOfMemory,
        }
    }
}
