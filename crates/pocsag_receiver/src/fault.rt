ghost use Rattle.std.specs.Prelude.{◌≡◌};
ghost use Rattle.pocsag_receiver.specs.declared.fault.ReceiverFault.TheVariants as fault;

use pocsag_capture::CaptureFault;
use pocsag_decode::{DecodeFault, ListFault};
use pocsag_pager::PagerFault;
use pocsag_shell::{Failure, FileFault};
use pocsag_show::{Rows, ShowFault};
use thiserror::Error;

/// Why a command shows nothing, or not all, of a transmission.
#[derive(Clone, Copy, PartialEq, Eq, Debug, Error)]
pub enum ReceiverFault {
    /// A file or memory cannot be used.
    #[error(transparent)]
    File(FileFault),
    /// The bytes are no transmission that reads as pages.
    #[error(transparent)]
    Transmission(DecodeFault),
    /// The pager shows nothing of these bytes.
    #[error(transparent)]
    Pager(PagerFault),
    /// Nothing is extracted from this capture.
    #[error(transparent)]
    Capture(CaptureFault),
    /// The transmission has only this many batches, and the first row that `show` is asked for comes after them.
    #[error("rows {rows}: the transmission has {batches} batch{}", batch_ending(.batches))]
    NoSuchRows { rows: Rows, batches: u64 },
}

// The ending of so many batches: `1 batch`, `2 batches`.
fn batch_ending(batches: &u64) -> &'static str {
    if *batches == 1 { "" } else { "es" }
}

impl Failure for ReceiverFault {
    ghost use Rattle.pocsag_receiver.specs.Faults.{receiver_status};

    ghost status_is = { receiver_status };

    fn status(self) -> u8 {
        match self {
            ReceiverFault::File(fault) => fault.status(),
            ReceiverFault::Transmission(DecodeFault::OutOfMemory) => 3,
            ReceiverFault::Pager(PagerFault::OutOfMemory) => 3,
            ReceiverFault::Capture(CaptureFault::OutOfMemory) => 3,
            _ => 1,
        }
    }
}

impl From<FileFault> for ReceiverFault {
    ghost from_gives = { λ refused e. e ≡ fault.File refused };

    fn from(refused: FileFault) -> ReceiverFault {
        ReceiverFault::File(refused)
    }
}

impl From<PagerFault> for ReceiverFault {
    ghost from_gives = { λ refused e. e ≡ fault.Pager refused };

    fn from(refused: PagerFault) -> ReceiverFault {
        ReceiverFault::Pager(refused)
    }
}

impl From<ListFault> for ReceiverFault {
    ghost use Rattle.pocsag_receiver.specs.Faults.{fault_of_list};

    ghost from_gives = { λ refused e. e ≡ fault_of_list refused };

    fn from(refused: ListFault) -> ReceiverFault {
        match refused {
            ListFault::WriteFault => ReceiverFault::File(FileFault::Write),
            ListFault::OutOfMemory => ReceiverFault::File(FileFault::OutOfMemory),
        }
    }
}

impl From<ShowFault> for ReceiverFault {
    ghost use Rattle.pocsag_receiver.specs.Faults.{fault_of_show};

    ghost from_gives = { λ refused e. e ≡ fault_of_show refused };

    fn from(refused: ShowFault) -> ReceiverFault {
        match refused {
            ShowFault::Transmission(refused) => ReceiverFault::Transmission(refused),
            ShowFault::WriteFault => ReceiverFault::File(FileFault::Write),
            ShowFault::OutOfMemory => ReceiverFault::File(FileFault::OutOfMemory),
        }
    }
}
