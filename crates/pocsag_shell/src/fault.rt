ghost use Rattle.std.specs.Prelude.{◌≡◌, ℕ};
ghost use Rattle.pocsag_shell.specs.Faults.{IsFailure};
ghost use Rattle.pocsag_shell.specs.declared.fault.FileFault.TheVariants as fault;

use pocsag_pages::WholeFault;
use pocsag_words::OutOfMemory;
use std::alloc::{AllocError, AllocFailed};
use std::fmt::Display;
use thiserror::Error;

/// Why a command failed. It has a text and an exit status.
pub trait Failure: Display + Copy {
    // The exit status of each.
    ghost status_is: { Self → ℕ };

    /// The exit status: 1 for what was refused, 3 for a device or memory.
    fn status(self) -> u8
        ensures value { result ≡ status_is self }
        ensures failure { IsFailure result };
}

/// Why a command cannot use a file.
#[derive(Clone, Copy, PartialEq, Eq, Debug, Error)]
pub enum FileFault {
    #[error("the same file is named twice")]
    EqualPaths,
    #[error("cannot read or open a file")]
    Device,
    #[error("cannot write")]
    Write,
    /// The system does not let the new file have the owner, group and mode of the old one.
    #[error("the new file cannot be given the owner, group and mode of the old one")]
    Owner,
    #[error("the file is too large")]
    TooLarge,
    #[error("out of memory")]
    OutOfMemory,
}

impl Failure for FileFault {
    ghost use Rattle.pocsag_shell.specs.Faults.{file_status};

    ghost status_is = { file_status };

    fn status(self) -> u8 {
        match self {
            FileFault::EqualPaths | FileFault::TooLarge => 1,
            _ => 3,
        }
    }
}

impl From<OutOfMemory> for FileFault {
    ghost from_gives = { λ _ e. e ≡ fault.OutOfMemory };

    fn from(_refused: OutOfMemory) -> FileFault {
        FileFault::OutOfMemory
    }
}

impl From<AllocError> for FileFault {
    ghost from_gives = { λ _ e. e ≡ fault.OutOfMemory };

    fn from(_refused: AllocError) -> FileFault {
        FileFault::OutOfMemory
    }
}

impl<T: Drop> From<AllocFailed<T>> for FileFault {
    ghost from_gives = { λ _ e. e ≡ fault.OutOfMemory };

    fn from(_refused: AllocFailed<T>) -> FileFault {
        FileFault::OutOfMemory
    }
}

impl From<WholeFault> for FileFault {
    ghost use Rattle.pocsag_shell.specs.Faults.{fault_of_whole};

    ghost from_gives = { λ refused e. e ≡ fault_of_whole refused };

    fn from(refused: WholeFault) -> FileFault {
        match refused {
            WholeFault::ReadFault => FileFault::Device,
            WholeFault::TooLarge => FileFault::TooLarge,
            WholeFault::OutOfMemory => FileFault::OutOfMemory,
        }
    }
}
