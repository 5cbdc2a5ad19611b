ghost use Rattle.std.specs.Prelude.{◌≡◌};
ghost use Rattle.pocsag_open.specs.declared.fault.OpenFault.TheVariants as fault;

use pocsag_journal::JournalFault;
use pocsag_pages::{QuoteFault, RoundFault};
use pocsag_shell::{Failure, FileFault, Role};
use thiserror::Error;

/// Why an open round does not begin, or ends before its input does.
#[derive(Clone, Copy, Debug, Error)]
pub enum OpenFault {
    #[error(transparent)]
    File(FileFault),
    /// The file at the path of the held journal is not the journal as it was left.
    #[error("the journal was moved, deleted or changed by another program")]
    NotHeld,
    /// The page file that the round begins with.
    #[error(transparent)]
    Round(RoundFault),
    /// A quote of the page file is misplaced, where `--strict` is given.
    #[error(transparent)]
    Quotes(QuoteFault),
    /// The page file has so many pages, where `--expect` names another number.
    #[error("pages {0}, where {1} were expected")]
    Unexpected(u32, u32),
    #[error("another program holds the journal")]
    HeldByAnother,
    #[error("the journal holds edits, so the round cannot begin with PAGES")]
    HoldsEdits,
    #[error(transparent)]
    Journal(JournalFault),
}

impl Failure for OpenFault {
    ghost use Rattle.pocsag_open.specs.Faults.{open_status};

    ghost status_is = { open_status };

    fn status(self) -> u8 {
        match self {
            OpenFault::File(fault) => fault.status(),
            OpenFault::NotHeld
            | OpenFault::Round(RoundFault::ReadFault | RoundFault::OutOfMemory) => 3,
            OpenFault::Journal(
                JournalFault::ReadFault | JournalFault::WriteFault | JournalFault::OutOfMemory,
            ) => 3,
            _ => 1,
        }
    }
}

impl OpenFault {
    /// The file that the command refuses by this fault, if it refuses one.
    pub fn refused(self) -> Option<Role> {
        match self {
            OpenFault::Round(_) | OpenFault::Quotes(_) | OpenFault::Unexpected(..) => Some(
                Role::PageFile,
            ),
            OpenFault::Journal(JournalFault::NoLine(_)) => Some(Role::PageFile),
            OpenFault::File(FileFault::EqualPaths) => Some(Role::Journal),
            OpenFault::File(_) => None,
            _ => Some(Role::Journal),
        }
    }
}

impl From<FileFault> for OpenFault {
    ghost from_gives = { λ refused e. e ≡ fault.File refused };

    fn from(refused: FileFault) -> OpenFault {
        OpenFault::File(refused)
    }
}

impl From<JournalFault> for OpenFault {
    ghost use Rattle.pocsag_open.specs.Faults.{fault_of_journal};

    ghost from_gives = { λ refused e. e ≡ fault_of_journal refused };

    fn from(refused: JournalFault) -> OpenFault {
        match refused {
            JournalFault::ReadFault => OpenFault::File(FileFault::Device),
            JournalFault::WriteFault => OpenFault::File(FileFault::Write),
            JournalFault::OutOfMemory => OpenFault::File(FileFault::OutOfMemory),
            refused => OpenFault::Journal(refused),
        }
    }
}
