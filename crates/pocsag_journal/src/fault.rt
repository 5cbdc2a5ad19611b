ghost use Rattle.std.specs.Prelude.{◌≡◌};
ghost use Rattle.pocsag_journal.specs.declared.fault.JournalFault.TheVariants as fault;

use pocsag_words::OutOfMemory;
use thiserror::Error;

/// Why a journal was not read or written.
#[derive(Clone, Copy, PartialEq, Eq, Debug, Error)]
pub enum JournalFault {
    #[error("cannot read the journal")]
    ReadFault,
    #[error("cannot write the journal")]
    WriteFault,
    /// It has more than 1,073,741,824 bytes.
    #[error("the journal is too large")]
    TooLarge,
    /// It does not begin as a journal does.
    #[error("not a journal")]
    NotJournal,
    /// It begins as a journal does, but for the version.
    #[error("a journal of another version")]
    OtherVersion,
    /// The line of this number, from 1, is no line of a journal.
    #[error("journal line {0}: no edit that the pages before it accept")]
    BadLine(usize),
    /// The page of this number, from 1, has a message with a line feed, or one that no text spells.
    #[error("page {0}: no line of a journal holds its message")]
    NoLine(usize),
    #[error("out of memory")]
    OutOfMemory,
}

impl From<OutOfMemory> for JournalFault {
    ghost from_gives = { λ _ e. e ≡ fault.OutOfMemory };

    fn from(_refused: OutOfMemory) -> JournalFault {
        JournalFault::OutOfMemory
    }
}
