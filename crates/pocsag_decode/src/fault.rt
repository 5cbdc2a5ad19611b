ghost use Rattle.std.specs.Prelude.{◌≡◌};
ghost use Rattle.pocsag_decode.specs.declared.fault.DecodeFault.TheVariants as fault;
ghost use Rattle.pocsag_decode.specs.declared.fault.ListFault.TheVariants as listing;

use pocsag_words::DeviceFault;
use std::alloc::AllocError;
use thiserror::Error;

/// Why bytes are no transmission that reads as pages. Batches, and codewords without those of
/// synchronisation, are counted from 0.
#[derive(Clone, Copy, PartialEq, Eq, Debug, Error)]
pub enum DecodeFault {
    /// Fewer than 72 bytes AA stand before another byte or before the end.
    #[error("the preamble is too short")]
    ShortPreamble,
    /// The batch does not begin with the synchronisation codeword.
    #[error("batch {0}: no synchronisation codeword")]
    NoSync(u64),
    /// The word at this index is no codeword.
    #[error("codeword {0}: not a codeword")]
    BadWord(u64),
    /// The message codeword at this index continues no page.
    #[error("codeword {0}: a message without an address")]
    Orphan(u64),
    /// The bytes end inside a word or inside a batch.
    #[error("the transmission is cut short")]
    Truncated,
    /// The bytes end directly after the preamble.
    #[error("the transmission has no batch")]
    NoBatch,
    /// All pieces together have more than 2^64 - 1 bytes.
    #[error("the transmission is too long")]
    TooMuch,
    #[error("out of memory")]
    OutOfMemory,
    /// An earlier call met a fault, or the transmission was finished.
    #[error("the decoder has stopped")]
    Failed,
}

/// Why a listing was not written whole.
#[derive(Clone, Copy, PartialEq, Eq, Debug, Error)]
pub enum ListFault {
    /// The writer did not take the listing whole; what it took is a prefix of it.
    #[error("cannot write")]
    WriteFault,
    /// A growth was refused. `list` wrote nothing; what is listed as it is read may have been written in part.
    #[error("out of memory")]
    OutOfMemory,
}

impl From<AllocError> for DecodeFault {
    ghost from_gives = { λ _ e. e ≡ fault.OutOfMemory };

    fn from(_refused: AllocError) -> DecodeFault {
        DecodeFault::OutOfMemory
    }
}

impl From<AllocError> for ListFault {
    ghost from_gives = { λ _ e. e ≡ listing.OutOfMemory };

    fn from(_refused: AllocError) -> ListFault {
        ListFault::OutOfMemory
    }
}

impl From<DeviceFault> for ListFault {
    ghost from_gives = { λ _ e. e ≡ listing.WriteFault };

    fn from(_refused: DeviceFault) -> ListFault {
        ListFault::WriteFault
    }
}
