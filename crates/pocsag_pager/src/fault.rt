ghost use Rattle.std.specs.Prelude.{◌≡◌};
ghost use Rattle.pocsag_pager.specs.declared.fault.PagerFault.TheVariants as fault;

use std::alloc::AllocError;
use thiserror::Error;

/// Why a pager shows no pages.
#[derive(Clone, Copy, PartialEq, Eq, Debug, Error)]
pub enum PagerFault {
    /// The address is above 2,097,151.
    #[error("bad address")]
    BadAddress,
    /// The address is one of the sixteen that would read as idle or as synchronisation.
    #[error("reserved address")]
    ReservedAddress,
    /// Fewer than 72 bytes AA stand first.
    #[error("the preamble is too short")]
    ShortPreamble,
    /// Nothing follows the preamble.
    #[error("the transmission has no batch")]
    NoBatch,
    /// What follows the preamble is not whole batches of 68 bytes.
    #[error("the transmission is cut short")]
    Truncated,
    #[error("out of memory")]
    OutOfMemory,
    /// The pager has run out of memory or has been ended before.
    #[error("the pager hears no more")]
    Failed,
}

impl From<AllocError> for PagerFault {
    ghost from_gives = { λ _ e. e ≡ fault.OutOfMemory };

    fn from(_refused: AllocError) -> PagerFault {
        PagerFault::OutOfMemory
    }
}
