ghost use Rattle.std.specs.Prelude.{◌≡◌};
ghost use Rattle.pocsag_text.specs.declared.fault.TextFault.TheVariants as fault;

use pocsag_words::OutOfMemory;
use thiserror::Error;

/// Why a text has no payload.
#[derive(Clone, Copy, PartialEq, Eq, Debug, Error)]
pub enum TextFault {
    #[error("the message is empty")]
    EmptyMessage,
    /// The byte at this place, counted from 0, is the first that is not allowed.
    #[error("bad character at {0}")]
    BadCharacter(usize),
    #[error("the message is too long")]
    TooLong,
    #[error("out of memory")]
    OutOfMemory,
}

impl From<OutOfMemory> for TextFault {
    ghost from_gives = { λ _ e. e ≡ fault.OutOfMemory };

    fn from(_fault: OutOfMemory) -> TextFault {
        TextFault::OutOfMemory
    }
}
