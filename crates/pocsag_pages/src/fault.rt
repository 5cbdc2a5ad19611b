ghost use Rattle.std.specs.Prelude.{◌≡◌};
ghost use Rattle.pocsag_pages.specs.PageFile.{field_fault_of, numbered, round_fault_of};
ghost use Rattle.pocsag_pages.specs.Quotes.{quote_record};
ghost use Rattle.pocsag_pages.specs.declared.fault.RoundFault.TheVariants as fault;

use pocsag_text::TextFault;
use pocsag_words::OutOfMemory;
use thiserror::Error;

/// Why a page may not stand in a round.
#[derive(Clone, Copy, PartialEq, Eq, Debug, Error)]
pub enum PageFault {
    /// The address is above 2,097,151.
    #[error("bad address")]
    BadAddress,
    /// The address is one of the sixteen that would read as idle or as synchronisation.
    #[error("reserved address")]
    ReservedAddress,
    /// The function is above 3, function 1 or 2 has a message, or the message has over 1,400 items or
    /// an item of more than 20 bits.
    #[error("bad payload")]
    BadPayload,
}

/// Why three fields of text spell no page.
#[derive(Clone, Copy, PartialEq, Eq, Debug, Error)]
pub enum FieldFault {
    /// The address is not one to seven digits, or is above 2,097,151.
    #[error("bad address")]
    BadAddress,
    /// The address is one of the sixteen that would read as idle or as synchronisation.
    #[error("reserved address")]
    ReservedAddress,
    /// The kind is none of `tone0` to `tone3`, `numeric` and `alpha`.
    #[error("unknown kind")]
    BadKind,
    #[error("a tone page has no message")]
    MessageForTone,
    #[error("the message is empty")]
    EmptyMessage,
    /// The place in the message, counted from 0, of the first byte that is not allowed.
    #[error("bad character at {0}")]
    BadCharacter(usize),
    /// The message has over 4,000 bytes.
    #[error("the message is too long")]
    TooLong,
    #[error("out of memory")]
    OutOfMemory,
}

/// Why a record of a page file, or a page of a list, is no page of the round.
#[derive(Clone, Copy, PartialEq, Eq, Debug, Error)]
pub enum RecordFault {
    /// The record has not exactly three fields.
    #[error("three fields are wanted")]
    FieldCount,
    /// The three fields of the record spell no page.
    #[error(transparent)]
    Field(FieldFault),
    /// The page of the list may stand in no round.
    #[error(transparent)]
    Page(PageFault),
    /// A page before this one has the same address.
    #[error("the address is already there")]
    DuplicateAddress,
    /// There are over 20,000 pages.
    #[error("too many pages")]
    TooManyPages,
}

/// Why a reader's bytes were not read whole.
#[derive(Clone, Copy, PartialEq, Eq, Debug, Error)]
pub enum WholeFault {
    /// A read failed.
    #[error("cannot read or open a file")]
    ReadFault,
    /// There are more bytes than were allowed.
    #[error("the file is too large")]
    TooLarge,
    #[error("out of memory")]
    OutOfMemory,
}

/// Why a page file or a list of pages is no round.
#[derive(Clone, Copy, PartialEq, Eq, Debug, Error)]
pub enum RoundFault {
    /// A read failed.
    #[error("cannot read or open a file")]
    ReadFault,
    /// The file has over 268,435,456 bytes.
    #[error("the file is too large")]
    TooLarge,
    /// The first record is not `address,kind,message`, or there is none.
    #[error("the header must be address,kind,message")]
    BadHeader,
    /// The number of the record or the page, from 1, the header not counted, and its fault.
    #[error("record {0}: {1}")]
    Record(u32, RecordFault),
    #[error("there are no pages")]
    NoPages,
    #[error("out of memory")]
    OutOfMemory,
}

impl RecordFault {
    // The fault of the record of this number. Want of memory names no record.
    pub(crate) fn numbered(self, number: u32) -> RoundFault
        ensures { result ≡ numbered number self }
    {
        match self {
            RecordFault::Field(FieldFault::OutOfMemory) => RoundFault::OutOfMemory,
            fault => RoundFault::Record(number, fault),
        }
    }
}

impl From<TextFault> for FieldFault {
    ghost from_gives = { λ fault its. its ≡ field_fault_of fault };

    fn from(fault: TextFault) -> FieldFault {
        match fault {
            TextFault::EmptyMessage => FieldFault::EmptyMessage,
            TextFault::BadCharacter(place) => FieldFault::BadCharacter(place),
            TextFault::TooLong => FieldFault::TooLong,
            TextFault::OutOfMemory => FieldFault::OutOfMemory,
        }
    }
}

impl From<OutOfMemory> for RoundFault {
    ghost from_gives = { λ _ its. its ≡ fault.OutOfMemory };

    fn from(_fault: OutOfMemory) -> RoundFault {
        RoundFault::OutOfMemory
    }
}

impl From<WholeFault> for RoundFault {
    ghost from_gives = { λ fault its. its ≡ round_fault_of fault };

    fn from(fault: WholeFault) -> RoundFault {
        match fault {
            WholeFault::ReadFault => RoundFault::ReadFault,
            WholeFault::TooLarge => RoundFault::TooLarge,
            WholeFault::OutOfMemory => RoundFault::OutOfMemory,
        }
    }
}

/// A misplaced quote: its record, of which the header is number 0, and its line, from 1.
#[derive(Clone, Copy, PartialEq, Eq, Debug, Error)]
pub enum QuoteFault {
    /// The quote is still open at the end of the file.
    #[error("record {number}: the quote in line {line} is not closed")]
    Unclosed { number: usize, line: usize },
    /// The quote stands in a field that begins without one.
    #[error("record {number}: the quote in line {line} stands inside a field that begins without one")]
    Inside { number: usize, line: usize },
    /// More of its field follows the quote that closes it.
    #[error("record {number}: text follows the closing quote in line {line}")]
    Followed { number: usize, line: usize },
}

impl QuoteFault {
    /// The number of the record.
    pub fn record(self) -> usize
        ensures { result ≡ quote_record self }
    {
        match self {
            QuoteFault::Unclosed { number, .. }
            | QuoteFault::Inside { number, .. }
            | QuoteFault::Followed { number, .. } => number,
        }
    }
}
