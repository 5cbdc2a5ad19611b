ghost use Rattle.std.specs.Prelude.{◌≡◌};
ghost use Rattle.csv.specs.Reading.{strip_bom};
ghost use Rattle.pocsag_pages.specs.QuoteStates.{quote_state_after};

// The byte order mark, as UTF-8 has it.
const MARK: &[u8] = b"\xef\xbb\xbf";

/// The state of a CSV record after some of its bytes.
#[derive(Clone, Copy)]
pub enum QuoteState {
    /// Before the first byte of a field.
    Start,
    /// In a field without quotes.
    Bare,
    /// Inside quotes.
    Open,
    /// After a quote that ends a field, unless another quote follows it.
    Closed,
    /// After a misplaced quote: one inside a field, or one before something other than a comma.
    Broken,
    /// Behind an end of a line, outside quotes.
    Ended,
}

impl QuoteState {
    /// The state after one more byte.
    pub fn after(self, byte: u8) -> QuoteState
        ensures { result ≡ quote_state_after self byte }
    {
        match (self, byte) {
            (QuoteState::Broken | QuoteState::Ended, _) => self,
            (QuoteState::Open, b'"') => QuoteState::Closed,
            (QuoteState::Open, _) => QuoteState::Open,
            (QuoteState::Start | QuoteState::Closed, b'"') => QuoteState::Open,
            (_, b',') => QuoteState::Start,
            (QuoteState::Closed, _) | (_, b'"') => QuoteState::Broken,
            (_, b'\r' | b'\n') => QuoteState::Ended,
            _ => QuoteState::Bare,
        }
    }
}

/// The bytes after a byte order mark, if they begin with one.
pub fn behind_mark(bytes: &[u8]) -> &[u8]
    ensures { result.now ≡ strip_bom bytes.now }
{
    if bytes.starts_with(MARK) {
        &bytes[MARK.len()..]
    } else {
        bytes
    }
}
