ghost use Rattle.std.specs.Prelude.{◌≡◌, ◌↔◌, IfSome, None};
ghost use Rattle.pocsag_pages.specs.Quotes.{HasQuoteFault, IsWellQuoted, text_of_file};

use crate::fault::QuoteFault;
use crate::quote_place::QuotePlace;
use crate::quote_state::{QuoteState, behind_mark};
use memchr::memchr;

/// The first misplaced quote of a page file: one inside a field that begins without a quote, one that closes a field of
/// which more follows, or one that is open at the end of the file.
pub fn quote_fault(file: &[u8]) -> Option<QuoteFault>
    ensures none { result ≡ None ↔ IsWellQuoted (text_of_file file.now) }
    ensures fault { IfSome result (HasQuoteFault (text_of_file file.now)) }
{
    let text = behind_mark(file);
    // most files have no quote, and are not walked over
    if memchr(b'"', text).is_none() {
        return None;
    }
    let mut place = QuotePlace {
        state: QuoteState::Start,
        is_blank: true,
        number: 0,
        line: 1,
        opened: 1,
    };
    for byte in text {
        place = match place.after(*byte) {
            Ok(next) => next,
            Err(fault) => return Some(fault),
        };
    }
    match place.state {
        QuoteState::Open => Some(QuoteFault::Unclosed {
            number: place.number,
            line: place.opened,
        }),
        _ => None,
    }
}
