ghost use Rattle.std.specs.Prelude.{◌≡◌, ◌≢◌, ◌↔◌, min};
ghost use Rattle.pocsag_pages.specs.Quotes.{HasQuoteFault, IsWellQuoted, text_of_file};
ghost use Rattle.pocsag_c.specs.Answers.{PrintsFault};
ghost use Rattle.pocsag_c.specs.Statuses.{IsOfBytes, nowhere, quote_refusal, refusal_at};

use crate::refusal::{NOWHERE, Place, StatusAt, refused_at};
use pocsag_pages::{QuoteFault, quote_fault};

// A refusal for a record and a line. A number that is greater than those that are reported is reported as the greatest of them.
fn of_line(status: u32, number: usize, line: usize) -> StatusAt
    ensures { result ≡ refusal_at status (min number 4294967295) line }
{
    refused_at(status, number.min(u32::MAX as usize) as u32, line as u64)
}

fn refused_quote(fault: QuoteFault) -> StatusAt
    ensures value { result ≡ quote_refusal fault }
    ensures refusing { result.status ≢ 0 }
    ensures of_bytes { IsOfBytes result.status }
{
    match fault {
        QuoteFault::Unclosed { number, line } => of_line(41, number, line),
        QuoteFault::Inside { number, line } => of_line(42, number, line),
        QuoteFault::Followed { number, line } => of_line(43, number, line),
    }
}

/// Checks the quotes of a page file: 0, or the fault of the first misplaced quote, with its record and its line.
#[unsafe(no_mangle)]
pub extern "C" fn pocsag_strict(pages: &[u8], place: &mut Place) -> u32
    ensures strict { result ≡ 0 ↔ IsWellQuoted (text_of_file pages.now) }
    ensures fault { result ≢ 0 →
        PrintsFault quote_refusal (HasQuoteFault (text_of_file pages.now)) result place.new }
    ensures placeless { result ≡ 0 → place.new ≡ nowhere }
    ensures of_bytes { IsOfBytes result }
{
    *place = NOWHERE;
    let Some(quote) = quote_fault(pages) else {
        return 0;
    };
    refused_quote(quote).put(place)
}
