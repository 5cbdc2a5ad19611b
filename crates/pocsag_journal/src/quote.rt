ghost use Rattle.std.specs.Prelude.{◌≡◌};
ghost use Rattle.csv.specs.Reading.{strip_bom};
ghost use Rattle.pocsag_pages.specs.QuoteStates.{quote_state_from};
ghost use Rattle.pocsag_journal.specs.LineTexts.{without_return};

use pocsag_pages::{QuoteState, behind_mark};

/// The state of the quotes at the end of a line, without a byte order mark at its head.
pub fn quote_state_of(line: &[u8]) -> QuoteState
    ensures { result ≡ quote_state_from QuoteState.Start (strip_bom line.now) }
{
    let text = behind_mark(line);
    let mut state = QuoteState::Start;
    for byte in text {
        state = state.after(*byte);
    }
    state
}

/// The line without a carriage return at its end.
pub fn without_return(line: &[u8]) -> &[u8]
    ensures { result.now ≡ without_return line.now }
{
    match line.last() {
        Some(b'\r') => &line[..line.len() - 1],
        _ => line,
    }
}
