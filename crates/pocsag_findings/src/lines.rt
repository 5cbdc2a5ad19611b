//! Lines that are not too long.
ghost use Rattle.pocsag_findings.specs.Writing.{Adds};

use crate::fault::ExplanationFault;
use pocsag_words::{Sink, write_all};
use std::alloc::AllocError;

/// The most bytes of text that wait before they are written, beside those of one node.
pub(crate) const PIECE: usize = 1_048_576;

/// Where the lines of a text begin and end.
#[derive(Clone, Copy)]
pub(crate) struct Margins {
    /// How far right the first line begins.
    pub(crate) first: usize,
    /// How far right each other line begins.
    pub(crate) others: usize,
    /// The most characters of a line, unless a single word is longer.
    pub(crate) width: usize,
}

/// Adds a text as lines.
pub(crate) fn push_lines(
    text: &mut String,
    margins: Margins,
    words: &str,
) -> Result<(), AllocError> {
    let Margins {
        first,
        others,
        width,
    } = margins;
    write!(text, "{:first$}", "")?;
    let mut column = first;
    for (place, word) in words.split(' ').enumerate() {
        let end = column.saturating_add(word.len());
        if place == 0 {
            column = end;
        } else if end < width {
            text.push_str(" ")?;
            column = end.saturating_add(1);
        } else {
            write!(text, "\n{:others$}", "")?;
            column = others.saturating_add(word.len());
        }
        text.push_str(word)?;
    }
    text.push_str("\n")
}

/// Writes and empties the text so far, if it has at least this many bytes.
pub(crate) fn flush_text<O: Sink>(
    text: &mut String,
    least: usize,
    out: &mut O,
) -> Result<(), ExplanationFault>
    ensures { Adds O.Sink result out.old out.new }
{
    if text.len() < least {
        return Ok(());
    }
    write_all(out, text.as_str().as_bytes())?;
    text.clear();
    Ok(())
}
