ghost use Rattle.std.specs.Prelude.{ℕ, [], List};
ghost use Rattle.pocsag_show.specs.Emission.{IsEmitting, Emits, EmitsAll};

use crate::fault::ShowFault;
use pocsag_words::{Sink, write_all};

// The most bytes of text that wait before they are written, beside those of one page or row.
const PIECE: usize = 1_048_576;

/// Writes the text so far out if it is long, but keeps its last byte: the text is not whole while memory may be
/// refused.
pub(crate) fn emit<S: Sink>(text: &mut Vec<u8>, sink: &mut S) -> Result<(), ShowFault>
    ensures { Emits S.Sink result sink.old sink.new text.old.items text.new.items [] }
{
    if text.len() < PIECE {
        return Ok(());
    }
    let Some(last) = text.pop() else {
        return Ok(());
    };
    write_all(sink, text.as_slice())?;
    text.truncate(1);
    text[0] = last;
    Ok(())
}

/// Writes the rest of a text out.
pub(crate) fn emit_rest<S: Sink>(text: &[u8], sink: &mut S) -> Result<(), ShowFault>
    ensures { (start : S) (all : List ℕ) → IsEmitting S.Sink start sink.old all text.now [] →
        EmitsAll S.Sink result start sink.new all }
{
    write_all(sink, text)?;
    Ok(())
}
