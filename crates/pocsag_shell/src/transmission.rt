ghost use Rattle.std.specs.Prelude.{◌≡◌, ◌≤◌, length, IfErr, IfOk};
ghost use Rattle.pocsag_words.specs.Frame.{input_limit};
ghost use Rattle.pocsag_shell.specs.Readers.{IsUncut, WasNotRead};

use crate::fault::FileFault;
use pocsag_pages::read_whole;
use pocsag_words::{INPUT_LIMIT, Source};
use std::alloc::Global;

/// Takes the bytes of a transmission from a device that owns them, or reads it whole.
pub fn read_transmission<T: Source>(alloc: Global, tx: &mut T) -> Result<Vec<u8>, FileFault>
    ensures whole { T.is_known → IfOk result (λ bytes. bytes.items ≡ T.held tx.old) }
    ensures fits { T.is_known → IfOk result (λ bytes. length bytes.items ≤ input_limit) }
    ensures uncut { IfOk result (λ _. IsUncut T.Source tx.old) }
    ensures explained { IfErr result (WasNotRead T.Source tx.old tx.new) }
{
    if let Some(bytes) = tx.lent() {
        if bytes.len() > INPUT_LIMIT {
            return Err(FileFault::TooLarge);
        }
        if let Some(bytes) = tx.take_all() {
            return Ok(bytes);
        }
    }
    Ok(read_whole(alloc, tx, INPUT_LIMIT)?)
}
