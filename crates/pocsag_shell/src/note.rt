ghost use Rattle.std.specs.Prelude.{◌≡◌, ◌⊎◌, ◌++◌, IfErr, OnErr, OnOk, map};
ghost use Rattle.pocsag_words.specs.Devices.{HasFailed, TookPrefix};
ghost use Rattle.pocsag_shell.specs.Notes.{note_text};

use crate::fault::FileFault;
use crate::lines::put_whole;
use pocsag_words::Sink;
use std::alloc::Global;

/// Writes a note as one line that begins `pocsag: `, in a single write if the sink takes all of it. A question mark
/// replaces each byte that would end the line or move a terminal's cursor.
#[tactic(auto, unfolding(crate::specs::Notes::note_text, crate::specs::Notes::plain))]
pub(crate) fn print_note<S: Sink>(alloc: Global, err: &mut S, text: &str) -> Result<(), FileFault>
    ensures printed { S.is_known → OnOk result (S.taken err.new ≡ S.taken err.old ++ note_text text.now) }
    ensures part { S.is_known → OnErr result (TookPrefix (S.taken err.old) (S.taken err.new) (note_text text.now)) }
    ensures cause { IfErr result (λ f. ((f ≡ FileFault.OutOfMemory) × (err.new ≡ err.old))
        ⊎ ((f ≡ FileFault.Write) × HasFailed (S.failures err.old) (S.failures err.new))) }
{
    let mut line = Vec::new(alloc);
    line.extend_from_slice(b"pocsag: ")?;
    for byte in text.as_bytes() {
        let is_control = *byte < 32 || *byte == 127;
        line.push(if is_control { b'?' } else { *byte })?;
    }
    line.push(b'\n')?;
    put_whole(err, line.as_slice())
}
