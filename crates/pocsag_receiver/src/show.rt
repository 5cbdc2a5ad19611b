ghost use Rattle.std.specs.Prelude.{◌≡◌, ℕ, List, true, IfErr, IfNone, OnOk};
ghost use Rattle.pocsag_pages.specs.Bytes.{Sent};
ghost use Rattle.pocsag_pager.specs.Damage.{IsDamaged};
ghost use Rattle.pocsag_show.specs.Shows.{Shows};
ghost use Rattle.pocsag_show.specs.Views.{view_text};
ghost use Rattle.pocsag_shell.specs.ErrorStreams.{printed_by};
ghost use Rattle.pocsag_shell.specs.Readers.{over_bytes, over_reader};
ghost use Rattle.pocsag_shell.specs.Runs.{IsStreamOf, Ran};
ghost use Rattle.pocsag_receiver.specs.Views.{ExplainsShowing, HasRows};
ghost use Rattle.pocsag_receiver.specs.Works.{shows, views};

use crate::fault::ReceiverFault;
use crate::repair::{Repairing, repair_asked};
use pocsag_decode::judge_bytes;
use pocsag_pages::preamble_len;
use pocsag_shell::{ErrorStream, read_transmission};
use pocsag_show::{View, show};
use pocsag_words::{BATCH_BYTES, Sink, Source};
use std::alloc::Global;

/// How a transmission is shown.
#[derive(Clone, Copy)]
pub struct Showing {
    pub view: View,
    pub repairing: Repairing,
}

// Rows of which a transmission has none are refused, once its bytes read as pages.
fn refuse_rows(view: View, bytes: &[u8]) -> Result<(), ReceiverFault>
    ensures rows { OnOk result (HasRows view bytes.now) }
    ensures explained { IfErr result (ExplainsShowing view bytes.now) }
{
    let Some(rows) = view.rows() else {
        return Ok(());
    };
    let (_, rest) = bytes.split_at(preamble_len(bytes));
    let batches = (rest.len() / BATCH_BYTES) as u64;
    if rows.first <= batches {
        return Ok(());
    }
    judge_bytes(bytes).map_err(ReceiverFault::Transmission)?;
    Err(ReceiverFault::NoSuchRows { rows, batches })
}

/// Shows the bytes of a transmission. Rows of which it has none are refused.
pub(crate) fn show_bytes<O: Sink>(
    alloc: Global,
    view: View,
    bytes: &[u8],
    out: &mut O,
) -> Result<u8, ReceiverFault>
    ensures streams { IsStreamOf (over_bytes (views view) O.Sink bytes.now) O.Sink out.old out.new result }
{
    refuse_rows(view, bytes)?;
    show(alloc, view, bytes, out)?;
    Ok(0)
}

// Shows a transmission, with repair as it is once each of its words is repaired.
fn show_read<T: Source, O: Sink>(
    alloc: Global,
    showing: &mut Showing,
    tx: &mut T,
    out: &mut O,
) -> Result<u8, ReceiverFault>
    ensures streams { IsStreamOf
        (over_reader (shows showing.old.view showing.old.repairing showing.new.repairing) T.Source O.Sink tx.old tx.new)
        O.Sink out.old out.new result }
{
    let mut read = read_transmission(alloc, tx)?;
    let bytes = read.as_mut_slice();
    showing.repairing.corrected = repair_asked(showing.repairing.is_asked, bytes);
    show_bytes(alloc, showing.view, bytes, out)
}

/// `show TX`: shows a transmission, with repair as it is once each of its words is repaired, and says how much was corrected.
/// Rows of which it has none are refused. Returns the exit status.
pub fn run_show<T: Source, O: Sink, E: Sink + Drop>(
    alloc: Global,
    showing: &mut Showing,
    tx: &mut T,
    out: &mut O,
    err: &mut ErrorStream<ReceiverFault, E>,
) -> u8
    ensures ran { Ran
        (over_reader (shows showing.old.view showing.old.repairing showing.new.repairing) T.Source O.Sink tx.old tx.new)
        O.Sink E.Sink result out.old out.new err.old err.new }

    // *Repaired for all*: of a transmission with at most two wrong bits in each word it shows what it shows of the
    // transmission itself.
    ensures restored { T.is_known → O.is_known → showing.old.repairing.is_asked ≡ true → (X codewords : List ℕ) →
        Sent X codewords → IsDamaged X (T.held tx.old) →
        IfNone (printed_by err.new) (Shows (view_text showing.old.view) X (O.taken out.old) (O.taken out.new)) }
{
    err.end(show_read(alloc, showing, tx, out))
}
