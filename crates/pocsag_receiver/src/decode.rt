ghost use Rattle.std.specs.Prelude.{◌≡◌, ℕ, ◌<◌, ◌++◌, List, true, length, IfNone, IfSome};
ghost use Rattle.pocsag_words.specs.Frame.{input_limit};
ghost use Rattle.pocsag_pages.specs.declared.page.Page.{Page};
ghost use Rattle.pocsag_decode.specs.Faults.{ReadsAs};
ghost use Rattle.pocsag_pager.specs.Damage.{IsDamaged};
ghost use Rattle.pocsag_shell.specs.ErrorStreams.{printed_by};
ghost use Rattle.pocsag_shell.specs.Readers.{over_bytes, over_reader};
ghost use Rattle.pocsag_shell.specs.Runs.{IsStreamOf, Ran};
ghost use Rattle.pocsag_receiver.specs.Faults.{receiver_status};
ghost use Rattle.pocsag_receiver.specs.Forms.{listed_in};
ghost use Rattle.pocsag_receiver.specs.Works.{decodes, lists};

use crate::fault::ReceiverFault;
use crate::form::{ListForm, list_from};
use crate::repair::{Repairing, repair_asked};
use pocsag_decode::{PageReader, judge_bytes, list_sent};
use pocsag_shell::{ErrorStream, read_transmission};
use pocsag_words::{Sink, Source};
use std::alloc::Global;

/// How a transmission is decoded: the form in which its pages are listed, and whether its words are repaired before.
#[derive(Clone, Copy)]
pub struct Decoding {
    pub form: ListForm,
    pub repairing: Repairing,
}

// Lists the pages that the bytes of a transmission read as, in a form. Bytes without a fault want only memory.
fn list_decoded_in<O: Sink>(
    alloc: Global,
    form: ListForm,
    bytes: &[u8],
    out: &mut O,
) -> Result<u8, ReceiverFault>
    ensures streams { IsStreamOf (over_bytes (lists form) O.Sink bytes.now) O.Sink out.old out.new result }
{
    judge_bytes(bytes).map_err(ReceiverFault::Transmission)?;
    if let ListForm::Listing = form {
        list_sent(alloc, bytes, out)?;
        return Ok(0);
    }
    list_from(alloc, form, &mut PageReader::new(alloc, bytes), out)
}

// Lists the pages of a transmission, with repair those that its words read as once each is repaired.
fn decode_read<T: Source, O: Sink>(
    alloc: Global,
    decoding: &mut Decoding,
    tx: &mut T,
    out: &mut O,
) -> Result<u8, ReceiverFault>
    ensures streams { IsStreamOf
        (over_reader (decodes decoding.old.form decoding.old.repairing decoding.new.repairing)
        T.Source O.Sink tx.old tx.new)
        O.Sink out.old out.new result }
{
    let mut read = read_transmission(alloc, tx)?;
    let bytes = read.as_mut_slice();
    decoding.repairing.corrected = repair_asked(decoding.repairing.is_asked, bytes);
    list_decoded_in(alloc, decoding.form, bytes, out)
}

/// `decode TX`: lists the pages of a transmission, with `--repair` those of the repaired words, and returns how much was
/// corrected. Returns the exit status.
pub fn run_decode<T: Source, O: Sink, E: Sink + Drop>(
    alloc: Global,
    decoding: &mut Decoding,
    tx: &mut T,
    out: &mut O,
    err: &mut ErrorStream<ReceiverFault, E>,
) -> u8
    ensures ran { Ran
        (over_reader (decodes decoding.old.form decoding.old.repairing decoding.new.repairing)
        T.Source O.Sink tx.old tx.new)
        O.Sink E.Sink result out.old out.new err.old err.new }

    // *Repaired for all*: of a transmission with at most two wrong bits in each word just its pages are listed.
    ensures restored { T.is_known → O.is_known → decoding.old.repairing.is_asked ≡ true →
        (X : List ℕ) (pages : List Page) →
        ReadsAs X pages → IsDamaged X (T.held tx.old) →
        IfNone (printed_by err.new) (O.taken out.new ≡ O.taken out.old ++ listed_in decoding.old.form pages) }
    // And it is refused only where it is larger than is read.
    ensures taken { T.is_known → decoding.old.repairing.is_asked ≡ true → (X : List ℕ) (pages : List Page) →
        ReadsAs X pages →
        IsDamaged X (T.held tx.old) →
        IfSome (printed_by err.new) (λ e. receiver_status e ≡ 1 → input_limit < length (T.held tx.old)) }
{
    err.end(decode_read(alloc, decoding, tx, out))
}
