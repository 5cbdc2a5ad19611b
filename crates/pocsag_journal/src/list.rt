ghost use Rattle.std.specs.Prelude.{◌≡◌, ◌≢◌, ◌++◌, IfErr, IfOk};
ghost use Rattle.pocsag_decode.specs.PageFiles.{page_file};
ghost use Rattle.pocsag_journal.specs.Faults.{ExplainsListing};
ghost use Rattle.pocsag_journal.specs.Journals.{Replays};

use crate::fault::JournalFault;
use crate::replay::{Replayed, read_journal};
use pocsag_decode::{ListFault, write_page_file};
use pocsag_words::{Sink, Source};
use std::alloc::Global;

/// Reads the journal that a source holds up to its end, and lists its pages as a page file.
pub fn list_journal<S: Source, O: Sink>(
    alloc: Global,
    source: &mut S,
    out: &mut O,
) -> Result<Replayed, JournalFault>
    ensures read { S.is_known → IfOk result
        (λ replayed. Replays (S.held source.old) replayed.edits replayed.torn replayed.book) }
    ensures listed { O.is_known → IfOk result
        (λ replayed. O.taken out.new ≡ O.taken out.old ++ page_file replayed.book) }
    ensures explained { S.is_known → IfErr result (ExplainsListing (S.held source.old)
        (S.failures source.old) (S.failures source.new) (O.failures out.old) (O.failures out.new)) }

    // Nothing is listed where it is refused.
    ensures refused { IfErr result (λ e. e ≢ JournalFault.WriteFault → out.new ≡ out.old) }
{
    let replayed = read_journal(alloc, source)?;
    match write_page_file(alloc, replayed.book.pages(), out) {
        Ok(()) => Ok(replayed),
        Err(ListFault::WriteFault) => Err(JournalFault::WriteFault),
        Err(ListFault::OutOfMemory) => Err(JournalFault::OutOfMemory),
    }
}
