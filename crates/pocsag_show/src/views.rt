ghost use Rattle.std.specs.Prelude.{◌≡◌, ◌≢◌, ◌<◌, ◌^◌, ℕ, List, Err, IfErr, OnOk};
ghost use Rattle.pocsag_pages.specs.declared.page.Page.{Page};
ghost use Rattle.pocsag_decode.specs.Faults.{NamesFailures, ReadsAs};
ghost use Rattle.pocsag_show.specs.Judged.{IsJudged, kinds_read};
ghost use Rattle.pocsag_show.specs.Emission.{EmitsAll};
ghost use Rattle.pocsag_show.specs.Shows.{Explains, Shows, ShowsLess, ShowsPart};
ghost use Rattle.pocsag_show.specs.Views.{view_text};

use crate::drawing::emit_drawing;
use crate::fault::ShowFault;
use crate::judge::judge;
use crate::judged::Judged;
use crate::listing::emit_listing;
use crate::picture::emit_grid;
use crate::view::View;
use pocsag_words::Sink;
use std::alloc::Global;

// Writes what is shown of a transmission that was judged.
fn emit_view<S: Sink>(
    alloc: Global,
    view: View,
    judged: &Judged<'_>,
    sink: &mut S,
) -> Result<(), ShowFault>
    requires some { 0 < judged.now.counts.batches }
    requires few { judged.now.counts.batches < 2 ^ 59 }
    requires reads { (ps : List Page) × ReadsAs judged.now.bytes.now ps }
    ensures { (X : List ℕ) (j : IsJudged X judged.now) → EmitsAll S.Sink result sink.old sink.new
        (view_text view (kinds_read j.reading) j.pages) }
{
    match view {
        View::Grid(rows) => emit_grid(alloc, rows, judged, sink),
        View::Places => emit_listing(alloc, judged, sink),
        View::Drawing(rows) => emit_drawing(alloc, rows, judged, sink),
    }
}

/// Writes how a transmission is shown: as text, which is a line of totals, a line with the numbers of the frames, and a
/// line for each batch of the rows with a letter for each codeword; as a listing of where each page stands, which is the
/// record `batch,frame,slot,codewords,address,kind,message` and then a record for each page in order of transmission; or as
/// a drawing of the rows, which is SVG 1.1. Nothing is written before all bytes are judged. The text is written as it is
/// made: beside the bytes it holds the address of each page, or where pages are many a number for each address, a letter
/// for each codeword of the grid, one page, those of the legend, and text up to 1,048,576 bytes beside that of one page.
/// After `WriteFault` a prefix was written; after `OutOfMemory` a prefix, but not all; after the other faults nothing.
pub fn show<S: Sink>(alloc: Global, view: View, bytes: &[u8], sink: &mut S) -> Result<(), ShowFault>
    ensures shown { S.is_known → OnOk result (Shows (view_text view) bytes.now (S.taken sink.old) (S.taken sink.new)) }
    ensures part { S.is_known → result ≡ Err ShowFault.WriteFault →
        ShowsPart (view_text view) bytes.now (S.taken sink.old) (S.taken sink.new) }
    ensures stopped { S.is_known → result ≡ Err ShowFault.OutOfMemory →
        ShowsLess (view_text view) bytes.now (S.taken sink.old) (S.taken sink.new) }
    ensures fault { IfErr result (Explains bytes.now) }
    ensures untouched { IfErr result (λ e. e ≢ ShowFault.WriteFault → e ≢ ShowFault.OutOfMemory → sink.new ≡ sink.old) }

    // A device's fault is answered only where that device failed.
    ensures failures { NamesFailures result ShowFault.WriteFault (S.failures sink.old) (S.failures sink.new) }
{
    let judged = judge(alloc, bytes)?;
    emit_view(alloc, view, &judged, sink)
}
