ghost use Rattle.std.specs.Prelude.{◌≡◌, ◌<◌, ◌^◌, ◌++◌, ℕ, List, All, OnOk};
ghost use Rattle.std.specs.List.{flat_map};
ghost use Rattle.pocsag_pages.specs.Listable.{IsListable};
ghost use Rattle.pocsag_pages.specs.declared.page.Page.{Page};
ghost use Rattle.pocsag_decode.specs.Faults.{ReadsAs};
ghost use Rattle.pocsag_show.specs.Drawing.{behind_pages, drawing, frame_lines, heading, row_drawn};
ghost use Rattle.pocsag_show.specs.Judged.{IsJudged, kinds_read};
ghost use Rattle.pocsag_show.specs.Legend.{legend_lines};
ghost use Rattle.pocsag_show.specs.Emission.{Emits, EmitsAll};
ghost use Rattle.pocsag_show.specs.Rows.{rows_between};

use crate::counts::Counts;
use crate::emission::{emit, emit_rest};
use crate::fault::ShowFault;
use crate::heading::{put_seen_before, put_text_before};
use crate::judged::Judged;
use crate::legend::{first_drawn, legend_lines, put_legend};
use crate::page_lines::emit_pages;
use crate::pieces::{put, put_printed};
use crate::placed::Placed;
use crate::placement::PlacedReader;
use crate::places::row_top;
use crate::rows::Rows;
use crate::window::Window;
use pocsag_words::{FRAMES, Sink};
use std::alloc::{AllocError, Global};

// Writes the rows that are drawn, behind their pages.
fn emit_rows<S: Sink>(text: &mut Vec<u8>, sink: &mut S, window: Window) -> Result<(), ShowFault>
    ensures { Emits S.Sink result sink.old sink.new text.old.items text.new.items
        (flat_map (row_drawn window.low) (rows_between window.low window.high)) }
{
    for row in window.low..window.high {
        let number = row as u128 + 1;
        let y = row_top(window.low, row);
        let (middle, base) = (y + 9, y + 13);
        put_printed(
            text,
            format_args!(
                "<text class='e' x='50' y='{base}'>{number}</text>\
                <rect class='s' x='60' y='{y}' width='12' height='18'/><path class='h' d='M80 {middle}h448'/>\n"
            ),
        )?;
        emit(text, sink)?;
    }
    Ok(())
}

// Writes a line at each side of a frame, over so many rows.
#[tactic(auto, using(crate::proofs::Ranges::put_more), unfolding(crate::specs::Drawing::frame_line, crate::specs::Drawing::frame_lines))]
fn put_frame_lines(text: &mut Vec<u8>, count: usize) -> Result<(), AllocError>
    ensures { OnOk result (text.new.items ≡ text.old.items ++ frame_lines count) }
{
    let bottom = 80 + 22 * count as u128;
    put(text, b"<path class='f' d='")?;
    for frame in 0..FRAMES + 1 {
        let x = 80 + 56 * frame;
        put_printed(text, format_args!("M{x} 78V{bottom}"))?;
    }
    put(text, b"'/>\n")
}

// Writes what stands before the rows, where the pages in the legend are these.
#[tactic(auto, unfolding(crate::specs::Drawing::heading))]
fn put_heading(
    text: &mut Vec<u8>,
    window: Window,
    counts: Counts,
    drawn: &[Placed],
) -> Result<(), AllocError>
    requires { 0 < counts.batches }
    ensures { OnOk result (text.new.items ≡ text.old.items ++ heading window.low window.high
        counts.batches counts.codewords counts.idles (legend_lines window.low window.high drawn.now)) }
{
    let lines = legend_lines(window, drawn);
    put_text_before(text, window, counts, lines)?;
    put_seen_before(text, window, counts, lines)
}

// Writes what stands behind the pages: the lines between frames, what hatching and narrow rectangles mean, and the legend.
fn put_end(text: &mut Vec<u8>, window: Window, drawn: &[Placed]) -> Result<(), AllocError>
    requires { All (λ pl. IsListable pl.page) drawn.now }
    ensures { OnOk result (text.new.items ≡ text.old.items
        ++ behind_pages window.low window.high drawn.now) }
{
    put_frame_lines(text, window.count())?;
    let y = 86 + 22 * window.count() as u128;
    let (middle, base) = (y + 9, y + 13);
    put_printed(
        text,
        format_args!(
            "<path class='h' d='M80 {middle}h28'/><text class='n' x='114' y='{base}'>idle codeword</text>\
            <rect class='s' x='230' y='{y}' width='12' height='18'/>\
            <text class='n' x='248' y='{base}'>synchronisation codeword</text>\n"
        ),
    )?;
    put_legend(text, window, drawn)?;
    put(text, b"</svg>\n")
}

/// Writes the drawing of these rows of a transmission that was judged, as SVG 1.1.
pub(crate) fn emit_drawing<S: Sink>(
    alloc: Global,
    rows: Rows,
    judged: &Judged<'_>,
    sink: &mut S,
) -> Result<(), ShowFault>
    requires some { 0 < judged.now.counts.batches }
    requires few { judged.now.counts.batches < 2 ^ 59 }
    requires reads { (ps : List Page) × ReadsAs judged.now.bytes.now ps }
    ensures { (X : List ℕ) (j : IsJudged X judged.now) → EmitsAll S.Sink result sink.old sink.new
        (drawing rows (kinds_read j.reading) j.pages) }
{
    let window = Window::new(rows, judged.counts.batches as usize);
    let mut pages = PlacedReader::new(alloc, judged.bytes, &judged.numbers);
    let drawn = first_drawn(alloc, window, &mut pages)?;
    let mut text = Vec::new(alloc);
    put_heading(&mut text, window, judged.counts, drawn.as_slice())?;
    emit_rows(&mut text, sink, window)?;
    let mut pages = PlacedReader::new(alloc, judged.bytes, &judged.numbers);
    emit_pages(alloc, &mut text, sink, window, &mut pages)?;
    put_end(&mut text, window, drawn.as_slice())?;
    emit_rest(text.as_slice(), sink)
}
