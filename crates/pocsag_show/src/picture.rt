ghost use Rattle.std.specs.Prelude.{◌≡◌, ℕ, ◌+◌, ◌*◌, ◌<◌, ◌≤◌, ◌++◌, List, OnOk, length, replicate, slice_index};
ghost use Rattle.pocsag_show.specs.Judged.{IsJudged, kinds_read};
ghost use Rattle.pocsag_show.specs.Picture.{batch_line, batch_lines, counts_part, frame_cells, grid_text, number_column, totals_line};
ghost use Rattle.pocsag_show.specs.Emission.{Emits, EmitsAll};

use crate::counts::Counts;
use crate::emission::{emit, emit_rest};
use crate::fault::ShowFault;
use crate::judged::Judged;
use crate::letters::letters_of;
use crate::pieces::{put, put_printed};
use crate::rows::Rows;
use crate::window::Window;
use itoa::Buffer;
use pocsag_words::{BATCH_CODEWORDS, FRAMES, Sink, airtime, transmission_bits};
use std::alloc::{AllocError, Global};

fn put_spaces(text: &mut Vec<u8>, count: usize) -> Result<(), AllocError>
    requires { count < 4 }
    ensures { OnOk result (text.new.items ≡ text.old.items ++ replicate count 32) }
{
    let len = text.len() + count;
    text.resize(len, b' ')
}

/// Writes how many batches, codewords of pages and idle codewords there are, and the share of the idle ones.
#[tactic(auto, unfolding(crate::specs::Picture::counts_part))]
pub(crate) fn put_counts(text: &mut Vec<u8>, counts: Counts) -> Result<(), AllocError>
    requires { 0 < counts.batches }
    ensures { OnOk result (text.new.items ≡ text.old.items
        ++ counts_part counts.batches counts.codewords counts.idles) }
{
    let Counts {
        batches,
        codewords,
        idles,
    } = counts;
    let all = 16 * u128::from(batches);
    let percent = (100 * u128::from(idles) + 8 * u128::from(batches)) / all;
    put_printed(
        text,
        format_args!("batches {batches}, codewords {codewords}, idles {idles} ({percent}%)"),
    )
}

/// Writes the line of totals: the counts, and how long so many batches last at the three rates.
#[tactic(auto, unfolding(crate::specs::Picture::totals_line, crate::specs::Picture::airtimes_part))]
pub(crate) fn put_totals(text: &mut Vec<u8>, counts: Counts) -> Result<(), AllocError>
    requires { 0 < counts.batches }
    ensures { OnOk result (text.new.items ≡ text.old.items
        ++ totals_line counts.batches counts.codewords counts.idles) }
{
    let bits = transmission_bits(counts.batches);
    let (slow, middle, fast) = (airtime(bits, 512), airtime(bits, 1200), airtime(bits, 2400));
    put_counts(text, counts)?;
    put_printed(
        text,
        format_args!(
            ", airtime {slow} ms at 512 bit/s, {middle} ms at 1200 bit/s, {fast} ms at 2400 bit/s\n"
        ),
    )
}

// Writes the line of a batch: its number at the right of three columns, spaces up to the fifth, and its eight frames, each
// with its two cells.
#[tactic(auto, using(crate::proofs::Ranges::put_more), unfolding(crate::specs::Picture::batch_line, crate::specs::Picture::number_column, crate::specs::Picture::frame_cells))]
fn put_batch(text: &mut Vec<u8>, letters: &[u8], batch: usize) -> Result<(), AllocError>
    requires { 16 * batch + 16 ≤ length letters.now }
    ensures { OnOk result (text.new.items ≡ text.old.items ++ batch_line (slice_index letters.now) batch) }
{
    let mut buffer = Buffer::new();
    let digits = buffer.format(batch as u64 + 1).as_bytes();
    put_spaces(text, 3usize.saturating_sub(digits.len()))?;
    put(text, digits)?;
    put_spaces(text, 2usize.saturating_sub(digits.len().saturating_sub(3)))?;
    for frame in 0..FRAMES {
        let index = BATCH_CODEWORDS * batch + 2 * frame;
        put(text, &[b' ', letters[index], letters[index + 1]])?;
    }
    put(text, b"\n")
}

// Writes the lines of the batches that are wanted.
fn emit_batches<S: Sink>(
    text: &mut Vec<u8>,
    sink: &mut S,
    window: Window,
    letters: &[u8],
) -> Result<(), ShowFault>
    requires { 16 * window.high ≤ length letters.now }
    ensures { Emits S.Sink result sink.old sink.new text.old.items text.new.items
        (batch_lines (slice_index letters.now) window.low window.high) }
{
    for batch in window.low..window.high {
        put_batch(text, letters, batch)?;
        emit(text, sink)?;
    }
    Ok(())
}

/// Writes these rows of the grid of a transmission that was judged.
pub(crate) fn emit_grid<S: Sink>(
    alloc: Global,
    rows: Rows,
    judged: &Judged<'_>,
    sink: &mut S,
) -> Result<(), ShowFault>
    requires { 0 < judged.now.counts.batches }
    ensures { (X : List ℕ) (j : IsJudged X judged.now) → EmitsAll S.Sink result sink.old sink.new
        (grid_text rows (kinds_read j.reading) j.pages) }
{
    let letters = letters_of(alloc, judged.bytes, &judged.numbers)?;
    let window = Window::new(rows, letters.len() / BATCH_CODEWORDS);
    let mut text = Vec::new(alloc);
    put_totals(&mut text, judged.counts)?;
    put(&mut text, b"       0  1  2  3  4  5  6  7\n")?;
    emit_batches(&mut text, sink, window, letters.as_slice())?;
    emit_rest(text.as_slice(), sink)
}
