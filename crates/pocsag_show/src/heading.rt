ghost use Rattle.std.specs.Prelude.{◌≡◌, ◌+◌, ◌*◌, ◌^◌, ◌<◌, ◌≤◌, ◌++◌, OnOk};
ghost use Rattle.std.specs.List.{flat_map, range_with_len};
ghost use Rattle.pocsag_show.specs.Drawing.{axis_number, seen_before, text_before};

use crate::counts::Counts;
use crate::picture::{put_counts, put_totals};
use crate::pieces::{put, put_printed};
use crate::style::put_style;
use crate::window::Window;
use pocsag_words::{BATCH_CODEWORDS, FRAMES};
use std::alloc::AllocError;

/// Writes what is reported before the rows: which batches are drawn, the totals and what the drawing is.
#[tactic(auto, unfolding(crate::specs::Drawing::text_before, crate::specs::Drawing::opening, crate::specs::Drawing::title, crate::specs::Drawing::description))]
pub(crate) fn put_text_before(
    text: &mut Vec<u8>,
    window: Window,
    counts: Counts,
    lines: usize,
) -> Result<(), AllocError>
    requires { 0 < counts.batches }
    ensures { OnOk result (text.new.items ≡ text.old.items
        ++ text_before window.low window.high counts.batches counts.codewords counts.idles lines) }
{
    let tall = window.height(lines);
    let (first, last, batches) = (window.low as u128 + 1, window.high, counts.batches);
    put_printed(
        text,
        format_args!(
            "<svg xmlns='http://www.w3.org/2000/svg' version='1.1' class='pocsag' role='img' \
            width='540' height='{tall}' viewBox='0 0 540 {tall}'>\n"
        ),
    )?;
    put_printed(
        text,
        format_args!("<title>Batches {first} to {last} of {batches}</title>\n"),
    )?;
    put(text, b"<desc>")?;
    put_totals(text, counts)?;
    put(
        text,
        b"A row is a batch: its number, its synchronisation codeword, and sixteen codewords in eight frames. \
        A page has one hue and one letter, its address codeword is darker, and idle codewords are hatched.</desc>\n",
    )
}

// Writes the numbers below this one over the rows, the first of them at x, each so far from the one before.
#[tactic(auto, using(crate::proofs::Ranges::put_more), unfolding(crate::specs::Drawing::axis_number))]
fn put_axis(
    text: &mut Vec<u8>,
    count: usize,
    x: usize,
    pitch: usize,
    y: usize,
) -> Result<(), AllocError>
    requires few { count ≤ 16 }
    requires near { x < 2 ^ 16 }
    requires close { pitch < 2 ^ 16 }
    ensures { OnOk result (text.new.items ≡ text.old.items
        ++ flat_map (λ i. axis_number (x + pitch * i) y i) (range_with_len 0 count)) }
{
    for number in 0..count {
        let x = x + pitch * number;
        put_printed(
            text,
            format_args!("<text class='m' x='{x}' y='{y}'>{number}</text>"),
        )?;
    }
    Ok(())
}

/// Writes what is drawn before the rows: on the background which batches are drawn, the counts, and the words frame,
/// slot and batch with the numbers of the frames and slots.
#[tactic(auto, unfolding(crate::specs::Drawing::seen_before, crate::specs::Drawing::headed, crate::specs::Drawing::axes))]
pub(crate) fn put_seen_before(
    text: &mut Vec<u8>,
    window: Window,
    counts: Counts,
    lines: usize,
) -> Result<(), AllocError>
    requires { 0 < counts.batches }
    ensures { OnOk result (text.new.items ≡ text.old.items
        ++ seen_before window.low window.high counts.batches counts.codewords counts.idles lines) }
{
    let tall = window.height(lines);
    let (first, last, batches) = (window.low as u128 + 1, window.high, counts.batches);
    put_style(text)?;
    put_printed(
        text,
        format_args!(
            "<rect class='b' width='540' height='{tall}'/>\n\
            <text class='t' x='12' y='22'>Batches {first} to {last} of {batches}</text>"
        ),
    )?;
    put(text, b"<text x='12' y='40'>")?;
    put_counts(text, counts)?;
    put(
        text,
        b"</text>\n<text class='e' x='74' y='60'>frame</text><text class='e' x='74' y='74'>slot</text>\
        <text class='e' x='50' y='74'>batch</text>",
    )?;
    put_axis(text, FRAMES, 108, 56, 60)?;
    put_axis(text, BATCH_CODEWORDS, 94, 28, 74)?;
    put(text, b"\n")
}
