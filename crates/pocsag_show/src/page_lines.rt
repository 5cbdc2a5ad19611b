ghost use Rattle.std.specs.Prelude.{◌≡◌, ◌<◌, ◌^◌, ◌++◌, OnOk, All};
ghost use Rattle.std.specs.List.{flat_map};
ghost use Rattle.pocsag_pages.specs.Listable.{IsListable};
ghost use Rattle.pocsag_show.specs.Drawing.{page_drawn, piece};
ghost use Rattle.pocsag_show.specs.PlacedReaders.{placed_left};
ghost use Rattle.pocsag_show.specs.Emission.{Emits};

use crate::emission::emit;
use crate::fault::ShowFault;
use crate::marks::{put_head, put_opened, put_rectangle, put_tail};
use crate::page_text::put_told;
use crate::pieces::put;
use crate::placed::Placed;
use crate::placement::PlacedReader;
use crate::places::row_top;
use crate::window::Window;
use pocsag_words::{BATCH_CODEWORDS, Sink};
use std::alloc::{AllocError, Global};

// Writes what is drawn of a page in a row.
#[tactic(auto, unfolding(crate::specs::Drawing::piece))]
fn put_piece(text: &mut Vec<u8>, low: usize, placed: &Placed, row: usize) -> Result<(), AllocError>
    requires { row < 2 ^ 59 }
    ensures { OnOk result (text.new.items ≡ text.old.items ++ piece low placed.now row) }
{
    let from = placed.start.max(16 * row);
    let behind = placed.index_behind().min(16 * row as u128 + 16);
    let x = 80 + 28 * (from % BATCH_CODEWORDS) as u128;
    let y = row_top(low, row);
    put_rectangle(text, x, y, 28 * behind.saturating_sub(from as u128))?;
    if 16 * row <= placed.start {
        put_head(text, x, y, placed.number)
    } else {
        put_tail(text, x, y, placed.number)
    }
}

// Writes the group of a page that has codewords in the rows that are drawn.
#[tactic(auto, using(crate::proofs::Ranges::put_next, crate::proofs::Ranges::put_all), unfolding(crate::specs::Drawing::page_drawn))]
fn put_page(
    alloc: Global,
    text: &mut Vec<u8>,
    window: Window,
    placed: &Placed,
) -> Result<(), AllocError>
    requires few { window.high < 2 ^ 59 }
    requires listable { IsListable placed.now.page }
    ensures { OnOk result (text.new.items ≡ text.old.items ++ page_drawn window.low window.high placed.now) }
{
    if !placed.is_drawn(window) {
        return Ok(());
    }
    put_opened(text, placed.number)?;
    put(text, b"<title>")?;
    put_told(alloc, text, placed)?;
    put(text, b"</title>")?;
    let first = placed.first_row(window);
    let end = placed.end_row(window);
    for row in first..end {
        put_piece(text, window.low, placed, row)?;
    }
    put(text, b"</g>\n")
}

/// Writes the pages that have codewords in the rows that are drawn.
pub(crate) fn emit_pages<S: Sink>(
    alloc: Global,
    text: &mut Vec<u8>,
    sink: &mut S,
    window: Window,
    pages: &mut PlacedReader<'_>,
) -> Result<(), ShowFault>
    requires few { window.high < 2 ^ 59 }
    requires listable { All (λ pl. IsListable pl.page) (placed_left pages.old) }
    ensures { Emits S.Sink result sink.old sink.new text.old.items text.new.items
        (flat_map (page_drawn window.low window.high) (placed_left pages.old)) }
{
    while let Some(placed) = pages.next_placed()? {
        put_page(alloc, text, window, &placed)?;
        emit(text, sink)?;
    }
    Ok(())
}
