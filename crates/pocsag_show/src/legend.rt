ghost use Rattle.std.specs.Prelude.{◌≡◌, ◌<◌, ◌≤◌, ◌^◌, ◌++◌, IfOk, OnOk, All, length};
ghost use Rattle.pocsag_pages.specs.Listable.{IsListable};
ghost use Rattle.pocsag_show.specs.Legend.{HasLegendOf, drawn_in, entry, legend, legend_lines, place_in};
ghost use Rattle.pocsag_show.specs.PlacedReaders.{placed_left};

use crate::marks::{put_head, put_opened, put_rectangle};
use crate::pieces::{put, put_printed};
use crate::placed::Placed;
use crate::placement::PlacedReader;
use crate::window::Window;
use pocsag_decode::kind_of_page;
use std::alloc::{AllocError, Global};

// A legend has at most so many pages.
const MOST: usize = 40;

/// Of the pages that are drawn the first ones: all of them, or one more than a legend has.
pub(crate) fn first_drawn(
    alloc: Global,
    window: Window,
    pages: &mut PlacedReader<'_>,
) -> Result<Vec<Placed>, AllocError>
    requires { All (λ pl. IsListable pl.page) (placed_left pages.old) }
    ensures legend { IfOk result (λ v. HasLegendOf window.low window.high v.items (placed_left pages.old)) }
    ensures listable { IfOk result (λ v. All (λ pl. IsListable pl.page) v.items) }
{
    let mut drawn = Vec::new(alloc);
    while let Some(placed) = pages.next_placed()? {
        if !placed.is_drawn(window) {
            continue;
        }
        drawn.push(placed)?;
        if drawn.len() > MOST {
            return Ok(drawn);
        }
    }
    Ok(drawn)
}

// How many of the pages are drawn.
fn drawn_in(window: Window, pages: &[Placed]) -> usize
    ensures value { result ≡ drawn_in window.low window.high pages.now }
    ensures within { result ≤ length pages.now }
{
    let mut count = 0;
    for placed in pages {
        if placed.is_drawn(window) {
            count += 1;
        }
    }
    count
}

// How many of the pages that are drawn stand before this one in the legend.
fn place_in(window: Window, pages: &[Placed], placed: &Placed) -> usize
    ensures { result ≡ place_in window.low window.high pages.now placed.now }
{
    let mut count = 0;
    for other in pages {
        let stands_before = other.number < placed.number
            || (other.number == placed.number && other.start < placed.start);
        if other.is_drawn(window) && stands_before {
            count += 1;
        }
    }
    count
}

/// How many lines the legend has.
pub(crate) fn legend_lines(window: Window, pages: &[Placed]) -> usize
    ensures value { result ≡ legend_lines window.low window.high pages.now }
    ensures few { result < 15 }
{
    let count = drawn_in(window, pages);
    if count <= MOST { (count + 2) / 3 } else { 1 }
}

// Writes the entry of a page at a place of the legend, whose upper side is given.
#[tactic(auto, unfolding(crate::specs::Legend::entry))]
fn put_entry(text: &mut Vec<u8>, top: u128, place: usize, placed: &Placed) -> Result<(), AllocError>
    requires top { top < 2 ^ 100 }
    requires listable { IsListable placed.now.page }
    ensures { OnOk result (text.new.items ≡ text.old.items ++ entry top place placed.now) }
{
    let page = &placed.page;
    let x = 80 + 150 * (place % 3) as u128;
    let y = top + 22 * (place / 3) as u128;
    put_opened(text, placed.number)?;
    put_rectangle(text, x, y, 28)?;
    put_head(text, x, y, placed.number)?;
    let (name, base, address) = (x + 34, y + 13, page.address);
    put_printed(
        text,
        format_args!("<text class='n' x='{name}' y='{base}'>{address} "),
    )?;
    put(text, kind_of_page(page.function, page.payload.as_slice()))?;
    put(text, b"</text></g>\n")
}

/// Writes the legend of the pages that are drawn if they are few, or else where they are listed.
#[tactic(auto, unfolding(crate::specs::Legend::legend, crate::specs::Legend::entry_of, crate::specs::Legend::left_out))]
pub(crate) fn put_legend(
    text: &mut Vec<u8>,
    window: Window,
    pages: &[Placed],
) -> Result<(), AllocError>
    requires { All (λ pl. IsListable pl.page) pages.now }
    ensures { OnOk result (text.new.items ≡ text.old.items ++ legend window.low window.high pages.now) }
{
    let top = 112 + 22 * window.count() as u128;
    if drawn_in(window, pages) > MOST {
        let base = top + 13;
        return put_printed(
            text,
            format_args!(
                "<text class='n' x='80' y='{base}'>More than 40 pages: show --list tells each.</text>\n"
            ),
        );
    }
    for page in pages {
        if page.is_drawn(window) {
            put_entry(text, top, place_in(window, pages, page), page)?;
        }
    }
    Ok(())
}
