//! Pages that alone need more batches than are allowed.
ghost use Rattle.std.specs.Prelude.{◌≡◌, IfOk};
ghost use Rattle.std.specs.List.{list_any};
ghost use Rattle.pocsag_centre.specs.Oversized.{aside_of, fits_alone, is_parted, planned_of};

use crate::front::FrontAsked;
use pocsag_pages::Page;
use pocsag_words::{BATCH_CODEWORDS, End, FRAMES, OutOfMemory};
use std::alloc::Global;

/// The pages of a page file that are planned, and those that are set aside.
#[derive(Drop)]
pub(crate) struct PageParts {
    pub(crate) planned: Vec<Page>,
    pub(crate) aside: Vec<Page>,
}

/// `--oversized`: divides the pages. Those that alone need more batches than are asked for are set aside, unless all do: then
/// none is, and a plan of them refuses the first page.
pub(crate) fn part_pages(
    alloc: Global,
    asked: FrontAsked,
    queue: Vec<Page>,
) -> Result<PageParts, OutOfMemory>
    ensures planned { IfOk result (λ parted. parted.planned.items ≡ planned_of asked queue.items) }
    ensures aside { IfOk result (λ parted. parted.aside.items ≡ aside_of asked queue.items) }
{
    let mut aside = Vec::new(alloc);
    if !is_parted(asked, queue.as_slice()) {
        return Ok(PageParts {
            planned: queue,
            aside,
        });
    }
    let mut planned = Vec::new(alloc);
    for page in queue {
        if fits_alone(&page, asked.search.end, asked.batches) {
            planned.push(page)?;
        } else {
            aside.push(page)?;
        }
    }
    Ok(PageParts { planned, aside })
}

// Whether pages of these are set aside: that is asked for, and some page fits alone.
fn is_parted(asked: FrontAsked, pages: &[Page]) -> bool
    ensures { result ≡ is_parted asked pages.now }
{
    asked.sets_aside && has_fitting(pages, asked.search.end, asked.batches)
}

fn has_fitting(pages: &[Page], end: End, batches: u32) -> bool
    ensures { result ≡ list_any (fits_alone end batches) pages.now }
{
    pages.iter().any(|page| fits_alone(page, end, batches))
}

// Whether the page alone fits into so many batches.
fn fits_alone(page: &Page, end: End, batches: u32) -> bool
    ensures { result ≡ fits_alone end batches page.now }
{
    let items = page.payload.as_slice().len() as u64;
    let idles = match end {
        End::Open => 0,
        End::Closed => u64::from(items != 0),
        End::Idle => 1,
    };
    let least = u64::from(2 * (page.address % FRAMES as u32)) + 1 + items + idles;
    least <= BATCH_CODEWORDS as u64 * u64::from(batches)
}
