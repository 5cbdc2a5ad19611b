use crate::line::{Line, show};
use pocsag_core_cases::rounds::{TIGHT, ones, round_of};
use pocsag_pages::{Page, Payload, Round, RoundFault, WholeFault, read_round, read_whole};
use pocsag_words::{MemorySource, OutOfMemory};
use std::alloc::Global;
use std::io;

pub const LONE_TONE: &[u8; 30] = b"address,kind,message\n8,tone0,\n";

fn show_round(round: Result<Round, RoundFault>, line: &mut Line) -> Result<(), OutOfMemory> {
    match round {
        Ok(round) => line.put_pages(round.pages()),
        Err(RoundFault::OutOfMemory) => return Err(OutOfMemory),
        Err(fault) => line.put(fault),
    }
    Ok(())
}

/// Pages for which the tree of the search has 159 nodes.
pub const FOUR_PAGES: [(u32, usize); 4] = [(5, 8), (1, 12), (7, 14), (6, 13)];

/// The round of an example.
pub fn example(alloc: Global, pages: &[(u32, usize)]) -> Result<Round, OutOfMemory> {
    match round_of(alloc, pages) {
        Ok(round) => Ok(round),
        Err(_) => Err(OutOfMemory),
    }
}

fn read_lone_tone_whole(alloc: Global, line: &mut Line) -> Result<(), OutOfMemory> {
    let mut source = MemorySource::new(LONE_TONE, 7, 1000);
    match read_whole(alloc, &mut source, 30) {
        Ok(bytes) => line.put_bytes(bytes.as_slice()),
        Err(WholeFault::OutOfMemory) => return Err(OutOfMemory),
        Err(fault) => line.put(fault),
    }
    Ok(())
}

fn read_lone_tone(alloc: Global, line: &mut Line) -> Result<(), OutOfMemory> {
    let mut source = MemorySource::new(LONE_TONE, 7, 1000);
    show_round(read_round(alloc, &mut source), line)
}

fn show_copy(page: &Page, alloc: Global, line: &mut Line) -> Result<(), OutOfMemory> {
    let copy = page.copy(alloc)?;
    line.put_page(&copy);
    Ok(())
}

fn copy_lone_tone(alloc: Global, line: &mut Line) -> Result<(), OutOfMemory> {
    show_copy(&ones(alloc, 8, 0)?, alloc, line)
}

fn copy_five_digits(alloc: Global, line: &mut Line) -> Result<(), OutOfMemory> {
    let page = Page {
        address: 0,
        function: 0,
        payload: Payload::from_vec(Vec::from_slice(alloc, &[0x84c2a])?),
    };
    show_copy(&page, alloc, line)
}

fn round_of_open_round(alloc: Global, line: &mut Line) -> Result<(), OutOfMemory> {
    show_round(round_of(alloc, &[(8, 0), (16, 0)]), line)
}

fn round_of_tight_pages(alloc: Global, line: &mut Line) -> Result<(), OutOfMemory> {
    show_round(round_of(alloc, TIGHT), line)
}

pub fn show_all<R: AllocGlobal + Print>(rt: &R) -> io::Result<()> {
    show(rt, "read_whole of lone-tone", read_lone_tone_whole)?;
    show(rt, "read_round of lone-tone", read_lone_tone)?;
    show(rt, "Page::copy of lone-tone", copy_lone_tone)?;
    show(rt, "Page::copy of five-digits", copy_five_digits)?;
    show(rt, "Round::from_pages of open-round", round_of_open_round)?;
    show(
        rt,
        "Round::from_pages of three-pages-tight",
        round_of_tight_pages,
    )
}
