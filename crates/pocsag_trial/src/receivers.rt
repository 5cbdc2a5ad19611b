use crate::line::{Line, show};
use pocsag_decode::{DecodeFault, Decoder, ListFault, decode, list};
use pocsag_pager::{Pager, PagerFault, hear_all};
use pocsag_pages::{Page, SYNC_WORD};
use pocsag_words::{MemorySink, OutOfMemory};
use std::alloc::Global;
use std::io;

pub const IDLE: u32 = 0x7a89_c197;

/// The bytes of two batches of these codewords.
pub fn two_batches(words: &[u32; 32]) -> [u8; 208] {
    let mut bytes = [0xaa; 208];
    for batch in 0..2 {
        let start = 72 + 68 * batch;
        bytes[start..start + 4].copy_from_slice(&SYNC_WORD.to_be_bytes());
        for slot in 0..16 {
            let at = start + 4 + 4 * slot;
            bytes[at..at + 4].copy_from_slice(&words[16 * batch + slot].to_be_bytes());
        }
    }
    bytes
}

// One page, 12345 for address 7, across two batches.
fn page_across_batches() -> [u8; 208] {
    let mut words = [IDLE; 32];
    words[15] = 0;
    words[16] = 0xc261_572c;
    two_batches(&words)
}

fn show_decoded(
    decoded: Result<Vec<Page>, DecodeFault>,
    line: &mut Line,
) -> Result<(), OutOfMemory> {
    match decoded {
        Ok(pages) => line.put_pages(pages.as_slice()),
        Err(DecodeFault::OutOfMemory) => return Err(OutOfMemory),
        Err(fault) => line.put(fault),
    }
    Ok(())
}

fn decode_whole(alloc: Global, line: &mut Line) -> Result<(), OutOfMemory> {
    show_decoded(decode(alloc, page_across_batches().as_slice()), line)
}

// Feeds one byte after the other; after a fault the decoder answers `Failed`.
fn decode_bytes(alloc: Global, line: &mut Line) -> Result<(), OutOfMemory> {
    let mut decoder = Decoder::new(alloc);
    for byte in page_across_batches() {
        match decoder.feed(&[byte]) {
            Ok(()) => {}
            Err(DecodeFault::OutOfMemory) => {
                return if decoder.feed(&[]) == Err(DecodeFault::Failed) {
                    Err(OutOfMemory)
                } else {
                    line.put("not failed");
                    Ok(())
                };
            }
            Err(fault) => line.put(fault),
        }
    }
    show_decoded(decoder.finish(), line)
}

fn list_decoded(alloc: Global, line: &mut Line) -> Result<(), OutOfMemory> {
    show_list(alloc, page_across_batches().as_slice(), line)
}

// The listing of the pages of a transmission.
fn show_list(alloc: Global, bytes: &[u8], line: &mut Line) -> Result<(), OutOfMemory> {
    let pages = match decode(alloc, bytes) {
        Ok(pages) => pages,
        Err(DecodeFault::OutOfMemory) => return Err(OutOfMemory),
        Err(fault) => {
            line.put(fault);
            return Ok(());
        }
    };
    let mut sink = MemorySink::<100>::new(7, 1000);
    match list(alloc, pages.as_slice(), &mut sink) {
        Ok(()) => line.put_bytes(sink.bytes()),
        Err(ListFault::OutOfMemory) if sink.bytes().is_empty() => return Err(OutOfMemory),
        Err(fault) => line.put(fault),
    }
    Ok(())
}

fn hear_whole(alloc: Global, line: &mut Line) -> Result<(), OutOfMemory> {
    show_heard(hear_all(alloc, page_across_batches().as_slice(), 7), line)
}

/// `wrong-bit-in-idle`: one tone, with two wrong bits in the idle behind it.
fn hear_damaged(alloc: Global, line: &mut Line) -> Result<(), OutOfMemory> {
    let mut words = [IDLE; 32];
    words[0] = TONE;
    words[1] = 0x7a89_c194;
    let bytes = two_batches(&words);
    let (first, _second) = bytes.as_slice().split_at(140);
    show_heard(hear_all(alloc, first, 8), line)
}

fn show_heard(heard: Result<Vec<Page>, PagerFault>, line: &mut Line) -> Result<(), OutOfMemory> {
    match heard {
        Ok(pages) => line.put_pages(pages.as_slice()),
        Err(PagerFault::OutOfMemory) => return Err(OutOfMemory),
        Err(fault) => line.put(fault),
    }
    Ok(())
}

// Two batches of idles and of these codewords by place, and what is asked of them.
#[derive(Clone, Copy)]
struct Received {
    name: &'static str,
    words: &'static [(usize, u32)],
    // The address of a pager, or none where the pages are listed.
    pager: Option<u32>,
}

// The address codewords of addresses 8 to 15, by function.
const TONE: u32 = 0x26ec;

const DATA1: u32 = 0x283f;

const DATA2: u32 = 0x359a;

const ALPHA: u32 = 0x3b49;

// The message codewords of `12345` and of `11111`.
const DIGITS: u32 = 0xc261_572c;

const ONES: u32 = 0xc444_47b9;

const RECEIVED: [Received; 5] = [
    Received {
        name: "hear_all of three pages to one address",
        words: &[
            (0, TONE),
            (1, TONE),
            (16, TONE),
            (17, ONES),
            (18, ONES),
            (19, ONES),
        ],
        pager: Some(8),
    },
    Received {
        name: "hear_all of four pages to one address",
        words: &[
            (0, TONE),
            (1, TONE),
            (15, DATA1),
            (16, TONE),
            (17, TONE),
            (18, ONES),
            (19, ONES),
        ],
        pager: Some(8),
    },
    Received {
        name: "hear_all of a page of function 3",
        words: &[(0, ALPHA), (1, 0xc143_87b8), (2, 0xc000_04dc)],
        pager: Some(8),
    },
    Received {
        name: "list of data1 and data2",
        words: &[(0, DATA1), (1, DIGITS), (2, ONES), (4, DATA2), (5, DIGITS)],
        pager: None,
    },
    Received {
        name: "list of data2 behind three tones",
        words: &[(0, TONE), (2, TONE), (4, TONE), (6, DATA2), (7, DIGITS)],
        pager: None,
    },
];

// What is received of the codewords.
fn receive(alloc: Global, received: &Received, line: &mut Line) -> Result<(), OutOfMemory> {
    let mut words = [IDLE; 32];
    for (place, word) in received.words {
        if *place < 32 {
            words[*place] = *word;
        }
    }
    let bytes = two_batches(&words);
    match received.pager {
        Some(address) => show_heard(hear_all(alloc, &bytes, address), line),
        None => show_list(alloc, &bytes, line),
    }
}

fn put_heard(heard: Option<Page>, line: &mut Line) {
    if let Some(page) = heard {
        line.put_page(&page);
    }
}

// Hears one word after the other; after want of memory the pager answers `Failed`.
fn hear_words(alloc: Global, line: &mut Line) -> Result<(), OutOfMemory> {
    let mut pager = match Pager::new(alloc, 8) {
        Ok(pager) => pager,
        Err(fault) => {
            line.put(fault);
            return Ok(());
        }
    };
    for word in [SYNC_WORD, 0x26ec, 0xc261_572c, 0x7a89_c194, IDLE, IDLE] {
        match pager.hear(word) {
            Ok(heard) => put_heard(heard, line),
            Err(PagerFault::OutOfMemory) => {
                return match pager.end() {
                    Err(PagerFault::Failed) => Err(OutOfMemory),
                    _ => {
                        line.put("not failed");
                        Ok(())
                    }
                };
            }
            Err(fault) => line.put(fault),
        }
    }
    if let Ok(heard) = pager.end() {
        put_heard(heard, line);
    }
    Ok(())
}

pub fn show_all<R: AllocGlobal + Print>(rt: &R) -> io::Result<()> {
    show(rt, "decode of page-across-batches", decode_whole)?;
    show(rt, "feed and finish of page-across-batches", decode_bytes)?;
    show(rt, "list of page-across-batches", list_decoded)?;
    show(rt, "hear_all of page-across-batches", hear_whole)?;
    show(rt, "hear_all of wrong-bit-in-idle", hear_damaged)?;
    show(rt, "hear and end of wrong-bit-in-idle", hear_words)?;
    for received in &RECEIVED {
        show(
            rt,
            received.name,
            |alloc, line| receive(alloc, received, line),
        )?;
    }
    Ok(())
}
