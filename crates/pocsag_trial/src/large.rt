//! Calls at the largest sizes that their limits allow, and those of rounds also at one between.

use crate::kept::Kept;
use crate::line::{Line, show};
use crate::long_file::LongFile;
use crate::pages::example;
use crate::plans::{put_always, put_book_plan, put_counts};
use crate::receivers::IDLE;
use crate::searches::{put_free_search, put_search};
use arrayvec::ArrayString;
use pocsag_batch::{FirstFault, first_stream, lay_in_order, lay_out, order_of, write};
use pocsag_core_cases::rounds::ones;
use pocsag_core_cases::tour_of;
use pocsag_decode::{DecodeFault, Decoder, ListFault, decode, list};
use pocsag_pager::{PagerFault, hear_all};
use pocsag_pages::{Page, Round, RoundFault, SYNC_WORD, read_round};
use pocsag_plan::{Book, OnLimit, PlanFault, Search, StreamFault, plan, plan_stream};
use pocsag_tree::{CertificateFault, depth, nodes, read_certificate};
use pocsag_words::{End, MemorySource, OutOfMemory, Word, address_word, message_word};
use std::alloc::Global;
use std::fmt::Write;
use std::io;

const PAGES: u32 = 20_000;

// The pages of a round at its limit, and of one between.
const SIZES: [u32; 2] = [2_000, PAGES];

const ITEMS: usize = 1_400;

// A round of so many pages of so many items each, for the addresses from 0.
fn many_pages(alloc: Global, count: u32, items: usize) -> Result<Round, OutOfMemory> {
    let mut pages = Vec::new(alloc);
    for address in 0..count {
        pages.push(ones(alloc, address, items)?)?;
    }
    match Round::from_pages(alloc, pages) {
        Ok(round) => Ok(round),
        Err(_) => Err(OutOfMemory),
    }
}

fn copy_long_page(alloc: Global, line: &mut Line) -> Result<(), OutOfMemory> {
    let copy = ones(alloc, 8, ITEMS)?.copy(alloc)?;
    line.put(copy.payload.as_slice().len());
    Ok(())
}

/// The tour of 2,000 tones and of 20,000 that all start early, their order and their layout.
fn tour_many_tones(alloc: Global, line: &mut Line) -> Result<(), OutOfMemory> {
    for count in SIZES {
        let round = many_pages(alloc, count, 0)?;
        let Ok(steps) = tour_of(alloc, &round, None, 2_500, End::Open) else {
            return Err(OutOfMemory);
        };
        line.put(steps.len());
        line.put(order_of(alloc, &round, steps.as_slice(), End::Open)?.len());
        line.put(lay_out(alloc, &round, steps.as_slice(), End::Open)?.count());
    }
    Ok(())
}

/// The tour of 20,000 tones of frame 0 that all start early, one to a batch: no round has a tour of more steps.
fn tour_longest_segments(alloc: Global, line: &mut Line) -> Result<(), OutOfMemory> {
    let mut pages = Vec::new(alloc);
    for place in 0..PAGES {
        pages.push(ones(alloc, 8 * place, 0)?)?;
    }
    let Ok(round) = Round::from_pages(alloc, pages) else {
        return Err(OutOfMemory);
    };
    match tour_of(alloc, &round, None, PAGES, End::Open) {
        Ok(steps) => line.put(steps.len()),
        Err(_) => return Err(OutOfMemory),
    }
    Ok(())
}

// So many batches that each begin with a tone and are idle from there on.
fn tone_batches(alloc: Global, count: usize) -> Result<Vec<u8>, OutOfMemory> {
    let mut bytes = Vec::new(alloc);
    for _ in 0..count {
        put_words(&mut bytes, address_word(1, 0), address_word(1, 0), 1)?;
    }
    Ok(bytes)
}

/// The greatest transmission, 3,947,579 batches with a tone in each, in pieces: how many pages were fed.
fn feed_greatest(alloc: Global, line: &mut Line) -> Result<(), OutOfMemory> {
    let mut decoder = Decoder::new(alloc);
    let many = tone_batches(alloc, 1_000)?;
    let rest = tone_batches(alloc, 579)?;
    match feed_all(&mut decoder, many.as_slice(), rest.as_slice()) {
        Ok(pages) => line.put(pages.len()),
        Err(DecodeFault::OutOfMemory) => return Err(OutOfMemory),
        Err(fault) => line.put(fault),
    }
    Ok(())
}

fn feed_all(decoder: &mut Decoder, many: &[u8], rest: &[u8]) -> Result<Vec<Page>, DecodeFault> {
    decoder.feed(&[0xaa; 72])?;
    for _ in 0..3_947 {
        decoder.feed(many)?;
    }
    decoder.feed(rest)?;
    decoder.finish()
}

// The bytes of the round in file order.
fn bytes_of(alloc: Global, round: &Round) -> Result<Kept, OutOfMemory> {
    let batches = lay_in_order(alloc, round)?;
    let mut kept = Kept::new(alloc);
    match write(&batches, &mut kept) {
        Ok(()) => Ok(kept),
        Err(_) => Err(OutOfMemory),
    }
}

fn put_listed(
    listed: Result<(), ListFault>,
    kept: &Kept,
    line: &mut Line,
) -> Result<(), OutOfMemory> {
    match listed {
        Ok(()) => line.put(kept.bytes().len()),
        Err(ListFault::OutOfMemory) => return Err(OutOfMemory),
        Err(fault) => line.put(fault),
    }
    Ok(())
}

fn put_heard(heard: Result<Vec<Page>, PagerFault>, line: &mut Line) -> Result<(), OutOfMemory> {
    match heard {
        Ok(pages) => {
            for page in pages.as_slice() {
                line.put(page.address);
                line.put(page.payload.as_slice().len());
            }
        }
        Err(PagerFault::OutOfMemory) => return Err(OutOfMemory),
        Err(fault) => line.put(fault),
    }
    Ok(())
}

/// A long round and the longest one.
fn send_long_pages(alloc: Global, line: &mut Line) -> Result<(), OutOfMemory> {
    for count in SIZES {
        put_sent(alloc, count, line)?;
    }
    Ok(())
}

// So many long pages in file order: how many bytes are written, whether they are decoded to the pages, how many bytes
// the listing of these has, and what the pager of the last page shows.
fn put_sent(alloc: Global, count: u32, line: &mut Line) -> Result<(), OutOfMemory> {
    let round = many_pages(alloc, count, ITEMS)?;
    let sent = bytes_of(alloc, &round)?;
    line.put(sent.bytes().len());
    match decode(alloc, sent.bytes()) {
        Ok(pages) => {
            line.put(pages.as_slice() == round.pages());
            let mut kept = Kept::new(alloc);
            let listed = list(alloc, pages.as_slice(), &mut kept);
            put_listed(listed, &kept, line)?;
        }
        Err(DecodeFault::OutOfMemory) => return Err(OutOfMemory),
        Err(fault) => line.put(fault),
    }
    put_heard(hear_all(alloc, sent.bytes(), count.saturating_sub(1)), line)
}

// So many codewords that begin with this address codeword, and idles up to the end of the batch.
fn put_words(
    bytes: &mut Vec<u8>,
    first: Word,
    other: Word,
    count: usize,
) -> Result<(), OutOfMemory> {
    for place in 0..count {
        if place % 16 == 0 {
            put(bytes, &SYNC_WORD.to_be_bytes())?;
        }
        let word = if place == 0 { first } else { other };
        put(bytes, &word.raw().to_be_bytes())?;
    }
    for _idle in 0..(16 - count % 16) % 16 {
        put(bytes, &IDLE.to_be_bytes())?;
    }
    Ok(())
}

// How many pages are decoded, and how many bytes their listing has; then what the pager of an address shows.
fn put_received(
    alloc: Global,
    bytes: &[u8],
    address: u32,
    line: &mut Line,
) -> Result<(), OutOfMemory> {
    match decode(alloc, bytes) {
        Ok(pages) => {
            line.put(pages.len());
            let mut kept = Kept::new(alloc);
            let listed = list(alloc, pages.as_slice(), &mut kept);
            put_listed(listed, &kept, line)?;
        }
        Err(DecodeFault::OutOfMemory) => return Err(OutOfMemory),
        Err(fault) => line.put(fault),
    }
    put_heard(hear_all(alloc, bytes, address), line)
}

// The transmission of pages by the high bits of their address, which lies in frame 0, their function and their
// number of items; each begins a batch.
fn data_pages(alloc: Global, pages: &[(u32, u8, usize)]) -> Result<Vec<u8>, OutOfMemory> {
    let mut bytes = Vec::new(alloc);
    put(&mut bytes, &[0xaa; 72])?;
    let item = message_word(0x84c2a);
    for (high, function, items) in pages.iter().copied() {
        if high < 262_144 && function < 4 && items < 2_000 {
            put_words(&mut bytes, address_word(high, function), item, items + 1)?;
        }
    }
    Ok(bytes)
}

/// Pages of 1,400 items and of one more for the functions that report their items, decoded, listed and heard, and
/// one of 1,401 items for function 3, heard alone.
fn receive_long_data(alloc: Global, line: &mut Line) -> Result<(), OutOfMemory> {
    let pages = [(1, 1, 1_400), (2, 1, 1_401), (3, 2, 1_400), (4, 2, 1_401)];
    put_received(alloc, data_pages(alloc, &pages)?.as_slice(), 16, line)?;
    let letters = data_pages(alloc, &[(6, 3, 1_401)])?;
    put_heard(hear_all(alloc, letters.as_slice(), 48), line)
}

/// A transmission of 20,001 tones, one page more than a round may have.
fn receive_many_tones(alloc: Global, line: &mut Line) -> Result<(), OutOfMemory> {
    let mut bytes = Vec::new(alloc);
    put(&mut bytes, &[0xaa; 72])?;
    let tone = address_word(1, 0);
    put_words(&mut bytes, tone, tone, 20_001)?;
    match hear_all(alloc, bytes.as_slice(), 8) {
        Ok(pages) => line.put(pages.len()),
        Err(PagerFault::OutOfMemory) => return Err(OutOfMemory),
        Err(fault) => line.put(fault),
    }
    put_received(alloc, bytes.as_slice(), 16, line)
}

// A page file of so many tones, for the addresses from 0.
fn tone_file(alloc: Global, count: u32) -> Result<Vec<u8>, OutOfMemory> {
    let mut bytes = Vec::new(alloc);
    put(&mut bytes, b"address,kind,message\n")?;
    for address in 0..count {
        let mut record = ArrayString::<20>::new();
        let _ = writeln!(record, "{address},tone0,");
        put(&mut bytes, record.as_str().as_bytes())?;
    }
    Ok(bytes)
}

/// The page files of 2,000 tones and of 20,000 in file order, and that of one more: the batches or the fault, and how
/// many bytes are written.
fn stream_many_tones(alloc: Global, line: &mut Line) -> Result<(), OutOfMemory> {
    for count in [2_000, PAGES, PAGES + 1] {
        let file = tone_file(alloc, count)?;
        let mut source = MemorySource::new(file.as_slice(), 65_536, u64::MAX);
        let mut tx = Kept::new(alloc);
        match first_stream(alloc, &mut source, &mut tx) {
            Ok(batches) => line.put(batches),
            Err(FirstFault::OutOfMemory | FirstFault::Round(RoundFault::OutOfMemory)) => {
                return Err(OutOfMemory);
            }
            Err(fault) => line.put(fault),
        }
        line.put(tx.bytes().len());
    }
    Ok(())
}

/// A page file of 268,435,456 bytes, and the faults of one with a byte more.
fn read_largest(alloc: Global, line: &mut Line) -> Result<(), OutOfMemory> {
    for length in [268_435_456, 268_435_457] {
        match read_round(alloc, &mut LongFile::new(length)) {
            Ok(round) => line.put(round.pages().len()),
            Err(RoundFault::OutOfMemory) => return Err(OutOfMemory),
            Err(fault) => line.put(fault),
        }
    }
    let mut tx = Kept::new(alloc);
    match first_stream(alloc, &mut LongFile::new(268_435_457), &mut tx) {
        Ok(batches) => line.put(batches),
        Err(fault) => line.put(fault),
    }
    Ok(())
}

// An overload at the set of slot 0.
const LEAF: &[u8; 3] = b"\x00\x00\x01";

fn put(bytes: &mut Vec<u8>, part: &[u8]) -> Result<(), OutOfMemory> {
    match bytes.extend_from_slice(part) {
        Ok(()) => Ok(()),
        Err(_) => Err(OutOfMemory),
    }
}

// So many cuts of 288 children, each the last child of the one before, all other children leaves.
fn put_cuts(bytes: &mut Vec<u8>, cuts: u32) -> Result<(), OutOfMemory> {
    for _cut in 0..cuts {
        put(bytes, b"\x02\x00\x01\x00\x01\x20")?;
        for _leaf in 0..287 {
            put(bytes, LEAF)?;
        }
    }
    put(bytes, LEAF)
}

// A certificate of 64 + 288 * (7 * 56 + 56 * 55) nodes, which are 1,000,000.
fn many_nodes(alloc: Global) -> Result<Vec<u8>, OutOfMemory> {
    let mut bytes = Vec::new(alloc);
    put(
        &mut bytes,
        b"PCB2\x00\x00\x00\x00\x02\x02\x00\x01\x00\x00\x3f",
    )?;
    for child in 0..63 {
        put_cuts(&mut bytes, if child < 7 { 56 } else { 55 })?;
    }
    Ok(bytes)
}

fn read_many_nodes(alloc: Global, line: &mut Line) -> Result<(), OutOfMemory> {
    let bytes = many_nodes(alloc)?;
    let mut source = MemorySource::new(bytes.as_slice(), 4_096, u64::MAX);
    match read_certificate(alloc, &mut source) {
        Ok(certificate) => {
            line.put(nodes(&certificate.tree));
            line.put(depth(&certificate.tree));
        }
        Err(CertificateFault::OutOfMemory) => return Err(OutOfMemory),
        Err(_) => line.put("not read"),
    }
    Ok(())
}

const NODE_LIMIT: u32 = 1_000_000;

// Pages for which the tree of the search has more than a million nodes.
const EIGHT_PAGES: [(u32, usize); 8] = [
    (0, 20),
    (8, 28),
    (2, 30),
    (3, 23),
    (6, 14),
    (1, 30),
    (5, 14),
    (4, 13),
];

/// The search and the free search of 2,000 tones and of 20,000, which fill 125 batches and 1,250.
fn search_many_tones(alloc: Global, line: &mut Line) -> Result<(), OutOfMemory> {
    for count in SIZES {
        let round = many_pages(alloc, count, 0)?;
        put_search(alloc, &round, NODE_LIMIT, End::Closed, line)?;
        put_free_search(alloc, &round, NODE_LIMIT, line)?;
    }
    Ok(())
}

/// A search that stops at the greatest node limit.
fn search_many_nodes(alloc: Global, line: &mut Line) -> Result<(), OutOfMemory> {
    put_search(
        alloc,
        &example(alloc, &EIGHT_PAGES)?,
        NODE_LIMIT,
        End::Open,
        line,
    )
}

/// The plans of 2,000 pages and of 20,000, each of 1,400 items.
fn plan_long_pages(alloc: Global, line: &mut Line) -> Result<(), OutOfMemory> {
    for count in SIZES {
        put_plans(alloc, count, line)?;
    }
    Ok(())
}

// The plan of so many pages for the closed end, with how many places its order has, and the one that is never refused for
// the open end, with its bound.
fn put_plans(alloc: Global, count: u32, line: &mut Line) -> Result<(), OutOfMemory> {
    let round = many_pages(alloc, count, ITEMS)?;
    match plan(alloc, &round, NODE_LIMIT, End::Closed) {
        Ok(plan) => {
            put_counts(&plan, line);
            line.put(plan.order.len());
        }
        Err(PlanFault::OutOfMemory) => return Err(OutOfMemory),
        Err(fault) => line.put(fault),
    }
    put_always(alloc, &round, NODE_LIMIT, line)
}

/// Open rounds of 2,000 tones and of 20,000, and the fault of one more.
fn plan_full_book(alloc: Global, line: &mut Line) -> Result<(), OutOfMemory> {
    for count in SIZES {
        put_book(alloc, count, line)?;
    }
    Ok(())
}

// An open round of so many tones, its plan, its streams, and what comes of one tone more.
fn put_book(alloc: Global, count: u32, line: &mut Line) -> Result<(), OutOfMemory> {
    let mut book = Book::new(alloc);
    for address in 0..count {
        if book.add(ones(alloc, address, 0)?).is_err() {
            return Err(OutOfMemory);
        }
    }
    put_book_plan(&book, End::Open, line)?;
    put_book_stream(alloc, &book, OnLimit::Fewest, line)?;
    put_book_stream(alloc, &book, OnLimit::Always, line)?;
    match book.add(ones(alloc, count, 0)?) {
        Ok(()) => line.put("added"),
        Err(refused) => line.put(refused.fault),
    }
    Ok(())
}

// The stream of an open round: its batches, and how many bytes the transmission and the certificate have.
fn put_book_stream(
    alloc: Global,
    book: &Book,
    on_limit: OnLimit,
    line: &mut Line,
) -> Result<(), OutOfMemory> {
    let mut tx = Kept::new(alloc);
    let mut cert = Kept::new(alloc);
    let search = Search {
        limit: NODE_LIMIT,
        end: End::Open,
        on_limit,
    };
    match book.bounded_stream(&mut tx, &mut cert, search) {
        Ok(bounded) => line.put(bounded.plan.batches),
        Err(StreamFault::Plan(PlanFault::OutOfMemory)) => return Err(OutOfMemory),
        Err(fault) => line.put(fault),
    }
    line.put(tx.bytes().len());
    line.put(cert.bytes().len());
    Ok(())
}

// A record of a page of 4,000 characters, which are 1,400 items.
fn put_long_record(bytes: &mut Vec<u8>, address: u32) -> Result<(), OutOfMemory> {
    let mut start = ArrayString::<20>::new();
    let _ = write!(start, "{address},alpha,");
    put(bytes, start.as_str().as_bytes())?;
    for _ in 0..40 {
        put(bytes, &[b'A'; 100])?;
    }
    put(bytes, b"\n")
}

// A page file of 20,000 pages of 1,400 items each.
fn long_page_file(alloc: Global) -> Result<Vec<u8>, OutOfMemory> {
    let mut bytes = Vec::new(alloc);
    put(&mut bytes, b"address,kind,message\n")?;
    for address in 0..PAGES {
        put_long_record(&mut bytes, address)?;
    }
    Ok(bytes)
}

/// The longest page file from end to end: the counts of its plan, and how many bytes are written.
fn stream_long_pages(alloc: Global, line: &mut Line) -> Result<(), OutOfMemory> {
    let file = long_page_file(alloc)?;
    let mut source = MemorySource::new(file.as_slice(), 65_536, u64::MAX);
    let mut tx = Kept::new(alloc);
    let mut cert = Kept::new(alloc);
    match plan_stream(
        alloc,
        &mut source,
        &mut tx,
        &mut cert,
        NODE_LIMIT,
        End::Open,
    ) {
        Ok(plan) => put_counts(&plan, line),
        Err(
            StreamFault::Plan(PlanFault::OutOfMemory) | StreamFault::Round(RoundFault::OutOfMemory),
        ) => {
            return Err(OutOfMemory);
        }
        Err(fault) => line.put(fault),
    }
    line.put(tx.bytes().len());
    line.put(cert.bytes().len());
    Ok(())
}

pub fn show_all<R: AllocGlobal + Print>(rt: &R) -> io::Result<()> {
    show(rt, "Page::copy of 1,400 items", copy_long_page)?;
    show(
        rt,
        "tour, order_of and lay_out of 2,000 and 20,000 tones",
        tour_many_tones,
    )?;
    show(
        rt,
        "tour of 20,000 tones of one frame",
        tour_longest_segments,
    )?;
    show(rt, "feed and finish of 3,947,579 batches", feed_greatest)?;
    show(
        rt,
        "write, decode, list and hear_all of 2,000 and 20,000 pages of 1,400 items",
        send_long_pages,
    )?;
    show(
        rt,
        "decode, list and hear_all of pages of 1,400 and 1,401 items",
        receive_long_data,
    )?;
    show(
        rt,
        "hear_all, decode and list of 20,001 tones",
        receive_many_tones,
    )?;
    show(
        rt,
        "first_stream of 2,000 and 20,000 tones, and of one more",
        stream_many_tones,
    )?;
    show(
        rt,
        "read_round of 268,435,456 bytes, and with first_stream of one more",
        read_largest,
    )?;
    show(rt, "read_certificate of 1,000,000 nodes", read_many_nodes)?;
    show(
        rt,
        "search and search_freely of 2,000 and 20,000 tones",
        search_many_tones,
    )?;
    show(
        rt,
        "search of eight pages to 1,000,000 nodes",
        search_many_nodes,
    )?;
    show(
        rt,
        "plan and bounded_plan of 2,000 and 20,000 pages of 1,400 items",
        plan_long_pages,
    )?;
    show(
        rt,
        "a book of 2,000 and 20,000 tones, and its plans",
        plan_full_book,
    )?;
    show(
        rt,
        "plan_stream of 20,000 pages of 1,400 items",
        stream_long_pages,
    )
}
