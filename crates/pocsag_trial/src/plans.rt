//! Plans of worked examples, as calls and as streams, and open rounds.

use crate::line::{Line, show};
use crate::pages::{FOUR_PAGES, example};
use pocsag_core_cases::rounds::{TIGHT, ones};
use pocsag_pages::{Round, RoundFault};
use pocsag_plan::{
    AddFault, Book, BookFault, BoundedPlan, OnLimit, Plan, PlanFault, Search, StreamFault,
    bounded_plan, plan, plan_stream, plan_stream_always,
};
use pocsag_slots::Classes;
use pocsag_words::{End, MemorySink, MemorySource, OutOfMemory};
use std::alloc::Global;
use std::io;

const LIMIT: u32 = 100_000;

const TWO_NUMERIC: &[u8] = b"address,kind,message\n\
    0,numeric,1111111111111111111111111\n\
    3,numeric,111111111111111111111111111111111111111111111\n";

const LOOPS_APART: &[u8] = b"address,kind,message\n\
    0,numeric,111111111111111111111111111111111111111111111111111111111111111111111111111\n\
    3,numeric,111111111111111111111111111111111111111111111111111111111111111111111111111\n";

const CLOSED_BOTH_WAYS: &[u8] = b"address,kind,message\n\
    0,numeric,11111111111111111111111111111111111111111111111111111111111111111\n\
    7,tone0,\n\
    15,numeric,1111111111\n\
    1,numeric,11111111111111111111111111111111111111111111111111111111111111111\n";

/// The counts of a plan.
pub fn put_counts(plan: &Plan, line: &mut Line) {
    line.put(plan.pages);
    line.put(plan.codewords);
    line.put(plan.in_order);
    line.put(plan.batches);
}

fn show_plan(alloc: Global, pages: &[(u32, usize)], line: &mut Line) -> Result<(), OutOfMemory> {
    let round = example(alloc, pages)?;
    match plan(alloc, &round, LIMIT, End::Open) {
        Ok(plan) => {
            put_counts(&plan, line);
            line.put_places(plan.order.as_slice());
        }
        Err(PlanFault::OutOfMemory) => return Err(OutOfMemory),
        Err(fault) => line.put(fault),
    }
    Ok(())
}

// The bound of a plan, and then its counts.
fn put_bounded(bounded: &BoundedPlan, line: &mut Line) {
    line.put(bounded.bound);
    put_counts(&bounded.plan, line);
}

/// What the plan that is never refused answers for the round, with the open end.
pub fn put_always(
    alloc: Global,
    round: &Round,
    limit: u32,
    line: &mut Line,
) -> Result<(), OutOfMemory> {
    let search = Search {
        limit,
        end: End::Open,
        on_limit: OnLimit::Always,
    };
    match bounded_plan(alloc, round, search) {
        Ok(bounded) => put_bounded(&bounded, line),
        Err(PlanFault::OutOfMemory) => return Err(OutOfMemory),
        Err(fault) => line.put(fault),
    }
    Ok(())
}

// What a stream answers, and behind it all that was written, which has to be nothing where memory is wanting.
fn put_stream(
    answer: Result<Plan, StreamFault>,
    tx: &MemorySink<300>,
    cert: &MemorySink<40>,
    line: &mut Line,
) {
    match answer {
        Ok(plan) => put_counts(&plan, line),
        Err(StreamFault::Round(RoundFault::OutOfMemory)) => line.put("out of memory in the round"),
        Err(fault) => line.put(fault),
    }
    line.put_bytes(cert.bytes());
    line.put_bytes(tx.bytes());
}

fn show_stream(alloc: Global, pages: &[u8], end: End, line: &mut Line) -> Result<(), OutOfMemory> {
    let mut source = MemorySource::new(pages, 50, 1000);
    let mut tx = MemorySink::<300>::new(64, 1000);
    let mut cert = MemorySink::<40>::new(7, 1000);
    let answer = plan_stream(alloc, &mut source, &mut tx, &mut cert, LIMIT, end);
    put_stream(answer, &tx, &cert, line);
    Ok(())
}

// The same of a stream that no round is refused, with the bound before the counts.
fn put_bounded_stream(
    answer: Result<BoundedPlan, StreamFault>,
    tx: &MemorySink<300>,
    cert: &MemorySink<40>,
    line: &mut Line,
) {
    let answer = match answer {
        Ok(bounded) => {
            line.put(bounded.bound);
            Ok(bounded.plan)
        }
        Err(fault) => Err(fault),
    };
    put_stream(answer, tx, cert, line);
}

fn show_stream_always(
    alloc: Global,
    pages: &[u8],
    limit: u32,
    line: &mut Line,
) -> Result<(), OutOfMemory> {
    let mut source = MemorySource::new(pages, 50, 1000);
    let mut tx = MemorySink::<300>::new(64, 1000);
    let mut cert = MemorySink::<40>::new(7, 1000);
    let answer = plan_stream_always(alloc, &mut source, &mut tx, &mut cert, limit, End::Open);
    put_bounded_stream(answer, &tx, &cert, line);
    Ok(())
}

fn show_book_of_tight(alloc: Global, line: &mut Line) -> Result<(), OutOfMemory> {
    let round = example(alloc, TIGHT)?;
    let book = Book::of_round(alloc, &round)?;
    line.put_pages(book.pages());
    Ok(())
}

// Adds a tone. Where memory is wanting, the book and its tables have to be as they were, and the page that
// is handed back is added by the next call.
fn add_tone(
    alloc: Global,
    book: &mut Book,
    address: u32,
    line: &mut Line,
) -> Result<(), OutOfMemory> {
    let page = ones(alloc, address, 0)?;
    let before = tables_of(book);
    let Err(refused) = book.add(page) else {
        line.put("added");
        return Ok(());
    };
    if tables_of(book) != before {
        line.put("changed");
    } else if refused.fault == AddFault::OutOfMemory {
        return if book.add(refused.page).is_ok() {
            Err(OutOfMemory)
        } else {
            line.put("refused again");
            Ok(())
        };
    }
    line.put(refused.fault);
    Ok(())
}

// How many pages there are, and the two tables.
fn tables_of(book: &Book) -> (usize, Classes, Classes) {
    (
        book.len(),
        *book.classes(End::Open),
        *book.classes(End::Closed),
    )
}

fn show_added(alloc: Global, line: &mut Line) -> Result<(), OutOfMemory> {
    let mut book = Book::new(alloc);
    for address in [8, 16, 8] {
        add_tone(alloc, &mut book, address, line)?;
    }
    line.put_pages(book.pages());
    Ok(())
}

// A book of tones for these addresses.
fn tones(alloc: Global, addresses: &[u32]) -> Result<Book, OutOfMemory> {
    let mut book = Book::new(alloc);
    for address in addresses {
        if book.add(ones(alloc, *address, 0)?).is_err() {
            return Err(OutOfMemory);
        }
    }
    Ok(book)
}

/// What the plan of the open round answers.
pub fn put_book_plan(book: &Book, end: End, line: &mut Line) -> Result<(), OutOfMemory> {
    match book.plan(LIMIT, end) {
        Ok(plan) => put_counts(&plan, line),
        Err(BookFault::Plan(PlanFault::OutOfMemory)) => return Err(OutOfMemory),
        Err(fault) => line.put(fault),
    }
    Ok(())
}

// The plan of what is left after the first page was cancelled, and of what is left then.
fn show_open_round(alloc: Global, line: &mut Line) -> Result<(), OutOfMemory> {
    let mut book = tones(alloc, &[8, 16])?;
    for address in [8, 16] {
        line.put(book.cancel(address).is_ok());
        put_book_plan(&book, End::Open, line)?;
    }
    Ok(())
}

fn show_kept_table(alloc: Global, line: &mut Line) -> Result<(), OutOfMemory> {
    let mut book = tones(alloc, &[5, 13, 21])?;
    line.put(book.classes(End::Open).count[81]);
    line.put(book.classes(End::Closed).count[133]);
    put_book_plan(&book, End::Open, line)?;
    line.put(book.cancel(13).is_ok());
    line.put(book.classes(End::Open).count[81]);
    put_book_plan(&book, End::Closed, line)
}

fn show_kept_stream(
    alloc: Global,
    end: End,
    on_limit: OnLimit,
    line: &mut Line,
) -> Result<(), OutOfMemory> {
    let book = tones(alloc, &[5, 13, 21])?;
    let mut tx = MemorySink::<300>::new(64, 1000);
    let mut cert = MemorySink::<40>::new(7, 1000);
    let search = Search {
        limit: LIMIT,
        end,
        on_limit,
    };
    let answer = book.bounded_stream(&mut tx, &mut cert, search);
    put_bounded_stream(answer, &tx, &cert, line);
    Ok(())
}

fn show_plans<R: AllocGlobal + Print>(rt: &R) -> io::Result<()> {
    show(
        rt,
        "plan of three-pages-tight",
        |alloc, line| show_plan(alloc, TIGHT, line),
    )?;
    show(
        rt,
        "plan of four pages",
        |alloc, line| show_plan(alloc, &FOUR_PAGES, line),
    )?;
    show(rt, "bounded_plan of four pages, always", |alloc, line| {
        put_always(alloc, &example(alloc, &FOUR_PAGES)?, LIMIT, line)
    })?;
    show(
        rt,
        "bounded_plan of four pages to 1 node, always",
        |alloc, line| { put_always(alloc, &example(alloc, &FOUR_PAGES)?, 1, line) },
    )
}

fn show_streams<R: AllocGlobal + Print>(rt: &R) -> io::Result<()> {
    show(rt, "plan_stream of two-numeric-exact", |alloc, line| {
        show_stream(alloc, TWO_NUMERIC, End::Open, line)
    })?;
    show(rt, "plan_stream of loops-apart", |alloc, line| {
        show_stream(alloc, LOOPS_APART, End::Open, line)
    })?;
    show(rt, "plan_stream of closed-both-ways", |alloc, line| {
        show_stream(alloc, CLOSED_BOTH_WAYS, End::Closed, line)
    })?;
    show(
        rt,
        "plan_stream of closed-both-ways with an idle last",
        |alloc, line| { show_stream(alloc, CLOSED_BOTH_WAYS, End::Idle, line) },
    )?;
    show(rt, "plan_stream_always of loops-apart", |alloc, line| {
        show_stream_always(alloc, LOOPS_APART, LIMIT, line)
    })?;
    show(
        rt,
        "plan_stream_always of loops-apart to 1 node",
        |alloc, line| { show_stream_always(alloc, LOOPS_APART, 1, line) },
    )
}

fn show_open_rounds<R: AllocGlobal + Print>(rt: &R) -> io::Result<()> {
    show(
        rt,
        "Book::of_round of three-pages-tight",
        show_book_of_tight,
    )?;
    show(rt, "Book::add of open-round", show_added)?;
    show(rt, "Book::plan of open-round", show_open_round)?;
    show(rt, "Book::plan of kept-table", show_kept_table)?;
    show(rt, "Book::bounded_stream of kept-table", |alloc, line| {
        show_kept_stream(alloc, End::Closed, OnLimit::Fewest, line)
    })?;
    show(
        rt,
        "Book::bounded_stream of kept-table, always",
        |alloc, line| { show_kept_stream(alloc, End::Open, OnLimit::Always, line) },
    )
}

pub fn show_all<R: AllocGlobal + Print>(rt: &R) -> io::Result<()> {
    show_plans(rt)?;
    show_streams(rt)?;
    show_open_rounds(rt)
}
