//! Open rounds.

use crate::given::{IDLE, LONE_TONE, PageRow, SECOND, Sent, page, transmission};
use crate::plan_tests::Streamed;
use crate::rounds::{self, LOOPS_APART, Ones, round_of};
use crate::same;
use pocsag_pages::PageFault::{BadAddress, BadPayload, ReservedAddress};
use pocsag_pages::{Page, RoundFault};
use pocsag_plan::{AddFault, Book, BookFault, NotThere, OnLimit, PlanFault, Search, StreamFault};
use pocsag_words::{End, MemorySink, OutOfMemory};
use std::alloc::Global;
use std::process::Abort;
use std::test::Fail;

// Rows of pages that are added to one book, each with its fault.
const ADDED: &[&[(PageRow, Option<AddFault>)]] = &[
    &[
        ((8, 0, &[]), None),
        ((16, 0, &[]), None),
        ((8, 0, &[]), Some(AddFault::DuplicateAddress)),
    ],
    &[
        ((2_097_152, 0, &[]), Some(AddFault::Page(BadAddress))),
        ((2_007_664, 0, &[]), Some(AddFault::Page(ReservedAddress))),
        ((8, 1, &[0x84c2a]), Some(AddFault::Page(BadPayload))),
    ],
];

fn expect_page(rt: &impl Abort, found: &Page, due: PageRow) {
    same!(rt; (found.address, found.function, found.payload.as_slice()), due);
}

// A page that is refused is handed back.
fn expect_added(
    rt: &impl Abort,
    alloc: Global,
    book: &mut Book,
    row: PageRow,
    due: Option<AddFault>,
) -> Result<(), OutOfMemory> {
    let (address, function, items) = row;
    let count = book.len();
    match book.add(page(alloc, address, function, items)?) {
        Ok(()) => same!(rt; (book.len(), due), (count.saturating_add(1), None)),
        Err(refused) => {
            same!(rt; (book.len(), due), (count, Some(refused.fault)));
            expect_page(rt, &refused.page, row);
        }
    }
    Ok(())
}

#[test]
fn pages_added(rt: HostRuntime) -> Result<(), Fail> {
    let alloc = rt.alloc();
    for rows in ADDED {
        let mut book = Book::new(alloc);
        for (row, due) in *rows {
            expect_added(&rt, alloc, &mut book, *row, *due)?;
        }
    }
    Ok(())
}

// Tones that are added, then the addresses that are cancelled and whether they were there, what is left, how many
// pages classes 81 for the open end and 133 for the closed end count, and the fewest batches.
const CANCELLED: &[(&[u32], &[(u32, bool)], &[u32], [u32; 2], Option<u32>)] = &[
    (&[8, 16], &[(8, true), (8, false)], &[16], [0, 0], Some(1)),
    (&[8, 16], &[(8, true), (16, true)], &[], [0, 0], None),
    (&[5, 13, 21], &[], &[5, 13, 21], [3, 3], Some(2)),
    (&[5, 13, 21], &[(13, true)], &[5, 21], [2, 2], Some(1)),
    (&[5, 13, 21], &[(5, true)], &[13, 21], [2, 2], Some(1)),
];

fn book_of_tones(rt: &impl Abort, alloc: Global, addresses: &[u32]) -> Result<Book, OutOfMemory> {
    let mut book = Book::new(alloc);
    for address in addresses {
        expect_added(rt, alloc, &mut book, (*address, 0, &[]), None)?;
    }
    Ok(book)
}

// So many batches with all pages, or no plan where there are none.
fn expect_batches(rt: &impl Abort, book: &Book, batches: Option<u32>) {
    match book.plan(100_000, End::Open) {
        Ok(plan) => {
            same!(rt; (Some(plan.batches), plan.pages as usize), (batches, book.len()));
        }
        Err(fault) => {
            assert!(rt;
                batches.is_none() && matches!(fault, BookFault::NoPages),
                "another plan"
            );
        }
    }
}

fn expect_cancelled(rt: &impl Abort, book: &mut Book, address: u32, is_there: bool) {
    match book.cancel(address) {
        Ok(taken) => {
            same!(rt; is_there, true, address);
            expect_page(rt, &taken, (address, 0, &[]));
        }
        Err(NotThere) => same!(rt; is_there, false, address),
    }
}

fn expect_left(rt: &impl Abort, book: &Book, left: &[u32]) {
    same!(rt; (book.len(), book.is_empty()), (left.len(), left.is_empty()));
    for (place, address) in left.iter().enumerate() {
        let page = book.page(place).expect(rt, "an answer");
        same!(rt; page.address, *address);
    }
    assert!(rt; book.page(left.len()).is_none());
}

fn expect_counts(rt: &impl Abort, book: &Book, [open, closed]: [u32; 2]) {
    same!(rt; book.classes(End::Open).count[81], open);
    same!(rt; book.classes(End::Idle).count[81], open);
    same!(rt; book.classes(End::Closed).count[133], closed);
    same!(rt; book.classes(End::Closed).count[81], 0);
}

#[test]
fn pages_cancelled(rt: HostRuntime) -> Result<(), Fail> {
    for (added, cancelled, left, counts, batches) in CANCELLED {
        let mut book = book_of_tones(&rt, rt.alloc(), added)?;
        for (address, is_there) in *cancelled {
            expect_cancelled(&rt, &mut book, *address, *is_there);
        }
        expect_left(&rt, &book, left);
        expect_counts(&rt, &book, *counts);
        expect_batches(&rt, &book, *batches);
    }
    Ok(())
}

// A book of the pages of a round.
fn book_of(rt: &impl Abort, alloc: Global, pages: &[(u32, usize)]) -> Result<Book, Fail> {
    let round = round_of(alloc, pages)?;
    let book = Book::of_round(alloc, &round)?;
    same!(rt; book.pages(), round.pages());
    Ok(book)
}

fn send(book: &Book, limit: u32, end: End, on_limit: OnLimit) -> Streamed {
    let mut tx = MemorySink::<400>::new(64, u64::MAX);
    let mut cert = MemorySink::<100>::new(64, u64::MAX);
    let search = Search {
        limit,
        end,
        on_limit,
    };
    let sent = book.bounded_stream(&mut tx, &mut cert, search);
    let answer = sent.map(|sent| (sent.plan.batches, sent.bound));
    Streamed { answer, tx, cert }
}

// Rounds that are sent as one batch, with the end, what the certificate begins with, and the codewords, of which there may
// be two choices: a tone starts early or late. A page of the last frame starts early, so that an idle stands behind it.
const REOPENED: &[(Ones, End, &[u8], &[Sent])] = &[
    (
        rounds::LONE_TONE,
        End::Open,
        b"PCB2\0\0\0\0\x01\0",
        &[LONE_TONE, (16, IDLE, &[(1, SECOND)])],
    ),
    (
        &[(7, 0)],
        End::Idle,
        b"PCB4\0\0\0\x01\0",
        &[(16, IDLE, &[(14, 0)])],
    ),
];

// Whether the bytes are one of these transmissions.
fn is_sent(alloc: Global, bytes: &[u8], choices: &[Sent]) -> Result<bool, OutOfMemory> {
    for sent in choices {
        if bytes == transmission(alloc, *sent)?.as_slice() {
            return Ok(true);
        }
    }
    Ok(false)
}

#[test]
fn rounds_reopened(rt: HostRuntime) -> Result<(), Fail> {
    for (pages, end, begins, choices) in REOPENED {
        let book = book_of(&rt, rt.alloc(), pages)?;
        let told = send(&book, 100_000, *end, OnLimit::Fewest);
        same!(rt; told.answer.ok(), Some((1, 1)), pages);
        same!(rt; is_sent(rt.alloc(), told.tx.bytes(), choices)?, true, pages);
        same!(rt; told.cert.bytes().starts_with(begins), true, pages);
    }
    Ok(())
}

// A limit of no nodes is refused before the book is found to be empty.
fn expect_no_pages(rt: &impl Abort, empty: &Book) {
    let found = send(empty, 1, End::Open, OnLimit::Always).answer;
    assert!(rt; matches!(found, Err(StreamFault::Round(RoundFault::NoPages))));
    let refused = send(empty, 0, End::Open, OnLimit::Always).answer;
    assert!(rt; matches!(refused, Err(StreamFault::Plan(PlanFault::BadLimit))));
    let none = empty.plan(0, End::Open);
    assert!(rt; matches!(none, Err(BookFault::Plan(PlanFault::BadLimit))));
}

#[test]
fn loops_apart_within_one_batch(rt: HostRuntime) -> Result<(), Fail> {
    let book = book_of(&rt, rt.alloc(), LOOPS_APART)?;
    let told = send(&book, 1, End::Open, OnLimit::Always);
    same!(rt; told.answer.ok(), Some((3, 2)));
    same!(rt; told.tx.bytes().len(), 72 + 3 * 68);
    same!(rt; told.cert.bytes().starts_with(b"PCB2\0\0\0\0\x02\0"), true);
    expect_no_pages(&rt, &Book::new(rt.alloc()));
    Ok(())
}

#[test]
fn full_books(rt: HostRuntime) -> Result<(), Fail> {
    let alloc = rt.alloc();
    let mut book = Book::new(alloc);
    for address in 0..20_000 {
        expect_added(&rt, alloc, &mut book, (address, 0, &[]), None)?;
    }
    same!(rt; book.len(), 20_000);
    let (full, twice) = (AddFault::Full, AddFault::DuplicateAddress);
    expect_added(&rt, alloc, &mut book, (20_000, 0, &[]), Some(full))?;
    expect_added(&rt, alloc, &mut book, (19_999, 0, &[]), Some(twice))?;
    Ok(())
}
