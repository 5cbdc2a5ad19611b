//! File order, layouts of tours, and bytes.

use crate::given::{
    IDLE, LONE_TONE, ONES, PageRow, SECOND, Sent, TIGHT, cut, pages, tones, transmission, words,
};
use crate::rounds::{self, BOTH_WAYS, CLOSED_MIXED, Ones, THREE_TONES, round_of};
use crate::{same, tour_of};
use pocsag_batch::{
    FirstFault, Slots, first_stream, in_order_batches, lay_in_order, lay_out, order_of, write,
    write_slots,
};
use pocsag_decode::decode;
use pocsag_pages::{Round, RoundFault};
use pocsag_words::{End, GrowingSink, MemorySink, MemorySource, OutOfMemory, Word, WriteFault};
use std::alloc::Global;
use std::test::Fail;

fn raws(alloc: Global, words: &[Word]) -> Result<Vec<u32>, OutOfMemory> {
    let mut numbers = Vec::new(alloc);
    for word in words {
        numbers.push(word.raw())?;
    }
    Ok(numbers)
}

const EXACT: Sent = (16, ONES, &[(0, 0), (6, 0)]);

const LATE_TONE: Sent = (16, IDLE, &[(1, SECOND)]);

// Rounds by address and number of items, with their codewords in file order. The last two, which are `closed-mixed` and
// `closed-both-ways`, end in a message codeword.
const IN_ORDER: &[(Ones, Sent)] = &[
    (
        THREE_TONES,
        (32, IDLE, &[(10, 0), (11, SECOND), (26, 0x430b)]),
    ),
    (rounds::EXACT, EXACT),
    (CLOSED_MIXED, (32, ONES, &[(0, 0), (14, 0), (15, SECOND)])),
    (
        BOTH_WAYS,
        (32, ONES, &[(0, 0), (14, 0), (15, SECOND), (18, 0)]),
    ),
];

// Rounds with a class that starts late, the batches and the end, and the codewords of the tour.
const LAID: &[(Ones, Option<u8>, u32, End, Sent)] = &[
    (rounds::EXACT, None, 1, End::Open, EXACT),
    (rounds::TIGHT, None, 2, End::Open, TIGHT),
    (
        CLOSED_MIXED,
        Some(135),
        2,
        End::Closed,
        (32, ONES, &[(0, 0), (14, SECOND), (31, 0)]),
    ),
    (rounds::LONE_TONE, None, 1, End::Open, LONE_TONE),
    (rounds::LONE_TONE, Some(1), 1, End::Open, LATE_TONE),
    (rounds::LONE_TONE, None, 1, End::Closed, LONE_TONE),
    (rounds::LONE_TONE, Some(128), 1, End::Closed, LATE_TONE),
    (rounds::LONE_TONE, None, 1, End::Idle, LONE_TONE),
    (&[(7, 0)], None, 1, End::Idle, (16, IDLE, &[(14, 0)])),
];

// Rounds with the batches of a tour, and the places of their pages in it.
const ORDERS: &[(Ones, u32, &[u32])] = &[
    (rounds::EXACT, 1, &[0, 1]),
    (rounds::TIGHT, 2, &[0, 2, 1]),
];

// The pages of `three-pages-tight` as they are sent.
const TIGHT_PAGES: &[PageRow] = &[
    (0, 0, &[0x88888; 5]),
    (11, 0, &[0x88888; 15]),
    (3, 0, &[0x88888; 9]),
];

// A page file of one tone.
const TONE_FILE: &[u8] = b"address,kind,message\n8,tone0,\n";

#[test]
fn layouts_in_file_order(rt: HostRuntime) -> Result<(), Fail> {
    let alloc = rt.alloc();
    for (pages, sent) in IN_ORDER {
        let round = round_of(alloc, pages)?;
        let batches = lay_in_order(alloc, &round)?;
        let due = words(alloc, *sent)?;
        let told = raws(alloc, batches.words())?;
        same!(rt; told.as_slice(), due.as_slice(), pages);
        same!(rt; 16 * in_order_batches(&round) as usize, due.len(), pages);
    }
    Ok(())
}

#[test]
fn many_tones_in_file_order(rt: HostRuntime) -> Result<(), Fail> {
    let alloc = rt.alloc();
    let list = tones(alloc, 2_000)?;
    let round = Round::from_pages(alloc, list)?;
    same!(rt; in_order_batches(&round), 250);
    let batches = lay_in_order(alloc, &round)?;
    same!(rt; batches.count(), 250);
    let mut sink = GrowingSink::new(alloc);
    same!(rt; write(&batches, &mut sink), Ok(()));
    same!(rt; sink.into_bytes().len(), 17_072);
    Ok(())
}

#[test]
fn layouts_of_tours(rt: HostRuntime) -> Result<(), Fail> {
    let alloc = rt.alloc();
    for (pages, late, batches, end, sent) in LAID {
        let round = round_of(alloc, pages)?;
        assert!(rt; 0 < *batches);
        let steps = tour_of(alloc, &round, *late, *batches, *end)?;
        let laid = lay_out(alloc, &round, steps.as_slice(), *end)?;
        let due = words(alloc, *sent)?;
        let told = raws(alloc, laid.words())?;
        same!(rt; told.as_slice(), due.as_slice(), pages);
    }
    Ok(())
}

#[test]
fn orders_of_tours(rt: HostRuntime) -> Result<(), Fail> {
    let alloc = rt.alloc();
    for (pages, batches, order) in ORDERS {
        let round = round_of(alloc, pages)?;
        assert!(rt; 0 < *batches);
        let steps = tour_of(alloc, &round, None, *batches, End::Open)?;
        let told = order_of(alloc, &round, steps.as_slice(), End::Open)?;
        same!(rt; told.as_slice(), *order, pages);
    }
    Ok(())
}

// The order, the codewords and the bytes of a tour, which are decoded to its pages, and each failing write.
#[test]
fn bytes_of_a_tour(rt: HostRuntime) -> Result<(), Fail> {
    let alloc = rt.alloc();
    let round = round_of(alloc, rounds::TIGHT)?;
    let steps = tour_of(alloc, &round, None, 2, End::Open)?;
    same!(rt; steps.len(), 3);
    let order = order_of(alloc, &round, steps.as_slice(), End::Open)?;
    let mut listed = Vec::new(alloc);
    for word in Slots::new(&round, steps.as_slice(), order.as_slice()) {
        listed.push(word.raw())?;
    }
    same!(rt; listed.as_slice(), words(alloc, TIGHT)?.as_slice());
    let due = transmission(alloc, TIGHT)?;
    for step in [64, 1] {
        let mut sink = MemorySink::<208>::new(step, 1000);
        let slots = Slots::new(&round, steps.as_slice(), order.as_slice());
        same!(rt; write_slots(slots, &mut sink), Ok(()));
        same!(rt; sink.bytes(), due.as_slice());
    }
    for place in 0..208u64 {
        let mut sink = MemorySink::<208>::new(64, place);
        let slots = Slots::new(&round, steps.as_slice(), order.as_slice());
        same!(rt; write_slots(slots, &mut sink), Err(WriteFault));
        same!(rt; sink.bytes(), cut(due.as_slice(), place as usize));
    }
    let told = decode(alloc, due.as_slice())?;
    let due = pages(alloc, TIGHT_PAGES)?;
    same!(rt; told.as_slice(), due.as_slice());
    Ok(())
}

// The writer fails at each place.
#[test]
fn failing_writes(rt: HostRuntime) -> Result<(), Fail> {
    let alloc = rt.alloc();
    let round = round_of(alloc, rounds::LONE_TONE)?;
    let batches = lay_in_order(alloc, &round)?;
    same!(rt; batches.count(), 1);
    let due = transmission(alloc, LONE_TONE)?;
    let mut whole = MemorySink::<140>::new(7, 140);
    same!(rt; write(&batches, &mut whole), Ok(()));
    same!(rt; whole.bytes(), due.as_slice());
    for place in 0..140u64 {
        let mut tx = MemorySink::<140>::new(64, place);
        same!(rt; write(&batches, &mut tx), Err(WriteFault));
        same!(rt; tx.bytes(), cut(due.as_slice(), place as usize));
    }
    Ok(())
}

// The writer, and then the reader, fails at each place.
#[test]
fn streams_that_fail(rt: HostRuntime) -> Result<(), Fail> {
    let alloc = rt.alloc();
    let due = transmission(alloc, LONE_TONE)?;
    for place in 0..140u64 {
        let mut tx = MemorySink::<140>::new(64, place);
        let told = first_stream(alloc, &mut MemorySource::new(TONE_FILE, 7, 1000), &mut tx);
        same!(rt; told, Err(FirstFault::WriteFault));
        same!(rt; tx.bytes(), cut(due.as_slice(), place as usize));
    }
    for place in 0..30u64 {
        let mut tx = MemorySink::<140>::new(64, 1000);
        let told = first_stream(alloc, &mut MemorySource::new(TONE_FILE, 7, place), &mut tx);
        same!(rt; told, Err(FirstFault::Round(RoundFault::ReadFault)));
        assert!(rt; tx.bytes().is_empty());
    }
    Ok(())
}
