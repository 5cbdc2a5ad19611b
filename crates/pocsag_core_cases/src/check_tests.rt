//! Worked examples of the checker.

use crate::rounds::{
    BOTH_WAYS, EXACT, LONE_TONE, LONG, LOOP_APART, LOOPS_APART, Ones, TIGHT, round_of,
};
use crate::same;
use crate::tree_tests::{split_by_200, splits};
use pocsag_check::{accepts, check, check_open};
use pocsag_slots::{all_limits, classes_of};
use pocsag_tree::{Tree, read_certificate};
use pocsag_words::{End, MemorySource};
use std::test::Fail;

const LAST_FRAME: Ones = &[(7, 15)];

// Rounds with a certificate that is accepted for its own end.
const ACCEPTED: &[(Ones, &[u8])] = &[
    (LONE_TONE, b"PCB1\0\0\0\x01\0\0\x03"),
    (LONE_TONE, b"PCB2\0\0\0\0\x01\0\0\x03"),
    (LONE_TONE, b"PCB2\x01\0\0\0\x01\0\0\x03"),
    (
        LOOP_APART,
        b"PCB1\0\0\0\x02\x02\0\x01\x30\0\x02\0\0\x01\0\x80\0",
    ),
    (
        LOOPS_APART,
        b"PCB1\0\0\0\x03\x02\0\x01\x30\0\x02\0\0\x01\0\x80\0",
    ),
    (
        LOOPS_APART,
        b"PCB2\0\0\0\0\x03\x02\0\x01\x30\0\x02\0\0\x01\0\x80\0",
    ),
    (EXACT, b"PCB2\x01\0\0\0\x02\x04\x01\0\xff\xff"),
    (BOTH_WAYS, b"PCB2\x01\0\0\0\x03\x04\x02\0\xff\xff\0\x80\0"),
    (LONG, b"PCB2\x01\0\0\0\x05\x04\x01\0\x80\0"),
    // The idle end, which only an idle in slot 15 closes.
    (LONE_TONE, b"PCB4\0\0\0\x01\0\0\x03"),
    (EXACT, b"PCB4\0\0\0\x02\x04\x01\0\xff\xff"),
    (BOTH_WAYS, b"PCB4\0\0\0\x03\x04\x01\0\xff\xff"),
    (LONG, b"PCB4\0\0\0\x05\x04\x01\0\x80\0"),
    // Below the split the page of frame 0 starts late, and so outside boundary 0.
    (
        LOOPS_APART,
        b"PCB2\0\0\0\0\x03\x01\0\0\x01\x02\0\x01\0\0\x02\0\0\x01\0\x80\0\x02\0\x01\x30\0\x02\0\0\x01\0\x80\0",
    ),
    // From the split on the page of frame 7 starts early, outside the boundaries 0 and 15.
    (
        LAST_FRAME,
        b"PCB2\0\0\0\0\x02\x01\x70\0\x01\x02\0\x01\x70\0\x02\0\0\x01\0\x80\0\x02\x80\x01\x70\0\x02\0\0\x01\0\x40\0",
    ),
];

// Rounds with a certificate that is refused.
const REFUSED: &[(Ones, &[u8])] = &[
    (EXACT, b"PCB2\0\0\0\0\x02\x04\x01\0\xff\xff"),
    (EXACT, b"PCB2\x01\0\0\0\x02\x04\x02\0\xff\xff\0\xff\xff"),
    (BOTH_WAYS, b"PCB2\x01\0\0\0\x03\x04\x01\0\xff\xff"),
    (EXACT, b"PCB4\0\0\0\x02\x04\x02\0\xff\xff\0\xff\xff"),
    (BOTH_WAYS, b"PCB4\0\0\0\x03\x04\x02\0\xff\xff\0\x80\0"),
    (LONG, b"PCB4\0\0\0\x06\x04\x01\0\x80\0"),
    // Bad certificates.
    (
        LOOPS_APART,
        b"PCB1\0\0\0\x03\x02\0\x01\x30\0\x02\0\0\x01\0\x40\0",
    ),
    (
        LOOPS_APART,
        b"PCB1\0\0\0\x03\x02\0\x02\x30\0\x02\0\0\x01\0\0\x02",
    ),
    (
        LOOPS_APART,
        b"PCB1\0\0\0\x03\x02\0\x01\0\0\x02\0\0\x01\0\x80\0",
    ),
    (TIGHT, b"PCB1\0\0\0\x03\x02\0\x01\x30\0\x02\0\0\x01\0\x80\0"),
    (LONE_TONE, b"PCB2\0\0\0\0\x01\x01\0\x4e\x20\x03\x03"),
    // From the split on the page of frame 0 starts early, at boundary 0.
    (
        LOOPS_APART,
        b"PCB2\0\0\0\0\x03\x01\0\0\x01\x02\0\x01\x30\0\x02\0\0\x01\0\x80\0\x02\0\x01\0\0\x02\0\0\x01\0\x80\0",
    ),
    // Below the split the page of frame 7 starts late, at boundary 15.
    (
        LAST_FRAME,
        b"PCB2\0\0\0\0\x02\x01\x70\0\x01\x02\x80\x01\x70\0\x02\0\0\x01\0\x40\0\x02\0\x01\x70\0\x02\0\0\x01\0\x80\0",
    ),
    // A way that is taken twice takes away one idle of its slot, and not two.
    (
        LOOPS_APART,
        b"PCB1\0\0\0\x04\x02\0\x01\x30\0\x02\x02\0\x01\x30\0\x02\0\0\x01\0\x80\0\x02\0\x01\x30\0\x02\0\0\x01\0\x80\0",
    ),
];

#[test]
fn certificates(rt: HostRuntime) -> Result<(), Fail> {
    let alloc = rt.alloc();
    for (rows, is_accepted) in [(ACCEPTED, true), (REFUSED, false)] {
        for (pages, bytes) in rows {
            let round = round_of(alloc, pages)?;
            let mut source = MemorySource::new(bytes, 1, 100_000);
            let read = read_certificate(alloc, &mut source)?;
            let told = check(&round, read.batches, &read.tree, read.end);
            same!(rt; told, is_accepted, (pages, bytes));
        }
    }
    let round = round_of(alloc, LONE_TONE)?;
    let deep = splits(alloc, 299, 300)?;
    let mut source = MemorySource::new(deep.as_slice(), 1, 100_000);
    let read = read_certificate(alloc, &mut source)?;
    assert!(rt; !check(&round, read.batches, &read.tree, read.end));
    Ok(())
}

// Trees that no certificate spells, and nodes under limits.
#[test]
fn trees(rt: HostRuntime) -> Result<(), Fail> {
    let alloc = rt.alloc();
    let round = round_of(alloc, LONE_TONE)?;
    let classes = classes_of(&round, End::Open);
    for (batches, tree, is_accepted) in [
        (0, Tree::Overload(3), true),
        (0, Tree::Open, false),
        (1, Tree::Overload(3), false),
    ] {
        let limits = all_limits(&classes, batches);
        same!(rt; accepts(&classes, &limits, batches, &tree, End::Open), is_accepted);
    }
    for (batches, is_accepted) in [(0, false), (1, true), (2, false)] {
        same!(rt; check(&round, batches, &Tree::Overload(3), End::Open), is_accepted);
    }
    assert!(rt; !check(&round, 1, &Tree::Open, End::Open));
    assert!(rt; check_open(&round, 1, &Tree::Open, End::Open));
    let split = split_by_200(alloc)?;
    assert!(rt; !check(&round, 1, &split, End::Open));
    Ok(())
}
