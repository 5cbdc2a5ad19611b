//! Worked examples of classes, ways and loads.

use crate::rounds::{CLOSED_MIXED, LOOPS_APART, Ones, THREE_TONES, TIGHT, round_of};
use crate::same;
use pocsag_slots::{
    Choice, Way, all_limits, classes_of, closing_ways, ending_ways, holds, is_certain, least_load,
    loads, narrow, overloads, size, ways, with_member,
};
use pocsag_words::End;
use std::test::Fail;

// Rounds with an end, a class, how many pages it has and how often they go round.
const COUNTS: &[(Ones, End, usize, u32, u32)] = &[
    (THREE_TONES, End::Open, 81, 3, 0),
    (THREE_TONES, End::Open, 133, 0, 0),
    (THREE_TONES, End::Closed, 81, 0, 0),
    (THREE_TONES, End::Closed, 133, 3, 0),
    (THREE_TONES, End::Idle, 81, 3, 0),
    (THREE_TONES, End::Idle, 133, 0, 0),
    (LOOPS_APART, End::Open, 0, 1, 1),
    (LOOPS_APART, End::Open, 48, 1, 1),
    (CLOSED_MIXED, End::Closed, 14, 1, 0),
    (CLOSED_MIXED, End::Closed, 113, 1, 1),
    (CLOSED_MIXED, End::Closed, 135, 1, 0),
];

// Rounds with the ways across a set in two batches.
const WAYS: &[(Ones, u16, &[Way])] = &[
    (LOOPS_APART, 0x0001, &[Way::IdleIn(0), Way::IdleIn(15)]),
    (
        TIGHT,
        0x0081,
        &[
            Way::IdleIn(0),
            Way::IdleIn(6),
            Way::IdleIn(7),
            Way::IdleIn(15),
            Way::Early(6),
            Way::Late(6),
            Way::Early(58),
            Way::Late(58),
        ],
    ),
];

// Ends with the ways in which a transmission of a page alone in frame 7 may end so.
const CLOSING: &[(End, &[Way])] = &[
    (End::Open, &[]),
    (End::Closed, &[Way::IdleIn(15), Way::Late(135)]),
    (End::Idle, &[Way::IdleIn(15)]),
];

#[test]
fn classes(rt: HostRuntime) -> Result<(), Fail> {
    for (pages, end, class, count, turns) in COUNTS {
        let classes = classes_of(&round_of(rt.alloc(), pages)?, *end);
        assert!(rt; *class < 136);
        let told = (classes.count[*class], classes.turns[*class]);
        same!(rt; told, (*count, *turns), (pages, class));
    }
    Ok(())
}

#[test]
fn ways_across(rt: HostRuntime) -> Result<(), Fail> {
    for (pages, set, wanted) in WAYS {
        let classes = classes_of(&round_of(rt.alloc(), pages)?, End::Open);
        let out = ways(&classes, &all_limits(&classes, 2), *set, 2);
        same!(rt; out.as_slice() == *wanted, true, (pages, set));
    }
    Ok(())
}

#[test]
fn overloads_and_sets(rt: HostRuntime) -> Result<(), Fail> {
    let classes = classes_of(&round_of(rt.alloc(), THREE_TONES)?, End::Open);
    for (batches, is_over) in [(1, true), (2, false)] {
        let limits = all_limits(&classes, batches);
        same!(rt; overloads(&classes, &limits, 0x0C00), is_over);
    }
    let two = with_member(with_member(0, 15), 4);
    same!(rt; two, 0x8010);
    same!(rt; with_member(two, 4), two);
    same!(rt; (holds(two, 15), holds(two, 5)), (true, false));
    same!(rt; (size(0), size(two), size(0xFFFF)), (0, 2, 16));
    Ok(())
}

#[test]
fn limits_and_loads(rt: HostRuntime) -> Result<(), Fail> {
    let classes = classes_of(&round_of(rt.alloc(), LOOPS_APART)?, End::Open);
    let limits = all_limits(&classes, 2);
    same!(rt; is_certain(&classes, &limits, 0x0001, 48), true);
    same!(rt; is_certain(&classes, &limits, 0x0001, 0), false);
    let first = narrow(&classes, &limits, Way::IdleIn(0), 2);
    same!(rt; first.cap[0], 1);
    same!(rt; least_load(&classes, &first, 0x0001), 2);
    same!(rt; overloads(&classes, &first, 0x0001), true);
    let last = narrow(&classes, &limits, Way::IdleIn(15), 2);
    same!(rt; overloads(&classes, &last, 0x8000), true);
    same!(rt; overloads(&classes, &last, 0x4000), false);
    let classes = classes_of(&round_of(rt.alloc(), CLOSED_MIXED)?, End::Closed);
    let mut early = classes.count;
    early[135] = 0;
    same!(rt; loads(&classes, &Choice { early }), [2; 16]);
    for (end, wanted) in CLOSING {
        let classes = classes_of(&round_of(rt.alloc(), CLOSED_MIXED)?, *end);
        let limits = all_limits(&classes, 1);
        let out = ending_ways(&classes, *end, &limits);
        same!(rt; out.as_slice() == *wanted, true, end);
        if *end == End::Closed {
            same!(rt; closing_ways(&classes, &limits).as_slice() == *wanted, true);
        }
    }
    Ok(())
}
