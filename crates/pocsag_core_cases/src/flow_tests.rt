//! Worked examples of choices of starts.

use crate::given::tones;
use crate::rounds::{
    BOTH_WAYS, CLOSED_MIXED, EXACT, LAST_FRAME, LONE_TONE, LONG, LOOP_APART, LOOPS_APART, Ones,
    THREE_TONES, TIGHT, round_of,
};
use crate::same;
use pocsag_flow::{ChooseFault, choose, choose_from};
use pocsag_pages::Round;
use pocsag_slots::{Choice, all_limits, classes_of, loads};
use pocsag_words::End;
use std::process::Abort;
use std::test::Fail;

// Rounds by address and number of items, each with the least number of batches for which there is a choice,
// for both ends.
const LEAST: &[(&str, Ones, u32)] = &[
    ("lone-tone", LONE_TONE, 1),
    ("five-digits", &[(0, 1)], 1),
    ("one-full-batch", &[(0, 15)], 1),
    ("loop-apart", LOOP_APART, 1),
    ("two-numeric-exact, closed-exact", EXACT, 1),
    ("three-tones-one-frame", THREE_TONES, 2),
    ("loops-apart", LOOPS_APART, 2),
    ("three-pages-tight", TIGHT, 2),
    ("two-in-last-frame", LAST_FRAME, 2),
    ("closed-mixed", CLOSED_MIXED, 2),
    ("closed-both-ways", BOTH_WAYS, 2),
    ("long-numeric", LONG, 4),
    ("long-alpha", &[(0, 1400)], 88),
];

// The least numbers of rounds of so many tones.
const LEAST_OF_TONES: [(u32, u32); 2] = [(2_000, 125), (20_000, 1_250)];

fn expect_least(rt: &impl Abort, name: &str, round: &Round, least: u32) {
    for end in [End::Open, End::Closed] {
        let classes = classes_of(round, end);
        for (batches, is_carried) in [(least, true), (least.saturating_sub(1), false)] {
            let answer = choose(&classes, &all_limits(&classes, batches));
            same!(rt; answer.is_ok(), is_carried, (name, batches));
        }
    }
}

#[test]
fn least_numbers(rt: HostRuntime) -> Result<(), Fail> {
    for (name, pages, least) in LEAST {
        expect_least(&rt, name, &round_of(rt.alloc(), pages)?, *least);
    }
    for (count, least) in LEAST_OF_TONES {
        let round = Round::from_pages(rt.alloc(), tones(rt.alloc(), count)?)?;
        expect_least(&rt, "tones", &round, least);
    }
    Ok(())
}

#[test]
fn choices(rt: HostRuntime) -> Result<(), Fail> {
    let late = Choice { early: [0; 136] };
    for (pages, set) in [(THREE_TONES, 0x0C00), (LAST_FRAME, 0x8000)] {
        let classes = classes_of(&round_of(rt.alloc(), pages)?, End::Open);
        let answer = choose(&classes, &all_limits(&classes, 1));
        same!(rt; answer, Err(ChooseFault::Overload(set)));
    }
    let full_batch: Ones = &[(0, 15)];
    for (pages, batches) in [(full_batch, 1), (LAST_FRAME, 2)] {
        let classes = classes_of(&round_of(rt.alloc(), pages)?, End::Open);
        let limits = all_limits(&classes, batches);
        same!(rt; choose_from(&classes, &limits, &late).is_ok(), true, pages);
    }
    let classes = classes_of(&round_of(rt.alloc(), full_batch)?, End::Open);
    match choose(&classes, &all_limits(&classes, 1)) {
        Ok(choice) => same!(rt; loads(&classes, &choice), [1; 16]),
        Err(fault) => assert!(rt; false, "{fault:?}"),
    }
    Ok(())
}
