//! Worked examples of tours.

use crate::rounds::{CLOSED_MIXED, EXACT, LAST_FRAME, LOOP_APART, LOOPS_APART, Ones, round_of};
use crate::tours::carries;
use crate::{NoTour, same, tour_of};
use pocsag_slots::{Choice, Step, classes_of};
use pocsag_tour::{TourFault, has_run_outside, reached, tour};
use pocsag_words::End;
use std::test::Fail;

fn run(class: u8, early: bool) -> Step {
    Step::Run { class, early }
}

// A round with a class that starts late, the batches and the end, and the steps of the tour.
type TourCase<'s> = (Ones, Option<u8>, u32, End, &'s [Step]);

// The same of rounds for which there is no tour, and why.
const REFUSED: &[(Ones, Option<u8>, u32, End, TourFault)] = &[
    (LOOP_APART, None, 1, End::Open, TourFault::Apart(1)),
    (LOOP_APART, Some(48), 1, End::Open, TourFault::Apart(1)),
    (EXACT, None, 1, End::Closed, TourFault::Unclosed),
    (EXACT, None, 1, End::Idle, TourFault::Unclosed),
    (&[(7, 0)], Some(113), 1, End::Idle, TourFault::Unclosed),
];

#[test]
fn tours(rt: HostRuntime) -> Result<(), Fail> {
    let exact = [run(6, true), run(58, true)];
    let idle_last = [run(15, true), Step::Idle];
    let mixed = [run(14, true), run(113, true), run(135, false)];
    let cases: [TourCase<'_>; 3] = [
        (EXACT, None, 1, End::Open, &exact),
        (&[(0, 14)], None, 1, End::Idle, &idle_last),
        (CLOSED_MIXED, Some(135), 2, End::Closed, &mixed),
    ];
    for (pages, late, batches, end, due) in cases {
        let round = round_of(rt.alloc(), pages)?;
        assert!(rt; batches > 0);
        let steps = tour_of(rt.alloc(), &round, late, batches, end)?;
        same!(rt; steps.as_slice(), due, pages);
    }
    for (pages, late, batches, end, due) in REFUSED {
        let round = round_of(rt.alloc(), pages)?;
        assert!(rt; *batches > 0);
        let found = tour_of(rt.alloc(), &round, *late, *batches, *end);
        same!(rt; found.err(), Some(NoTour::Refused(*due)), pages);
    }
    Ok(())
}

// How many of two pages of two codewords in frame 7, which are of class 114, start early, with how many idles stand before
// each page in two batches, and whether it starts early.
const STARTS: [(u32, [(usize, bool); 2]); 2] = [
    (2, [(14, true), (14, true)]),
    (1, [(15, false), (13, true)]),
];

#[test]
fn starts_in_the_last_frame(rt: HostRuntime) -> Result<(), Fail> {
    let round = round_of(rt.alloc(), LAST_FRAME)?;
    let classes = classes_of(&round, End::Open);
    for (count, wanted) in STARTS {
        let mut early = classes.count;
        if early[114] > count {
            early[114] = count;
        }
        let choice = Choice { early };
        assert!(rt; carries(&classes, &choice, 2));
        let steps = tour(rt.alloc(), &classes, &choice, 2, End::Open)?;
        let mut due = Vec::new(rt.alloc());
        for (idles, early) in wanted {
            due.resize(due.len() + idles, Step::Idle)?;
            due.push(Step::Run { class: 114, early })?;
        }
        same!(rt; steps.as_slice(), due.as_slice(), count);
    }
    Ok(())
}

// Rounds of two pages with the batches and the boundaries that are reached when all start early.
const REACHED: [(Ones, u32, u16); 3] = [
    (LOOPS_APART, 2, 0x0001),
    (EXACT, 1, 0x0041),
    (EXACT, 2, 0xFFFF),
];

#[test]
fn runs_outside_and_boundaries(rt: HostRuntime) -> Result<(), Fail> {
    let classes = classes_of(&round_of(rt.alloc(), LOOP_APART)?, End::Open);
    let all = Choice {
        early: classes.count,
    };
    same!(rt; has_run_outside(&classes, &all, 0x0001, 48, true), true);
    same!(rt; has_run_outside(&classes, &all, 0x0001, 48, false), false);
    same!(rt; has_run_outside(&classes, &all, 0x0041, 48, true), false);
    for (pages, batches, set) in REACHED {
        let classes = classes_of(&round_of(rt.alloc(), pages)?, End::Open);
        let early = Choice {
            early: classes.count,
        };
        assert!(rt; batches > 0);
        same!(rt; reached(&classes, &early, batches), set, (pages, batches));
    }
    Ok(())
}
