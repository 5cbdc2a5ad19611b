use crate::line::{Line, show};
use crate::pages::example;
use pocsag_batch::{lay_out, order_of};
use pocsag_core_cases::rounds::TIGHT;
use pocsag_core_cases::{NoTour, tour_of};
use pocsag_tour::TourFault;
use pocsag_words::{End, OutOfMemory};
use std::alloc::Global;
use std::io;

fn show_no_tour(fault: NoTour, line: &mut Line) -> Result<(), OutOfMemory> {
    match fault {
        NoTour::Overloaded => line.put("overloaded"),
        NoTour::Refused(TourFault::OutOfMemory) => return Err(OutOfMemory),
        NoTour::Refused(TourFault::Apart(set)) => {
            line.put("apart");
            line.put_set(set);
        }
        NoTour::Refused(fault) => line.put(fault),
    }
    Ok(())
}

fn show_tour(
    alloc: Global,
    pages: &[(u32, usize)],
    late: Option<u8>,
    line: &mut Line,
) -> Result<(), OutOfMemory> {
    let round = example(alloc, pages)?;
    match tour_of(alloc, &round, late, 1, End::Open) {
        Ok(steps) => line.put_steps(steps.as_slice()),
        Err(fault) => return show_no_tour(fault, line),
    }
    Ok(())
}

// The order of the tour of the pages, and their layout.
fn lay_out_tight_pages(alloc: Global, line: &mut Line) -> Result<(), OutOfMemory> {
    let round = example(alloc, TIGHT)?;
    let steps = match tour_of(alloc, &round, None, 2, End::Open) {
        Ok(steps) => steps,
        Err(fault) => return show_no_tour(fault, line),
    };
    let order = order_of(alloc, &round, steps.as_slice(), End::Open)?;
    line.put_places(order.as_slice());
    let batches = lay_out(alloc, &round, steps.as_slice(), End::Open)?;
    line.put(batches.count());
    line.put_words(batches.words());
    Ok(())
}

pub fn show_all<R: AllocGlobal + Print>(rt: &R) -> io::Result<()> {
    show(
        rt,
        "tour of loop-apart, early",
        |alloc, line| show_tour(alloc, &[(3, 15)], None, line),
    )?;
    show(
        rt,
        "tour of loop-apart, late",
        |alloc, line| show_tour(alloc, &[(3, 15)], Some(48), line),
    )?;
    show(rt, "tour of two-numeric-exact", |alloc, line| {
        show_tour(alloc, &[(0, 5), (3, 9)], None, line)
    })?;
    show(
        rt,
        "order_of and lay_out of three-pages-tight",
        lay_out_tight_pages,
    )
}
