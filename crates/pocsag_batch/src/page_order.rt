ghost use Rattle.std.specs.Prelude.{length, IfOk};
ghost use Rattle.pocsag_slots.specs.Tours.{IsTourFor};
ghost use Rattle.pocsag_batch.specs.Placement.{HavePlaces, IsOrder};

use crate::queue::Queues;
use pocsag_pages::Round;
use pocsag_slots::{Class, Step};
use pocsag_words::{End, OutOfMemory};
use std::alloc::Global;

/// The places in the round, from 0, of the pages of the run steps, in order. The pages of a class are
/// taken in the order of the round.
pub fn order_of(
    alloc: Global,
    round: &Round,
    steps: &[Step],
    end: End,
) -> Result<Vec<u32>, OutOfMemory>
    requires { IsTourFor end round.now steps.now }
    ensures order { IfOk result (λ order. IsOrder end round.now steps.now order.items) }
    ensures places { IfOk result (λ order. HavePlaces (length round.now) order.items steps.now) }
{
    let pages = round.pages();
    let mut queues = Queues::new(alloc, pages, end)?;
    let mut order = Vec::with_capacity(alloc, pages.len())?;
    for step in steps {
        let Step::Run { class, .. } = *step else {
            continue;
        };
        order.push(queues.take(Class { number: class }))?;
    }
    Ok(order)
}
