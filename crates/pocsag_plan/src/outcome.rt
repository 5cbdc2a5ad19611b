ghost use Rattle.std.specs.Prelude.{IfErr, IfOk, IsErrOf};
ghost use Rattle.pocsag_branch.specs.Found.{HasPage, IsNodeLimit};
ghost use Rattle.pocsag_plan.specs.Within.{IsOutcome, IsOutcomeFault, IsTightOrStopped, IsWithinOne};

use crate::fault::PlanFault;
use crate::search::{OnLimit, Search};
use pocsag_branch::{Found, FreeFault, SearchLimit, search_freely};
use pocsag_slots::Classes;
use pocsag_words::OutOfMemory;
use std::alloc::Global;

// What a search leaves for a plan: what it found; the bound, for which the tree is; and what the search for the fewest
// says where it stopped.
#[derive(Drop)]
pub(crate) struct Outcome {
    pub(crate) found: Found,
    pub(crate) bound: u32,
    pub(crate) stopped: Option<SearchLimit>,
}

// What the search that is asked for leaves for the classes.
pub(crate) fn outcome_of(
    alloc: Global,
    classes: &Classes,
    search: Search,
) -> Result<Outcome, PlanFault>
    requires limited { IsNodeLimit search.limit }
    requires pages { HasPage classes.now }
    ensures outcome { IfOk result (IsOutcome classes.now search) }
    ensures limit { ¬ IsErrOf result PlanFault.BadLimit }
    ensures fault { IfErr result (IsOutcomeFault classes.now search) }
{
    match search.on_limit {
        OnLimit::Fewest => {
            let found = pocsag_branch::search(alloc, classes, search.limit, search.end)?;
            let bound = found.batches;
            Ok(Outcome {
                found,
                bound,
                stopped: None,
            })
        }
        OnLimit::Always => Ok(within_one(alloc, classes, search)?),
    }
}

// What the free search finds, or what it leaves at its limit; the bound; and at the limit what the search for
// the fewest says.
fn within_one(alloc: Global, classes: &Classes, search: Search) -> Result<Outcome, OutOfMemory>
    requires limited { IsNodeLimit search.limit }
    requires pages { HasPage classes.now }
    ensures within { IfOk result (λ x. IsWithinOne classes.now search.end search.limit x.bound x.found) }
    ensures stopped { IfOk result
        (λ x. IsTightOrStopped classes.now search.end search.limit x.bound x.found.batches x.stopped) }
{
    match search_freely(alloc, classes, search.limit, search.end) {
        Ok(found) => {
            let bound = found.batches;
            Ok(Outcome {
                found,
                bound,
                stopped: None,
            })
        }
        Err(FreeFault::SearchLimit { fallback, stop }) => {
            let found = Found {
                batches: fallback.least + 1,
                choice: fallback.choice,
                steps: fallback.steps,
                tree: fallback.tree,
            };
            Ok(Outcome {
                found,
                bound: fallback.least,
                stopped: Some(stop),
            })
        }
        Err(FreeFault::OutOfMemory) => Err(OutOfMemory),
    }
}
