//! How many first pages of a round fit: what is tried, and what is kept between two tries.
ghost use Rattle.std.specs.Prelude.{ℕ, ◌+◌, ◌<◌, List, take, IfErr, IfOk, IsErrOf};
ghost use Rattle.pocsag_pages.specs.declared.page.Page.{Page};
ghost use Rattle.pocsag_slots.specs.Loads.{AreClassesOf};
ghost use Rattle.pocsag_branch.specs.Found.{HasPage, IsNodeLimit};
ghost use Rattle.pocsag_plan.specs.Attempts.{IsTried, AreFrontBounds, StopsAt};
ghost use Rattle.pocsag_plan.specs.declared.search.Search.{Search};
ghost use Rattle.pocsag_plan.specs.Within.{IsOutcomeFault};

use crate::fault::PlanFault;
use crate::outcome::outcome_of;
use crate::search::Search;
use pocsag_branch::{Outcome, least_certificate};
use pocsag_slots::Classes;
use pocsag_tree::Certificate;
use std::alloc::Global;

// What is found of some first pages.
#[derive(Drop)]
pub(crate) enum Tried {
    // They fit, with what a search left for them, if one was needed to know it.
    Fits(Option<Outcome>),
    // They do not, with what shows how many batches they need.
    Exceeds(Certificate),
}

// Whether the pages of these classes fit into so many batches. The loads alone mostly decide it: with a batch to
// spare there is a plan.
pub(crate) fn attempt(
    alloc: Global,
    classes: &Classes,
    batches: u32,
    search: Search,
) -> Result<Tried, PlanFault>
    requires limited { IsNodeLimit search.limit }
    requires pages { HasPage classes.now }
    ensures attempt { IfOk result (IsTried classes.now search batches) }
    ensures limit { ¬ IsErrOf result PlanFault.BadLimit }
    ensures fault { IfErr result (IsOutcomeFault classes.now search) }
    ensures undecided { IfErr result (StopsAt batches) }
{
    let by_loads = least_certificate(classes, search.end);
    if by_loads.batches < batches {
        return Ok(Tried::Fits(None));
    }
    if by_loads.batches > batches {
        return Ok(Tried::Exceeds(by_loads));
    }
    let outcome = outcome_of(alloc, classes, search)?;
    if outcome.found.batches <= batches {
        return Ok(Tried::Fits(Some(outcome)));
    }
    let Outcome { found, bound, .. } = outcome;
    Ok(Tried::Exceeds(Certificate {
        end: search.end,
        batches: bound,
        tree: found.tree,
    }))
}

// How many first pages are known to fit, with their class table and with what a search left for them, if one did; and
// how many are known not to, with what shows it, or are one more than all.
#[derive(Drop)]
pub(crate) struct FrontBounds {
    pub(crate) fitting: usize,
    pub(crate) classes: Classes,
    pub(crate) outcome: Option<Outcome>,
    pub(crate) beyond: usize,
    pub(crate) why: Option<Certificate>,
}

impl FrontBounds {
    // The bounds that a try of so many first pages, between the two, leaves; the table is theirs.
    pub(crate) fn narrowed(self, count: usize, classes: &Classes, attempt: Tried) -> FrontBounds
        requires above { self.fitting < count }
        requires below { count < self.beyond }
        ensures bounds { (search : Search) (R : List Page) (batches : ℕ) →
            AreClassesOf classes.now search.end (take count R) → IsTried classes.now search batches attempt →
            AreFrontBounds search R batches self → AreFrontBounds search R batches result }
        ensures narrower { result.beyond + self.fitting < self.beyond + result.fitting }
    {
        match attempt {
            Tried::Fits(outcome) => FrontBounds {
                fitting: count,
                classes: *classes,
                outcome,
                beyond: self.beyond,
                why: self.why,
            },
            Tried::Exceeds(certificate) => FrontBounds {
                fitting: self.fitting,
                classes: self.classes,
                outcome: self.outcome,
                beyond: count,
                why: Some(certificate),
            },
        }
    }
}
