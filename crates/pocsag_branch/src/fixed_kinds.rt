ghost use Rattle.std.specs.Prelude.{◌<◌, false, IfErr, IfOk, slice_index};
ghost use Rattle.pocsag_slots.specs.Loads.{IsAdmitted};
ghost use Rattle.pocsag_tour.specs.Reached.{IsApart};
ghost use Rattle.pocsag_branch.specs.Examined.{IsNodeKind, IsStop, IsNoTour, IsNodeAs};
ghost use Rattle.pocsag_branch.specs.Shape.{NoneCertain};

use crate::boundaries::BoundarySet;
use crate::child::certain_class;
use crate::local_search::improved_choice;
use crate::node::Node;
use crate::task::{Answer, NoTour, NodeKind, Stop};
use pocsag_flow::{ChooseFault, choose};
use pocsag_slots::{CLASSES, Choice, Class};
use pocsag_tour::{TourFault, has_run_outside, tour};
use std::alloc::Global;

// Which node is to be made under the limits. This is the one place where the search has a choice.
#[inline(never)]
pub(crate) fn fixed_kind(alloc: Global, node: &Node<'_>) -> Result<NodeKind, Stop>
    ensures kind { IfOk result (IsNodeKind node.now.classes.now node.now.task node.now.limits) }
    ensures shape { IfOk result (IsNodeAs node.now.classes.now node.now.task node.now.limits) }
    ensures stop { IfErr result (IsStop node.now.classes.now node.now.task) }
{
    match choose(node.classes, &node.limits) {
        Ok(choice) => {
            let best = improved_choice(node, choice);
            kind_for(alloc, node, &best)
        }
        Err(ChooseFault::Overload(set)) => Ok(NodeKind::Overload(set)),
    }
}

// Which node is to be made where the limits admit the choice.
pub(crate) fn kind_for(alloc: Global, node: &Node<'_>, choice: &Choice) -> Result<NodeKind, Stop>
    requires { IsAdmitted node.now.classes.now node.now.limits (slice_index choice.now.early) }
    ensures kind { IfOk result (IsNodeKind node.now.classes.now node.now.task node.now.limits) }
    ensures shape { IfOk result (IsNodeAs node.now.classes.now node.now.task node.now.limits) }
    ensures stop { IfErr result (IsStop node.now.classes.now node.now.task) }
{
    match why_no_tour(alloc, node, choice)? {
        NoTour::Apart(set) => Ok(kind_at(node, choice, set)),
        NoTour::Unclosed => Ok(NodeKind::Close),
    }
}

// Whether the choice has a tour: it is met, or its runs are apart, or the tour cannot be closed.
pub(crate) fn why_no_tour(alloc: Global, node: &Node<'_>, choice: &Choice) -> Result<NoTour, Stop>
    requires { IsAdmitted node.now.classes.now node.now.limits (slice_index choice.now.early) }
    ensures no_tour { IfOk result
        (IsNoTour node.now.classes.now node.now.task node.now.limits (slice_index choice.now.early)) }
    ensures stop { IfErr result (IsStop node.now.classes.now node.now.task) }
{
    match tour(
        alloc,
        node.classes,
        choice,
        node.task.batches,
        node.task.end,
    ) {
        Ok(steps) => {
            let answer = Answer {
                choice: *choice,
                steps,
            };
            Err(Stop::Met(Box::new(alloc, answer)?))
        }
        Err(TourFault::Apart(members)) => Ok(NoTour::Apart(BoundarySet { members })),
        Err(TourFault::Unclosed) => Ok(NoTour::Unclosed),
        Err(TourFault::OutOfMemory) => Err(Stop::OutOfMemory),
    }
}

// A cut at the set that the choice reaches, where a class is certain for it, and else a split.
pub(crate) fn kind_at(node: &Node<'_>, choice: &Choice, set: BoundarySet) -> NodeKind
    requires admitted { IsAdmitted node.now.classes.now node.now.limits (slice_index choice.now.early) }
    requires apart { IsApart node.now.classes.now (slice_index choice.now.early) node.now.task.batches set.members }
    ensures kind { IsNodeKind node.now.classes.now node.now.task node.now.limits result }
    ensures shape { IsNodeAs node.now.classes.now node.now.task node.now.limits result }
{
    match certain_class(node, set) {
        Some(needed) => NodeKind::Cut { set, needed },
        None => split_point(node, choice, set),
    }
}

// The split of the first class with a run outside the set: at 1 where it is an early run.
fn split_point(node: &Node<'_>, choice: &Choice, set: BoundarySet) -> NodeKind
    requires admitted { IsAdmitted node.now.classes.now node.now.limits (slice_index choice.now.early) }
    requires apart { IsApart node.now.classes.now (slice_index choice.now.early) node.now.task.batches set.members }
    requires uncertain { NoneCertain node.now.classes.now node.now.limits set.members }
    ensures kind { IsNodeKind node.now.classes.now node.now.task node.now.limits result }
    ensures shape { IsNodeAs node.now.classes.now node.now.task node.now.limits result }
{
    for class in 0..CLASSES as u8 {
        if has_run_outside(node.classes, choice, set.members, class, true) {
            return NodeKind::Split {
                class: Class { number: class },
                m: 1,
            };
        }
        if has_run_outside(node.classes, choice, set.members, class, false) {
            return NodeKind::Split {
                class: Class { number: class },
                m: node.classes.count[class as usize] as u16,
            };
        }
    }
    unreachable!()
}
