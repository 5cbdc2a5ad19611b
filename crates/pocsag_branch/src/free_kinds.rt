ghost use Rattle.std.specs.Prelude.{◌<◌, All, IfErr, IfOk, IfSome, slice_index};
ghost use Rattle.pocsag_slots.specs.Loads.{IsAdmitted};
ghost use Rattle.pocsag_slots.specs.Ways.{MayTake};
ghost use Rattle.pocsag_tour.specs.Reached.{IsApart};
ghost use Rattle.pocsag_branch.specs.Examined.{IsNodeKind, IsStop};
ghost use Rattle.pocsag_branch.specs.FreeNode.{IsUndecidedWay};

use crate::boundaries::BoundarySet;
use crate::fixed_kinds::{kind_at, why_no_tour};
use crate::node::Node;
use crate::smaller_cuts::{is_undecided, smaller_cut};
use crate::task::{NoTour, NodeKind, Stop};
use pocsag_flow::{ChooseFault, choose};
use pocsag_slots::{Choice, Class, Way, ways};
use std::alloc::Global;

// Which node the free search makes under the limits.
#[inline(never)]
pub(crate) fn free_kind(alloc: Global, node: &Node<'_>) -> Result<NodeKind, Stop>
    ensures kind { IfOk result (IsNodeKind node.now.classes.now node.now.task node.now.limits) }
    ensures stop { IfErr result (IsStop node.now.classes.now node.now.task) }
{
    let choice = match choose(node.classes, &node.limits) {
        Ok(choice) => choice,
        Err(ChooseFault::Overload(set)) => return Ok(NodeKind::Overload(set)),
    };
    match why_no_tour(alloc, node, &choice)? {
        NoTour::Apart(set) => Ok(free_kind_at(node, &choice, set)),
        NoTour::Unclosed => Ok(NodeKind::Close),
    }
}

// A split at an open way across the set that is reached, or across a smaller one in the first try; where
// none is open, a cut; and where no class is certain, the split of the promised shape.
fn free_kind_at(node: &Node<'_>, choice: &Choice, set: BoundarySet) -> NodeKind
    requires admitted { IsAdmitted node.now.classes.now node.now.limits (slice_index choice.now.early) }
    requires apart { IsApart node.now.classes.now (slice_index choice.now.early) node.now.task.batches set.members }
    ensures { IsNodeKind node.now.classes.now node.now.task node.now.limits result }
{
    if !node.task.second {
        if let Some(cut) = smaller_cut(node, set) {
            return split_first(node, cut);
        }
    }
    let kind = kind_at(node, choice, set);
    split_first(node, kind)
}

// A split in place of a cut, at a run way that is open.
fn split_first(node: &Node<'_>, kind: NodeKind) -> NodeKind
    requires { IsNodeKind node.now.classes.now node.now.task node.now.limits kind }
    ensures { IsNodeKind node.now.classes.now node.now.task node.now.limits result }
{
    match kind {
        NodeKind::Cut { set, .. } => {
            let out = ways(node.classes, &node.limits, set.members, node.task.batches);
            undecided_among(node, &out).unwrap_or(kind)
        }
        _ => kind,
    }
}

// The split at the first of the ways that is an open run, in the second try at the last one.
fn undecided_among(node: &Node<'_>, out: &[Way]) -> Option<NodeKind>
    requires { All (MayTake node.now.classes.now node.now.limits) out.now }
    ensures { IfSome result (IsNodeKind node.now.classes.now node.now.task node.now.limits) }
{
    let mut best = None;
    for way in out {
        if is_undecided(node, *way) {
            if let Some(split) = split_at(node, *way) {
                best = Some(split);
                if !node.task.second {
                    break;
                }
            }
        }
    }
    best
}

// The split that takes the run of the way on one side.
fn split_at(node: &Node<'_>, way: Way) -> Option<NodeKind>
    requires way { MayTake node.now.classes.now node.now.limits way }
    requires open_way { IsUndecidedWay node.now.classes.now node.now.task.batches node.now.limits way }
    ensures { IfSome result (IsNodeKind node.now.classes.now node.now.task node.now.limits) }
{
    match way {
        Way::IdleIn(_) => None,
        Way::Early(class) => Some(NodeKind::Split {
            class: Class { number: class },
            m: 1,
        }),
        Way::Late(class) => Some(NodeKind::Split {
            class: Class { number: class },
            m: node.classes.count[class as usize] as u16,
        }),
    }
}
