ghost use Rattle.std.specs.Prelude.{◌<◌, slice_index};
ghost use Rattle.pocsag_slots.specs.Loads.{IsAdmitted};
ghost use Rattle.pocsag_slots.specs.Ways.{MayTake};
ghost use Rattle.pocsag_branch.specs.Improvements.{IsImprovement};

use crate::boundaries::{BoundarySet, reached_set};
use crate::child::certain_class;
use crate::node::Node;
use crate::usable_ways::{UsableWays, is_usable, usable_ways};
use pocsag_flow::choose_from;
use pocsag_slots::{Choice, Way, narrow, ways};
use pocsag_tour::lies_outside;

// How many improvements are made at most.
const IMPROVEMENTS: u32 = 64;

// What a set costs to be cut at: the usable ways across it, and then all of them.
#[derive(Clone, Copy)]
struct Cost {
    usable: u32,
    all: u32,
}

// A set that no class is certain to leave costs more than any other.
const NONE_CERTAIN: Cost = Cost {
    usable: u32::MAX,
    all: u32::MAX,
};

// A choice, the set that it reaches, and what that costs.
#[derive(Clone, Copy)]
pub(crate) struct Candidate {
    pub(crate) choice: Choice,
    set: BoundarySet,
    cost: Cost,
}

// What one step of the local search leads to.
#[derive(Clone, Copy)]
pub(crate) enum Improvement {
    LocalOptimum,
    Connected(Choice),
    Cheaper(Candidate),
}

fn cost_of(node: &Node<'_>, usable: &UsableWays, set: BoundarySet) -> Cost {
    if certain_class(node, set).is_none() {
        return NONE_CERTAIN;
    }
    let mut cost = Cost { usable: 0, all: 0 };
    let out = ways(node.classes, &node.limits, set.members, node.task.batches);
    for way in out.as_slice() {
        let more = u32::from(is_usable(usable, node.classes, &node.limits, *way));
        cost.usable = cost.usable.saturating_add(more);
        cost.all = cost.all.saturating_add(1);
    }
    cost
}

// One step: by the first usable way that leads to a choice whose runs are all reached, or else by the one
// that leads to the set of least cost, if that is less than the present one.
fn step_from(node: &Node<'_>, usable: &UsableWays, at: &Candidate) -> Improvement
    ensures { IsImprovement node.now.classes.now node.now.limits result }
{
    let out = ways(
        node.classes,
        &node.limits,
        at.set.members,
        node.task.batches,
    );
    let mut best = Improvement::LocalOptimum;
    let mut least = at.cost;
    for way in out.as_slice() {
        if is_usable(usable, node.classes, &node.limits, *way) {
            match step_by(node, usable, at, *way) {
                Improvement::Connected(choice) => return Improvement::Connected(choice),
                Improvement::Cheaper(next) => {
                    let cost = next.cost;
                    if cost.usable < least.usable
                        || cost.usable == least.usable && cost.all < least.all
                    {
                        least = next.cost;
                        best = Improvement::Cheaper(next);
                    }
                }
                Improvement::LocalOptimum => {}
            }
        }
    }
    best
}

// The choice that takes the way, beginning with the one at hand.
fn step_by(node: &Node<'_>, usable: &UsableWays, at: &Candidate, way: Way) -> Improvement
    requires { MayTake node.now.classes.now node.now.limits way }
    ensures { IsImprovement node.now.classes.now node.now.limits result }
{
    let narrowed = narrow(node.classes, &node.limits, way, node.task.batches);
    let Ok(choice) = choose_from(node.classes, &narrowed, &at.choice) else {
        return Improvement::LocalOptimum;
    };
    let set = reached_set(node, &choice);
    if !lies_outside(node.classes, &choice, set.members) {
        return Improvement::Connected(choice);
    }
    let cost = cost_of(node, usable, set);
    Improvement::Cheaper(Candidate { choice, set, cost })
}

// An admitted choice whose runs are all reached, or one with a set that costs less, or the given one.
pub(crate) fn improved_choice(node: &Node<'_>, choice: Choice) -> Choice
    requires { IsAdmitted node.now.classes.now node.now.limits (slice_index choice.early) }
    ensures { IsAdmitted node.now.classes.now node.now.limits (slice_index result.early) }
{
    let set = reached_set(node, &choice);
    if !lies_outside(node.classes, &choice, set.members) {
        return choice;
    }
    let usable = usable_ways(node.classes, &node.limits, &choice, node.task.batches);
    let cost = cost_of(node, &usable, set);
    let mut at = Candidate { choice, set, cost };
    for _ in 0..IMPROVEMENTS {
        match step_from(node, &usable, &at) {
            Improvement::LocalOptimum => break,
            Improvement::Connected(joined) => return joined,
            Improvement::Cheaper(next) => at = next,
        }
    }
    at.choice
}
