ghost use Rattle.std.specs.Prelude.{IsTrue, slice_index};
ghost use Rattle.pocsag_slots.specs.Loads.{IsChoice};
ghost use Rattle.pocsag_slots.specs.Sums.{holds};

use crate::node::Node;
use pocsag_slots::Choice;
use pocsag_tour::reached;

// A set of boundaries, boundary 0 among them: bit `p` of the number stands for boundary `p`. Sets of slots
// are bare numbers, so that neither is taken for the other.
#[derive(Clone, Copy)]
pub(crate) struct BoundarySet {
    pub(crate) members: u16,
    pub ghost zero: { IsTrue (holds members 0) },
}

// The boundaries that are reached under the choice.
pub(crate) fn reached_set(node: &Node<'_>, choice: &Choice) -> BoundarySet
    requires { IsChoice node.now.classes.now (slice_index choice.now.early) }
{
    let members = reached(node.classes, choice, node.task.batches);
    BoundarySet { members }
}
