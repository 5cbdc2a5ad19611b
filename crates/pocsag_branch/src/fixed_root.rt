ghost use Rattle.std.specs.Prelude.{◌≡◌, ◌<◌, true, IfErr, IfOk, IfSome, slice_index};
ghost use Rattle.pocsag_slots.specs.Loads.{IsAdmitted, limits_of_all};
ghost use Rattle.pocsag_tree.specs.Views.{bound_tree_of};
ghost use Rattle.pocsag_branch.specs.Examined.{IsStop, IsTreeOf};

use crate::fixed_kinds::kind_for;
use crate::free_root::stop_at_tour;
use crate::node::Node;
use crate::nodes::{node_tree, tree_of_kind};
use crate::task::{Stop, Task};
use pocsag_slots::{Choice, Classes, all_limits};
use pocsag_tree::Tree;
use pocsag_words::End;
use std::alloc::Global;

// With another end than the open one, a choice that has a tour for the open end, if the free search meets one.
fn choice_for_open_end(alloc: Global, classes: &Classes, task: Task) -> Result<Option<Choice>, Stop>
    requires { task.fixed ≡ true }
    ensures choice { IfOk result
        (λ found. IfSome found
        (λ choice. IsAdmitted classes.now (limits_of_all classes.now task.batches) (slice_index choice.early))) }
    ensures stop { IfErr result (IsStop classes.now task) }
{
    let open = Task {
        end: End::Open,
        batches: task.batches,
        limit: task.limit,
        fixed: task.fixed,
        second: task.second,
    };
    match task.end {
        End::Open => Ok(None),
        End::Closed | End::Idle => match stop_at_tour(alloc, classes, open) {
            Ok(()) => Ok(None),
            Err(Stop::Met(answer)) => {
                let met = Box::into_inner(answer);
                Ok(Some(met.choice))
            }
            Err(Stop::Limit) => unreachable!(),
            Err(Stop::OutOfMemory) => Err(Stop::OutOfMemory),
        },
    }
}

// The tree of the search from the limits of all choices, where the free search meets no tour. Where it meets
// one for the open end alone, the root is to be closed at once.
pub(crate) fn fixed_tree(alloc: Global, classes: &Classes, task: Task) -> Result<Tree, Stop>
    requires { task.fixed ≡ true }
    ensures tree { IfOk result (λ tree. IsTreeOf classes.now task (bound_tree_of tree)) }
    ensures stop { IfErr result (IsStop classes.now task) }
{
    stop_at_tour(alloc, classes, task)?;
    let root = Node {
        classes,
        task,
        limits: all_limits(classes, task.batches),
    };
    if let Some(choice) = choice_for_open_end(alloc, classes, task)? {
        let kind = kind_for(alloc, &root, &choice)?;
        let (tree, _) = tree_of_kind(alloc, &root, kind, 0)?;
        return Ok(tree);
    }
    let (tree, _) = node_tree(alloc, &root, 0)?;
    Ok(tree)
}
