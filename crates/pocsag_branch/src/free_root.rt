ghost use Rattle.std.specs.Prelude.{◌≡◌, ◌<◌, false, IfErr, IfOk};
ghost use Rattle.pocsag_tree.specs.Views.{bound_tree_of};
ghost use Rattle.pocsag_branch.specs.Examined.{IsStop};
ghost use Rattle.pocsag_branch.specs.Found.{IsNodeLimit};
ghost use Rattle.pocsag_branch.specs.FreeNode.{IsFreeTree};

use crate::node::Node;
use crate::nodes::{node_tree, tree_of_kind};
use crate::task::{NodeKind, Stop, Task};
use pocsag_slots::{Classes, all_limits};
use pocsag_tree::Tree;
use pocsag_words::End;
use std::alloc::Global;

// How many nodes the first try of the free search examines at most.
const FIRST_TRY: u32 = 1_000;

// How many nodes are examined at most to see whether a tour is there.
const FREE_LIMIT: u32 = 20_000;

// One try of the free search from the limits of all choices. Where the end asks for something of the last codeword,
// it begins with the ways to close: below them an open tour can always be closed.
fn tree_of_try(alloc: Global, classes: &Classes, task: Task) -> Result<Tree, Stop>
    requires { task.fixed ≡ false }
    ensures tree { IfOk result (λ tree. IsFreeTree classes.now task (bound_tree_of tree)) }
    ensures stop { IfErr result (IsStop classes.now task) }
{
    let root = Node {
        classes,
        task,
        limits: all_limits(classes, task.batches),
    };
    let (tree, _) = match task.end {
        End::Open => node_tree(alloc, &root, 0),
        End::Closed | End::Idle => tree_of_kind(alloc, &root, NodeKind::Close, 0),
    }?;
    Ok(tree)
}

// The same task with another limit, for the first try of the free search or the second.
fn task_within(task: Task, limit: u32, second: bool) -> Task
    requires { IsNodeLimit limit }
    ensures end { result.end ≡ task.end }
    ensures batches { result.batches ≡ task.batches }
    ensures limit { result.limit ≡ limit }
    ensures free { result.fixed ≡ false }
{
    Task {
        end: task.end,
        batches: task.batches,
        limit,
        fixed: false,
        second,
    }
}

// The tree of the free search. Where the first try stops at its limit, a second one has the rest.
pub(crate) fn free_tree(alloc: Global, classes: &Classes, task: Task) -> Result<Tree, Stop>
    requires { task.fixed ≡ false }
    ensures tree { IfOk result (λ tree. IsFreeTree classes.now task (bound_tree_of tree)) }
    ensures stop { IfErr result (IsStop classes.now task) }
{
    let short = task.limit.min(FIRST_TRY);
    let first = task_within(task, short, false);
    match tree_of_try(alloc, classes, first) {
        Ok(tree) => Ok(tree),
        Err(Stop::Met(answer)) => Err(Stop::Met(answer)),
        Err(Stop::OutOfMemory) => Err(Stop::OutOfMemory),
        Err(Stop::Limit) => {
            if task.limit == short {
                return Err(Stop::Limit);
            }
            let second = task_within(task, task.limit - short, true);
            tree_of_try(alloc, classes, second)
        }
    }
}

// Stops where the free search meets a tour with so many batches.
pub(crate) fn stop_at_tour(alloc: Global, classes: &Classes, task: Task) -> Result<(), Stop>
    ensures { IfErr result (IsStop classes.now task) }
{
    match free_tree(alloc, classes, task_within(task, FREE_LIMIT, false)) {
        Ok(_) => Ok(()),
        Err(Stop::Limit) => Ok(()),
        Err(Stop::Met(answer)) => Err(Stop::Met(answer)),
        Err(Stop::OutOfMemory) => Err(Stop::OutOfMemory),
    }
}
