ghost use Rattle.std.specs.Prelude.{IfErr, IfOk};
ghost use Rattle.pocsag_branch.specs.Found.{HasPage, IsNodeLimit};
ghost use Rattle.pocsag_branch.specs.Freely.{IsFoundFreely, IsFreeFault, IsNearlyFewest};

use crate::answer::Found;
use crate::fault::SearchFault;
use crate::fixed_search::search;
use crate::free_root::free_tree;
use crate::least::least_of;
use crate::outcome::{found_at_least, tour_of_one_more};
use crate::task::{Stop, Task};
use crate::within_one::{FallbackPlan, FreeFault};
use pocsag_slots::Classes;
use pocsag_tree::Tree;
use pocsag_words::End;
use std::alloc::{AllocError, Global};

/// Returns what `search` returns, with a tree whose shape is not promised, and mostly with far fewer nodes. If this
/// many nodes, 1 to 1,000,000, do not decide it, `search` runs with as many. If these do not decide it either,
/// `SearchLimit` holds a transmission of one batch more than is refuted, and what `search` returns.
///
/// It goes at most 289 nodes deep.
pub fn search_freely(
    alloc: Global,
    classes: &Classes,
    node_limit: u32,
    end: End,
) -> Result<Found, FreeFault>
    requires pages { HasPage classes.now }
    requires limit { IsNodeLimit node_limit }
    ensures found { IfOk result (IsFoundFreely classes.now end node_limit) }
    ensures fault { IfErr result (IsFreeFault classes.now end node_limit) }
{
    let least = least_of(classes);
    let task = Task {
        end,
        batches: least.batches,
        limit: node_limit,
        fixed: false,
        second: false,
    };
    match free_tree(alloc, classes, task) {
        Ok(tree) => {
            let steps = tour_of_one_more(alloc, classes, &least.choice, least.batches, end)?;
            Ok(Found {
                batches: least.batches + 1,
                choice: least.choice,
                steps,
                tree,
            })
        }
        Err(Stop::Met(answer)) => Ok(found_at_least(
            classes,
            task,
            least.set,
            Box::into_inner(answer),
        )),
        Err(Stop::Limit) => found_or_near(alloc, classes, node_limit, end),
        Err(Stop::OutOfMemory) => Err(FreeFault::OutOfMemory),
    }
}

// What `search` finds; and where it stops at its limit, what it says beside a transmission of one batch more.
fn found_or_near(
    alloc: Global,
    classes: &Classes,
    node_limit: u32,
    end: End,
) -> Result<Found, FreeFault>
    requires pages { HasPage classes.now }
    requires limit { IsNodeLimit node_limit }
    ensures found { IfOk result (IsFoundFreely classes.now end node_limit) }
    ensures fault { IfErr result (IsFreeFault classes.now end node_limit) }
{
    match search(alloc, classes, node_limit, end) {
        Ok(found) => Ok(found),
        Err(SearchFault::SearchLimit(stop)) => {
            let fallback = fallback(alloc, classes, end)?;
            Err(FreeFault::SearchLimit { fallback, stop })
        }
        Err(SearchFault::OutOfMemory) => Err(FreeFault::OutOfMemory),
    }
}

/// A transmission of at most one batch more than the fewest, without a search.
pub fn fallback(alloc: Global, classes: &Classes, end: End) -> Result<FallbackPlan, AllocError>
    requires { HasPage classes.now }
    ensures { IfOk result (IsNearlyFewest classes.now end) }
{
    let least = least_of(classes);
    let steps = tour_of_one_more(alloc, classes, &least.choice, least.batches, end)?;
    Ok(FallbackPlan {
        least: least.batches,
        choice: least.choice,
        steps,
        tree: Tree::Overload(least.set),
    })
}
