ghost use Rattle.std.specs.Prelude.{◌+◌, ◌≤◌, IfOk, slice_index};
ghost use Rattle.pocsag_slots.specs.Loads.{IsAdmitted, IsLeast, limits_of_all};
ghost use Rattle.pocsag_slots.specs.Tours.{IsTour};
ghost use Rattle.pocsag_branch.specs.Examined.{greatest_least, IsAnswer};
ghost use Rattle.pocsag_branch.specs.Found.{IsFound};
ghost use Rattle.pocsag_branch.specs.Shape.{RefusesOneLess};

use crate::answer::Found;
use crate::task::{Answer, Task};
use pocsag_slots::{Choice, Classes, Step};
use pocsag_tour::{TourFault, tour};
use pocsag_tree::Tree;
use pocsag_words::End;
use std::alloc::{AllocError, Global};

// What is found where a tour was met with the least number of batches.
pub(crate) fn found_at_least(classes: &Classes, task: Task, set: u16, answer: Answer) -> Found
    requires least { IsLeast classes.now task.batches }
    requires refuses { RefusesOneLess classes.now task.batches set }
    requires answer { IsAnswer classes.now task.end task.batches answer }
    ensures { IsFound classes.now task.end task.limit result }
{
    Found {
        batches: task.batches,
        choice: answer.choice,
        steps: answer.steps,
        tree: Tree::Overload(set),
    }
}

// The tour of a choice that is admitted with so many batches, with one batch more: each slot has an idle
// then.
pub(crate) fn tour_of_one_more(
    alloc: Global,
    classes: &Classes,
    choice: &Choice,
    batches: u32,
    end: End,
) -> Result<Vec<Step>, AllocError>
    requires admitted { IsAdmitted classes.now (limits_of_all classes.now batches) (slice_index choice.now.early) }
    requires small { batches ≤ greatest_least }
    ensures { IfOk result (λ steps. IsTour classes.now end (slice_index choice.now.early) (batches + 1) steps.items) }
{
    match tour(alloc, classes, choice, batches + 1, end) {
        Ok(steps) => Ok(steps),
        Err(TourFault::OutOfMemory) => Err(AllocError),
        Err(TourFault::Apart(_)) => unreachable!(),
        Err(TourFault::Unclosed) => unreachable!(),
    }
}
