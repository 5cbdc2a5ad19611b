ghost use Rattle.std.specs.Prelude.{◌≡◌, ◌<◌};
ghost use Rattle.pocsag_branch.specs.Found.{IsNodeLimit};
ghost use Rattle.pocsag_branch.specs.declared.task.Stop.TheVariants.{OutOfMemory};

use crate::boundaries::BoundarySet;
use pocsag_slots::{Choice, Class, Step};
use pocsag_words::End;
use std::alloc::{AllocError, AllocFailed};

// What is asked of a node beside its limits: the end, the batches that are to be refuted, how many nodes may
// be examined, whether the tree is to have the promised shape (the fixed search), and, of the free search alone,
// whether it tries a second time: then it looks across no other set and takes other ways.
#[derive(Clone, Copy)]
pub(crate) struct Task {
    pub(crate) end: End,
    pub(crate) batches: u32,
    pub(crate) limit: u32,
    pub(crate) fixed: bool,
    pub(crate) second: bool,
    pub ghost some: { 0 < batches },
    pub ghost limited: { IsNodeLimit limit },
}

// A choice and its tour with the batches that were to be refuted.
#[derive(Drop)]
pub(crate) struct Answer {
    pub(crate) choice: Choice,
    pub(crate) steps: Vec<Step>,
}

// Why an examination ends before its tree is whole; the fixed search does not end at its limit.
#[derive(Drop)]
pub(crate) enum Stop {
    Met(Box<Answer>),
    Limit,
    OutOfMemory,
}

impl<T: Drop> From<AllocFailed<T>> for Stop {
    ghost from_gives = { λ _ stop. stop ≡ OutOfMemory };

    fn from(_fault: AllocFailed<T>) -> Stop {
        Stop::OutOfMemory
    }
}

impl From<AllocError> for Stop {
    ghost from_gives = { λ _ stop. stop ≡ OutOfMemory };

    fn from(_fault: AllocError) -> Stop {
        Stop::OutOfMemory
    }
}

// Which node is to be made.
#[derive(Clone, Copy)]
pub(crate) enum NodeKind {
    Overload(u16),
    Cut { set: BoundarySet, needed: Class },
    Split { class: Class, m: u16 },
    Close,
}

// Why a choice has no tour: its runs are apart, with the set of boundaries that are reached, or the tour
// cannot be closed.
#[derive(Clone, Copy)]
pub(crate) enum NoTour {
    Apart(BoundarySet),
    Unclosed,
}
