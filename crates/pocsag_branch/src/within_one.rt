ghost use Rattle.std.specs.Prelude.{◌≡◌};
ghost use Rattle.pocsag_branch.specs.declared.within_one.FreeFault.TheVariants.{OutOfMemory};

use crate::fault::SearchLimit;
use pocsag_slots::{Choice, Step};
use pocsag_tree::Tree;
use std::alloc::AllocError;
use thiserror::Error;

/// A transmission of at most one batch more than the fewest: a choice of starts with the steps of its tour
/// of `least + 1` batches, and the tree that refutes fewer than `least`.
#[derive(Debug, Drop)]
pub struct FallbackPlan {
    pub least: u32,
    pub choice: Choice,
    pub steps: Vec<Step>,
    pub tree: Tree,
}

/// Why the free search returned no result.
#[derive(Debug, Drop, Error)]
pub enum FreeFault {
    /// This many nodes did not decide between `least` batches and one more. It holds a transmission of one batch
    /// more, and what `search` returns at the same limit.
    #[error("search limit reached")]
    SearchLimit {
        fallback: FallbackPlan,
        stop: SearchLimit,
    },
    #[error("out of memory")]
    OutOfMemory,
}

impl From<AllocError> for FreeFault {
    ghost from_gives = { λ _ fault. fault ≡ OutOfMemory };

    fn from(_fault: AllocError) -> FreeFault {
        FreeFault::OutOfMemory
    }
}
