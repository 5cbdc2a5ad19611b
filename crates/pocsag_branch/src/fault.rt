ghost use Rattle.std.specs.Prelude.{◌≡◌};
ghost use Rattle.pocsag_branch.specs.declared.fault.SearchFault.TheVariants.{OutOfMemory};

use pocsag_tree::Tree;
use std::alloc::AllocError;
use thiserror::Error;

/// This many nodes did not decide between `least` batches and `found`, one more.
#[derive(Debug, Drop, Error)]
#[error("search limit reached: at least {least} batches, {found} would do")]
pub struct SearchLimit {
    pub least: u32,
    pub found: u32,
    /// The nodes that were examined, and an `Open` for each that was not.
    pub tree: Tree,
}

/// Why the search returned no result.
#[derive(Debug, Drop, Error)]
pub enum SearchFault {
    #[error(transparent)]
    SearchLimit(SearchLimit),
    #[error("out of memory")]
    OutOfMemory,
}

impl From<AllocError> for SearchFault {
    ghost from_gives = { λ _ fault. fault ≡ OutOfMemory };

    fn from(_fault: AllocError) -> SearchFault {
        SearchFault::OutOfMemory
    }
}
