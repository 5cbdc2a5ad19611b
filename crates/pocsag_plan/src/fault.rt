ghost use Rattle.std.specs.Prelude.{◌≡◌};
ghost use Rattle.pocsag_plan.specs.declared.fault.NoFront.TheVariants as front;
ghost use Rattle.pocsag_plan.specs.declared.fault.PlanFault.TheVariants as planning;
ghost use Rattle.pocsag_plan.specs.declared.fault.StreamFault.TheVariants as streaming;
ghost use Rattle.pocsag_plan.specs.FaultChains.{fault_of_search};

use pocsag_branch::{SearchFault, SearchLimit};
use pocsag_pages::RoundFault;
use pocsag_words::{OutOfMemory, WriteFault};
use thiserror::Error;

/// Why there is no plan.
#[derive(Debug, Drop, Error)]
pub enum PlanFault {
    /// The node limit is 0 or above 1,000,000.
    #[error("the limit must be 1 to 1000000")]
    BadLimit,
    #[error(transparent)]
    SearchLimit(SearchLimit),
    #[error("out of memory")]
    OutOfMemory,
}

/// Why a round has no front that so many batches carry.
#[derive(Drop)]
pub enum NoFront {
    /// There is no plan.
    Plan(PlanFault),
    /// Not even the first page fits: it needs this many batches.
    FirstPage(u32),
}

/// Why a page file was not planned and written.
#[derive(Debug, Drop, Error)]
pub enum StreamFault {
    /// The round has no plan.
    #[error(transparent)]
    Plan(PlanFault),
    /// The page file gives no round.
    #[error(transparent)]
    Round(RoundFault),
    /// The transmission was not taken whole: what was taken is a prefix of it.
    #[error(transparent)]
    Transmission(WriteFault),
    /// The transmission was taken whole, and the certificate was not: what was taken is a prefix of it.
    #[error(transparent)]
    Certificate(WriteFault),
}

/// Why no front of an open round was planned and written.
#[derive(Drop)]
pub enum UnsentFront {
    /// As of a plan of all its pages.
    Stream(StreamFault),
    /// Not even the first page fits: it needs this many batches.
    FirstPage(u32),
}

/// A rate that is none of 512, 1200 and 2400 bits a second.
#[derive(Clone, Copy, PartialEq, Eq, Debug, Error)]
#[error("the rate must be 512, 1200 or 2400")]
pub struct BadRate;

impl From<OutOfMemory> for PlanFault {
    ghost from_gives = { λ _ e. e ≡ planning.OutOfMemory };

    fn from(_fault: OutOfMemory) -> PlanFault {
        PlanFault::OutOfMemory
    }
}

impl From<PlanFault> for NoFront {
    ghost from_gives = { λ fault e. e ≡ front.Plan fault };

    fn from(fault: PlanFault) -> NoFront {
        NoFront::Plan(fault)
    }
}

impl From<SearchFault> for PlanFault {
    ghost from_gives = { λ fault e. e ≡ fault_of_search fault };

    fn from(fault: SearchFault) -> PlanFault {
        match fault {
            SearchFault::SearchLimit(limit) => PlanFault::SearchLimit(limit),
            SearchFault::OutOfMemory => PlanFault::OutOfMemory,
        }
    }
}
