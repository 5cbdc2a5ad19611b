use crate::fault::{PlanFault, StreamFault};
use pocsag_pages::{Page, PageFault, RoundFault};
use thiserror::Error;

/// Why a page is not added to an open round.
#[derive(Clone, Copy, PartialEq, Eq, Debug, Error)]
pub enum AddFault {
    /// The page may stand in no round.
    #[error(transparent)]
    Page(PageFault),
    /// A page of the round has the address.
    #[error("the address is already there")]
    DuplicateAddress,
    /// The round has 20,000 pages.
    #[error("too many pages")]
    Full,
    #[error("out of memory")]
    OutOfMemory,
}

/// A page that was not added, and why.
#[derive(Debug, Drop, Error)]
#[error("{fault}")]
pub struct Refused {
    pub fault: AddFault,
    pub page: Page,
}

/// No page of the round has the address.
#[derive(Clone, Copy, PartialEq, Eq, Debug, Error)]
#[error("no such page")]
pub struct NotThere;

/// Why there is no plan of an open round.
#[derive(Debug, Drop, Error)]
pub enum BookFault {
    #[error("there are no pages")]
    NoPages,
    /// Its round has no plan.
    #[error(transparent)]
    Plan(PlanFault),
}

impl From<BookFault> for StreamFault {
    ghost use Rattle.std.specs.Prelude.{◌≡◌};
    ghost use Rattle.pocsag_plan.specs.FaultChains.{stream_fault_of};

    ghost from_gives = { λ fault its. its ≡ stream_fault_of fault };

    fn from(fault: BookFault) -> StreamFault {
        match fault {
            BookFault::NoPages => StreamFault::Round(RoundFault::NoPages),
            BookFault::Plan(fault) => StreamFault::Plan(fault),
        }
    }
}
