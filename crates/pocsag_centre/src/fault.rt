ghost use Rattle.std.specs.Prelude.{◌≡◌};
ghost use Rattle.pocsag_centre.specs.declared.fault.CentreFault.TheVariants as fault;

use pocsag_decode::DecodeFault;
use pocsag_findings::ExplanationFault;
use pocsag_pages::{QuoteFault, RoundFault};
use pocsag_plan::{NoFront, PlanFault, StreamFault};
use pocsag_shell::{Failure, FileFault, Role};
use pocsag_tree::CertificateFault;
use thiserror::Error;

/// Why a command of the centre did not do what it was asked.
#[derive(Clone, Copy, PartialEq, Eq, Debug, Error)]
pub enum CentreFault {
    /// A file or a stream cannot be used, or memory was refused.
    #[error(transparent)]
    File(FileFault),
    /// The page file gives no round.
    #[error(transparent)]
    Round(RoundFault),
    /// A quote of the page file is misplaced, where `--strict` is given.
    #[error(transparent)]
    Quotes(QuoteFault),
    /// The round has so many pages, where `--expect` names another number.
    #[error("pages {0}, where {1} were expected")]
    Unexpected(u32, u32),
    #[error("the limit must be 1 to 1000000")]
    BadLimit,
    /// The search stopped: at least so many batches are needed, and one more would do.
    #[error("search limit reached: at least {0} batches, {1} would do")]
    SearchLimit(u32, u32),
    /// Not even the first page fits into the batches that a front may have: it needs this many.
    #[error("page 1 needs {0} batches")]
    FirstPage(u32),
    #[error("the rate must be 512, 1200 or 2400")]
    BadRate,
    /// The bytes are no certificate.
    #[error(transparent)]
    Certificate(CertificateFault),
    /// The bytes are no transmission that reads as pages.
    #[error(transparent)]
    Transmission(DecodeFault),
    /// What was read back from the transmission's file is not what was planned.
    #[error("the transmission does not hold the pages of the page file")]
    NotThePages,
    /// The same: a message goes on to the end of the transmission, where the closed end was asked for, or its last
    /// codeword is no idle one, where the idle end was.
    #[error("the transmission does not end as was asked for")]
    NotTheEnd,
    /// What was read back from the certificate's file is not what was planned.
    #[error("the certificate does not show the batches of the transmission")]
    NotTheBound,
}

impl Failure for CentreFault {
    ghost use Rattle.pocsag_centre.specs.Faults.{centre_status};

    ghost status_is = { centre_status };

    fn status(self) -> u8 {
        match self {
            CentreFault::File(fault) => fault.status(),
            CentreFault::Round(RoundFault::ReadFault | RoundFault::OutOfMemory) => 3,
            CentreFault::Transmission(DecodeFault::OutOfMemory) => 3,
            CentreFault::Certificate(CertificateFault::ReadFault | CertificateFault::OutOfMemory) =>
                3,
            _ => 1,
        }
    }
}

impl CentreFault {
    /// The file that the command refuses by this fault, if it refuses one.
    pub fn refused(self) -> Option<Role> {
        match self {
            CentreFault::BadLimit | CentreFault::BadRate => None,
            CentreFault::Certificate(_) | CentreFault::NotTheBound => Some(Role::Certificate),
            CentreFault::Transmission(_)
            | CentreFault::NotThePages
            | CentreFault::NotTheEnd
            | CentreFault::File(FileFault::TooLarge) => Some(Role::Transmission),
            _ => Some(Role::PageFile),
        }
    }
}

impl From<FileFault> for CentreFault {
    ghost from_gives = { λ refused e. e ≡ fault.File refused };

    fn from(refused: FileFault) -> CentreFault {
        CentreFault::File(refused)
    }
}

impl From<ExplanationFault> for CentreFault {
    ghost use Rattle.pocsag_centre.specs.Faults.{fault_of_explanation};

    ghost from_gives = { λ refused e. e ≡ fault_of_explanation refused };

    fn from(refused: ExplanationFault) -> CentreFault {
        match refused {
            ExplanationFault::WriteFault => CentreFault::File(FileFault::Write),
            ExplanationFault::OutOfMemory => CentreFault::File(FileFault::OutOfMemory),
        }
    }
}

impl From<RoundFault> for CentreFault {
    ghost from_gives = { λ refused e. e ≡ fault.Round refused };

    fn from(refused: RoundFault) -> CentreFault {
        CentreFault::Round(refused)
    }
}

impl From<PlanFault> for CentreFault {
    ghost use Rattle.pocsag_centre.specs.Faults.{fault_of_plan};

    ghost from_gives = { λ refused e. e ≡ fault_of_plan refused };

    fn from(refused: PlanFault) -> CentreFault {
        match refused {
            PlanFault::BadLimit => CentreFault::BadLimit,
            PlanFault::SearchLimit(stop) => CentreFault::SearchLimit(stop.least, stop.found),
            PlanFault::OutOfMemory => CentreFault::File(FileFault::OutOfMemory),
        }
    }
}

impl From<NoFront> for CentreFault {
    ghost use Rattle.pocsag_centre.specs.Faults.{fault_of_front};

    ghost from_gives = { λ refused e. e ≡ fault_of_front refused };

    fn from(refused: NoFront) -> CentreFault {
        match refused {
            NoFront::Plan(refused) => CentreFault::from(refused),
            NoFront::FirstPage(needed) => CentreFault::FirstPage(needed),
        }
    }
}

impl From<StreamFault> for CentreFault {
    ghost use Rattle.pocsag_centre.specs.Faults.{fault_of_stream};

    ghost from_gives = { λ refused e. e ≡ fault_of_stream refused };

    fn from(refused: StreamFault) -> CentreFault {
        match refused {
            StreamFault::Plan(refused) => CentreFault::from(refused),
            StreamFault::Round(refused) => CentreFault::Round(refused),
            StreamFault::Transmission(_) | StreamFault::Certificate(_) => {
                CentreFault::File(FileFault::Write)
            }
        }
    }
}
