ghost use Rattle.std.specs.Prelude.{◌≡◌};
ghost use Rattle.pocsag_tree.specs.declared.refusals.CertificateFault.TheVariants as read;

use pocsag_words::DeviceFault;
use std::alloc::{AllocError, AllocFailed};
use thiserror::Error;

/// Why a certificate was not read: the first fault from left to right.
#[derive(Clone, Copy, PartialEq, Eq, Debug, Error)]
pub enum CertificateFault {
    /// One of the first three bytes is not that of a certificate.
    #[error("not a certificate")]
    NotCertificate,
    /// The fourth byte is that of no version.
    #[error("unknown certificate version")]
    Version,
    /// The end came where a byte was wanted.
    #[error("the certificate is cut short")]
    Truncated,
    /// A byte stands after the root node.
    #[error("bytes after the certificate")]
    Trailing,
    /// A node's tag is that of no node of this version.
    #[error("the certificate is malformed")]
    BadTag,
    /// A field is outside its range.
    #[error("the certificate is malformed")]
    BadField,
    /// A node stands at depth 301.
    #[error("the certificate is too deep")]
    TooDeep,
    /// A node would be number 1,000,001.
    #[error("the certificate has too many nodes")]
    TooMany,
    /// The reader failed.
    #[error("cannot read or open a file")]
    ReadFault,
    /// A growth was refused.
    #[error("out of memory")]
    OutOfMemory,
}

/// Why a certificate was not written.
#[derive(Clone, Copy, PartialEq, Eq, Debug, Error)]
pub enum TreeWriteFault {
    /// The tree, or the number of batches, has no certificate.
    #[error("the tree has no certificate")]
    BadTree,
    /// The writer failed.
    #[error("cannot write")]
    WriteFault,
}

impl From<AllocError> for CertificateFault {
    ghost from_gives = { λ _ e. e ≡ read.OutOfMemory };

    fn from(_e: AllocError) -> CertificateFault {
        CertificateFault::OutOfMemory
    }
}

impl<T: Drop> From<AllocFailed<T>> for CertificateFault {
    ghost from_gives = { λ _ e. e ≡ read.OutOfMemory };

    fn from(_e: AllocFailed<T>) -> CertificateFault {
        CertificateFault::OutOfMemory
    }
}

impl From<DeviceFault> for CertificateFault {
    ghost from_gives = { λ _ e. e ≡ read.ReadFault };

    fn from(_e: DeviceFault) -> CertificateFault {
        CertificateFault::ReadFault
    }
}
