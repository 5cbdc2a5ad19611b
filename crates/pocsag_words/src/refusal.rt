use std::alloc::{AllocError, AllocFailed};
use thiserror::Error;

/// A growth was refused for want of memory.
#[derive(Clone, Copy, PartialEq, Eq, Debug, Error)]
#[error("out of memory")]
pub struct OutOfMemory;

/// A device did not take all of a text; what it took is a prefix of that text.
#[derive(Clone, Copy, PartialEq, Eq, Debug, Error)]
#[error("cannot write")]
pub struct WriteFault;

impl From<AllocError> for OutOfMemory {
    fn from(_fault: AllocError) -> OutOfMemory {
        OutOfMemory
    }
}

impl<T: Drop> From<AllocFailed<T>> for OutOfMemory {
    fn from(_fault: AllocFailed<T>) -> OutOfMemory {
        OutOfMemory
    }
}
