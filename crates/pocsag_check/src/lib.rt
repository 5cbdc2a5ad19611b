#![tactic(auto)]
//! The checker of certificates: whoever holds a certificate needs to trust this crate alone. It uses
//! nothing of the search, and takes no memory.

mod checker;
mod verdict;

pub use verdict::{accepts, check, check_open};
