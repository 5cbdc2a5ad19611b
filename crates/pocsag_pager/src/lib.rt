#![tactic(auto)]
//! A simulated pager: what the receiver of one address shows of a transmission, up to two wrong
//! bits of each codeword repaired.

mod fault;
mod laws;
mod pager;
mod shown;
mod turn;

pub use fault::PagerFault;
pub use laws::{damage_is_repaired, shown_pages_are_one_list};
pub use pager::Pager;
pub use shown::hear_all;
