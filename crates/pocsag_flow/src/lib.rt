#![tactic(auto)]
//! The choice of starts: how many pages of each class start early, so that no slot is loaded above its
//! cap, or a set of slots that every choice within the limits loads above its caps. Nothing here takes
//! memory.

mod choice;
mod fault;
mod network;
mod way;

pub use choice::{choose, choose_from};
pub use fault::ChooseFault;
