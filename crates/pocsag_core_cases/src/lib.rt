#![tactic(auto)]
//! Tests of the public calls below the commands, written as tables, with the texts of faults and README's example; and the
//! worked rounds that they share with the tests of commands and the calls of `pocsag_trial`.

#[cfg(test)]
mod batch_tests;
#[cfg(test)]
mod book_tests;
#[cfg(test)]
mod branch_tests;
#[cfg(test)]
mod check_tests;
#[cfg(test)]
pub mod comparison;
#[cfg(test)]
mod decode_tests;
#[cfg(test)]
mod fault_texts;
#[cfg(test)]
mod flow_tests;
pub mod given;
#[cfg(test)]
mod page_tests;
#[cfg(test)]
mod pager_tests;
#[cfg(test)]
mod plan_tests;
#[cfg(test)]
mod readme;
pub mod rounds;
#[cfg(test)]
mod show_tests;
#[cfg(test)]
mod slots_tests;
#[cfg(test)]
mod text_tests;
pub mod texts;
#[cfg(test)]
mod tour_tests;
mod tours;
#[cfg(test)]
mod tree_tests;
#[cfg(test)]
mod word_tests;

pub use tours::{NoTour, tour_of};
