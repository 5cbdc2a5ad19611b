#![tactic(auto)]
//! Tests of the groups of commands, of open rounds and of journals over memory, and of the texts of their faults, written as
//! tables. It has no code but its tests.

#[cfg(test)]
mod capture_tests;
#[cfg(test)]
mod centre_tests;
#[cfg(test)]
pub mod comparison;
mod crash_disk;
mod crash_folder;
mod crash_store;
#[cfg(test)]
mod fault_texts;
#[cfg(test)]
mod journal_tests;
#[cfg(test)]
mod open_tests;
#[cfg(test)]
mod outputs;
#[cfg(test)]
mod receiver_tests;
#[cfg(test)]
mod shell_tests;
#[cfg(test)]
mod sound_tests;
#[cfg(test)]
mod store_tests;
