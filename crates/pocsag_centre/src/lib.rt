#![tactic(auto)]
//! The group of commands of a paging centre: no words, `plan`, `check`, `report` and `explain`. Each command is one function over any
//! sources and sinks, which ends its standard error and returns the exit status; the group runs it over what files hold.

mod args;
mod check;
mod checks;
mod explain;
mod fault;
mod front;
mod group;
mod lines;
mod note;
mod oversized;
mod plan;
mod plan_files;
mod readback;
mod report;
mod sent_marks;
mod slot;
mod words;

pub use check::run_check;
pub use checks::{expected_file, refuse_bad_limit, strict_file};
pub use explain::{ExplainFiles, run_explain};
pub use fault::CentreFault;
pub use front::{FrontAsked, FrontFiles, run_front};
pub use group::Centre;
pub use plan::{PlanFiles, run_input, run_plan};
pub use readback::{WrittenFront, run_verify, run_verify_front};
pub use report::{ReportAsked, run_report};
pub use slot::{SlotAsked, run_slot_report};
