#![tactic(auto)]
//! Plans of rounds with the fewest batches, the streams that are written by them, and what a report reports
//! of one.

mod airtime;
mod answer;
mod attempt;
mod book;
mod book_plans;
mod bounded;
mod fault;
mod frames;
mod front;
mod outcome;
mod plans;
mod refusal;
mod reports;
mod search;
mod streams;
mod tally;
mod verdict;

pub use airtime::{BoundedReport, Report};
pub use answer::Plan;
pub use book::Book;
pub use bounded::BoundedPlan;
pub use fault::{BadRate, NoFront, PlanFault, StreamFault, UnsentFront};
pub use frames::{FrameRoom, frames_of};
pub use front::{FrontPlan, longest_front};
pub use plans::{bounded_plan, is_node_limit, plan};
pub use refusal::{AddFault, BookFault, NotThere, Refused};
pub use reports::{most_batches, report};
pub use search::{DEFAULT_LIMIT, OnLimit, Search};
pub use streams::{bounded_stream, plan_stream, plan_stream_always, send};
pub use verdict::{CheckVerdict, verdict_on};
