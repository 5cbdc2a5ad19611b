#![tactic(auto)]
//! Tours: the order in which the runs and idles of a choice follow one another, from boundary 0 back to
//! boundary 0.

mod arc;
mod counts;
mod exits;
mod fault;
mod links;
mod outside;
mod reach;
mod route;
mod walk;

pub use fault::TourFault;
pub use outside::{has_run_outside, lies_outside};
pub use reach::reached;
pub use route::tour;
