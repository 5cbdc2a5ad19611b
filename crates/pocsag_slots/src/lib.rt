#![tactic(auto)]
//! Classes of pages, loads of slots, ways out of a set of boundaries, and the correspondence of legal
//! transmissions and tours. Below stand codewords and pages; choosing, touring and searching
//! above work on the numbers of the classes alone. Nothing here takes memory.

mod boundary;
mod class;
mod count;
mod edge;
mod limit;
mod load;
mod set;
mod step;
mod way;

pub use boundary::{finish, frame, rest, start};
pub use class::{CLASSES, Choice, Class, Classes, SLOTS};
pub use count::{class_of, classes_of, whole_turns};
pub use limit::{Limits, all_limits, below_split, from_split, narrow};
pub use load::{least_by_class, least_load, loads, overloads, total_cap};
pub use set::{crosses, holds, size, touches, with_member};
pub use step::Step;
pub use way::{WAYS, Way, closing_ways, ending_ways, is_certain, ways};
