#![tactic(auto)]
//! The calls of the C library. Bytes come in as slices, and go out into buffers of the caller, which are
//! written only where all of a text fits; each call returns a status, and reports what belongs to it through
//! a structure.

ghost use Rattle.std.specs.Prelude.{◌≡◌};
ghost use Rattle.pocsag_c.specs.Statuses.{interface_version};

mod airtime;
mod buffer;
mod check;
mod explain;
mod frames;
mod front;
mod listings;
mod order;
mod page;
mod plan;
mod quotes;
mod reading;
mod refusal;
mod report;
mod show;
mod sound;
mod texts;

pub use airtime::pocsag_airtime_batches;
pub use check::{CheckInfo, pocsag_check};
pub use explain::pocsag_explain;
pub use frames::{FramesInfo, pocsag_frames};
pub use front::{FrontInfo, pocsag_plan_at_most};
pub use listings::{pocsag_decode, pocsag_decode_as, pocsag_hear, pocsag_hear_as};
pub use order::pocsag_lay_in_order;
pub use page::pocsag_write_page;
pub use plan::{PlanInfo, pocsag_plan};
pub use quotes::pocsag_strict;
pub use refusal::Place;
pub use report::{ReportInfo, pocsag_report};
pub use show::pocsag_show;
pub use sound::pocsag_wav;
pub use texts::{pocsag_text_of_status, pocsag_text_of_version};

/// The number of this interface: calls, structures and statuses. It grows with each change of them.
#[unsafe(no_mangle)]
pub extern "C" fn pocsag_version() -> u32
    ensures { result ≡ interface_version }
{
    5
}
