#![tactic(auto)]
//! The commands `decode`, `hear` and `show`: what each answers for the bytes of a transmission, and how the command line calls it.

mod capture;
mod captured;
mod decode;
mod fault;
mod form;
mod group;
mod hear;
mod repair;
mod show;
mod words;

pub use capture::{CaptureListing, CaptureView, run_list_capture, run_show_capture};
pub use captured::{CaptureOptions, PageOrigin};
pub use decode::{Decoding, run_decode};
pub use fault::ReceiverFault;
pub use form::ListForm;
pub use group::Receiver;
pub use hear::{Hearing, run_hear};
pub use repair::Repairing;
pub use show::{Showing, run_show};
