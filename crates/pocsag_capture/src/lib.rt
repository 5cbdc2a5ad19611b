#![tactic(auto)]
//! Captures: bits off the air, in which transmissions begin at any bit and in either polarity. Each is found, repaired
//! and extracted as a transmission of whole bytes, which the decoder, the pager and the pictures read like any other.

mod bits;
mod captured_pages;
mod corrector;
mod extract;
mod fault;
mod in_front;
mod polarity;
mod received_words;
mod reception;
mod search;
mod slip;
mod sync_table;

pub use captured_pages::{CapturedPage, CapturedPages};
pub use extract::{Extracted, extract_all, extract_one, receptions_in};
pub use fault::CaptureFault;
pub use polarity::Polarity;
pub use reception::{Reception, ReceptionStats, Run};
