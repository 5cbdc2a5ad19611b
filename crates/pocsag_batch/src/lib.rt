#![tactic(auto)]
//! Layouts of a round as batches of codewords, and the bytes of a transmission.

mod batches;
mod bytes;
mod layout;
mod order;
mod page_order;
mod piece;
mod queue;
mod slots;
mod stream;
mod word_list;

pub use batches::Batches;
pub use bytes::{write, write_slots};
pub use layout::lay_out;
pub use order::{in_order_batches, lay_in_order};
pub use page_order::order_of;
pub use slots::Slots;
pub use stream::{FirstFault, first_stream};
