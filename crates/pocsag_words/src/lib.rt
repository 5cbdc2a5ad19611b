#![tactic(auto)]
//! Codewords of Radio Paging Code No. 1 (Recommendation ITU-R M.584-2, Annex 1), and the devices,
//! ends and faults that the crates above share. Nothing here but `GrowingSink` takes memory.

mod checks;
mod codeword;
mod correction;
mod device;
mod ending;
mod frame;
mod growing_sink;
mod lanes;
mod laws;
mod meaning;
mod memory_sink;
mod memory_source;
mod refusal;
mod slice_source;

pub use codeword::{IDLE_WORD, Kind, Word, address_word, from_raw, message_word};
pub use correction::repair;
pub use device::{DeviceFault, Sink, Source, write_all};
pub use ending::End;
pub use frame::{
    BATCH_BITS, BATCH_BYTES, BATCH_CODEWORDS, BATCH_WORDS, FRAMES, INPUT_LIMIT, PREAMBLE_BITS,
    PREAMBLE_BYTE, PREAMBLE_BYTES, SYNC_WORD, airtime, transmission_bits,
};
pub use growing_sink::GrowingSink;
pub use lanes::check_all;
pub use laws::numbers_are_repaired;
pub use meaning::{kind, kind_of_number};
pub use memory_sink::MemorySink;
pub use memory_source::MemorySource;
pub use refusal::{OutOfMemory, WriteFault};
pub use slice_source::SliceSource;
