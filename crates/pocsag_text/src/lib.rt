#![tactic(auto)]
//! Packing of text messages into message codewords (Recommendation ITU-R M.584-2, Annex 1).

mod character;
mod fault;
mod pack;
mod packer;
mod unpack;
mod unpacker;

pub use fault::TextFault;
pub use pack::{pack_alpha, pack_numeric};
pub use unpack::{unpack_alpha, unpack_numeric};

/// The most characters that a text may have (this project's own).
pub const CHARACTER_LIMIT: usize = 4_000;
