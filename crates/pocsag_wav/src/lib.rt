#![tactic(auto)]
//! A transmission as the sound that a transmitter is keyed with, in a WAV file.

mod fault;
mod keyed;
mod keying;
mod wav;

pub use fault::NoSound;
pub use keying::Keying;
pub use wav::write_wav;
