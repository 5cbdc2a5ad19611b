#![tactic(auto)]
//! The command `wav`: a transmission as the sound that a transmitter is keyed with, and how the command line calls it.

mod fault;
mod group;
mod wav;
mod words;

pub use fault::SoundFault;
pub use group::Sound;
pub use pocsag_wav::Keying;
pub use wav::run_wav;
