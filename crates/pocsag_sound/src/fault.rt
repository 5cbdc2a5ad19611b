ghost use Rattle.std.specs.Prelude.{◌≡◌};
ghost use Rattle.pocsag_sound.specs.declared.fault.SoundFault.TheVariants as fault;

use pocsag_decode::DecodeFault;
use pocsag_shell::{Failure, FileFault};
use pocsag_wav::NoSound;
use thiserror::Error;

/// Why `wav` writes no sound.
#[derive(Clone, Copy, PartialEq, Eq, Debug, Error)]
pub enum SoundFault {
    #[error("the rate must be 512, 1200 or 2400")]
    BadRate,
    #[error("the samples a second must be from the rate to 192000")]
    BadSamples,
    #[error("the preamble must have 576 bits or more, a multiple of 8")]
    BadPreamble,
    /// A file or memory cannot be used.
    #[error(transparent)]
    File(FileFault),
    /// The bytes are no transmission that reads as pages.
    #[error(transparent)]
    Transmission(DecodeFault),
    /// The header of a WAV file has 32 bits for the length of its samples.
    #[error("the sound is too long for a WAV file")]
    TooLong,
}

impl Failure for SoundFault {
    ghost use Rattle.pocsag_sound.specs.Faults.{sound_status};

    ghost status_is = { sound_status };

    fn status(self) -> u8 {
        match self {
            SoundFault::File(fault) => fault.status(),
            _ => 1,
        }
    }
}

impl From<FileFault> for SoundFault {
    ghost from_gives = { λ refused e. e ≡ fault.File refused };

    fn from(refused: FileFault) -> SoundFault {
        SoundFault::File(refused)
    }
}

impl From<NoSound> for SoundFault {
    ghost use Rattle.pocsag_sound.specs.Faults.{fault_of_wav};

    ghost from_gives = { λ refused e. e ≡ fault_of_wav refused };

    fn from(refused: NoSound) -> SoundFault {
        match refused {
            NoSound::BadRate => SoundFault::BadRate,
            NoSound::BadSamples => SoundFault::BadSamples,
            NoSound::BadPreamble => SoundFault::BadPreamble,
            NoSound::Transmission(fault) => SoundFault::Transmission(fault),
            NoSound::TooLong => SoundFault::TooLong,
            NoSound::WriteFault => SoundFault::File(FileFault::Write),
        }
    }
}
