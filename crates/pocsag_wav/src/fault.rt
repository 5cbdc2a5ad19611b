ghost use Rattle.std.specs.Prelude.{◌≡◌};
ghost use Rattle.pocsag_wav.specs.declared.fault.NoSound.TheVariants as fault;

use pocsag_decode::DecodeFault;
use pocsag_words::DeviceFault;

/// Why there is no sound of a transmission. The command `wav` has a text for each.
#[derive(Clone, Copy)]
pub enum NoSound {
    /// The rate is none of 512, 1200 and 2400.
    BadRate,
    /// The samples a second are fewer than the bits, or over 192,000.
    BadSamples,
    /// The preamble has fewer than 576 bits, or is no whole bytes.
    BadPreamble,
    /// The bytes are no transmission that reads as pages.
    Transmission(DecodeFault),
    /// The header of a WAV file has 32 bits for the length of its samples.
    TooLong,
    /// The writer did not take the sound whole; what it took is a prefix of it.
    WriteFault,
}

impl From<DecodeFault> for NoSound {
    ghost from_gives = { λ refused e. e ≡ fault.Transmission refused };

    fn from(refused: DecodeFault) -> NoSound {
        NoSound::Transmission(refused)
    }
}

impl From<DeviceFault> for NoSound {
    ghost from_gives = { λ _ e. e ≡ fault.WriteFault };

    fn from(_refused: DeviceFault) -> NoSound {
        NoSound::WriteFault
    }
}
