ghost use Rattle.std.specs.Prelude.{◌<◌, ◌≤◌, IfErr, IfOk, OnOk};

use crate::fault::NoSound;
use pocsag_words::{BATCH_BITS, PREAMBLE_BITS};

// The most samples a second.
const MOST_SAMPLES: u32 = 192_000;

/// How a transmission is keyed.
#[derive(Clone, Copy)]
pub struct Keying {
    /// Bits a second.
    pub rate: u32,
    /// Samples a second.
    pub samples: u32,
    /// How many bits of preamble replace the transmission's own, if any do.
    pub preamble: Option<u32>,
    /// How many milliseconds of silence replace those of a batch's time, if any do.
    pub tail: Option<u32>,
    /// Whether a 0 has the low level and a 1 the high one.
    pub is_inverted: bool,
    ghost positive: { 0 < rate },
    ghost dense: { rate ≤ samples },
    ghost few: { samples ≤ 192000 },
}

impl Keying {
    ghost use Rattle.std.specs.Prelude.{◌≡◌};
    ghost use Rattle.pocsag_wav.specs.Keys.{ExplainsKeying, IsAsAsked, MayBeKeyed};
    ghost use Rattle.pocsag_wav.specs.Levels.{tail_bits};

    /// The keying of these numbers: a rate of 512, 1200 or 2400 bits a second, samples from the rate to 192,000, a preamble
    /// of at least 576 bits that are whole bytes, and any number of milliseconds of silence.
    pub fn new(
        rate: u32,
        samples: u32,
        preamble: Option<u32>,
        tail: Option<u32>,
        is_inverted: bool,
    ) -> Result<Keying, NoSound>
        ensures asked { IfOk result (λ keying. IsAsAsked keying rate samples preamble tail is_inverted) }
        ensures allowed { OnOk result (MayBeKeyed rate samples preamble) }
        ensures explained { IfErr result (ExplainsKeying rate samples preamble) }
    {
        if !matches!(rate, 512 | 1200 | 2400) {
            return Err(NoSound::BadRate);
        }
        if samples < rate || samples > MOST_SAMPLES {
            return Err(NoSound::BadSamples);
        }
        if let Some(bits) = preamble
            && (u64::from(bits) < PREAMBLE_BITS || bits % 8 != 0)
        {
            return Err(NoSound::BadPreamble);
        }
        Ok(Keying {
            rate,
            samples,
            preamble,
            tail,
            is_inverted,
        })
    }

    /// How many bits the silence at the end lasts: as many as a batch or, where milliseconds are asked for, the fewest that
    /// last as long.
    pub fn tail_bits(self) -> u64
        ensures { result ≡ tail_bits self.rate self.tail }
    {
        match self.tail {
            Some(milliseconds) => (u64::from(milliseconds) * u64::from(self.rate)).div_ceil(1000),
            None => BATCH_BITS,
        }
    }
}
