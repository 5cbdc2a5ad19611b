ghost use Rattle.std.specs.Prelude.{◌≡◌, ◌≢◌, ◌⊎◌};
ghost use Rattle.pocsag_c.specs.Answers.{PrintsFault};
ghost use Rattle.pocsag_c.specs.Listings.{HasNoRoom, IsListed};
ghost use Rattle.pocsag_c.specs.Sounds.{ExplainsNoSound, IsSoundOf, preamble_asked};
ghost use Rattle.pocsag_c.specs.Statuses.{IsOfBytes, nowhere, wav_refusal};

use crate::buffer::hand_out;
use crate::refusal::{NOWHERE, Place, refused_wav};
use pocsag_wav::{Keying, write_wav};
use pocsag_words::GrowingSink;
use std::alloc::Global;

// The preamble that a number asks for.
fn preamble_asked(bits: u32) -> Option<u32>
    ensures { result ≡ preamble_asked bits }
{
    if bits == 0 { None } else { Some(bits) }
}

/// Puts the sound that a transmitter is keyed with into a buffer, as a WAV file: 0, or 10 where the buffer is too small. In both
/// cases `wav_len` reports its length. The bits of the preamble are 0 for that of the transmission; `inverted` is 0 for a high
/// level of a 0 and a low one of a 1.
#[unsafe(no_mangle)]
pub extern "C" fn pocsag_wav(
    alloc: Global,
    tx: &[u8],
    rate: u32,
    samples: u32,
    preamble: u32,
    inverted: u32,
    wav: &mut [u8],
    wav_len: &mut usize,
    place: &mut Place,
) -> u32
    ensures sounded { result ≡ 0 →
        IsListed (IsSoundOf rate samples preamble inverted tx.now) wav.old wav.new wav_len.new }
    ensures no_room { result ≡ 10 →
        HasNoRoom (IsSoundOf rate samples preamble inverted tx.now) wav.old wav.new wav_len.new }
    ensures fault { result ≢ 0 → result ≢ 10 →
        PrintsFault wav_refusal (ExplainsNoSound rate samples preamble inverted tx.now) result place.new }
    ensures placeless { (result ≡ 0) ⊎ (result ≡ 10) → place.new ≡ nowhere }
    ensures nothing { result ≢ 0 → result ≢ 10 → wav_len.new ≡ 0 }
    ensures of_bytes { IsOfBytes result }
    ensures untouched { result ≢ 0 → wav.new ≡ wav.old }
{
    *wav_len = 0;
    *place = NOWHERE;
    let keying = match Keying::new(rate, samples, preamble_asked(preamble), None, inverted != 0) {
        Ok(keying) => keying,
        Err(fault) => return refused_wav(fault).status,
    };
    let mut file = GrowingSink::new(alloc);
    if let Err(fault) = write_wav(keying, tx, &mut file) {
        return refused_wav(fault).put(place);
    }
    hand_out(file.into_bytes().as_slice(), 10, wav, wav_len)
}
