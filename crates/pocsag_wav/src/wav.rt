ghost use Rattle.std.specs.Prelude.{◌≡◌, ◌≢◌, ◌+◌, ◌*◌, ◌/◌, ◌^◌, ◌<◌, ◌≤◌, ◌++◌, length, IfErr, IfOk, IsErrOf, OnErr, OnOk};
ghost use Rattle.std.specs.List.{flat_map};
ghost use Rattle.arrayvec.specs.ArrayVec.{array_vec_len};
ghost use Rattle.pocsag_words.specs.Devices.{CountsFailures, Delivers, HasFailed, TookPrefix};
ghost use Rattle.pocsag_wav.specs.Samples.{IsCount, samples_of};
ghost use Rattle.pocsag_wav.specs.Sounds.{ExplainsWav, Sounded, SoundedPart};
ghost use Rattle.pocsag_wav.specs.Wav.{sample_bytes, wav_header};
ghost use Rattle.pocsag_wav.specs.declared.fault.NoSound.TheVariants as fault;

use crate::fault::NoSound;
use crate::keyed::Keyed;
use crate::keying::Keying;
use arrayvec::ArrayVec;
use pocsag_decode::judge_bytes;
use pocsag_words::{DeviceFault, Sink, write_all};

// The bytes of one write.
const PIECE: usize = 8192;

// The most samples of a WAV file: with two bytes each and 36 other bytes, its length stays below 2^32.
const FILE_SAMPLES: u128 = 2_147_483_629;

// How many samples so many bits last, if a WAV file can hold them.
fn sample_count(keying: Keying, bits: u128) -> Result<u32, NoSound>
    requires { bits < 2 ^ 100 }
    ensures count { IfOk result (λ count. IsCount keying bits count) }
    ensures fits { IfOk result (λ count. 36 + 2 * count < 2 ^ 32) }
    ensures fault { IfErr result (λ e. e ≡ fault.TooLong) }
    ensures long { OnErr result (2147483629 * keying.rate / keying.samples < bits) }
{
    let count = (bits * u128::from(keying.samples)).div_ceil(u128::from(keying.rate));
    if count > FILE_SAMPLES {
        return Err(NoSound::TooLong);
    }
    Ok(count as u32)
}

// The header of a WAV file, four bytes at a time.
fn header(a_second: u32, count: u32) -> [[u8; 4]; 11]
    requires a_second { a_second ≤ 192000 }
    requires count { 36 + 2 * count < 2 ^ 32 }
    ensures { flat_map (λ part. part) result ≡ wav_header a_second count }
{
    let len = 2 * count;
    [
        *b"RIFF",
        (36 + len).to_le_bytes(),
        *b"WAVE",
        *b"fmt ",
        16u32.to_le_bytes(),
        // PCM, one channel
        [1, 0, 1, 0],
        a_second.to_le_bytes(),
        (2 * a_second).to_le_bytes(),
        // 2 bytes and 16 bits for each sample
        [2, 0, 16, 0],
        *b"data",
        len.to_le_bytes(),
    ]
}

// Writes the piece if it has no room for another sample.
fn write_if_full<O: Sink>(piece: &mut ArrayVec<u8, PIECE>, out: &mut O) -> Result<(), DeviceFault>
    ensures room { OnOk result (array_vec_len piece.new ≤ 8190) }
    ensures same { O.is_known → OnOk result (O.taken out.new ++ piece.new.items ≡ O.taken out.old ++ piece.old.items) }
    ensures grown { O.is_known → OnOk result (length (O.taken out.old) ≤ length (O.taken out.new)) }
    ensures part { O.is_known → OnErr result (TookPrefix (O.taken out.old) (O.taken out.new) piece.old.items) }
    ensures failures { CountsFailures result (O.failures out.old) (O.failures out.new) }
{
    if piece.len() > PIECE - 2 {
        write_all(out, piece.as_slice())?;
        piece.clear();
    }
    Ok(())
}

// Writes so many samples, a piece at a time.
fn put_samples<O: Sink>(
    keying: Keying,
    keyed: &Keyed<'_>,
    count: u32,
    out: &mut O,
) -> Result<(), DeviceFault>
    ensures delivers { O.is_known → Delivers result (O.taken out.old) (O.taken out.new)
        (flat_map sample_bytes (samples_of keying keyed.now count)) }
    ensures failures { CountsFailures result (O.failures out.old) (O.failures out.new) }
{
    let mut piece = ArrayVec::new();
    for index in 0..count {
        write_if_full(&mut piece, out)?;
        let place = u64::from(index) * u64::from(keying.rate) / u64::from(keying.samples);
        let [low, high] = keyed.level(keying.is_inverted, place).to_le_bytes();
        piece.push(low);
        piece.push(high);
    }
    write_all(out, piece.as_slice())
}

/// Writes the sound of the bytes of a transmission as a WAV file. Its length is known before the first byte is written, and no
/// more than a piece of it is held. Nothing is written before the bytes are judged; after `WriteFault` a prefix was.
pub fn write_wav<O: Sink>(keying: Keying, bytes: &[u8], out: &mut O) -> Result<(), NoSound>
    ensures sounded { O.is_known → OnOk result (Sounded keying bytes.now (O.taken out.old) (O.taken out.new)) }
    ensures part { O.is_known → IsErrOf result NoSound.WriteFault →
        SoundedPart keying bytes.now (O.taken out.old) (O.taken out.new) }
    ensures explained { IfErr result (ExplainsWav keying bytes.now) }
    ensures untouched { IfErr result (λ e. e ≢ NoSound.WriteFault → out.new ≡ out.old) }

    // A device's fault is answered only where that device failed.
    ensures write_failed { IsErrOf result NoSound.WriteFault → HasFailed (O.failures out.old) (O.failures out.new) }
{
    judge_bytes(bytes)?;
    let keyed = Keyed::new(keying.preamble, bytes);
    let count = sample_count(keying, keyed.bits() + u128::from(keying.tail_bits()))?;
    write_all(out, header(keying.samples, count).as_flattened())?;
    put_samples(keying, &keyed, count, out)?;
    Ok(())
}
