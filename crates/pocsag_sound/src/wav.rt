ghost use Rattle.pocsag_shell.specs.Readers.{over_bytes, over_reader};
ghost use Rattle.pocsag_shell.specs.Runs.{IsStreamOf, Ran};
ghost use Rattle.pocsag_sound.specs.Works.{sounds};

use crate::fault::SoundFault;
use pocsag_shell::{ErrorStream, read_transmission};
use pocsag_wav::{Keying, write_wav};
use pocsag_words::{Sink, Source};
use std::alloc::Global;

// Writes the sound of the bytes of a transmission.
fn put_sound<O: Sink>(keying: Keying, bytes: &[u8], out: &mut O) -> Result<u8, SoundFault>
    ensures streams { IsStreamOf (over_bytes (sounds keying) O.Sink bytes.now) O.Sink out.old out.new result }
{
    write_wav(keying, bytes, out)?;
    Ok(0)
}

/// `wav TX`: writes the sound of a transmission as a WAV file. Returns the exit status.
pub fn run_wav<T: Source, O: Sink, E: Sink + Drop>(
    alloc: Global,
    keying: Keying,
    tx: &mut T,
    out: &mut O,
    err: &mut ErrorStream<SoundFault, E>,
) -> u8
    ensures ran { Ran (over_reader (sounds keying) T.Source O.Sink tx.old tx.new) O.Sink E.Sink
        result out.old out.new err.old err.new }
{
    let bytes = match read_transmission(alloc, tx) {
        Ok(bytes) => bytes,
        Err(fault) => return err.end(Err(SoundFault::File(fault))),
    };
    err.end(put_sound(keying, bytes.as_slice(), out))
}
