use crate::fault::SoundFault;
use crate::wav::run_wav;
use crate::words::{BIT_RATE, INVERT, LEAD, SAMPLES, SOUND_COMMANDS, TAIL, WAV};
use clap::{ArgMatches, Error};
use pocsag_shell::{
    Call, Context, ErrorStream, Group, LoadedFile, MemoryStreams, NamedFile, PAGES_READ, Role, TX,
    Tables, load_file, path_of,
};
use pocsag_wav::{Keying, NoSound};
use pocsag_words::Source;
use std::alloc::AllocError;

// The most samples that are kept in memory until they are printed. A longer sound is written as it goes.
const KEPT_SAMPLES: u64 = 16_000_000;

/// The command `wav`.
#[derive(Clone, Copy)]
pub struct Sound;

impl Group for Sound {
    fn add_to(&self, tables: &mut Tables) -> Result<(), AllocError> {
        tables.commands.extend_from_slice(SOUND_COMMANDS)
    }

    fn run(&self, context: Context<'_>, call: Call<'_, '_>) -> Option<Result<u8, Error>> {
        if call.name? != WAV {
            return None;
        }
        let found = call.found;
        let tx = found.get_str(TX)?;
        let file = NamedFile(Role::Transmission, Some(tx));
        let rate = found.get_one::<u32>(BIT_RATE)?;
        let samples = found.get_one::<u32>(SAMPLES)?;
        let preamble = found.get_one::<u32>(LEAD);
        let tail = found.get_one::<u32>(TAIL);
        let keying = Keying::new(rate, samples, preamble, tail, found.get_flag(INVERT));
        Some(Ok(match load_keyed(context, keying, tx) {
            Ok((keying, loaded)) => key(context, keying, loaded, file),
            Err(fault) => context.end(&[file], Err(fault)),
        }))
    }
}

// The transmission that is to be keyed. A bad number is refused before the file is opened.
fn load_keyed(
    context: Context<'_>,
    keying: Result<Keying, NoSound>,
    tx: &str,
) -> Result<(Keying, LoadedFile), SoundFault> {
    let keying = keying?;
    let loaded = load_file(context, Role::Transmission, path_of(tx), PAGES_READ)?;
    Ok((keying, loaded))
}

// Writes the sound of a transmission to standard output.
fn key(context: Context<'_>, keying: Keying, mut tx: LoadedFile, file: NamedFile<'_>) -> u8 {
    // A fault from here on is one of the transmission, or of standard output.
    context.diagnostics.note_refusal(Role::Transmission);
    if is_short(keying, &tx) {
        let mut streams = MemoryStreams::new(context.alloc);
        let status = run_wav(
            context.alloc,
            keying,
            &mut tx,
            &mut streams.out,
            &mut streams.err,
        );
        return streams.end(context, &[file], Ok(status));
    }
    let mut err = ErrorStream::new(context.err());
    let status = run_wav(context.alloc, keying, &mut tx, &mut context.out(), &mut err);
    if err.fault().is_none() {
        context.forget_refused_call();
    }
    context.print_more(&[file]);
    status
}

// Whether the sound is short enough to be kept in memory.
fn is_short(keying: Keying, tx: &LoadedFile) -> bool {
    let Some(bytes) = tx.lent() else {
        return true;
    };
    let own = (bytes.len() as u64).saturating_mul(8);
    let keyed = own.saturating_add(u64::from(keying.preamble.unwrap_or(0)));
    let bits = keyed.saturating_add(keying.tail_bits());
    bits.saturating_mul(u64::from(keying.samples)) / u64::from(keying.rate) <= KEPT_SAMPLES
}
