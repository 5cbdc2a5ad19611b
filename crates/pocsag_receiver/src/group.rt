use crate::capture::{CaptureListing, CaptureView, run_list_capture, run_show_capture};
use crate::captured::CaptureOptions;
use crate::decode::{Decoding, run_decode};
use crate::fault::ReceiverFault;
use crate::hear::{Hearing, run_hear};
use crate::repair::Repairing;
use crate::show::{Showing, run_show};
use crate::words::{
    ADDRESS, BAD_ROWS, BAD_TEXT, CAPTURE, DECODE, DECODE_COMMAND, HEAR, HEAR_COMMAND, NTH,
    RECEIVER_COMMANDS, REPAIR, SHOW, SHOW_COMMAND, wanted_form, wanted_view,
};
use clap::error::ErrorKind;
use clap::{ArgMatches, Error};
use pocsag_capture::{CaptureFault, Polarity, ReceptionStats};
use pocsag_decode::{DecodeFault, Repaired};
use pocsag_pager::PagerFault;
use pocsag_shell::{
    Call, CommandSpec, Context, ErrorStream, FileFault, Group, KEPT_BYTES, LoadedFile,
    MemoryStreams, NamedFile, PAGES_READ, Role, TX, Tables, command, is_kept, load_file, path_of,
    print_numbers,
};
use pocsag_words::{Sink, Source};
use std::alloc::{AllocError, Global};

/// The commands `decode`, `hear` and `show`.
#[derive(Clone, Copy)]
pub struct Receiver;

// What is asked of a transmission, and what is reported of it with `--verbose`.
#[derive(Drop)]
enum Request {
    Decode(Decoding),
    Hear(Hearing),
    Show(Showing),
    ListCapture(CaptureListing),
    ShowCapture(CaptureView),
}

impl Group for Receiver {
    fn add_to(&self, tables: &mut Tables) -> Result<(), AllocError> {
        tables.commands.extend_from_slice(RECEIVER_COMMANDS)
    }

    fn run(&self, context: Context<'_>, call: Call<'_, '_>) -> Option<Result<u8, Error>> {
        let (name, found) = (call.name?, call.found);
        let Some(asked) = asked_of(context.alloc, name, found) else {
            return refused_words(context.alloc, name);
        };
        let tx = found.get_str(TX)?;
        let file = NamedFile(Role::Transmission, Some(tx));
        let loaded = load_file(context, Role::Transmission, path_of(tx), PAGES_READ);
        Some(Ok(match loaded {
            Ok(loaded) => receive(context, asked, loaded, file),
            Err(fault) => context.end(&[file], Err(fault)),
        }))
    }
}

// What the words ask of a transmission; nothing where they are those of no command, or name no rows or no functions.
fn asked_of(alloc: Global, name: &str, found: &ArgMatches<'_>) -> Option<Request> {
    let repairing = Repairing::new(found.get_flag(REPAIR));
    let heard = Vec::new(alloc);
    match (name, found.get_flag(CAPTURE)) {
        (DECODE, false) => Some(Request::Decode(Decoding {
            form: wanted_form(found)?,
            repairing,
        })),
        (HEAR, false) => Some(Request::Hear(Hearing {
            form: wanted_form(found)?,
            address: found.get_one::<u32>(ADDRESS)?,
        })),
        (DECODE | HEAR, true) => Some(Request::ListCapture(CaptureListing {
            picking: CaptureOptions {
                // `decode` has no address.
                only: found.get_one::<u32>(ADDRESS),
                form: wanted_form(found)?,
            },
            heard,
        })),
        (SHOW, false) => Some(Request::Show(Showing {
            view: wanted_view(found)?,
            repairing,
        })),
        (SHOW, true) => Some(Request::ShowCapture(CaptureView {
            view: wanted_view(found)?,
            nth: u64::from(found.get_one::<u32>(NTH).unwrap_or(1)),
            heard,
        })),
        _ => None,
    }
}

// Why the words of a command name no rows or no functions; nothing where they are those of no command.
fn refused_words(alloc: Global, name: &str) -> Option<Result<u8, Error>> {
    let refused = match name {
        DECODE => words_error(alloc, &DECODE_COMMAND, "pocsag decode", BAD_TEXT),
        HEAR => words_error(alloc, &HEAR_COMMAND, "pocsag hear", BAD_TEXT),
        SHOW => words_error(alloc, &SHOW_COMMAND, "pocsag show", BAD_ROWS),
        _ => return None,
    };
    Some(Err(refused.unwrap_or_else(Error::from)))
}

fn words_error(
    alloc: Global,
    spec: &CommandSpec,
    name: &str,
    text: &'static str,
) -> Result<Error, AllocError> {
    let mut command = command(alloc, spec)?.bin_name(name)?;
    command.error(ErrorKind::ValueValidation, text)
}

// Does what is asked of a transmission. Returns the exit status.
fn receive(
    context: Context<'_>,
    mut asked: Request,
    mut tx: LoadedFile,
    file: NamedFile<'_>,
) -> u8 {
    let likely = if context.diagnostics.is_asked() {
        likely_bytes(tx.lent().unwrap_or(&[]))
    } else {
        ""
    };
    let status = if is_kept(&tx, KEPT_BYTES) {
        let mut streams = MemoryStreams::new(context.alloc);
        let out = &mut streams.out;
        let status = carry_out(context.alloc, &mut asked, &mut tx, out, &mut streams.err);
        note_capture(context, file, &asked, streams.err.fault());
        streams.end(context, &[file], Ok(status))
    } else {
        let mut err = ErrorStream::new(context.err());
        let status = carry_out(
            context.alloc,
            &mut asked,
            &mut tx,
            &mut context.out(),
            &mut err,
        );
        if err.fault().is_none() {
            context.forget_refused_call();
        }
        note_capture(context, file, &asked, err.fault());
        context.print_more(&[file]);
        status
    };
    if status == 0 {
        print_received(context, &asked, file, likely);
    }
    status
}

// Carries out the command that was asked for.
fn carry_out<O: Sink, E: Sink + Drop>(
    alloc: Global,
    asked: &mut Request,
    tx: &mut LoadedFile,
    out: &mut O,
    err: &mut ErrorStream<ReceiverFault, E>,
) -> u8 {
    match asked {
        Request::Decode(decoding) => run_decode(alloc, decoding, tx, out, err),
        Request::Hear(hearing) => run_hear(alloc, *hearing, tx, out, err),
        Request::Show(showing) => run_show(alloc, showing, tx, out, err),
        Request::ListCapture(capture_listing) => run_list_capture(
            alloc,
            capture_listing,
            tx,
            out,
            err,
        ),
        Request::ShowCapture(viewing) => run_show_capture(alloc, viewing, tx, out, err),
    }
}

// What bytes likely are that are no bits off the air, as a note says it.
fn likely_bytes(bytes: &[u8]) -> &'static str {
    match bytes {
        [] => "",
        [b'R', b'I', b'F', b'F', ..] => ": a WAV file, not its bits",
        _ if bytes.iter().all(|byte| *byte < 2) => ": one bit in each byte, where eight are wanted",
        _
            if bytes
                .iter()
                .all(|byte| matches!(byte, b'0' | b'1' | b'\r' | b'\n')) => {
            ": a digit for each bit, where eight bits are wanted in each byte"
        }
        _ => "",
    }
}

// With `--verbose` reports how a transmission was received; of a capture without one, what its bytes likely are.
fn print_received(
    context: Context<'_>,
    asked: &Request,
    file: NamedFile<'_>,
    likely: &'static str,
) {
    match asked {
        Request::Hear(_) => {}
        Request::Decode(Decoding { repairing, .. }) | Request::Show(Showing { repairing, .. }) => {
            if repairing.is_asked {
                let Repaired { words, bits } = repairing.corrected;
                context.note(format_args!("{file}: corrected bits {bits}, words {words}"));
                context.print_more(&[file]);
            }
        }
        Request::ListCapture(capture_listing) => {
            let heard = capture_listing.heard.as_slice();
            if heard.is_empty() {
                context.note(format_args!("{file}: no transmission is in the capture{likely}"));
                context.print_more(&[file]);
            }
            print_heard(context, 1, heard);
        }
        Request::ShowCapture(viewing) => {
            print_heard(context, viewing.nth, viewing.heard.as_slice());
        }
    }
}

// Records that the transmission was refused, and where its preamble is too short for what reads damaged bytes, keeps the note
// that names `--capture`.
fn note_capture(
    context: Context<'_>,
    file: NamedFile<'_>,
    asked: &Request,
    fault: Option<ReceiverFault>,
) {
    match fault {
        None | Some(ReceiverFault::Pager(PagerFault::BadAddress | PagerFault::ReservedAddress)) =>
            {}
        Some(
            ReceiverFault::File(FileFault::TooLarge)
            | ReceiverFault::Capture(CaptureFault::TooLarge),
        ) => context.diagnostics.refuse_large(Role::Transmission),
        Some(_) => context.diagnostics.note_refusal(Role::Transmission),
    }
    let is_short = matches!(
        fault,
        Some(
            ReceiverFault::Transmission(DecodeFault::ShortPreamble)
                | ReceiverFault::Pager(PagerFault::ShortPreamble),
        )
    );
    let reads_damage = match asked {
        Request::Decode(decoding) => decoding.repairing.is_asked,
        Request::Hear(_) => true,
        _ => false,
    };
    if is_short && reads_damage {
        context.note(format_args!(
            "{file}: for bits off the air that begin anywhere, give --capture"
        ));
    }
}

// With `--verbose` reports how transmissions of a capture were received, of which the first has this number.
fn print_heard(context: Context<'_>, first: u64, heard: &[ReceptionStats]) {
    if !context.diagnostics.is_asked() {
        return;
    }
    let mut number = first;
    for printed in heard {
        let reception = printed.reception;
        let batches = reception
            .batches
            .saturating_add(u64::from(reception.words_in_front > 0));
        let batches_of = match reception.polarity {
            Polarity::Upright => ", upright, batches ",
            Polarity::Inverted => ", inverted, batches ",
        };
        let numbers = [
            ("pocsag: transmission ", number),
            (": bit ", reception.bit),
            (batches_of, batches),
            (", corrected bits ", printed.corrected),
            (", lost words ", printed.lost),
            (", cut pages ", printed.cut),
        ];
        let _ = print_numbers(&mut context.err(), &numbers, "\n");
        number = number.saturating_add(1);
    }
}
