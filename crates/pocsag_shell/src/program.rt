use crate::context::Context;
use crate::devices::SystemDevice;
use crate::diagnostics::Diagnostics;
use crate::fault::FileFault;
use crate::group::{Call, Group};
use crate::lines::print_fault;
use crate::role::Role;
use crate::streams::hold_closed;
use crate::tables::program;
use crate::words::{CommandSpec, VERBOSE};
use clap::error::ErrorKind;
use clap::{ArgMatches, Command, Error};
use std::alloc::AllocError;
use std::env;
use std::io::ErrorKind as IoErrorKind;

// What clap says of words that are no text.
const NOT_TEXT: &str = "invalid UTF-8 was detected in one or more arguments";

/// Reads the words of the command line and has a group carry out what they ask for. `shape` holds the program's name and
/// what help says of it. Returns the exit status.
pub fn run<G: Group>(rt: &HostRuntime, spec: &CommandSpec, group: &G) -> u8 {
    let _input = hold_closed(rt, "/proc/self/fd/0", true);
    let _output = hold_closed(rt, "/proc/self/fd/1", false);
    let _errors = hold_closed(rt, "/proc/self/fd/2", false);
    run_words(rt, spec, group).unwrap_or_else(|error| print_clap_error(rt, &error))
}

// Parses the words of the command line, where all are texts, and has the group carry them out. The first is the program's own name.
fn run_words<G: Group>(rt: &HostRuntime, spec: &CommandSpec, group: &G) -> Result<u8, Error> {
    let words: Vec<String> = match env::args(rt) {
        Ok(args) => args.collect(rt.alloc())?,
        Err(error) if error.kind() == IoErrorKind::OutOfMemory => {
            return Err(Error::from(AllocError));
        }
        Err(_) => {
            let mut program = program(rt.alloc(), spec, group)?;
            return Err(program.error(ErrorKind::ValueValidation, NOT_TEXT)?);
        }
    };
    let mut program = program(rt.alloc(), spec, group)?;
    let matches = program.try_get_matches_from_mut(words.as_slice())?;
    answer(rt, group, &mut program, &matches)
}

// What the group answers to the words that clap found.
fn answer<G: Group>(
    rt: &HostRuntime,
    group: &G,
    program: &mut Command<'_>,
    matches: &ArgMatches<'_>,
) -> Result<u8, Error> {
    let (name, found) = match matches.subcommand() {
        Some((name, found)) => (Some(name), found),
        None => (None, matches),
    };
    if name.is_some() {
        if let Some(text) = group.misplaced(matches) {
            return Err(program.error(ErrorKind::ArgumentConflict, text)?);
        }
    }
    let diagnostics = &Diagnostics::new(found.get_flag(VERBOSE));
    let alloc = rt.alloc();
    match group.run(
        Context {
            rt,
            alloc,
            diagnostics,
        },
        Call { name, found },
    ) {
        Some(done) => done,
        None => Err(program.error(ErrorKind::MissingRequiredArgument, "a word is missing")?),
    }
}

// Prints an error of clap, which stands for help too, and returns the exit status.
fn print_clap_error(rt: &HostRuntime, error: &Error) -> u8 {
    let diagnostics = Diagnostics::new(false);
    let err = &mut SystemDevice::new(rt.stderr(), Role::Output, &diagnostics);
    if error.kind() == ErrorKind::OutOfMemory {
        return print_fault(err, FileFault::OutOfMemory);
    }
    let printed = error.print(rt);
    if error.use_stderr() {
        return 2;
    }
    match printed {
        Ok(()) => 0,
        Err(_) => print_fault(err, FileFault::Write),
    }
}
