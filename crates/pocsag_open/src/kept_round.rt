use crate::answer::KeptRound;
use crate::fault::OpenFault;
use crate::journal_file::{FirstPages, JournalFile, JournalPlace, remove_made};
use crate::kept_streams::{KeptStreams, TornLine, open_kept, print_read};
use crate::round_files::{OpenArgs, RoundFiles};
use pocsag_journal::{Journal, Replayed, list_journal};
use pocsag_pages::RoundFault;
use pocsag_plan::Book;
use pocsag_shell::{
    Context, FileFault, NamedFile, Role, STANDARD, SystemDevice, is_unkept, open_source, path_of,
    print_numbers, refuse_equal, refuse_one_file,
};
use std::cell::Cell;
use std::fs;
use std::io::IsTerminal;

/// `open --journal`: keeps an open round whose edits are in the file of a journal before they are answered, or lists the
/// pages of a journal. Returns the exit status.
pub(crate) fn open_journal(
    context: Context<'_>,
    args: OpenArgs<'_>,
    path: &str,
) -> Result<u8, OpenFault> {
    // It is neither a standard stream nor the page file.
    if path == STANDARD {
        context.note(
            "journal -: standard input holds the lines, and standard output takes the answers",
        );
        return Err(OpenFault::File(FileFault::EqualPaths));
    }
    let pages = match args.pages {
        Some(word) => path_of(word),
        None => None,
    };
    refuse_equal(pages, path, STANDARD)?;
    refuse_one_file(context.rt, pages, path, STANDARD)?;
    if is_unkept(context, NamedFile(Role::Journal, Some(path))) {
        return Err(OpenFault::File(FileFault::Device));
    }
    let why = Cell::new(None);
    let place = JournalPlace {
        context,
        path,
        why: &why,
    };
    let done = if args.read_only {
        list_on(place)
    } else {
        keep_on(place, args)
    };
    match (done, why.get()) {
        (
            Err(OpenFault::File(FileFault::Write)),
            Some(known @ (OpenFault::NotHeld | OpenFault::File(FileFault::Owner))),
        ) => Err(known),
        (Err(OpenFault::Round(RoundFault::ReadFault)), Some(known)) => Err(known),
        (done, _) => done,
    }
}

// A journal of more bytes is read in more than a second.
const LONG: u64 = 4_000_000;

// Says at a terminal, or with `--verbose`, that a long journal is being read.
fn announce(context: Context<'_>, length: u64) {
    let is_watched = context.diagnostics.is_asked() || context.rt.stderr().is_terminal();
    if length > LONG && is_watched {
        let numbers = [("reading a journal of ", length)];
        let _ = print_numbers(&mut context.err(), &numbers, " bytes\n");
    }
}

// `--read-only`: lists the pages of the journal, which is neither held nor changed.
fn list_on(place: JournalPlace<'_, '_>) -> Result<u8, OpenFault> {
    let context = place.context;
    let mut source = open_source(context, Role::Journal, Some(place.path))?;
    if let Ok(found) = fs::metadata(context.rt, place.path) {
        announce(context, found.len());
    }
    let Replayed { book, edits, torn } = list_journal(
        context.alloc,
        &mut source,
        &mut context.out(),
    )?;
    let _ = print_read(
        &mut context.err(),
        TornLine::PassedOver,
        torn,
        edits,
        book.len(),
    );
    Ok(0)
}

// Keeps a round, where no other program holds the journal, and returns the lines of standard input. Where the round does not
// begin, a file that was made for the journal is taken away, while it is still locked.
fn keep_on(place: JournalPlace<'_, '_>, args: OpenArgs<'_>) -> Result<u8, OpenFault> {
    let context = place.context;
    let file = JournalFile::hold(place)?;
    announce(context, file.len);
    let made = file.made()?;
    let mut round = KeptRound {
        book: Book::new(context.alloc),
        keeper: Journal::on(file),
    };
    let mut settings = RoundFiles::settings(context, args);
    let mut streams = KeptStreams {
        pages: match args.pages {
            Some(path) => Some(FirstPages::new(place, args, path)),
            None => None,
        },
        input: SystemDevice::new(context.rt.stdin(), Role::Lines, context.diagnostics),
        out: context.out(),
        err: context.err(),
    };
    match open_kept(context.alloc, &mut settings, &mut round, &mut streams) {
        Ok(()) => Ok(0),
        Err(fault) => {
            if let Some(made) = made {
                remove_made(place, &made);
            }
            Err(fault)
        }
    }
}
