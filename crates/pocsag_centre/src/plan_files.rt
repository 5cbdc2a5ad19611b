ghost use Rattle.std.specs.Prelude.{IsErrOf, map};
ghost use Rattle.pocsag_shell.specs.declared.fault.FileFault.TheVariants as file_fault;
ghost use Rattle.pocsag_shell.specs.Paths.{HasEqual, paths_of};

use crate::args::{FrontLimit, PlanArgs, SearchArgs};
use crate::checks::{expected_file, strict_file};
use crate::fault::CentreFault;
use crate::front::{FrontAsked, FrontFiles, run_front};
use crate::note::{note_file, note_first, quote_asked};
use crate::plan::{PlanFiles, run_plan};
use crate::readback::{WrittenFront, run_verify, run_verify_front};
use pocsag_pages::{FILE_LIMIT, QuoteFault};
use pocsag_plan::{is_node_limit, most_batches};
use pocsag_shell::{
    CERT_READ, Context, FileFault, KEPT_BYTES, LoadedFile, MemoryStreams, NamedFile, Output,
    Outputs, PAGES_READ, Role, STANDARD, StagedFile, first_asked, is_kept, is_regular, is_unkept,
    load, load_file, open_output, open_outputs, open_source, path_of, put_staged, put_whole,
    refuse_equal, refuse_input, refuse_one_file, refuse_shared, write_over,
};
use pocsag_words::{GrowingSink, MemorySink, Sink, Source};

/// Standard output and standard error of a command of the centre.
pub(crate) type Streams = MemoryStreams<CentreFault>;

// More than the lines of a plan have, which are five and `verified`.
const LINES: usize = 300;

// What refuses `--verify`, and what refuses `--keep`.
const BAD_VERIFY: &str =
    "--verify reads PAGES, TX and CERT again, so that each must be a regular file";

const BAD_KEEP: &str =
    "--keep renames what it wrote to TX and CERT, so that each must be a regular file, or not there";

// What refuses `--rest` and `--why` where no front is asked for, and where they name no file.
const BAD_REST: &str = "--rest and --why name files, and go with --at-most or --airtime";

const BAD_OVERSIZED: &str = "--oversized names a file, and goes with --at-most or --airtime";

// What stands behind each of these.
const MORE: &str = "\n\nFor more information, try 'pocsag plan --help'.\n";

/// Refuses a page file that does not meet what is asked of it. What cannot be read is for the command to refuse. Returns the first
/// misplaced quote, where `--verbose` asks for it; one that `--strict` let pass has none.
pub(crate) fn refuse_unmet(
    context: Context<'_>,
    path: Option<&str>,
    pages: &LoadedFile,
    asked: SearchArgs,
    is_front: bool,
) -> Result<Option<QuoteFault>, CentreFault> {
    let Some(file) = pages.lent() else {
        return Ok(None);
    };
    if file.len() > FILE_LIMIT {
        return Ok(None);
    }
    let mut quote = None;
    if asked.strict {
        strict_file(file)?;
    } else {
        quote = quote_asked(context, pages);
    }
    // If the limit of the search is in range, the plan of a front counts the pages itself.
    if is_front && is_node_limit(asked.search.limit) {
        return Ok(quote);
    }
    if let Some(expected) = asked.expect {
        if let Err(fault) = expected_file(context.alloc, asked.may_wait, file, expected) {
            note_file(context, path, pages, None, Some(fault));
            return Err(fault);
        }
    }
    Ok(quote)
}

/// `plan`: plans from file to files, or from and to the standard streams. Where standard output takes one of
/// the files, the lines go to standard error. Returns the exit status.
pub(crate) fn plan_command(
    context: Context<'_>,
    args: PlanArgs<'_>,
    streams: &mut Streams,
) -> Result<u8, CentreFault>
    ensures { HasEqual (map (λ path. path.now) (paths_of args.entry.pages args.entry.tx args.entry.cert)) →
        IsErrOf result (CentreFault.File file_fault.EqualPaths) }
{
    refuse_equal(args.pages, args.tx, args.cert)?;
    if let Some(text) = misuse(context, args) {
        for part in ["error: ", text, MORE] {
            let _ = put_whole(&mut context.err(), part.as_bytes());
        }
        return Ok(2);
    }
    if args.tx == STANDARD || args.cert == STANDARD {
        plan_files(context, args, streams, &mut context.err())
    } else if args.keep {
        plan_staged(context, args, streams)
    } else {
        plan_files(context, args, streams, &mut context.out())
    }
}

// The files that a plan writes, in the order in which `--keep` puts them at their places. The page file of the rest goes
// first, so that no page is both in it and in a transmission that is not there; and no transmission ever stands without
// its certificate.
fn places<'a>(args: PlanArgs<'a>) -> [NamedFile<'a>; 5] {
    [
        NamedFile(Role::Rest, args.rest),
        NamedFile(Role::Oversized, args.oversized),
        NamedFile(Role::Why, args.why),
        NamedFile(Role::Certificate, Some(args.cert)),
        NamedFile(Role::Transmission, Some(args.tx)),
    ]
}

// The first option of the order that its files do not serve, as the text that refuses it. It reads nothing of them.
fn misuse(context: Context<'_>, args: PlanArgs<'_>) -> Option<&'static str> {
    let rt = context.rt;
    let (tx, cert) = (path_of(args.tx), path_of(args.cert));
    for word in [args.rest, args.why] {
        if word == Some(STANDARD) || (word.is_some() && args.front.is_none()) {
            return Some(BAD_REST);
        }
    }
    if let Some(word) = args.oversized {
        if word == STANDARD || matches!(args.front, None | Some(FrontLimit::All)) {
            return Some(BAD_OVERSIZED);
        }
    }
    if args.verify && !(is_regular(rt, args.pages) && is_regular(rt, tx) && is_regular(rt, cert)) {
        return Some(BAD_VERIFY);
    }
    if !args.keep {
        return None;
    }
    for file in places(args) {
        if is_unkept(context, file) {
            return Some(BAD_KEEP);
        }
    }
    None
}

// Plans, and reads back what was planned where that is asked for.
fn plan_files<O: Sink>(
    context: Context<'_>,
    args: PlanArgs<'_>,
    streams: &mut Streams,
    out: &mut O,
) -> Result<u8, CentreFault> {
    let (status, sent) = match args.front {
        Some(limit) => write_front(context, args, limit, streams, out)?,
        None => (write_plan(context, args, streams, out)?, None),
    };
    if status != 0 || !args.verify {
        return Ok(status);
    }
    read_files_back(context, args, sent, streams, out)
}

// Plans a page file, and writes its transmission and its certificate: those of a long one as they are made.
fn write_plan<O: Sink>(
    context: Context<'_>,
    args: PlanArgs<'_>,
    streams: &mut Streams,
    out: &mut O,
) -> Result<u8, CentreFault> {
    let mut source = open_source(context, Role::PageFile, args.pages)?;
    let mut outputs = open_outputs(context, args.pages, args.tx, args.cert)?.emptied(context)?;
    let pages = load(context, &mut source, PAGES_READ)?;
    if !is_kept(&pages, KEPT_BYTES) {
        let mut files = PlanFiles {
            pages,
            tx: outputs.tx,
            cert: outputs.cert,
        };
        let status = plan_loaded(context, args, &mut files, streams, out)?;
        return written(streams, status);
    }
    let mut files = PlanFiles {
        pages,
        tx: GrowingSink::new(context.alloc),
        cert: GrowingSink::new(context.alloc),
    };
    let mut lines: MemorySink<LINES> = MemorySink::new(LINES, LINES as u64);
    let status = plan_loaded(context, args, &mut files, streams, &mut lines)?;
    if status == 0 {
        put_whole(&mut outputs.tx, files.tx.into_bytes().as_slice())?;
        put_whole(&mut outputs.cert, files.cert.into_bytes().as_slice())?;
        put_whole(out, lines.bytes())?;
    }
    Ok(status)
}

// Plans a page file that was read.
fn plan_loaded<T: Sink + Drop, C: Sink + Drop, O: Sink>(
    context: Context<'_>,
    args: PlanArgs<'_>,
    files: &mut PlanFiles<LoadedFile, T, C>,
    streams: &mut Streams,
    out: &mut O,
) -> Result<u8, CentreFault> {
    let quote = refuse_unmet(context, args.pages, &files.pages, args.search, false)?;
    let search = args.search.search;
    let status = run_plan(context.alloc, search, files, out, &mut streams.err);
    let fault = streams.err.fault();
    note_file(context, args.pages, &files.pages, quote, fault);
    Ok(status)
}

/// The exit status of a command that wrote to devices. If a device failed, the fault is reported as its own, and not as
/// refused memory, as it is for a writer over memory.
pub(crate) fn written(streams: &Streams, status: u8) -> Result<u8, CentreFault> {
    match streams.err.fault() {
        Some(CentreFault::File(FileFault::Write)) => Err(CentreFault::File(FileFault::Write)),
        _ => Ok(status),
    }
}

// Plans the front of a page file, and then writes it. Returns the front too.
fn write_front<O: Sink>(
    context: Context<'_>,
    args: PlanArgs<'_>,
    limit: FrontLimit,
    streams: &mut Streams,
    out: &mut O,
) -> Result<(u8, Option<WrittenFront>), CentreFault> {
    let asked = front_asked(args, limit)?;
    refuse_rest(context, args)?;
    let mut source = open_source(context, Role::PageFile, args.pages)?;
    let opened = open_outputs(context, args.pages, args.tx, args.cert)?;
    let others = open_others(context, args)?;
    let outputs = opened.emptied(context)?;
    let pages = load(context, &mut source, PAGES_READ)?;
    let quote = refuse_unmet(context, args.pages, &pages, args.search, true)?;
    let begins = first_asked(context, pages.lent().unwrap_or(&[]));
    let mut files = FrontFiles {
        pages,
        tx: GrowingSink::new(context.alloc),
        cert: GrowingSink::new(context.alloc),
        rest: GrowingSink::new(context.alloc),
        aside: GrowingSink::new(context.alloc),
        why: GrowingSink::new(context.alloc),
        count: 0,
    };
    let mut lines: MemorySink<LINES> = MemorySink::new(LINES, LINES as u64);
    let (alloc, err) = (context.alloc, &mut streams.err);
    let status = run_front(alloc, asked, &mut files, &mut lines, err);
    let fault = streams.err.fault();
    note_file(context, args.pages, &files.pages, quote, fault);
    note_first(context, args, asked, begins, fault);
    let count = files.count;
    if status == 0 {
        put_front_files(context, others, outputs, files)?;
        put_whole(out, lines.bytes())?;
    }
    Ok((status, Some(WrittenFront { asked, count })))
}

/// What is asked of a front.
pub(crate) fn front_asked(
    args: PlanArgs<'_>,
    limit: FrontLimit,
) -> Result<FrontAsked, CentreFault> {
    let batches = match limit {
        FrontLimit::All => u32::MAX,
        FrontLimit::Batches(batches) => batches,
        FrontLimit::Airtime { ms, rate } => {
            most_batches(ms, rate).map_err(|_| CentreFault::BadRate)?
        }
    };
    Ok(FrontAsked {
        batches,
        may_wait: args.search.may_wait,
        sets_aside: args.oversized.is_some(),
        expect: args.search.expect,
        search: args.search.search,
    })
}

// Opens the files of a front beside its transmission and certificate, behind these and before any file is emptied.
fn open_others(context: Context<'_>, args: PlanArgs<'_>) -> Result<Vec<(Role, Output)>, FileFault> {
    let mut others = Vec::new(context.alloc);
    for NamedFile(role, word) in &places(args)[..3] {
        if let Some(word) = *word {
            others.push((*role, open_output(context, *role, word)?))?;
        }
    }
    // A new file may have a second spelling among the words.
    refuse_rest(context, args)?;
    Ok(others)
}

// Writes the files of a front, the rest first.
fn put_front_files<S: Sink + Drop>(
    context: Context<'_>,
    others: Vec<(Role, Output)>,
    mut outputs: Outputs<S>,
    files: FrontFiles<LoadedFile, GrowingSink>,
) -> Result<(), FileFault> {
    let (rest, why) = (files.rest.into_bytes(), files.why.into_bytes());
    let aside = files.aside.into_bytes();
    for (role, output) in others {
        let bytes = match role {
            Role::Rest => rest.as_slice(),
            Role::Oversized => aside.as_slice(),
            _ => why.as_slice(),
        };
        write_over(context, role, output, bytes)?;
    }
    put_whole(&mut outputs.tx, files.tx.into_bytes().as_slice())?;
    put_whole(&mut outputs.cert, files.cert.into_bytes().as_slice())
}

// Refuses a word for the rest, for the pages that are set aside, or for the certificate of one page more, that names another
// file of the plan.
fn refuse_rest(context: Context<'_>, args: PlanArgs<'_>) -> Result<(), FileFault> {
    let words = [args.pages, args.rest, args.oversized, args.why];
    for (place, word) in words.iter().enumerate().skip(1) {
        refuse_equal(*word, args.tx, args.cert)?;
        refuse_shared(context, *word, args.tx, args.cert)?;
        let Some(word) = *word else {
            continue;
        };
        refuse_input(context, word)?;
        for other in &words[..place] {
            refuse_equal(*other, word, STANDARD)?;
            refuse_one_file(context.rt, *other, word, STANDARD)?;
        }
    }
    Ok(())
}

// Reads the files back and compares them with the page file, or with the front of it that was sent.
fn read_files_back<O: Sink>(
    context: Context<'_>,
    args: PlanArgs<'_>,
    sent: Option<WrittenFront>,
    streams: &mut Streams,
    out: &mut O,
) -> Result<u8, CentreFault> {
    let pages = load_file(context, Role::PageFile, args.pages, PAGES_READ)?;
    let tx = load_file(context, Role::Transmission, Some(args.tx), PAGES_READ)?;
    let cert = load_file(context, Role::Certificate, Some(args.cert), CERT_READ)?;
    let mut files = PlanFiles { pages, tx, cert };
    let mut lines: MemorySink<LINES> = MemorySink::new(LINES, LINES as u64);
    let (alloc, search, err) = (context.alloc, args.search.search, &mut streams.err);
    let status = match sent {
        Some(sent) => run_verify_front(alloc, sent, &mut files, &mut lines, err),
        None => run_verify(alloc, search, &mut files, &mut lines, err),
    };
    let fault = streams.err.fault();
    note_file(context, args.pages, &files.pages, None, fault);
    if status == 0 {
        put_whole(out, lines.bytes())?;
    }
    Ok(status)
}

// `--keep`: plans beside the places of the files, puts all there once they are whole, and then reports the lines.
fn plan_staged(
    context: Context<'_>,
    args: PlanArgs<'_>,
    streams: &mut Streams,
) -> Result<u8, CentreFault> {
    refuse_shared(context, args.pages, args.tx, args.cert)?;
    refuse_rest(context, args)?;
    let mut files = Vec::new(context.alloc);
    let mut lines: MemorySink<LINES> = MemorySink::new(LINES, LINES as u64);
    let done = plan_among(context, args, &mut files, streams, &mut lines);
    for file in &files {
        file.remove(context);
    }
    let status = done?;
    if status == 0 {
        put_whole(&mut context.out(), lines.bytes())?;
    }
    Ok(status)
}

// The same, with a list of the files beside the places, which the caller takes away.
fn plan_among<O: Sink>(
    context: Context<'_>,
    args: PlanArgs<'_>,
    files: &mut Vec<StagedFile>,
    streams: &mut Streams,
    lines: &mut O,
) -> Result<u8, CentreFault> {
    for NamedFile(role, place) in places(args) {
        let Some(place) = place else {
            continue;
        };
        let made = StagedFile::make(context, role, place, files.as_slice())?;
        files.push(made).map_err(FileFault::from)?;
    }
    let status = plan_files(context, staged(args, files.as_slice()), streams, lines)?;
    if status == 0 {
        put_staged(context, files.as_slice())?;
    }
    Ok(status)
}

// The words with the files beside the places.
fn staged<'a>(args: PlanArgs<'a>, files: &'a [StagedFile]) -> PlanArgs<'a> {
    let mut staged = args;
    for file in files {
        match file.role {
            Role::Rest => staged.rest = Some(file.path()),
            Role::Oversized => staged.oversized = Some(file.path()),
            Role::Why => staged.why = Some(file.path()),
            Role::Certificate => staged.cert = file.path(),
            _ => staged.tx = file.path(),
        }
    }
    staged
}
