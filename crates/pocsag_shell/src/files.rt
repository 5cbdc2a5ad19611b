use crate::context::Context;
use crate::devices::SystemDevice;
use crate::fault::FileFault;
use crate::lines::put_whole;
use crate::loaded::LoadedFile;
use crate::paths::{Named, are_one, name_one_file};
use crate::role::{NamedFile, Role};
use crate::streams::{FileOr, Input, Output};
use crate::words::{STANDARD, path_of};
use pocsag_pages::FILE_LIMIT;
use pocsag_words::{Sink, Source};
use std::fs::{self, File, Metadata, OpenFile, OpenOptions};
use std::io::{self, Read};
use std::rt::Files;

// How many bytes are asked for in one read.
const PIECE: usize = 8192;

/// How many bytes of a page file or of a transmission are read: more than this is too large whatever follows.
pub const PAGES_READ: usize = FILE_LIMIT + 1;

/// How many bytes of a certificate are read. The longest has a million nodes of at most six bytes, so a longer text has its first
/// fault among these.
pub const CERT_READ: usize = 8_000_000;

/// The longest page file or transmission of which what a command writes is kept until it is whole.
pub const KEPT_BYTES: usize = 4_000_000;

/// The system's error number for a folder in place of a file.
pub(crate) const IS_FOLDER: i32 = 21;

/// The two outputs of a plan.
#[derive(Drop)]
pub struct Outputs<S: Drop> {
    /// Takes the transmission.
    pub tx: S,
    /// Takes the certificate.
    pub cert: S,
}

// The files behind standard input, standard output and standard error.
const STREAMS: [&str; 3] = ["/proc/self/fd/0", "/proc/self/fd/1", "/proc/self/fd/2"];

// What --verbose adds where a word names such a file, and where both streams are needed and are one.
const BEHIND_STREAM: &str =
    "the file behind standard output or standard error; to write to standard output, give '-' in place of TX or CERT";

const BEHIND_INPUT: &str = "the file behind standard input";

const ONE_STREAM: &str =
    "standard output takes a file, and standard error, which is to take the lines, is the same file";

/// Opens a file for reading, or standard input if there is no path. A folder is refused where it is read, as any file that
/// cannot be read, but as a journal at once.
pub fn open_source<'a>(
    context: Context<'a>,
    role: Role,
    path: Option<&str>,
) -> Result<SystemDevice<'a, Input>, FileFault> {
    let input = match path {
        Some(path) => {
            let file = context.opened(role, fs::open(context.rt, path))?;
            let is_journal = matches!(role, Role::Journal);
            if is_journal && context.opened(role, file.metadata())?.is_dir() {
                context.diagnostics.note_system_error(role, Some(IS_FOLDER));
                return Err(FileFault::Device);
            }
            FileOr::File(file)
        }
        None => FileOr::Standard(context.rt.stdin()),
    };
    Ok(SystemDevice::new(input, role, context.diagnostics))
}

/// Reads what a source holds up to its end, or up to where the system refuses to read on, and at most `limit` bytes.
pub fn load<R: Read + Drop>(
    context: Context<'_>,
    source: &mut SystemDevice<'_, R>,
    limit: usize,
) -> Result<LoadedFile, FileFault> {
    let mut bytes = Vec::new(context.alloc);
    let mut piece = [0u8; PIECE];
    while bytes.len() < limit {
        let Ok(count) = source.read(&mut piece) else {
            return Ok(LoadedFile::new(context.alloc, bytes, true));
        };
        if count == 0 {
            break;
        }
        bytes.extend_from_slice(&piece[..count])?;
    }
    if bytes.len() > FILE_LIMIT {
        context.diagnostics.refuse_large(source.role);
    }
    Ok(LoadedFile::new(context.alloc, bytes, false))
}

/// Whether what a command writes of a file is kept until it is whole, and not written as it is made: the file has at most so many
/// bytes, or could not be read to its end.
pub fn is_kept(file: &LoadedFile, most: usize) -> bool {
    match file.lent() {
        Some(bytes) => bytes.len() <= most,
        None => true,
    }
}

/// What a file holds, or standard input if there is no path: opens it, and then reads it as `load` does.
pub fn load_file(
    context: Context<'_>,
    role: Role,
    path: Option<&str>,
    limit: usize,
) -> Result<LoadedFile, FileFault> {
    let mut source = open_source(context, role, path)?;
    load(context, &mut source, limit)
}

/// Opens a page file and a certificate, of which one may be standard input, and then reads both.
pub fn load_both(
    context: Context<'_>,
    pages: &str,
    cert: &str,
) -> Result<(LoadedFile, LoadedFile), FileFault> {
    if pages == STANDARD && cert == STANDARD {
        return Err(FileFault::EqualPaths);
    }
    let mut pages = open_source(context, Role::PageFile, path_of(pages))?;
    let mut cert = open_source(context, Role::Certificate, path_of(cert))?;
    let pages = load(context, &mut pages, PAGES_READ)?;
    Ok((pages, load(context, &mut cert, CERT_READ)?))
}

/// The two files of a plan, opened with the bytes that they have.
pub type OpenedFiles = Outputs<Output>;

impl Outputs<Output> {
    /// Empties both.
    pub fn emptied<'a>(
        self,
        context: Context<'a>,
    ) -> Result<Outputs<SystemDevice<'a, Output>>, FileFault> {
        let Outputs { tx, cert } = self;
        empty(context, Role::Transmission, &tx)?;
        empty(context, Role::Certificate, &cert)?;
        Ok(Outputs {
            tx: SystemDevice::new(tx, Role::Transmission, context.diagnostics),
            cert: SystemDevice::new(cert, Role::Certificate, context.diagnostics),
        })
    }
}

/// Opens or makes a file for writing and keeps its bytes, or opens standard output.
pub fn open_output(context: Context<'_>, role: Role, word: &str) -> Result<Output, FileFault> {
    let Some(path) = path_of(word) else {
        return Ok(FileOr::Standard(context.rt.stdout()));
    };
    let mut options = OpenOptions::new();
    options.write(true).create(true);
    let file = context.opened(role, options.open(context.rt, path))?;
    Ok(FileOr::File(file))
}

// Empties a regular file. Other files keep no bytes.
fn empty(context: Context<'_>, role: Role, output: &Output) -> Result<(), FileFault> {
    let FileOr::File(file) = output else {
        return Ok(());
    };
    let metadata = context.opened(role, file.metadata())?;
    if metadata.is_file() {
        return context.opened(role, file.set_len(0));
    }
    Ok(())
}

/// Opens or makes the two files of a plan. If two of the three words name one file it refuses them.
pub fn open_outputs(
    context: Context<'_>,
    pages: Option<&str>,
    tx: &str,
    cert: &str,
) -> Result<OpenedFiles, FileFault> {
    let mut found = FoundFiles::new(pages, tx, cert);
    found.refuse(context)?;
    let opened_tx = open_output(context, Role::Transmission, tx)?;
    // A new file may have a second spelling among the paths. It may also stand behind a standard stream that was closed.
    found.refuse(context)?;
    let opened_cert = open_output(context, Role::Certificate, cert)?;
    found.refuse(context)?;
    Ok(Outputs {
        tx: opened_tx,
        cert: opened_cert,
    })
}

/// Writes the bytes in place of those that an open file has.
pub fn write_over(
    context: Context<'_>,
    role: Role,
    output: Output,
    bytes: &[u8],
) -> Result<(), FileFault> {
    empty(context, role, &output)?;
    put_whole(
        &mut SystemDevice::new(output, role, context.diagnostics),
        bytes,
    )
}

/// Refuses two words that name one file, whatever their spelling, a word that names the file behind standard output or standard
/// error, and a word of an output that names the one behind standard input.
pub fn refuse_shared(
    context: Context<'_>,
    pages: Option<&str>,
    tx: &str,
    cert: &str,
) -> Result<(), FileFault> {
    FoundFiles::new(pages, tx, cert).refuse(context)
}

// The files that the words of a plan name, and those behind the standard streams. The system is asked again only about what was
// not there.
#[derive(Drop)]
struct FoundFiles<'a> {
    // The paths of the page file, the transmission and the certificate.
    paths: [Option<&'a str>; 3],
    named: [Option<Named>; 3],
    // Behind standard input, standard output and standard error.
    streams: [Option<Option<Named>>; 3],
}

impl<'a> FoundFiles<'a> {
    fn new(pages: Option<&'a str>, tx: &'a str, cert: &'a str) -> FoundFiles<'a> {
        FoundFiles {
            paths: [pages, path_of(tx), path_of(cert)],
            named: [None; 3],
            streams: [None; 3],
        }
    }

    // Asks the system about each that was not there.
    fn look<R: Files>(&mut self, rt: &R) {
        for place in 0..3 {
            if self.named[place].is_none() {
                self.named[place] = named_at(rt, self.paths[place]);
            }
            if self.streams[place].is_none() {
                self.streams[place] = Named::behind(rt, STREAMS[place]);
            }
        }
    }

    // Refuses what `refuse_shared` does, as far as it is there now.
    fn refuse(&mut self, context: Context<'_>) -> Result<(), FileFault> {
        self.look(context.rt);
        let [pages, tx, cert] = self.named;
        if name_one_file(pages, tx, cert) {
            return Err(FileFault::EqualPaths);
        }
        let [input, output, errors] = self.streams;
        let (input, output, errors) = (input.flatten(), output.flatten(), errors.flatten());
        for place in 0..3 {
            let named = self.named[place];
            if are_one(named, output) || are_one(named, errors) {
                let path = self.paths[place].unwrap_or(STANDARD);
                context.note(format_args!("{path}: {BEHIND_STREAM}"));
                return Err(FileFault::EqualPaths);
            }
        }
        for place in 1..3 {
            if are_one(self.named[place], input) {
                let path = self.paths[place].unwrap_or(STANDARD);
                context.note(format_args!("{path}: {BEHIND_INPUT}"));
                return Err(FileFault::EqualPaths);
            }
        }
        // If standard output takes a file, standard error takes the lines.
        let [_, tx, cert] = self.paths;
        if (tx.is_none() || cert.is_none()) && are_one(output, errors) {
            context.note(ONE_STREAM);
            return Err(FileFault::EqualPaths);
        }
        Ok(())
    }
}

/// Refuses the word of an output that names the file behind standard input.
pub fn refuse_input(context: Context<'_>, word: &str) -> Result<(), FileFault> {
    let rt = context.rt;
    let input = Named::behind(rt, STREAMS[0]).flatten();
    if are_one(named_at(rt, path_of(word)), input) {
        context.note(format_args!("{word}: {BEHIND_INPUT}"));
        return Err(FileFault::EqualPaths);
    }
    Ok(())
}

/// Refuses two words that name one file, whatever their spelling.
pub fn refuse_one_file<R: Files>(
    rt: &R,
    pages: Option<&str>,
    tx: &str,
    cert: &str,
) -> Result<(), FileFault> {
    let pages = named_at(rt, pages);
    let tx = named_at(rt, path_of(tx));
    if name_one_file(pages, tx, named_at(rt, path_of(cert))) {
        return Err(FileFault::EqualPaths);
    }
    Ok(())
}

/// Two of the files that are one, if two are: by the same word, or as the system knows them.
pub(crate) fn one_file<'n>(
    rt: &HostRuntime,
    files: &[NamedFile<'n>],
) -> Option<(NamedFile<'n>, NamedFile<'n>)> {
    let is_written = Role::Transmission.among(files).1.is_some();
    for (place, other) in files.iter().enumerate() {
        for one in &files[..place] {
            let (Some(first), Some(second)) = (one.1, other.1) else {
                continue;
            };
            // Standard input and standard output: beside a transmission a certificate is written too.
            if one.0 == Role::PageFile && first == STANDARD && is_written {
                continue;
            }
            if first == second || refuse_one_file(rt, path_of(first), second, STANDARD).is_err() {
                return Some((*one, *other));
            }
        }
    }
    None
}

fn named_at<R: Files>(rt: &R, path: Option<&str>) -> Option<Named> {
    Named::at(rt, path?)
}

/// Whether there is a path, and at it a regular file. A folder or nothing counts too: opening it reports the fault.
pub fn is_regular(rt: &HostRuntime, path: Option<&str>) -> bool {
    path.is_some_and(|path| !is_other(fs::metadata(rt, path)))
}

/// Whether a rename may replace what stands at the path: a regular file that is no link, or nothing. A folder counts too:
/// replacing it reports the fault.
pub(crate) fn is_regular_or_none(rt: &HostRuntime, path: &str) -> bool {
    !is_other(fs::symlink_metadata(rt, path))
}

/// Whether a rename must not replace what stands at the place of a file, which is no regular file. A note names it.
pub fn is_unkept(context: Context<'_>, file: NamedFile<'_>) -> bool {
    let NamedFile(_, Some(place)) = file else {
        return false;
    };
    if place != STANDARD && is_regular_or_none(context.rt, place) {
        return false;
    }
    context.note(format_args!("{file}: no regular file"));
    true
}

// Whether there is something other than a regular file or a folder.
fn is_other(found: io::Result<Metadata>) -> bool {
    found.is_ok_and(|metadata| !metadata.is_file() && !metadata.is_dir())
}
