//! The notes of `--verbose` on the text of a page file.

use crate::context::Context;
use crate::role::NamedFile;
use csv::{ByteRecord, Reader, ReaderBuilder};
use pocsag_pages::{FieldFault, RecordFault, RoundFault};
use std::alloc::Global;
use std::fmt::{self, Display, Write};

// How many bytes of a record are shown.
const SHOWN: usize = 80;

/// The first bytes of a text, with a question mark for each that is no visible character.
#[derive(Clone, Copy)]
pub struct Excerpt<'a> {
    pub bytes: &'a [u8],
}

impl Display for Excerpt<'_> {
    fn fmt<W: fmt::Write>(&self, f: &mut fmt::Formatter<W>) -> fmt::Result {
        for byte in self.bytes.iter().take(SHOWN) {
            f.write_char(match byte {
                32..=126 => char::from(*byte),
                _ => '?',
            })?;
        }
        Ok(())
    }
}

// A reader behind the first records, so many of them, and the last of these.
fn read_records(alloc: Global, file: &[u8], count: u64) -> Option<(Reader<&[u8]>, ByteRecord)> {
    let mut reader = ReaderBuilder::new()
        .has_headers(false)
        .flexible(true)
        .from_reader(alloc, file);
    let mut row = ByteRecord::new(alloc);
    for _ in 0..count {
        if !reader.read_byte_record(&mut row).unwrap_or(false) {
            return None;
        }
    }
    Some((reader, row))
}

// The line on which the record of this number begins, and the record up to the end of that line. Each record before it has
// three fields, so reading them takes little memory.
fn record_at(alloc: Global, file: &[u8], number: u32) -> Option<(usize, &[u8])> {
    let (reader, _) = read_records(alloc, file, u64::from(number))?;
    let position = reader.position();
    let rest = file.get(position.byte() as usize..)?;
    let begins = rest.iter().position(|byte| !matches!(byte, b'\r' | b'\n'))?;
    let (passed, record) = rest.split_at(begins);
    let line_feeds = passed.iter().filter(|byte| **byte == b'\n').count();
    let line = line_feeds.saturating_add(position.line() as usize);
    let mut lines = record.split(|byte| matches!(byte, b'\r' | b'\n'));
    Some((line, lines.next()?))
}

// The byte of a message at which a fault of its record is, if it is at one. The record of this number has three fields then.
fn byte_at_fault(alloc: Global, file: &[u8], number: u32, fault: RecordFault) -> Option<u8> {
    let RecordFault::Field(FieldFault::BadCharacter(place)) = fault else {
        return None;
    };
    let (_, row) = read_records(alloc, file, u64::from(number) + 1)?;
    row.get(2)?.get(place).copied()
}

// What a first line that is no header likely is.
fn likely_cause(line: &[u8]) -> &'static str {
    let line = match line {
        [0xEF, 0xBB, 0xBF, text @ ..] => text,
        _ => line,
    };
    match line {
        [0xFF, 0xFE, ..] | [0xFE, 0xFF, ..] => ": UTF-16, not ASCII",
        _ if line.iter().any(|byte| *byte == 0) => ": UTF-16 or UTF-32, not ASCII",
        [0x80..=0xFF, ..] => ": a byte order mark of another code, not of UTF-8",
        _ if line.iter().any(|byte| *byte == b';') => ": semicolons in place of commas",
        _ if line.iter().any(|byte| *byte == b'\t') => ": tabs in place of commas",
        _ if line.iter().any(|byte| matches!(byte, b'A'..=b'Z')) => ": capitals",
        [b'0'..=b'9', ..] => ": a page, and no header before it",
        _ => "",
    }
}

/// With `--verbose` keeps a note on what a fault of a page file names: the line and the text of a record or of the header, and for
/// a character that is not allowed its byte.
pub fn note_record(context: Context<'_>, place: NamedFile<'_>, file: &[u8], fault: RoundFault) {
    if !context.diagnostics.is_asked() {
        return;
    }
    let (number, byte) = match fault {
        RoundFault::BadHeader => (0, None),
        RoundFault::Record(number, fault) => {
            (number, byte_at_fault(context.alloc, file, number, fault))
        }
        _ => return,
    };
    let Some((line, bytes)) = record_at(context.alloc, file, number) else {
        return;
    };
    let text = Excerpt { bytes };
    match byte {
        Some(byte) => {
            let why = if byte > 127 { ", not ASCII" } else { "" };
            context.note(format_args!("{place}: line {line}: {text}: byte 0x{byte:02X}{why}"));
        }
        None => {
            let why = if number == 0 { likely_cause(bytes) } else { "" };
            context.note(format_args!("{place}: line {line}: {text}{why}"));
        }
    }
}

/// The line and the address of the first page of a page file, where `--verbose` asks for them.
pub fn first_asked(context: Context<'_>, file: &[u8]) -> Option<String> {
    if !context.diagnostics.is_asked() {
        return None;
    }
    let (line, record) = record_at(context.alloc, file, 1)?;
    let bytes = record.split(|byte| *byte == b',').next()?;
    let address = Excerpt { bytes };
    format!(in context.alloc; "line {line}: address {address}").ok()
}
