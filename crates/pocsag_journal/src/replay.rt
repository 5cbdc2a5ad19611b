ghost use Rattle.std.specs.Prelude.{◌≡◌, ◌≤◌, ◌++◌, ℕ, List, [], length, true, IfErr, IfOk, MatchResult, OnOk};
ghost use Rattle.csv.specs.Writing.{default_writer, row_text};
ghost use Rattle.pocsag_pages.specs.Rows.{IsAtRecord};
ghost use Rattle.pocsag_pages.specs.PageFile.{Row};
ghost use Rattle.pocsag_pages.specs.declared.page.Page.{Page};
ghost use Rattle.pocsag_journal.specs.Readers.{IsBefore};
ghost use Rattle.pocsag_journal.specs.Runs.{IsRun, first_record};
ghost use Rattle.pocsag_journal.specs.Faults.{ExplainsReplay, IsPrinted, IsPrintedOf};
ghost use Rattle.pocsag_journal.specs.Journals.{IsRead, MakesLine, Replays, ReplaysAs, journal_limit};

use crate::draft::Draft;
use crate::edit::edit_record;
use crate::fault::JournalFault;
use crate::lines::split_line;
use crate::reader::{read_row, reader_of};
use crate::text::{first_line, row_line};
use csv::Reader;
use pocsag_pages::{WholeFault, read_whole};
use pocsag_plan::Book;
use pocsag_words::{OutOfMemory, Source};
use std::alloc::Global;

/// The greatest number of bytes of a journal that is read.
pub const JOURNAL_LIMIT: usize = 1_073_741_824;

// How a journal of each version begins.
const FORMAT: &[u8] = b"pocsag journal,";

/// What a journal stands for.
#[derive(Drop)]
pub struct Replayed {
    /// The round after its edits.
    pub book: Book,
    /// How many edits were read.
    pub edits: usize,
    /// How many bytes at its end are a torn line.
    pub torn: usize,
}

/// Reads the journal that a source holds up to its end. A torn end is skipped, also one in the first line. Bytes that do not
/// begin as a journal are refused as none; a later line that is no line of a journal is refused with its number.
pub fn read_journal<S: Source>(alloc: Global, source: &mut S) -> Result<Replayed, JournalFault>
    ensures read { S.is_known → IfOk result
        (λ replayed. Replays (S.held source.old) replayed.edits replayed.torn replayed.book) }
    ensures told { S.is_known → IfErr result
        (ExplainsReplay (S.held source.old) (S.failures source.old) (S.failures source.new)) }

    // Whatever edits the bytes are the text of, each accepted in its turn: their list is read.
    ensures replay { S.is_known → (rows : List Row) (torn : List ℕ) (pages : List Page) →
        IsRead (S.held source.old) rows torn → IsRun rows [] pages → MatchResult result
        (λ replayed. ReplaysAs replayed.book replayed.edits replayed.torn pages rows torn) IsPrintedOf }
    ensures succeeded { OnOk result (S.failures source.new ≡ S.failures source.old) }
{
    match read_whole(alloc, source, JOURNAL_LIMIT) {
        Ok(bytes) => replay(alloc, bytes.as_slice()),
        Err(WholeFault::ReadFault) => Err(JournalFault::ReadFault),
        Err(WholeFault::TooLarge) => Err(JournalFault::TooLarge),
        Err(WholeFault::OutOfMemory) => Err(JournalFault::OutOfMemory),
    }
}

// Reads the edits of a journal. Bytes that are only a part of the first line have none.
pub(crate) fn replay(alloc: Global, bytes: &[u8]) -> Result<Replayed, JournalFault>
    requires { length bytes.now ≤ journal_limit }
    ensures read { IfOk result (λ replayed. Replays bytes.now replayed.edits replayed.torn replayed.book) }
    ensures told { IfErr result (λ e. IsPrinted bytes.now e) }
{
    let first = first_line();
    if let Some(behind) = bytes.strip_prefix(first) {
        return replay_lines(alloc, bytes, behind);
    }
    if first.starts_with(bytes) {
        return Ok(Replayed {
            book: Book::new(alloc),
            edits: 0,
            torn: bytes.len(),
        });
    }
    if bytes.starts_with(FORMAT) {
        return Err(JournalFault::OtherVersion);
    }
    Err(JournalFault::NotJournal)
}

// Makes the edits of the lines behind the first, one after another. One reader reads them all, and no edit takes longer
// because there are many pages.
fn replay_lines(alloc: Global, bytes: &[u8], behind: &[u8]) -> Result<Replayed, JournalFault>
    requires few { length bytes.now ≤ journal_limit }
    requires first { bytes.now ≡ row_text default_writer first_record ++ behind.now }
    ensures read { IfOk result (λ replayed. Replays bytes.now replayed.edits replayed.torn replayed.book) }
    ensures told { IfErr result (λ e. IsPrinted bytes.now e) }
{
    let mut reader = reader_of(alloc, bytes);
    let _first = read_row(alloc, &mut reader)?;
    let mut draft = Draft::new(alloc)?;
    let mut edits = 0;
    let mut rest = behind;
    loop {
        let next = match split_line(rest) {
            Some(parts) => parts,
            None => {
                let book = draft.into_book(alloc)?;
                return Ok(Replayed {
                    book,
                    edits,
                    torn: rest.len(),
                });
            }
        };
        let made = replay_line(alloc, &mut reader, &mut draft, next.0)?;
        if !made {
            return Err(JournalFault::BadLine(edits + 2));
        }
        edits += 1;
        rest = next.1;
    }
}

// Makes the edit that a line is the text of, if it is that of one that the pages accept, and says whether it is. The reader
// stands before the line, and then behind it.
fn replay_line(
    alloc: Global,
    reader: &mut Reader<&[u8]>,
    draft: &mut Draft,
    line: &[u8],
) -> Result<bool, OutOfMemory>
    requires { IsAtRecord reader.old }
    ensures made { (rest : List ℕ) → IsBefore reader.old (line.now ++ rest) →
        IfOk result (λ made. MakesLine made line.now draft.old draft.new) }
    ensures stands { IfOk result (λ made. made ≡ true → IsAtRecord reader.new) }
    ensures behind { (rest : List ℕ) → IsBefore reader.old (line.now ++ rest) →
        IfOk result (λ made. made ≡ true → IsBefore reader.new rest) }
{
    let row = match read_row(alloc, reader)? {
        Some(row) => row,
        None => return Ok(false),
    };
    let text = row_line(alloc, &row)?;
    let same = text.as_slice() == line;
    if !same {
        return Ok(false);
    }
    match edit_record(alloc, draft, &row) {
        Ok(()) => Ok(true),
        Err(refusal) if refusal.wants_memory() => Err(OutOfMemory),
        Err(_) => Ok(false),
    }
}
