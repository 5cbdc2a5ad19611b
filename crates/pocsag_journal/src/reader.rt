ghost use Rattle.std.specs.Prelude.{◌≡◌, ℕ, List, IfOk, IsSome, option_map};
ghost use Rattle.csv.specs.Reading.{strip_bom};
ghost use Rattle.csv.specs.Records.{fields_of};
ghost use Rattle.pocsag_pages.specs.Rows.{IsAtRecord};
ghost use Rattle.pocsag_journal.specs.Readers.{IsBefore, GivesRow};

use csv::{ByteRecord, ErrorKind, Reader, ReaderBuilder};
use pocsag_words::OutOfMemory;
use std::alloc::Global;

/// A reader of the records of these bytes, the first like the others.
pub(crate) fn reader_of(alloc: Global, bytes: &[u8]) -> Reader<&[u8]>
    ensures stands { IsAtRecord result }
    ensures before { IsBefore result (strip_bom bytes.now) }
{
    ReaderBuilder::new()
        .has_headers(false)
        .flexible(true)
        .from_reader(alloc, bytes)
}

/// Reads the next record, if there is one. No read of bytes in memory fails: what stops the reader is that a growth was
/// refused.
pub(crate) fn read_row(
    alloc: Global,
    reader: &mut Reader<&[u8]>,
) -> Result<Option<ByteRecord>, OutOfMemory>
    requires { IsAtRecord reader.old }
    ensures stands { IfOk result (λ row. IsSome row → IsAtRecord reader.new) }
    ensures takes { (bytes : List ℕ) → IsBefore reader.old bytes →
        IfOk result (λ row. GivesRow (option_map fields_of row) bytes reader.new) }
{
    let mut row = ByteRecord::new(alloc);
    match reader.read_byte_record(&mut row) {
        Ok(true) => Ok(Some(row)),
        Ok(false) => Ok(None),
        Err(error) => match error.into_kind() {
            ErrorKind::OutOfMemory | ErrorKind::Io(_) => Err(OutOfMemory),
            _ => unreachable!(),
        },
    }
}
