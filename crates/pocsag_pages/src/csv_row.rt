ghost use Rattle.std.specs.Prelude.{◌≡◌, ◌∷◌, [], true, false, IfOk, option_map};
ghost use Rattle.csv.specs.Reading.{default_config, records, strip_bom};
ghost use Rattle.csv.specs.Records.{fields_of};
ghost use Rattle.pocsag_pages.specs.PageFile.{only_row, rows_of};
ghost use Rattle.pocsag_pages.specs.Rows.{IsAtRecord, rows_left};

use csv::{ByteRecord, ErrorKind, Reader, ReaderBuilder};
use pocsag_words::OutOfMemory;
use std::alloc::Global;

// A reader of all the records of these bytes, the first like the others.
pub(crate) fn rows_reader(alloc: Global, bytes: &[u8]) -> Reader<&[u8]>
    ensures stands { IsAtRecord result }
    ensures rows { rows_left result ≡ records default_config (strip_bom bytes.now) }
{
    ReaderBuilder::new()
        .has_headers(false)
        .flexible(true)
        .from_reader(alloc, bytes)
}

// Reads the next record into `row`, and says whether there was one. No read of bytes in memory fails: what stops the reader is
// that a growth was refused.
pub(crate) fn next_row(
    reader: &mut Reader<&[u8]>,
    row: &mut ByteRecord,
) -> Result<bool, OutOfMemory>
    requires { IsAtRecord reader.old }
    ensures found { IfOk result
        (λ found. found ≡ true → rows_left reader.old ≡ fields_of row.new ∷ rows_left reader.new) }
    ensures stands { IfOk result (λ found. found ≡ true → IsAtRecord reader.new) }
    ensures none { IfOk result (λ found. found ≡ false → rows_left reader.old ≡ []) }
{
    match reader.read_byte_record(row) {
        Ok(found) => Ok(found),
        Err(error) => match error.into_kind() {
            ErrorKind::OutOfMemory | ErrorKind::Io(_) => Err(OutOfMemory),
            _ => unreachable!(),
        },
    }
}

/// The record of bytes that hold one record of CSV and no more, as a page file's records are read.
pub fn only_row(alloc: Global, bytes: &[u8]) -> Result<Option<ByteRecord>, OutOfMemory>
    ensures { IfOk result (λ row. option_map fields_of row ≡ only_row (rows_of bytes.now)) }
{
    let mut reader = rows_reader(alloc, bytes);
    let mut row = ByteRecord::new(alloc);
    let found = next_row(&mut reader, &mut row)?;
    if !found {
        return Ok(None);
    }
    let mut rest = ByteRecord::new(alloc);
    let more = next_row(&mut reader, &mut rest)?;
    if more {
        return Ok(None);
    }
    Ok(Some(row))
}
