ghost use Rattle.std.specs.Prelude.{◌≡◌, IfOk};
ghost use Rattle.csv.specs.Records.{fields_of};
ghost use Rattle.csv.specs.Writing.{default_writer, row_text};
ghost use Rattle.pocsag_journal.specs.Runs.{first_record};

use csv::{ByteRecord, Writer};
use pocsag_words::OutOfMemory;
use std::alloc::Global;

/// The first line of a journal, which names the format and its version. The program `pocsag open` takes it as a line
/// that changes nothing.
pub fn first_line() -> &'static [u8]
    ensures { result.now ≡ row_text default_writer first_record }
{
    b"pocsag journal,1\n"
}

/// The text of a record, with the line feed that ends it.
pub fn row_line(alloc: Global, row: &ByteRecord) -> Result<Vec<u8>, OutOfMemory>
    ensures { IfOk result (λ text. text.items ≡ row_text default_writer (fields_of row.now)) }
{
    let mut writer = Writer::from_writer(Vec::new(alloc));
    if writer.write_byte_record(row).is_err() {
        return Err(OutOfMemory);
    }
    match writer.into_inner() {
        Ok(text) => Ok(text),
        Err(_) => Err(OutOfMemory),
    }
}
