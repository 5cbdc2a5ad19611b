ghost use Rattle.std.specs.Prelude.{◌≡◌, ◌∷◌, [], true, false, IfOk};
ghost use Rattle.csv.specs.Records.{fields_of};
ghost use Rattle.pocsag_pages.specs.PageFile.{rows_of};
ghost use Rattle.pocsag_pages.specs.WideRecords.{up_to_wide};

use crate::csv_row::{next_row, rows_reader};
use crate::file_head::{PAGE_FIELDS, judged_head};
use csv::{ByteRecord, Reader};
use pocsag_words::OutOfMemory;
use std::alloc::Global;
use std::marker::Model;

// The records of a page file that are not read yet, up to the first of more than three fields.
#[derive(Drop)]
pub(crate) struct RowReader<'a> {
    reader: Reader<&'a [u8]>,
    is_over: bool,
}

impl<'a> Model for RowReader<'a> {
    ghost use Rattle.std.specs.Prelude.{List, ◌≡◌, false};
    ghost use Rattle.pocsag_pages.specs.PageFile.{Row};
    ghost use Rattle.pocsag_pages.specs.Rows.{IsAtRecord, rows_ahead};
    ghost use Rattle.pocsag_pages.specs.WideRecords.{up_to_wide};

    ghost Value = { List Row };

    ghost view = { λ r. up_to_wide (rows_ahead r.is_over r.reader) };

    ghost invariant = { λ r. r.is_over ≡ false → IsAtRecord r.reader };
}

impl<'a> RowReader<'a> {
    pub(crate) fn of(alloc: Global, file: &'a [u8]) -> RowReader<'a>
        ensures { result ≡ up_to_wide (rows_of file.now) }
    {
        RowReader {
            reader: rows_reader(alloc, judged_head(alloc, file)),
            is_over: false,
        }
    }

    // Reads the next record into `row`, of a wider one than a page's its first fields and an empty one, and says whether
    // there was one.
    pub(crate) fn read(&mut self, row: &mut ByteRecord) -> Result<bool, OutOfMemory>
        ensures found { IfOk result (λ found. found ≡ true → self.old ≡ fields_of row.new ∷ self.new) }
        ensures none { IfOk result (λ found. found ≡ false → self.old ≡ []) }
    {
        if self.is_over {
            return Ok(false);
        }
        self.is_over = true;
        let found = next_row(&mut self.reader, row)?;
        if !found {
            return Ok(false);
        }
        if row.len() > PAGE_FIELDS {
            row.truncate(PAGE_FIELDS);
            row.push_field(&[])?;
            return Ok(true);
        }
        self.is_over = false;
        Ok(true)
    }
}
