ghost use Rattle.std.specs.Prelude.{◌≡◌, true, IfOk};
ghost use Rattle.pocsag_pages.specs.PageFile.{rows_of};
ghost use Rattle.pocsag_pages.specs.WideRecords.{has_wide, up_to_wide};

use crate::csv_row::{next_row, rows_reader};
use crate::round::PAGE_LIMIT;
use csv::ByteRecord;
use pocsag_words::OutOfMemory;
use std::alloc::Global;

// How many fields the record of a page has.
pub(crate) const PAGE_FIELDS: usize = 3;

// The lengths of the fronts that are looked through before the whole file is read.
const HEAD_LENGTHS: [usize; 5] = [4 << 20, 16 << 20, 64 << 20, 128 << 20, 192 << 20];

// Whether a record has more than three fields, among as many as a page file may have and one more. It stands apart since a reader
// is large, and room for it is cleared at each call.
#[inline(never)]
fn has_wide_row(alloc: Global, text: &[u8]) -> Result<bool, OutOfMemory>
    ensures { IfOk result (λ wide. wide ≡ true → has_wide (rows_of text.now) ≡ true) }
{
    let mut reader = rows_reader(alloc, text);
    let mut row = ByteRecord::new(alloc);
    for _ in 0..PAGE_LIMIT + 2 {
        let found = next_row(&mut reader, &mut row)?;
        if !found {
            return Ok(false);
        }
        if row.len() > PAGE_FIELDS {
            return Ok(true);
        }
    }
    Ok(false)
}

// The first front of a file that has a record of more than three fields, or the whole file. `csv` takes eight bytes of memory
// for each field of a record, so of a long file no more is read than shows such a fault. Where memory is refused for a
// front, the whole file is left to read, which then reports so.
#[tactic(auto, using(crate::proofs::Fronts::head_rows))]
pub(crate) fn judged_head(alloc: Global, file: &[u8]) -> &[u8]
    ensures { up_to_wide (rows_of result.now) ≡ up_to_wide (rows_of file.now) }
{
    for len in HEAD_LENGTHS {
        if len < file.len() && matches!(has_wide_row(alloc, &file[..len]), Ok(true)) {
            return &file[..len];
        }
    }
    file
}
