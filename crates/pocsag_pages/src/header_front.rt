ghost use Rattle.std.specs.Prelude.{◌≡◌, false, IfOk};
ghost use Rattle.pocsag_pages.specs.HeaderFronts.{header_front, starts_with_header};
ghost use Rattle.pocsag_pages.specs.PageFile.{rows_of};

use crate::csv_row::{next_row, rows_reader};
use crate::record::is_header_row;
use csv::ByteRecord;
use pocsag_words::OutOfMemory;
use std::alloc::Global;

// The bytes of a byte order mark.
const MARK_BYTES: usize = 3;

// More bytes than a header has: 18 letters, and 27 for commas, quotes and its end.
const HEADER_BYTES: usize = 64;

// The front of a file in which its header stands, if it has one. What stands in the place of a byte order mark is in the front.
fn header_front(file: &[u8]) -> &[u8]
    ensures { result.now ≡ header_front file.now }
{
    for end in MARK_BYTES.min(file.len())..file.len() {
        let byte = file[end];
        let ends_line = (byte == b'\r') | (byte == b'\n');
        if !ends_line {
            return &file[..(end + HEADER_BYTES).min(file.len())];
        }
    }
    file
}

// Whether the front of a file has the header, without which the file has none. `csv` keeps a record whole, so of a long file
// without the header no more is read than shows so. It stands apart since a reader is large, and room for it is cleared at each
// call.
#[inline(never)]
pub(crate) fn may_have_header(alloc: Global, file: &[u8]) -> Result<bool, OutOfMemory>
    ensures { IfOk result (λ has. has ≡ false → starts_with_header (rows_of file.now) ≡ false) }
{
    let mut reader = rows_reader(alloc, header_front(file));
    let mut row = ByteRecord::new(alloc);
    let found = next_row(&mut reader, &mut row)?;
    if !found {
        return Ok(false);
    }
    Ok(is_header_row(&row))
}
