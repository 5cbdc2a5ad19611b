//! Page files: rounds, and queues, in which several pages may be for one address.
ghost use Rattle.std.specs.Prelude.{◌≡◌, false, true, ◌+◌, ◌<◌, ◌≤◌, ◌⊎◌, ◌∷◌, ◌++◌, [], None, Some, length, IfOk, IfErr, IsOk, OnOk};
ghost use Rattle.csv.specs.Records.{fields_of};
ghost use Rattle.pocsag_words.specs.Devices.{HasFailed, IsOfCut};
ghost use Rattle.pocsag_pages.specs.Pages.{AreGood, page_fault_of, page_limit};
ghost use Rattle.pocsag_pages.specs.PageFile.{fault_after, held_pages, numbered, page_of, pages_of, pages_of_rows, verdict};
ghost use Rattle.pocsag_pages.specs.Queues.{IsQueue, queue_verdict};

use crate::fault::{FieldFault, RecordFault, RoundFault};
use crate::header_front::may_have_header;
use crate::page::Page;
use crate::record::{is_header_row, page_of_row};
use crate::round::{PAGE_LIMIT, Round};
use crate::round_builder::RoundBuilder;
use crate::row_reader::RowReader;
use crate::whole::read_whole;
use csv::ByteRecord;
use pocsag_words::{INPUT_LIMIT, OutOfMemory, Source};
use std::alloc::Global;

/// The greatest number of bytes of a page file.
pub const FILE_LIMIT: usize = INPUT_LIMIT;

// The most bytes of a file whose header is not sought before its records are read: each reader makes tables.
const SHORT_FILE: usize = 1 << 20;

// The pages so far, one for each of the earlier records, and that of one record more.
fn with_row(
    alloc: Global,
    builder: RoundBuilder,
    earlier: u32,
    row: &ByteRecord,
) -> Result<RoundBuilder, RecordFault>
    ensures fine { IfOk result (λ d. fault_after earlier builder (page_of (fields_of row.now)) ≡ None) }
    ensures longer { IfOk result (λ d. d ≡ builder ++ pages_of (fields_of row.now ∷ [])) }
    ensures one { IfOk result (λ d. length d ≡ length builder + 1) }
    ensures few { IfOk result (λ d. earlier + 1 ≤ page_limit) }
    ensures err { IfErr result
        (λ e. (e ≡ RecordFault.Field FieldFault.OutOfMemory)
        ⊎ (fault_after earlier builder (page_of (fields_of row.now)) ≡ Some e)) }

    // Memory is wanted only by a record that is a page.
    ensures memory { result ≡ Err (RecordFault.Field FieldFault.OutOfMemory) → IsOk (page_of (fields_of row.now)) }
{
    let page = page_of_row(alloc, row)?;
    if earlier as usize >= PAGE_LIMIT {
        return Err(if builder.has(page.address) {
            RecordFault::DuplicateAddress
        } else {
            RecordFault::TooManyPages
        });
    }
    match builder.with(page) {
        Ok(Some(longer)) => Ok(longer),
        Ok(None) => Err(RecordFault::DuplicateAddress),
        Err(OutOfMemory) => Err(RecordFault::Field(FieldFault::OutOfMemory)),
    }
}

// The round of the records that the reader has left.
fn judge_rows(alloc: Global, reader: &mut RowReader<'_>) -> Result<Round, RoundFault>
    ensures ok { IfOk result (λ r. pages_of_rows false reader.old ≡ Ok r) }
    ensures err { IfErr result
        (λ e. (e ≡ RoundFault.OutOfMemory) ⊎ (pages_of_rows false reader.old ≡ Err e)) }
{
    let mut builder = RoundBuilder::new(alloc);
    let mut row = ByteRecord::new(alloc);
    let mut earlier = 0;
    loop {
        let found = reader.read(&mut row)?;
        if !found {
            return builder.into_round();
        }
        builder = match with_row(alloc, builder, earlier, &row) {
            Ok(longer) => longer,
            Err(fault) => return Err(fault.numbered(earlier + 1)),
        };
        earlier += 1;
    }
}

// The page of a record that follows so many, or its fault.
fn queue_page(alloc: Global, earlier: usize, row: &ByteRecord) -> Result<Page, RoundFault>
    requires { earlier ≤ page_limit }
    ensures few { IfOk result (λ p. earlier < page_limit) }
    ensures page { IfOk result (λ p. page_of (fields_of row.now) ≡ Ok p) }
    ensures good { IfOk result (λ p. page_fault_of p ≡ None) }
    ensures err { IfErr result (λ e. (e ≡ RoundFault.OutOfMemory)
        ⊎ ((f : RecordFault) × (fault_after earlier [] (page_of (fields_of row.now)) ≡ Some f)
        × (e ≡ numbered (earlier + 1) f))) }
{
    let number = earlier as u32 + 1;
    match page_of_row(alloc, row) {
        Ok(_) if earlier >= PAGE_LIMIT => {
            Err(RoundFault::Record(number, RecordFault::TooManyPages))
        }
        Ok(page) => Ok(page),
        Err(fault) => Err(fault.numbered(number)),
    }
}

// The pages of the records that the reader has left.
fn queue_rows(alloc: Global, reader: &mut RowReader<'_>) -> Result<Vec<Page>, RoundFault>
    ensures ok { IfOk result (λ q. pages_of_rows true reader.old ≡ Ok q.items) }
    ensures queue { IfOk result (λ q. IsQueue q.items) }
    ensures err { IfErr result (λ e. (e ≡ RoundFault.OutOfMemory) ⊎ (pages_of_rows true reader.old ≡ Err e)) }
{
    let mut pages = Vec::new(alloc);
    let mut row = ByteRecord::new(alloc);
    loop {
        let found = reader.read(&mut row)?;
        if !found {
            if pages.is_empty() {
                return Err(RoundFault::NoPages);
            }
            return Ok(pages);
        }
        let page = match queue_page(alloc, pages.len(), &row) {
            Ok(page) => page,
            Err(fault) => return Err(fault),
        };
        if pages.push(page).is_err() {
            return Err(RoundFault::OutOfMemory);
        }
    }
}

// The records behind the header of the bytes of a page file, or the fault that these have before any. Where they are too many
// none of them is read.
fn rows_behind_header(alloc: Global, bytes: &[u8]) -> Result<RowReader<'_>, RoundFault>
    ensures round { IfOk result (λ rows. verdict bytes.now ≡ pages_of_rows false rows) }
    ensures queue { IfOk result (λ rows. queue_verdict bytes.now ≡ pages_of_rows true rows) }
    ensures err { IfErr result (λ e. (e ≡ RoundFault.OutOfMemory)
        ⊎ ((verdict bytes.now ≡ Err e) × (queue_verdict bytes.now ≡ Err e))) }
{
    if bytes.len() > FILE_LIMIT {
        return Err(RoundFault::TooLarge);
    }
    if bytes.len() > SHORT_FILE {
        let may_have = may_have_header(alloc, bytes)?;
        if !may_have {
            return Err(RoundFault::BadHeader);
        }
    }
    let mut reader = RowReader::of(alloc, bytes);
    let mut row = ByteRecord::new(alloc);
    let found = reader.read(&mut row)?;
    if !found {
        return Err(RoundFault::BadHeader);
    }
    if !is_header_row(&row) {
        return Err(RoundFault::BadHeader);
    }
    Ok(reader)
}

/// The round of the bytes of a page file, or their first fault. Where they are too many none of them is read.
pub fn round_of(alloc: Global, bytes: &[u8]) -> Result<Round, RoundFault>
    ensures ok { IfOk result (λ r. verdict bytes.now ≡ Ok r) }
    ensures err { IfErr result (λ e. (e ≡ RoundFault.OutOfMemory) ⊎ (verdict bytes.now ≡ Err e)) }
{
    let mut reader = rows_behind_header(alloc, bytes)?;
    judge_rows(alloc, &mut reader)
}

/// The pages of the bytes of a page file, or their first fault. Where pages may wait for earlier ones of their address, an
/// address may come again; each record is judged all the same.
pub fn held_pages(alloc: Global, may_wait: bool, bytes: &[u8]) -> Result<Vec<Page>, RoundFault>
    ensures ok { IfOk result (λ q. held_pages may_wait bytes.now ≡ Ok q.items) }
    ensures queue { IfOk result (λ q. IsQueue q.items) }
    ensures apart { may_wait ≡ false → IfOk result (λ q. AreGood q.items) }
    ensures err { IfErr result (λ e. (e ≡ RoundFault.OutOfMemory) ⊎ (held_pages may_wait bytes.now ≡ Err e)) }
{
    if may_wait {
        let mut reader = rows_behind_header(alloc, bytes)?;
        return queue_rows(alloc, &mut reader);
    }
    match round_of(alloc, bytes) {
        Ok(round) => Ok(round.into_pages()),
        Err(fault) => Err(fault),
    }
}

/// The pages of the page file that a reader holds up to its end, or the file's first fault, as `held_pages` gives them. What the
/// reader lends is judged where it stands, and taken away once it has given the pages.
pub fn read_pages<S: Source>(
    alloc: Global,
    may_wait: bool,
    source: &mut S,
) -> Result<Vec<Page>, RoundFault>
    ensures ok { S.is_known → IfOk result (λ q. held_pages may_wait (S.held source.old) ≡ Ok q.items) }
    ensures queue { IfOk result (λ q. IsQueue q.items) }
    ensures apart { may_wait ≡ false → IfOk result (λ q. AreGood q.items) }
    ensures err { S.is_known → IfErr result
        (λ e. (e ≡ RoundFault.OutOfMemory) ⊎ (e ≡ RoundFault.ReadFault)
        ⊎ (held_pages may_wait (S.held source.old) ≡ Err e)) }
    ensures uncut { S.is_known → OnOk result (S.is_cut source.old ≡ false) }
    ensures cut { S.is_known → IfErr result (IsOfCut RoundFault.ReadFault RoundFault.TooLarge (S.is_cut source.old)) }
    ensures succeeded { OnOk result (S.failures source.new ≡ S.failures source.old) }
    ensures unfailed { IfErr result
        (λ e. (e ≡ RoundFault.ReadFault) ⊎ (S.failures source.new ≡ S.failures source.old)) }
    ensures failed { result ≡ Err RoundFault.ReadFault → HasFailed (S.failures source.old) (S.failures source.new) }
{
    let Some(bytes) = source.lent() else {
        let bytes = read_whole(alloc, source, FILE_LIMIT)?;
        return held_pages(alloc, may_wait, bytes.as_slice());
    };
    match held_pages(alloc, may_wait, bytes) {
        Ok(queue) => {
            source.take_all();
            Ok(queue)
        }
        Err(fault) => Err(fault),
    }
}

/// The round of the page file that a reader holds up to its end, or the file's first fault. What the reader lends is judged where
/// it stands, and taken away once it has given the round.
pub fn read_round<S: Source>(alloc: Global, source: &mut S) -> Result<Round, RoundFault>
    ensures ok { S.is_known → IfOk result (λ r. verdict (S.held source.old) ≡ Ok r) }
    ensures err { S.is_known → IfErr result
        (λ e. (e ≡ RoundFault.OutOfMemory) ⊎ (e ≡ RoundFault.ReadFault) ⊎ (verdict (S.held source.old) ≡ Err e)) }
    ensures uncut { S.is_known → OnOk result (S.is_cut source.old ≡ false) }
    ensures cut { S.is_known → IfErr result (IsOfCut RoundFault.ReadFault RoundFault.TooLarge (S.is_cut source.old)) }
    ensures succeeded { OnOk result (S.failures source.new ≡ S.failures source.old) }
    ensures unfailed { IfErr result
        (λ e. (e ≡ RoundFault.ReadFault) ⊎ (S.failures source.new ≡ S.failures source.old)) }
    ensures failed { result ≡ Err RoundFault.ReadFault → HasFailed (S.failures source.old) (S.failures source.new) }
{
    match read_pages(alloc, false, source) {
        Ok(pages) => Ok(Round::of(pages)),
        Err(fault) => Err(fault),
    }
}
