ghost use Rattle.std.specs.Prelude.{◌≡◌, IfErr, IfOk, OnErr, OnOk};
ghost use Rattle.csv.specs.Records.{fields_of};
ghost use Rattle.pocsag_journal.specs.Runs.{IsEdit, IsReasonFor, IsRefusedFor, sent_record};

use crate::editable::Editable;
use crate::edits::{Line, line_of, spelled_count};
use crate::refusal::Refusal;
use csv::ByteRecord;
use pocsag_pages::{page_of_fields, parse_address};
use pocsag_plan::{Book, NotThere};
use pocsag_words::OutOfMemory;
use std::alloc::Global;

/// Makes the edit of the round that a record is. It is refused if memory is refused, or if the record is no edit that
/// these pages accept. The round is then as it was.
pub fn edit_row(alloc: Global, book: &mut Book, row: &ByteRecord) -> Result<(), Refusal>
    ensures made { OnOk result (IsEdit (fields_of row.now) book.old book.new) }
    ensures refused { IfErr result (IsRefusedFor (fields_of row.now) book.old) }
    ensures reason { IfErr result (IsReasonFor (fields_of row.now) book.old) }
    ensures unchanged { OnErr result (book.new ≡ book.old) }
{
    edit_record(alloc, book, row)
}

/// Makes the edit that a record is of the pages, as `edit_row` does of a round.
pub(crate) fn edit_record<P: Editable>(
    alloc: Global,
    pages: &mut P,
    row: &ByteRecord,
) -> Result<(), Refusal>
    ensures made { OnOk result (IsEdit (fields_of row.now) (P.pages pages.old) (P.pages pages.new)) }
    ensures refused { IfErr result (IsRefusedFor (fields_of row.now) (P.pages pages.old)) }
    ensures reason { IfErr result (IsReasonFor (fields_of row.now) (P.pages pages.old)) }
    ensures unchanged { OnErr result (P.pages pages.new ≡ P.pages pages.old) }
{
    match line_of(row) {
        Line::Add {
            address,
            kind,
            message,
        } => match page_of_fields(alloc, address, kind, message) {
            Ok(page) => match pages.put(page) {
                Ok(()) => Ok(()),
                Err(fault) => Err(Refusal::Add(fault)),
            },
            Err(fault) => Err(Refusal::Field(fault)),
        },
        // What spells no address is that of no page.
        Line::Cancel { address: field } => {
            let Some(address) = parse_address(field) else {
                return Err(Refusal::Cancel(NotThere));
            };
            match pages.take_out(address) {
                Ok(_) => Ok(()),
                Err(absent) => Err(Refusal::Cancel(absent)),
            }
        }
        // What is no count is that of more pages than there are.
        Line::Sent { count: field } => match spelled_count(field) {
            Some(count) if count as usize <= pages.page_count() => {
                pages.take_first(count as usize);
                Ok(())
            }
            _ => Err(Refusal::Cancel(NotThere)),
        },
        Line::Clear => {
            pages.clear(alloc);
            Ok(())
        }
        _ => Err(Refusal::Unknown),
    }
}

/// The record of the edit that takes so many first pages out.
pub fn sent_row(alloc: Global, count: u32) -> Result<ByteRecord, OutOfMemory>
    ensures { IfOk result (λ row. fields_of row ≡ sent_record count) }
{
    let count = format!(in alloc; "{count}")?;
    Ok(ByteRecord::from_fields(alloc, &[b"sent", count.as_bytes()])?)
}
