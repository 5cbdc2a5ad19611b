ghost use Rattle.std.specs.Prelude.{◌≡◌, ◌≢◌, ◌⊎◌, IfErr, IfOk};
ghost use Rattle.csv.specs.Writing.{default_writer, row_text};
ghost use Rattle.pocsag_pages.specs.Listable.{IsListable};
ghost use Rattle.pocsag_decode.specs.PageFiles.{page_record};
ghost use Rattle.pocsag_c.specs.Answers.{PrintsFault};
ghost use Rattle.pocsag_c.specs.Listings.{HasNoRoom, IsListed};
ghost use Rattle.pocsag_c.specs.Records.{ExplainsNoRecord, IsRecordOf, word_of_kind};
ghost use Rattle.pocsag_c.specs.Statuses.{IsOfBytes, nowhere, page_refusal};

use crate::buffer::hand_out_text;
use crate::refusal::{Place, refused_record};
use csv::Writer;
use itoa::Buffer;
use pocsag_decode::{
    kind_of_page, recall_page_files_are_read_back, recall_pages_of_files_are_spellable,
    whole_message,
};
use pocsag_pages::{FieldFault, Page, RecordFault, page_of_fields};
use std::alloc::Global;

// The kind of a number, as a page file spells it.
fn word_of_kind(number: u32) -> &'static [u8]
    ensures { result.now ≡ word_of_kind number }
{
    match number {
        0 => b"tone0",
        1 => b"tone1",
        2 => b"tone2",
        3 => b"tone3",
        4 => b"numeric",
        5 => b"alpha",
        _ => b"",
    }
}

// The record of a page, as a page file has it.
fn record_text(alloc: Global, page: &Page) -> Result<Vec<u8>, FieldFault>
    requires { IsListable page.now }
    ensures written { IfOk result (λ text. text.items ≡ row_text default_writer (page_record page.now)) }
    ensures memory { IfErr result (λ e. e ≡ FieldFault.OutOfMemory) }
{
    let items = page.payload.as_slice();
    let message = whole_message(alloc, page.function, items).map_err(|_| FieldFault::OutOfMemory)?;
    let mut digits = Buffer::new();
    let address = digits.format(page.address).as_bytes();
    let kind = kind_of_page(page.function, items);
    let mut writer = Writer::from_writer(Vec::new(alloc));
    writer
        .write_fields(&[address, kind, message.as_slice()])
        .map_err(|_| FieldFault::OutOfMemory)?;
    writer.into_inner().map_err(|_| FieldFault::OutOfMemory)
}

// The record of the page that an address, a kind and a message spell.
fn record_spelled(
    alloc: Global,
    address: u32,
    kind: u32,
    message: &[u8],
) -> Result<Vec<u8>, FieldFault>
    ensures written { IfOk result (λ text. IsRecordOf address kind message.now text.items) }
    ensures explained { IfErr result (ExplainsNoRecord address kind message.now) }
{
    recall_page_files_are_read_back();
    recall_pages_of_files_are_spellable();
    let mut digits = Buffer::new();
    let address = digits.format(address).as_bytes();
    let page = page_of_fields(alloc, address, word_of_kind(kind), message)?;
    record_text(alloc, &page)
}

/// Puts the record of a page, with its quotes and its line end, into a buffer: 0, or 10 where the buffer is too small. In both
/// cases `row_len` reports its length. Appended to a page file, it makes a page file of one page more.
#[unsafe(no_mangle)]
pub extern "C" fn pocsag_write_page(
    alloc: Global,
    address: u32,
    kind: u32,
    message: &[u8],
    row: &mut [u8],
    row_len: &mut usize,
    place: &mut Place,
) -> u32
    ensures written { result ≡ 0 →
        IsListed (IsRecordOf address kind message.now) row.old row.new row_len.new }
    ensures no_room { result ≡ 10 →
        HasNoRoom (IsRecordOf address kind message.now) row.old row.new row_len.new }
    ensures fault { result ≢ 0 → result ≢ 10 →
        PrintsFault page_refusal (ExplainsNoRecord address kind message.now) result place.new }
    ensures placeless { (result ≡ 0) ⊎ (result ≡ 10) → place.new ≡ nowhere }
    ensures nothing { result ≢ 0 → result ≢ 10 → row_len.new ≡ 0 }
    ensures of_bytes { IsOfBytes result }
    ensures untouched { result ≢ 0 → row.new ≡ row.old }
{
    let made = record_spelled(alloc, address, kind, message).map_err(|fault| {
        refused_record(0, RecordFault::Field(fault))
    });
    hand_out_text(made, 10, row, row_len, place)
}
