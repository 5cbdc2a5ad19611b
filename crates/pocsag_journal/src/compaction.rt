ghost use Rattle.std.specs.Prelude.{◌≡◌, All, IfErr, IfOk, IsFalse, IsTrue};
ghost use Rattle.csv.specs.Records.{fields_of};
ghost use Rattle.pocsag_pages.specs.Listable.{IsListable};
ghost use Rattle.pocsag_journal.specs.Faults.{ExplainsText, IsUnspelled};
ghost use Rattle.pocsag_journal.specs.Journals.{ListsPages, PutsLine, add_record};
ghost use Rattle.pocsag_journal.specs.PageLines.{HaveLines};

use crate::edit::edit_row;
use crate::fault::JournalFault;
use crate::lines::is_one_line;
use crate::text::{first_line, row_line};
use csv::ByteRecord;
use pocsag_decode::{kind_of_page, whole_message};
use pocsag_pages::Page;
use pocsag_plan::Book;
use pocsag_words::OutOfMemory;
use std::alloc::Global;

/// The text of a journal of these pages: a line `add` for each, in their order. It is refused for the first page with a
/// message that no line holds, as one with a line feed; pages that have lines are refused for want of memory alone.
pub fn text_of_pages(alloc: Global, pages: &[Page]) -> Result<Vec<u8>, JournalFault>
    requires { All IsListable pages.now }
    ensures listed { IfOk result (λ text. ListsPages text.items pages.now) }
    ensures explained { IfErr result (ExplainsText pages.now) }
    ensures lined { HaveLines pages.now → IfErr result (λ e. e ≡ JournalFault.OutOfMemory) }
{
    let Ok(mut text) = first_line().to_vec(alloc) else {
        return Err(JournalFault::OutOfMemory);
    };
    let mut book = Book::new(alloc);
    for (index, page) in pages.iter().enumerate() {
        let is_added = add_line(alloc, &mut text, &mut book, page)?;
        if !is_added {
            return Err(JournalFault::NoLine(index + 1));
        }
    }
    Ok(text)
}

// Adds a page to a round, and the line that adds it to a text, if there is such a line. Says whether there is.
fn add_line(
    alloc: Global,
    text: &mut Vec<u8>,
    book: &mut Book,
    page: &Page,
) -> Result<bool, OutOfMemory>
    requires { IsListable page.now }
    ensures added { IfOk result (λ is_added. IsTrue is_added →
        PutsLine text.old.items text.new.items book.old page.now book.new) }
    ensures none { IfOk result (λ is_added. IsFalse is_added → IsUnspelled book.old page.now) }
{
    let row = page_row(alloc, page)?;
    let line = row_line(alloc, &row)?;
    if !is_one_line(line.as_slice()) {
        return Ok(false);
    }
    match edit_row(alloc, book, &row) {
        Ok(()) => {}
        Err(refusal) if refusal.wants_memory() => return Err(OutOfMemory),
        Err(_) => return Ok(false),
    }
    let Some(last) = book.pages().last() else {
        return Ok(false);
    };
    if *last != *page {
        return Ok(false);
    }
    text.extend_from_slice(line.as_slice())?;
    Ok(true)
}

// The record that adds a page.
fn page_row(alloc: Global, page: &Page) -> Result<ByteRecord, OutOfMemory>
    requires { IsListable page.now }
    ensures { IfOk result (λ row. fields_of row ≡ add_record page.now) }
{
    let items = page.payload.as_slice();
    let address = format!(in alloc; "{}", page.address)?;
    let kind = kind_of_page(page.function, items);
    let message = whole_message(alloc, page.function, items)?;
    Ok(ByteRecord::from_fields(
        alloc,
        &[b"add", address.as_bytes(), kind, message.as_slice()],
    )?)
}
