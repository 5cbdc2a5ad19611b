//! Listings that are written as the codewords are read.
ghost use Rattle.std.specs.Prelude.{◌≡◌, ℕ, ◌+◌, ◌*◌, ◌%◌, ◌^◌, ◌<◌, ◌≤◌, ◌∷◌, ◌++◌, [], None, Some, List, All, Err, IfOk, OnErr, OnOk, length, map};
ghost use Rattle.csv.specs.Writing.{default_writer, row_text};
ghost use Rattle.pocsag_words.specs.Devices.{TookPrefix};
ghost use Rattle.pocsag_words.specs.Kinds.{IsInRange, kind_of};
ghost use Rattle.pocsag_words.specs.declared.codeword.Kind.{Kind};
ghost use Rattle.pocsag_pages.specs.declared.page.Page.{Page};
ghost use Rattle.pocsag_pages.specs.Bytes.{unsynced, words_of};
ghost use Rattle.pocsag_pages.specs.Listable.{IsListable};
ghost use Rattle.pocsag_pages.specs.Plain.{pages_from};
ghost use Rattle.pocsag_pages.specs.Reading.{frame_at};
ghost use Rattle.pocsag_decode.specs.Faults.{ReadsAs, NamesFailures};
ghost use Rattle.pocsag_decode.specs.OpenPages.{closed, resumed};
ghost use Rattle.pocsag_decode.specs.Lines.{IsReady, text_in};
ghost use Rattle.pocsag_decode.specs.Listers.{CanList, rows_of_pages, still_listed};
ghost use Rattle.pocsag_decode.specs.Listing.{header, listing};

use crate::fault::ListFault;
use crate::judge::IDLE_BATCH;
use crate::listing::{begin_listing, put_spent, write_many_records, write_records};
use crate::open_page::OpenPage;
use csv::Writer;
use pocsag_pages::{Page, Payload, preamble_len};
use pocsag_words::{BATCH_BYTES, Kind, Sink, kind_of_number};
use std::alloc::{AllocError, Global};
use std::mem;

// The records that are not written out yet, and the page that a message codeword would continue.
#[derive(Drop)]
pub(crate) struct Lister {
    alloc: Global,
    records: Writer<Vec<u8>>,
    current: Option<OpenPage>,
    // Room for the items of the next page.
    room: Vec<u32>,
}

impl Lister {
    // Takes one codeword more, which stands in this frame. A message codeword where no page is open is passed over.
    fn take(&mut self, frame: u32, kind: Kind) -> Result<(), AllocError>
        requires can { CanList self.old }
        requires ranges { IsInRange kind }
        requires frame { frame < 8 }
        ensures can { OnOk result (CanList self.new) }
        ensures grown { OnOk result (length (text_in self.old.records) ≤ length (text_in self.new.records)) }
        ensures reads { OnOk result ((i : ℕ) (ks : List Kind) → frame ≡ frame_at i →
            still_listed self.old i (kind ∷ ks) ≡ still_listed self.new (i + 1) ks) }
    {
        match kind {
            Kind::Idle => self.close(),
            Kind::Address { high, function } => {
                self.close()?;
                let mut items = mem::replace(&mut self.room, Vec::new(self.alloc));
                items.clear();
                self.current = Some(OpenPage {
                    address: 8 * high + frame,
                    function,
                    items,
                });
                Ok(())
            }
            Kind::Message(bits) => match &mut self.current {
                Some(page) => Ok(page.items.push(bits)?),
                None => Ok(()),
            },
        }
    }

    // Puts the record of the open page behind the others.
    fn close(&mut self) -> Result<(), AllocError>
        requires can { CanList self.old }
        ensures can { OnOk result (CanList self.new) }
        ensures current { OnOk result (self.new.current ≡ None) }
        ensures text { OnOk result
            (text_in self.new.records ≡ text_in self.old.records ++ rows_of_pages (closed self.old.current)) }
    {
        let Some(open) = self.current.take() else {
            return Ok(());
        };
        let OpenPage {
            address,
            function,
            items,
        } = open;
        let page = Page {
            address,
            function,
            payload: Payload::from_vec(items),
        };
        self.room = put_spent(self.alloc, &mut self.records, page)?;
        Ok(())
    }

    // Takes a batch.
    fn take_batch(&mut self, batch: &[u8]) -> Result<(), AllocError>
        requires can { CanList self.old }
        requires long { length batch.now ≡ 68 }
        ensures can { OnOk result (CanList self.new) }
        ensures grown { OnOk result (length (text_in self.old.records) ≤ length (text_in self.new.records)) }
        ensures reads { OnOk result ((i j : ℕ) (ks : List Kind) → i % 16 ≡ 0 → j % 17 ≡ 0 →
            still_listed self.old i (map kind_of (unsynced j (words_of batch.now)) ++ ks)
            ≡ still_listed self.new (i + 16) ks) }
    {
        if batch == IDLE_BATCH.as_slice() {
            self.close()?;
            return Ok(());
        }
        let (_, codewords) = batch.split_at(4);
        let (words, _) = codewords.as_chunks::<4>();
        let mut slot = 0;
        for word in words {
            self.take(slot / 2, kind_of_number(u32::from_be_bytes(*word)))?;
            slot += 1;
        }
        Ok(())
    }
}

// Lists the codewords of whole batches.
fn list_batches<S: Sink>(lister: &mut Lister, bytes: &[u8], sink: &mut S) -> Result<(), ListFault>
    requires can { CanList lister.old }
    requires fresh { lister.old.current ≡ None }
    requires begun { text_in lister.old.records ≡ row_text default_writer header }
    requires long { length bytes.now % 68 ≡ 0 }
    ensures whole { S.is_known → OnOk result (S.taken sink.new
        ≡ S.taken sink.old ++ listing (pages_from 0 (map kind_of (unsynced 0 (words_of bytes.now))))) }
    ensures part { S.is_known → OnErr result (TookPrefix (S.taken sink.old) (S.taken sink.new)
        (listing (pages_from 0 (map kind_of (unsynced 0 (words_of bytes.now)))))) }
    ensures stopped { S.is_known → result ≡ Err ListFault.OutOfMemory → length (S.taken sink.new)
        < length (S.taken sink.old) + length (listing (pages_from 0 (map kind_of (unsynced 0 (words_of bytes.now))))) }
    ensures failures { NamesFailures result ListFault.WriteFault (S.failures sink.old) (S.failures sink.new) }
{
    for i in 0..bytes.len() / BATCH_BYTES {
        let start = BATCH_BYTES * i;
        lister.take_batch(&bytes[start..start + BATCH_BYTES])?;
        write_many_records(lister.alloc, &mut lister.records, sink)?;
    }
    lister.close()?;
    write_records(lister.alloc, &mut lister.records, sink)
}

/// Writes the listing of the pages that the bytes of a transmission read as, as `list` does, but as they are read: no more than
/// one page is held, and records up to 1,048,576 bytes beside its own. After a fault a prefix was written; if memory was refused,
/// it is not all. Nothing is promised of bytes that have a fault, which `judge_bytes` finds before.
pub fn list_sent<S: Sink>(alloc: Global, bytes: &[u8], sink: &mut S) -> Result<(), ListFault>
    ensures whole { S.is_known → OnOk result ((pages : List Page) → ReadsAs bytes.now pages →
        S.taken sink.new ≡ S.taken sink.old ++ listing pages) }
    ensures part { S.is_known → OnErr result ((pages : List Page) → ReadsAs bytes.now pages →
        TookPrefix (S.taken sink.old) (S.taken sink.new) (listing pages)) }
    ensures stopped { S.is_known → result ≡ Err ListFault.OutOfMemory → (pages : List Page) → ReadsAs bytes.now pages →
        length (S.taken sink.new) < length (S.taken sink.old) + length (listing pages) }

    // A device's fault is answered only where that device failed.
    ensures failures { NamesFailures result ListFault.WriteFault (S.failures sink.old) (S.failures sink.new) }
{
    let (_, rest) = bytes.split_at(preamble_len(bytes));
    let len = rest.len() / BATCH_BYTES * BATCH_BYTES;
    let mut lister = Lister {
        alloc,
        records: begin_listing(alloc)?,
        current: None,
        room: Vec::new(alloc),
    };
    list_batches(&mut lister, &rest[..len], sink)
}

// Lists the pages behind the record of the names.
fn put_all<S: Sink>(
    alloc: Global,
    records: &mut Writer<Vec<u8>>,
    pages: Vec<Page>,
    sink: &mut S,
) -> Result<(), ListFault>
    requires ready { IsReady records.old }
    requires begun { text_in records.old ≡ row_text default_writer header }
    requires listable { All IsListable pages.items }
    ensures whole { S.is_known → OnOk result (S.taken sink.new ≡ S.taken sink.old ++ listing pages.items) }
    ensures part { S.is_known → OnErr result (TookPrefix (S.taken sink.old) (S.taken sink.new) (listing pages.items)) }
    ensures stopped { S.is_known → result ≡ Err ListFault.OutOfMemory →
        length (S.taken sink.new) < length (S.taken sink.old) + length (listing pages.items) }
    ensures failures { NamesFailures result ListFault.WriteFault (S.failures sink.old) (S.failures sink.new) }
{
    for page in pages {
        put_spent(alloc, records, page)?;
        write_many_records(alloc, records, sink)?;
    }
    write_records(alloc, records, sink)
}

/// Writes the listing of the pages, as `list` does, but each page is let go as its record is made. After a fault a prefix
/// was written, which is not all where memory was refused.
pub fn list_owned<S: Sink>(alloc: Global, pages: Vec<Page>, sink: &mut S) -> Result<(), ListFault>
    requires { All IsListable pages.items }
    ensures whole { S.is_known → OnOk result (S.taken sink.new ≡ S.taken sink.old ++ listing pages.items) }
    ensures part { S.is_known → OnErr result (TookPrefix (S.taken sink.old) (S.taken sink.new) (listing pages.items)) }
    ensures stopped { S.is_known → result ≡ Err ListFault.OutOfMemory →
        length (S.taken sink.new) < length (S.taken sink.old) + length (listing pages.items) }

    // A device's fault is answered only where that device failed.
    ensures failures { NamesFailures result ListFault.WriteFault (S.failures sink.old) (S.failures sink.new) }
{
    let mut records = begin_listing(alloc)?;
    put_all(alloc, &mut records, pages, sink)
}
