ghost use Rattle.std.specs.Prelude.{ℕ, List, All, map};
ghost use Rattle.pocsag_pages.specs.Listable.{IsListable};
ghost use Rattle.pocsag_pages.specs.declared.page.Page.{Page};
ghost use Rattle.pocsag_decode.specs.Faults.{ReadsAs};
ghost use Rattle.pocsag_decode.specs.Lines.{IsReady, PutsRow, text_in};
ghost use Rattle.pocsag_show.specs.Judged.{IsJudged, kinds_read};
ghost use Rattle.pocsag_show.specs.PlacedReaders.{placed_left};
ghost use Rattle.pocsag_show.specs.Places.{place_listing, place_record, place_rows};
ghost use Rattle.pocsag_show.specs.Emission.{Emits, EmitsAll};

use crate::emission::emit_rest;
use crate::fault::ShowFault;
use crate::judged::Judged;
use crate::placed::Placed;
use crate::placement::PlacedReader;
use csv::Writer;
use itoa::Buffer;
use pocsag_decode::{kind_of_page, message_of, write_many_records};
use pocsag_words::{BATCH_CODEWORDS, Sink};
use std::alloc::{AllocError, Global};

// Writes one record.
fn put_record(writer: &mut Writer<Vec<u8>>, fields: &[&[u8]; 7]) -> Result<(), AllocError>
    requires { IsReady writer.old }
    ensures { PutsRow result writer.old writer.new (map (λ field. field.now) fields.now) }
{
    writer.write_fields(fields).map_err(|_| AllocError)
}

// Writes the record of a page.
fn put_place(alloc: Global, writer: &mut Writer<Vec<u8>>, placed: &Placed) -> Result<(), AllocError>
    requires ready { IsReady writer.old }
    requires listable { IsListable placed.now.page }
    ensures { PutsRow result writer.old writer.new (place_record placed.now) }
{
    let page = &placed.page;
    let items = page.payload.as_slice();
    let message = message_of(alloc, page.function, items).map_err(|_| AllocError)?;
    let (mut batch, mut frame, mut slot) = (Buffer::new(), Buffer::new(), Buffer::new());
    let (mut codewords, mut address) = (Buffer::new(), Buffer::new());
    let fields = [
        batch.format(placed.start / BATCH_CODEWORDS + 1).as_bytes(),
        frame.format(placed.start % BATCH_CODEWORDS / 2).as_bytes(),
        slot.format(placed.start % BATCH_CODEWORDS).as_bytes(),
        codewords.format(1 + items.len()).as_bytes(),
        address.format(page.address).as_bytes(),
        kind_of_page(page.function, items),
        message.as_slice(),
    ];
    put_record(writer, &fields)
}

// Writes the record of each page.
fn emit_places<S: Sink>(
    alloc: Global,
    writer: &mut Writer<Vec<u8>>,
    sink: &mut S,
    pages: &mut PlacedReader<'_>,
) -> Result<(), ShowFault>
    requires ready { IsReady writer.old }
    requires listable { All (λ pl. IsListable pl.page) (placed_left pages.old) }
    ensures { Emits S.Sink result sink.old sink.new (text_in writer.old) (text_in writer.new)
        (place_rows (placed_left pages.old)) }
{
    while let Some(placed) = pages.next_placed()? {
        put_place(alloc, writer, &placed)?;
        write_many_records(alloc, writer, sink)?;
    }
    Ok(())
}

/// Writes the listing of a transmission that was judged.
pub(crate) fn emit_listing<S: Sink>(
    alloc: Global,
    judged: &Judged<'_>,
    sink: &mut S,
) -> Result<(), ShowFault>
    requires { (ps : List Page) × ReadsAs judged.now.bytes.now ps }
    ensures { (X : List ℕ) (j : IsJudged X judged.now) → EmitsAll S.Sink result sink.old sink.new
        (place_listing (kinds_read j.reading) j.pages) }
{
    let mut writer = Writer::from_writer(Vec::new(alloc));
    let header: [&[u8]; 7] = [
        b"batch",
        b"frame",
        b"slot",
        b"codewords",
        b"address",
        b"kind",
        b"message",
    ];
    put_record(&mut writer, &header)?;
    let mut pages = PlacedReader::new(alloc, judged.bytes, &judged.numbers);
    emit_places(alloc, &mut writer, sink, &mut pages)?;
    let Ok(text) = writer.into_inner() else {
        return Err(ShowFault::OutOfMemory);
    };
    emit_rest(text.as_slice(), sink)
}
