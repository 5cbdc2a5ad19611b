ghost use Rattle.std.specs.Prelude.{◌≡◌, ◌≢◌, ◌⊎◌, ◌↔◌, Err, IfErr, IfOk, OnOk};
ghost use Rattle.pocsag_show.specs.Shows.{Explains, IsTextOf};
ghost use Rattle.pocsag_show.specs.Views.{view_text};
ghost use Rattle.pocsag_wav.specs.Sounds.{ReadsAsPages};
ghost use Rattle.pocsag_c.specs.Answers.{PrintsFault};
ghost use Rattle.pocsag_c.specs.Listings.{HasNoRoom, IsListed};
ghost use Rattle.pocsag_c.specs.Pictures.{AreBehindLast, AreNoRows, AreThere, IsBehindLastAs, IsNoPicture, IsNumberOfView, IsPictureAs};
ghost use Rattle.pocsag_c.specs.Readings.{IsNoReading, IsSoAsRead, IsUnreadOr, number_of_reading};
ghost use Rattle.pocsag_c.specs.Statuses.{IsOfBytes, IsRefusing, nowhere, show_refusal};

use crate::buffer::hand_out_text;
use crate::reading::{Reading, read_as, reading_of};
use crate::refusal::{NOWHERE, Place, StatusAt, plain, refused_show};
use pocsag_pages::preamble_len;
use pocsag_show::{Rows, View, show};
use pocsag_words::{BATCH_BYTES, GrowingSink};
use std::alloc::Global;

// The picture of a number, of the batches from one to another; or the status that says which of them is none.
fn view_of(form: u32, first: u64, last: u64) -> Result<View, u32>
    ensures view { IfOk result (IsNumberOfView form first last) }
    ensures form { result ≡ Err 58 ↔ IsNoPicture form }
    ensures rows { OnOk result (¬ AreNoRows first last) }
    ensures refused { IfErr result (λ status. status ≢ 58 → (status ≡ 57) × AreNoRows first last) }
{
    if form > 2 {
        return Err(58);
    }
    let Some(rows) = Rows::new(first, last) else {
        return Err(57);
    };
    Ok(match form {
        0 => View::Grid(rows),
        1 => View::Places,
        _ => View::Drawing(rows),
    })
}

// Batches of which a transmission does not have the first are refused.
fn refuse_batches(view: View, tx: &[u8]) -> Result<(), StatusAt>
    ensures there { OnOk result (AreThere view tx.now) }
    ensures behind { IfErr result (λ r. AreBehindLast view tx.now) }
    ensures status { IfErr result (λ r. (r.status ≡ 57) × (r.place ≡ nowhere)) }
{
    let Some(rows) = view.rows() else {
        return Ok(());
    };
    let (_, batches) = tx.split_at(preamble_len(tx));
    if rows.first <= (batches.len() / BATCH_BYTES) as u64 {
        return Ok(());
    }
    Err(plain(57))
}

fn text_shown(alloc: Global, reading: Reading, view: View, tx: &[u8]) -> Result<Vec<u8>, StatusAt>
    ensures shown { IfOk result (λ text. IsSoAsRead (number_of_reading reading) tx.now
        (λ bytes. IsTextOf (view_text view) bytes text.items × AreThere view bytes)) }
    ensures behind { IfErr result (λ r. r.status ≡ 57 → IsSoAsRead (number_of_reading reading) tx.now
        (λ bytes. AreBehindLast view bytes × ReadsAsPages bytes) × (r.place ≡ nowhere)) }
    ensures fault { IfErr result (λ r. r.status ≢ 57 → IsUnreadOr (number_of_reading reading) tx.now r.status r.place
        (λ bytes. PrintsFault show_refusal (Explains bytes) r.status r.place)) }
    ensures refusing { IfErr result (λ r. IsRefusing r.status) }
    ensures of_bytes { IfErr result (λ r. IsOfBytes r.status) }
{
    let read = read_as(alloc, reading, tx)?;
    let bytes = read.bytes();
    let mut text = GrowingSink::new(alloc);
    match show(alloc, view, bytes, &mut text) {
        Ok(()) => {
            refuse_batches(view, bytes)?;
            Ok(text.into_bytes())
        }
        Err(fault) => Err(refused_show(fault)),
    }
}

/// Puts a picture of a transmission into a buffer: 0, or 10 where the buffer is too small. In both cases `text_len` reports its
/// length. The reading is that of `pocsag_decode_as`; the form is 0 for a text with a letter for each codeword, 1 for the list
/// of where the pages stand and 2 for a drawing; 58 if one of them is none of 0, 1 and 2. Text and drawing show the batches
/// from `first` to `last`, counted from 1; 57 if `first` is 0 or above `last`, or if a transmission without other faults ends
/// before `first`.
#[unsafe(no_mangle)]
pub extern "C" fn pocsag_show(
    alloc: Global,
    reading: u32,
    tx: &[u8],
    form: u32,
    first: u64,
    last: u64,
    text: &mut [u8],
    text_len: &mut usize,
    place: &mut Place,
) -> u32
    ensures shown { result ≡ 0 →
        IsListed (IsPictureAs reading form first last tx.now) text.old text.new text_len.new }
    ensures no_room { result ≡ 10 →
        HasNoRoom (IsPictureAs reading form first last tx.now) text.old text.new text_len.new }
    ensures bad_form { result ≡ 58 ↔ IsNoReading reading ⊎ IsNoPicture form }
    ensures bad_rows { result ≡ 57 → AreNoRows first last ⊎ IsBehindLastAs reading form first last tx.now }
    ensures rows { AreNoRows first last → (result ≡ 58) ⊎ (result ≡ 57) }
    ensures fault { result ≢ 0 → result ≢ 10 → result ≢ 58 → result ≢ 57 →
        IsUnreadOr reading tx.now result place.new
        (λ bytes. PrintsFault show_refusal (Explains bytes) result place.new) }
    ensures placeless { (result ≡ 0) ⊎ (result ≡ 10) ⊎ (result ≡ 58) ⊎ (result ≡ 57) → place.new ≡ nowhere }
    ensures nothing { result ≢ 0 → result ≢ 10 → text_len.new ≡ 0 }
    ensures of_bytes { IsOfBytes result }
    ensures untouched { result ≢ 0 → text.new ≡ text.old }
{
    *text_len = 0;
    *place = NOWHERE;
    let Some(reading) = reading_of(reading) else {
        return 58;
    };
    let view = match view_of(form, first, last) {
        Ok(view) => view,
        Err(status) => return status,
    };
    let shown = text_shown(alloc, reading, view, tx);
    hand_out_text(shown, 10, text, text_len, place)
}
