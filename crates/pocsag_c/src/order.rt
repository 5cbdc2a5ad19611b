ghost use Rattle.std.specs.Prelude.{◌≡◌, ◌≢◌, ◌⊎◌, IfErr, IfOk};
ghost use Rattle.pocsag_plan.specs.Verdicts.{ExplainsRound};
ghost use Rattle.pocsag_c.specs.Answers.{PrintsFault};
ghost use Rattle.pocsag_c.specs.Listings.{HasNoRoom, IsListed};
ghost use Rattle.pocsag_c.specs.Orders.{IsInFileOrder};
ghost use Rattle.pocsag_c.specs.Statuses.{IsOfBytes, IsRefusing, nowhere, round_refusal};

use crate::buffer::hand_out_text;
use crate::refusal::{Place, StatusAt, refused_round};
use pocsag_batch::{lay_in_order, write};
use pocsag_pages::{RoundFault, read_round};
use pocsag_words::{GrowingSink, SliceSource};
use std::alloc::Global;

// The transmission of a page file's round in file order.
fn text_in_order(alloc: Global, pages: &[u8]) -> Result<Vec<u8>, StatusAt>
    ensures laid { IfOk result (λ text. IsInFileOrder pages.now text.items) }
    ensures fault { IfErr result (λ r. PrintsFault round_refusal (ExplainsRound pages.now) r.status r.place) }
    ensures refusing { IfErr result (λ r. IsRefusing r.status) }
    ensures of_bytes { IfErr result (λ r. IsOfBytes r.status) }
{
    let round = read_round(alloc, &mut SliceSource::new(pages)).map_err(refused_round)?;
    let batches = lay_in_order(alloc, &round).map_err(|_| refused_round(RoundFault::OutOfMemory))?;
    let mut tx = GrowingSink::new(alloc);
    write(&batches, &mut tx).map_err(|_| refused_round(RoundFault::OutOfMemory))?;
    Ok(tx.into_bytes())
}

/// Puts the transmission of a page file into a buffer in which each page stands at the first place for it, in the order of the
/// file, with the open end: 0, or 7 where the buffer is too small. In both cases `tx_len` reports the length.
#[unsafe(no_mangle)]
pub extern "C" fn pocsag_lay_in_order(
    alloc: Global,
    pages: &[u8],
    tx: &mut [u8],
    tx_len: &mut usize,
    place: &mut Place,
) -> u32
    ensures laid { result ≡ 0 → IsListed (IsInFileOrder pages.now) tx.old tx.new tx_len.new }
    ensures no_room { result ≡ 7 → HasNoRoom (IsInFileOrder pages.now) tx.old tx.new tx_len.new }
    ensures fault { result ≢ 0 → result ≢ 7 →
        PrintsFault round_refusal (ExplainsRound pages.now) result place.new }
    ensures placeless { (result ≡ 0) ⊎ (result ≡ 7) → place.new ≡ nowhere }
    ensures nothing { result ≢ 0 → result ≢ 7 → tx_len.new ≡ 0 }
    ensures of_bytes { IsOfBytes result }
    ensures untouched { result ≢ 0 → tx.new ≡ tx.old }
{
    let laid = text_in_order(alloc, pages);
    hand_out_text(laid, 7, tx, tx_len, place)
}
