ghost use Rattle.std.specs.Prelude.{◌≡◌, ℕ, ◌+◌, ◌*◌, ◌/◌, ◌<◌, List, length, map, IfOk};
ghost use Rattle.pocsag_words.specs.declared.codeword.Kind.{Kind};
ghost use Rattle.pocsag_words.specs.declared.ending.End.TheVariants.{Open};
ghost use Rattle.pocsag_words.specs.Kinds.{kind_of};
ghost use Rattle.pocsag_pages.specs.Reading.{IsLegalList};
ghost use Rattle.pocsag_batch.specs.FileOrder.{IsFileOrder, IsInFrame, IsLeastFrom, IsWhole};

use crate::batches::Batches;
use crate::word_list::WordList;
use pocsag_pages::Round;
use pocsag_slots::SLOTS;
use pocsag_words::OutOfMemory;
use std::alloc::Global;

// How many idles stand between an index and the next slot of the frame.
fn gap_to_frame(index: usize, frame: usize) -> usize
    requires { frame < 8 }
    ensures least { IsLeastFrom index (IsInFrame frame) (index + result) }
    ensures near { result < 16 }
{
    let slot = index % SLOTS;
    if slot / 2 == frame {
        0
    } else {
        (2 * frame + SLOTS - slot) % SLOTS
    }
}

// How many idles stand between an index and the end of its batch.
fn gap_to_whole(index: usize) -> usize
    ensures least { IsLeastFrom index IsWhole (index + result) }
    ensures near { result < 16 }
{
    (SLOTS - index % SLOTS) % SLOTS
}

/// How many batches the round takes in file order, at least one.
pub fn in_order_batches(round: &Round) -> u32
    ensures { (T : List Kind) → IsFileOrder round.now T → length T ≡ 16 * result }
{
    let mut index = 0;
    for page in round.pages() {
        index += gap_to_frame(index, (page.address % 8) as usize);
        index += 1 + page.payload.as_slice().len();
    }
    ((index + gap_to_whole(index)) / SLOTS) as u32
}

/// The round in file order: each page in the order of the round at the first place for it, idles
/// between, and idles to the end of the last batch.
pub fn lay_in_order(alloc: Global, round: &Round) -> Result<Batches, OutOfMemory>
    ensures order { IfOk result (λ T. IsFileOrder round.now (map kind_of T)) }
    ensures legal { IfOk result (λ T. IsLegalList Open T (length T / 16) round.now) }
{
    let mut words = WordList::new(alloc);
    for page in round.pages() {
        words.push_idles(gap_to_frame(words.len(), (page.address % 8) as usize))?;
        words.push_page(page)?;
    }
    words.push_idles(gap_to_whole(words.len()))?;
    Ok(Batches::new(words))
}
