ghost use Rattle.std.specs.Prelude.{◌≡◌, ℕ, ◌<◌, List, map, All, IfOk};
ghost use Rattle.pocsag_words.specs.Codeword.{IsCodeword};
ghost use Rattle.pocsag_words.specs.Kinds.{kind_of};
ghost use Rattle.pocsag_pages.specs.Reading.{IsLegalList};
ghost use Rattle.pocsag_slots.specs.declared.class.Classes.{Classes};
ghost use Rattle.pocsag_slots.specs.Loads.{AreClassesOf};
ghost use Rattle.pocsag_slots.specs.Tours.{IsTour, IsTourFor};
ghost use Rattle.pocsag_slots.specs.Layout.{laid};
ghost use Rattle.pocsag_batch.specs.Placement.{IsOrder, laid_by};

use crate::batches::Batches;
use crate::page_order::order_of;
use crate::slots::Slots;
use crate::word_list::WordList;
use pocsag_pages::Round;
use pocsag_slots::Step;
use pocsag_words::{End, OutOfMemory};
use std::alloc::Global;

/// The layout of a tour for the round and the end: the codewords of its steps in order. The pages of a
/// class are taken in the order of the round.
pub fn lay_out(
    alloc: Global,
    round: &Round,
    steps: &[Step],
    end: End,
) -> Result<Batches, OutOfMemory>
    requires { IsTourFor end round.now steps.now }
    ensures legal { IfOk result (λ T. (k : Classes) (choice : ℕ → ℕ) (b : ℕ) → 0 < b → AreClassesOf k end round.now →
        IsTour k end choice b steps.now → IsLegalList end T b round.now) }
    ensures order { IfOk result (λ T. (order : List ℕ) → IsOrder end round.now steps.now order →
        map kind_of T ≡ laid_by round.now order steps.now) }
    ensures first { IfOk result (λ T. map kind_of T ≡ laid end round.now steps.now) }
{
    let order = order_of(alloc, round, steps, end)?;
    let words = collect(alloc, Slots::new(round, steps, &order))?;
    Ok(Batches::new(words))
}

// The codewords in a list.
fn collect(alloc: Global, slots: Slots<'_>) -> Result<WordList, OutOfMemory>
    ensures same { IfOk result (λ words. map kind_of words ≡ slots.entry) }
    ensures codewords { IfOk result (All IsCodeword) }
{
    let mut words = WordList::new(alloc);
    for word in slots {
        words.push(word)?;
    }
    Ok(words)
}
