ghost use Rattle.std.specs.Prelude.{◌≡◌, length};
ghost use Rattle.std.specs.Iterator.{YieldsFirstBy, item_count};
ghost use Rattle.pocsag_words.specs.Kinds.{kind_of};
ghost use Rattle.pocsag_batch.specs.Placement.{HavePlaces, laid_by};
ghost use Rattle.pocsag_batch.specs.Meanings.{IsSayable};

use crate::word_list::idle_word;
use pocsag_pages::{Page, Round};
use pocsag_slots::Step;
use pocsag_words::{Word, address_word, message_word};
use std::marker::Model;

/// An iterator over the codewords of a tour's layout, synchronisation codewords not among them: for an idle step the
/// idle codeword, for a run the codewords of its page. It takes no memory. Contracts see it as the list of what the
/// remaining codewords say.
#[derive(Drop)]
pub struct Slots<'a> {
    pages: &'a [Page],
    steps: &'a [Step],
    order: &'a [u32],
    // The items of the page that was begun last that are left.
    items: &'a [u32],
}

impl<'a> Model for Slots<'a> {
    ghost use Rattle.std.specs.Prelude.{◌<◌, ◌^◌, ◌++◌, All, List, length, map};
    ghost use Rattle.pocsag_words.specs.declared.codeword.Kind.{Kind};
    ghost use Rattle.pocsag_words.specs.declared.codeword.Kind.TheVariants.{Message};
    ghost use Rattle.pocsag_pages.specs.Pages.{IsGoodPage};
    ghost use Rattle.pocsag_batch.specs.Placement.{HavePlaces, laid_by};

    ghost Value = { List Kind };

    ghost view = { λ s. map Message s.items.now ++ laid_by s.pages.now s.order.now s.steps.now };

    ghost invariant = { λ s. All IsGoodPage s.pages.now × All (λ item. item < 2 ^ 20) s.items.now
        × HavePlaces (length s.pages.now) s.order.now s.steps.now };
}

impl<'a> Slots<'a> {
    /// The codewords of the steps, where the runs in order are the pages at these places of the round.
    /// For a tour of the round the places are those of `order_of`.
    pub fn new(round: &'a Round, steps: &'a [Step], order: &'a [u32]) -> Slots<'a>
        requires { HavePlaces (length round.now) order.now steps.now }
        ensures { result ≡ laid_by round.now order.now steps.now }
    {
        Slots {
            pages: round.pages(),
            steps,
            order,
            items: &[],
        }
    }

    // There are codewords that say this, by the types of pages and rounds.
    pub(crate) fn recall_sayable(&self)
        ensures { IsSayable self.now }
    {
        // A look inside makes known what the type keeps.
        let _ = self.pages.len();
    }
}

impl<'a> Iterator for Slots<'a> {
    type Item = Word;

    ghost next_gives = { YieldsFirstBy kind_of (λ left. left) };

    ghost remaining = { item_count (λ left. left) };

    fn next(&mut self) -> Option<Word> {
        if let Some((item, items)) = self.items.split_first() {
            self.items = items;
            return Some(message_word(*item));
        }
        let (step, steps) = self.steps.split_first()?;
        self.steps = steps;
        match step {
            Step::Idle => Some(idle_word()),
            Step::Run { .. } => {
                let page = &self.pages[self.order[0] as usize];
                self.order = &self.order[1..];
                self.items = page.payload.as_slice();
                Some(address_word(page.address / 8, page.function))
            }
        }
    }
}
