ghost use Rattle.std.specs.Prelude.{◌≡◌, ◌<◌, ◌≤◌, All, length, slice_index, slice_set, IfOk};
ghost use Rattle.pocsag_pages.specs.Pages.{IsGoodPage};
ghost use Rattle.pocsag_batch.specs.Chains.{AreChains};
ghost use Rattle.pocsag_batch.specs.Placement.{all_places};

use pocsag_pages::Page;
use pocsag_slots::{CLASSES, Class, class_of};
use pocsag_words::{End, OutOfMemory};
use std::alloc::Global;
use std::marker::Model;

// For each class the places of its pages, in order, each with the next one: `head` has the first place
// of a class, and `next` the place that comes after a place. Where a class has no place left they say
// nothing.
#[derive(Drop)]
pub(crate) struct Queues {
    next: Vec<u32>,
    head: [u32; CLASSES],
}

impl Model for Queues {
    ghost use Rattle.pocsag_batch.specs.Chains.{Links};

    ghost Value = { Links };

    ghost view = { λ q. record { next = q.next.items; head = q.head } };
}

impl Queues {
    // The queues of all places.
    pub(crate) fn new(alloc: Global, pages: &[Page], end: End) -> Result<Queues, OutOfMemory>
        requires few { length pages.now ≤ 20000 }
        requires good { All IsGoodPage pages.now }
        ensures { IfOk result (λ q. AreChains end pages.now q (all_places pages.now)) }
    {
        let mut next = vec![in alloc; 0; pages.len()]?;
        let mut head = [0; CLASSES];
        let mut place = pages.len();
        while place > 0 {
            place -= 1;
            let class = class_of(&pages[place], end).number as usize;
            next[place] = head[class];
            head[class] = place as u32;
        }
        Ok(Queues { next, head })
    }

    // Takes the first place of the class.
    pub(crate) fn take(&mut self, class: Class) -> u32
        requires long { length self.old.head ≡ 136 }
        requires some { slice_index self.old.head class.number < length self.old.next }
        ensures place { result ≡ slice_index self.old.head class.number }
        ensures next { self.new.next ≡ self.old.next }
        ensures head { self.new.head ≡ slice_set self.old.head class.number (slice_index self.old.next result) }
    {
        let place = self.head[class.number as usize];
        self.head[class.number as usize] = self.next[place as usize];
        place
    }
}
