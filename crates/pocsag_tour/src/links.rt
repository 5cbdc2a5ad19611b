ghost use Rattle.std.specs.Prelude.{◌≡◌, ◌+◌, ◌<◌, ◌≤◌, length, slice_index};
ghost use Rattle.pocsag_slots.specs.Loads.{IsChoice};
ghost use Rattle.pocsag_tour.specs.Links.{AddsLink, AreLinked, Follows, HaveIdles, HaveRuns};

use crate::outside::run_count;
use pocsag_slots::{
    CLASSES, Choice, Class, Classes, SLOTS, finish, holds, loads, start, with_member,
};

// Links the boundaries where the arc from one to the other is there.
fn link(links: &mut [u16; 16], there: bool, from: u8, to: u8)
    requires from { from < 16 }
    requires to { to < 16 }
    ensures { AddsLink there (slice_index links.old) (slice_index links.new) from to }
{
    if there {
        links[from as usize] = with_member(links[from as usize], to);
    }
}

// Links the boundaries by the runs of the class.
fn link_class(links: &mut [u16; 16], classes: &Classes, choice: &Choice, batches: u32, class: Class)
    requires chosen { IsChoice classes.now (slice_index choice.now.early) }
    requires linked { AreLinked classes.now (slice_index choice.now.early) batches (slice_index links.old) }
    requires runs { HaveRuns classes.now (slice_index choice.now.early) (slice_index links.old) class.number }
    ensures linked { AreLinked classes.now (slice_index choice.now.early) batches (slice_index links.new) }
    ensures runs { HaveRuns classes.now (slice_index choice.now.early) (slice_index links.new) (class.number + 1) }
{
    if classes.count[class.number as usize] == 0 {
        return;
    }
    let early = run_count(classes, choice, class, true);
    let late = run_count(classes, choice, class, false);
    link(
        links,
        early > 0,
        start(class.number, true),
        finish(class.number, true),
    );
    link(
        links,
        late > 0,
        start(class.number, false),
        finish(class.number, false),
    );
}

// The links of the runs of the choice.
fn run_links(classes: &Classes, choice: &Choice, batches: u32) -> [u16; 16]
    requires { IsChoice classes.now (slice_index choice.now.early) }
    ensures length { length result ≡ 16 }
    ensures linked { AreLinked classes.now (slice_index choice.now.early) batches (slice_index result) }
    ensures runs { HaveRuns classes.now (slice_index choice.now.early) (slice_index result) 136 }
{
    let mut links = [0; SLOTS];
    for number in 0..CLASSES as u8 {
        link_class(&mut links, classes, choice, batches, Class { number });
    }
    links
}

// The links of the runs of the choice and its idles.
pub fn links_of(classes: &Classes, choice: &Choice, batches: u32) -> [u16; 16]
    requires { IsChoice classes.now (slice_index choice.now.early) }
    ensures length { length result ≡ 16 }
    ensures linked { AreLinked classes.now (slice_index choice.now.early) batches (slice_index result) }
    ensures runs { HaveRuns classes.now (slice_index choice.now.early) (slice_index result) 136 }
    ensures idles { HaveIdles classes.now (slice_index choice.now.early) batches (slice_index result) 16 }
{
    let used = loads(classes, choice);
    let mut links = run_links(classes, choice, batches);
    for slot in 0..SLOTS as u8 {
        link(
            &mut links,
            used[slot as usize] < batches,
            slot,
            (slot + 1) % 16,
        );
    }
    links
}

// The set with all boundaries to which one link leads from there, and more to which links lead.
pub fn followed(links: &[u16; 16], set: u16) -> u16
    ensures follows { Follows (slice_index links.now) set result }
    ensures more { set ≤ result }
{
    let mut grown = set;
    for boundary in 0..SLOTS as u8 {
        if holds(grown, boundary) {
            grown |= links[boundary as usize];
        }
    }
    grown
}
