ghost use Rattle.std.specs.Prelude.{◌≡◌, ℕ, ◌+◌, ◌^◌, ◌<◌, ◌==◌, if◌then◌else◌, length, slice_index};
ghost use Rattle.pocsag_slots.specs.Edges.{CountEnds, CountStarts, LoadFirst};
ghost use Rattle.pocsag_slots.specs.Loads.{early_of, IsChoice, load};
ghost use Rattle.pocsag_slots.specs.Classes.{class_count};

use crate::boundary::{finish, start};
use crate::class::{CLASS_COUNT, Choice, Class, Classes, SLOTS};
use crate::load::class_load;

// How many runs of a choice start at each boundary, how many end there, and how many times they cover slot 0.
#[derive(Drop)]
pub(crate) struct Edges {
    pub(crate) starts: [u32; SLOTS],
    pub(crate) ends: [u32; SLOTS],
    pub(crate) first: u32,
}

fn add_to(sums: &mut [u32; SLOTS], boundary: u8, more: u32)
    requires boundary { boundary < 16 }
    requires fits { slice_index sums.old boundary + more < 2 ^ 32 }
    ensures { (p : ℕ) → p < 16 → slice_index sums.new p ≡ slice_index sums.old p + (if boundary == p then more else 0) }
{
    sums[boundary as usize] += more;
}

// Adds the runs of the class.
fn add_class(edges: &mut Edges, classes: &Classes, choice: &Choice, class: Class)
    requires chosen { IsChoice classes.now (early_of choice.now) }
    requires starts { CountStarts classes.now (early_of choice.now) class.number edges.old.starts }
    requires ends { CountEnds classes.now (early_of choice.now) class.number edges.old.ends }
    requires first { LoadFirst classes.now (early_of choice.now) class.number edges.old.first }
    ensures starts { CountStarts classes.now (early_of choice.now) (class.number + 1) edges.new.starts }
    ensures ends { CountEnds classes.now (early_of choice.now) (class.number + 1) edges.new.ends }
    ensures first { LoadFirst classes.now (early_of choice.now) (class.number + 1) edges.new.first }
{
    if classes.count[class.number as usize] == 0 {
        return;
    }
    let early = choice.early[class.number as usize];
    let late = classes.count[class.number as usize] - early;
    add_to(&mut edges.starts, start(class.number, true), early);
    add_to(&mut edges.starts, start(class.number, false), late);
    add_to(&mut edges.ends, finish(class.number, true), early);
    add_to(&mut edges.ends, finish(class.number, false), late);
    edges.first += class_load(classes, class, early, 0);
}

pub(crate) fn edges_of(classes: &Classes, choice: &Choice) -> Edges
    requires { IsChoice classes.now (early_of choice.now) }
    ensures starts { CountStarts classes.now (early_of choice.now) class_count result.starts }
    ensures ends { CountEnds classes.now (early_of choice.now) class_count result.ends }
    ensures first { result.first ≡ load classes.now (early_of choice.now) 0 }
{
    let mut edges = Edges {
        starts: [0; SLOTS],
        ends: [0; SLOTS],
        first: 0,
    };
    for number in 0..CLASS_COUNT {
        add_class(&mut edges, classes, choice, Class { number });
    }
    edges
}
