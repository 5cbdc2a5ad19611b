ghost use Rattle.std.specs.Prelude.{◌≡◌, ℕ, ◌+◌, ◌*◌, ◌^◌, ◌<◌, ◌≤◌, ◌↔◌, IsTrue, if◌then◌else◌, length, slice_index};
ghost use Rattle.pocsag_slots.specs.Cover.{covered};
ghost use Rattle.pocsag_slots.specs.Loads.{AreInOrder, class_load, early_of, IsChoice, IsLeastLoad, least_of_class, load, load_limit, Overloads};
ghost use Rattle.pocsag_slots.specs.Classes.{slot_count};
ghost use Rattle.pocsag_slots.specs.Sums.{holds, sum_over};
ghost use Rattle.pocsag_slots.specs.Tables.{turn_limit};

use crate::boundary::{rest, start};
use crate::class::{CLASS_COUNT, Choice, Class, Classes, SLOT_COUNT, SLOTS};
use crate::edge::edges_of;
use crate::limit::Limits;
use crate::set::{holds, size};

// How often so many codewords from a slot on, at most one turn, cover the slot.
#[tactic(auto, using(crate::proofs::LoadLemmas::covered_by))]
fn times_covered(first: u8, codewords: u8, slot: u8) -> u32
    requires first { first < 16 }
    requires codewords { codewords ≤ 16 }
    requires slot { slot < 16 }
    ensures value { result ≡ covered first codewords slot }
    ensures once { result ≤ 1 }
{
    u32::from((slot + SLOT_COUNT - first) % SLOT_COUNT < codewords)
}

// How often the runs of the class cover the slot, where so many of them start early.
#[tactic(auto, unfolding(crate::specs::Loads::class_load))]
pub(crate) fn class_load(classes: &Classes, class: Class, early: u32, slot: u8) -> u32
    requires early { early ≤ slice_index classes.now.count class.number }
    requires slot { slot < 16 }
    ensures value { result ≡ class_load classes.now slot class.number early }
    ensures bound { result ≤ (turn_limit + 1) * slice_index classes.now.count class.number }
{
    if classes.count[class.number as usize] == 0 {
        return 0;
    }
    let late = classes.count[class.number as usize] - early;
    let by_early = early * times_covered(start(class.number, true), rest(class.number), slot);
    let by_late = late * times_covered(start(class.number, false), rest(class.number), slot);
    classes.turns[class.number as usize] + by_early + by_late
}

/// The load of each slot under the choice: how many times the runs cover it, which is at most 88 times
/// for each of 20,000 pages.
pub fn loads(classes: &Classes, choice: &Choice) -> [u32; SLOTS]
    requires { IsChoice classes.now (early_of choice.now) }
    ensures length { length result ≡ 16 }
    ensures loads { (slot : ℕ) → slot < 16 →
        slice_index result slot ≡ load classes.now (early_of choice.now) slot }
    ensures bound { (slot : ℕ) → slot < 16 → slice_index result slot ≤ load_limit }
{
    let edges = edges_of(classes, choice);
    let mut load = edges.first;
    let mut found = [load; SLOTS];
    for slot in 1..SLOTS {
        load = load + edges.starts[slot] - edges.ends[slot];
        found[slot] = load;
    }
    found
}

// How many of so many codewords from a slot on, at most one turn, stand in slots of the set.
fn members_covered(set: u16, first: u8, codewords: u8) -> u64
    requires first { first < 16 }
    requires codewords { codewords ≤ 16 }
    ensures value { result ≡ sum_over set (covered first codewords) }
    ensures bound { result ≤ 16 }
{
    let mut members = 0;
    for place in 0..codewords {
        if holds(set, (first + place) % SLOT_COUNT) {
            members += 1;
        }
    }
    members
}

// The least load of the class on the set of slots, of which there are so many.
#[tactic(auto, unfolding(crate::specs::Loads::least_of_class))]
fn class_least(classes: &Classes, limits: &Limits, set: u16, members: u64, class: Class) -> u64
    requires ordered { AreInOrder classes.now limits.now }
    requires members { members ≡ sum_over set (λ _. 1) }
    requires small { members ≤ 16 }
    ensures value { result ≡ least_of_class classes.now limits.now set class.number }
    ensures bound { result < 2 ^ 40 }
{
    if classes.count[class.number as usize] == 0 {
        return 0;
    }
    let count = u64::from(classes.count[class.number as usize]);
    let lo = u64::from(limits.lo[class.number as usize]);
    let hi = u64::from(limits.hi[class.number as usize]);
    let early = members_covered(set, start(class.number, true), rest(class.number));
    let late = members_covered(set, start(class.number, false), rest(class.number));
    let at_lo = lo * early + (count - lo) * late;
    let at_hi = hi * early + (count - hi) * late;
    u64::from(classes.turns[class.number as usize]) * members + at_lo.min(at_hi)
}

/// The least load of the class on the set of slots, over all choices within the limits.
pub fn least_by_class(classes: &Classes, limits: &Limits, set: u16, class: Class) -> u64
    requires { AreInOrder classes.now limits.now }
    ensures { result ≡ least_of_class classes.now limits.now set class.number }
{
    class_least(classes, limits, set, u64::from(size(set)), class)
}

/// The least total load of the slots of the set, over all choices within the limits.
pub fn least_load(classes: &Classes, limits: &Limits, set: u16) -> u64
    requires { AreInOrder classes.now limits.now }
    ensures least { IsLeastLoad classes.now limits.now set result }
    ensures bound { result ≤ slot_count * load_limit }
{
    let members = u64::from(size(set));
    let mut least = 0;
    for number in 0..CLASS_COUNT {
        least += class_least(classes, limits, set, members, Class { number });
    }
    least
}

/// The caps of the slots of the set, added up.
pub fn total_cap(limits: &Limits, set: u16) -> u64
    ensures { result ≡ sum_over set (slice_index limits.now.cap) }
{
    let mut total = 0;
    for slot in 0..SLOT_COUNT {
        if holds(set, slot) {
            total += u64::from(limits.cap[slot as usize]);
        }
    }
    total
}

/// Whether each choice within the limits loads the slots of the set with more than the sum of their
/// caps.
pub fn overloads(classes: &Classes, limits: &Limits, set: u16) -> bool
    requires { AreInOrder classes.now limits.now }
    ensures { IsTrue result ↔ Overloads classes.now limits.now set }
{
    total_cap(limits, set) < least_load(classes, limits, set)
}
