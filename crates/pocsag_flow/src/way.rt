ghost use Rattle.std.specs.Prelude.{◌≡◌, ℕ, ◌<◌, ◌≤◌, false, true, slice_index};
ghost use Rattle.pocsag_slots.specs.Sums.{holds};
ghost use Rattle.pocsag_flow.specs.Search.{EndsElsewhere, HasEndAt, LeadsInto, MayPush, Pushes, StaysInside};

use crate::network::{Network, Progress};
use pocsag_slots::{CLASSES, Class, finish, frame, holds, rest, start, with_member};

// The classes by number, and the first of the last eight, which are those of an address codeword alone: one for each frame.
const CLASS_COUNT: u8 = CLASSES as u8;

const FIRST_BARE: u8 = CLASS_COUNT - 8;

// How many rests a length has, so many classes a frame has before those.
const RESTS: u8 = 16;

// The class after one that has an end at the slot, of those that have one there too; 136 after the last.
fn next_at(slot: u8, class: u8) -> u8
    requires slot { slot < 16 }
    requires class { class < 136 }
    requires at { HasEndAt class slot }
    ensures later { class < result }
    ensures most { result ≤ 136 }
    ensures at { result < 136 → HasEndAt result slot }
    ensures none { (between : ℕ) → class < between → between < result → EndsElsewhere between slot }
{
    if class >= FIRST_BARE {
        return CLASS_COUNT;
    }
    if start(class, true) == slot && rest(class) + 1 < RESTS {
        return class + 1;
    }
    let frame = frame(class) + 1;
    if frame == 8 {
        FIRST_BARE + slot / 2
    } else {
        RESTS * frame + (slot + RESTS - 2 * frame) % RESTS
    }
}

// Moves up to `most` into the slot, which is not reached yet, and on where it has no room.
#[cycle(push)]
fn enter(network: &Network, search: &mut Progress, slot: u8, most: u32) -> u32
    requires has_room { MayPush network.now search.old most }
    requires slot { slot < 16 }
    requires apart { holds search.old.reached slot ≡ false }
    ensures pushes { Pushes network.now search.old search.new slot most result }
{
    search.reached = with_member(search.reached, slot);
    let load = network.loads[slot as usize];
    let cap = network.limits.cap[slot as usize];
    if load < cap {
        search.end = slot;
        most.min(cap - load)
    } else {
        leave(network, search, slot, most)
    }
}

// Moves up to `most` out of the slot, which is reached: straight into a slot with room, or else on by
// the first class that leads to one.
#[cycle(push)]
pub(crate) fn leave(network: &Network, search: &mut Progress, slot: u8, most: u32) -> u32
    requires has_room { MayPush network.now search.old most }
    requires slot { slot < 16 }
    requires reached { holds search.old.reached slot ≡ true }
    ensures pushes { Pushes network.now search.old search.new slot most result }
    ensures closed { result ≡ 0 →
        StaysInside network.now.limits.now (slice_index search.new.early) search.new.reached slot }
{
    let straight = leave_straight(network, search, slot, most);
    if straight > 0 {
        return straight;
    }
    // the first class with an end at the slot: of frame 0, with the slot for its rest
    let mut number = slot;
    while number < CLASS_COUNT {
        let moved = switch(network, search, Class { number }, slot, most);
        if moved > 0 {
            return moved;
        }
        number = next_at(slot, number);
    }
    0
}

// Moves up to `most` out of the slot by the first class that leads straight into a slot with room.
#[cycle(push)]
fn leave_straight(network: &Network, search: &mut Progress, slot: u8, most: u32) -> u32
    requires has_room { MayPush network.now search.old most }
    requires slot { slot < 16 }
    requires reached { holds search.old.reached slot ≡ true }
    ensures pushes { Pushes network.now search.old search.new slot most result }
{
    // the first class with an end at the slot: of frame 0, with the slot for its rest
    let mut number = slot;
    while number < CLASS_COUNT {
        let class = Class { number };
        if leads_to_room(network, class, slot) {
            let moved = switch(network, search, class, slot, most);
            if moved > 0 {
                return moved;
            }
        }
        number = next_at(slot, number);
    }
    0
}

// Whether the slot is one end of the runs of the class, some of which may move, and the other end has
// room.
fn leads_to_room(network: &Network, class: Class, slot: u8) -> bool {
    if network.limits.lo[class.number as usize] == network.limits.hi[class.number as usize] {
        return false;
    }
    let from = start(class.number, true);
    let to = finish(class.number, true);
    if slot == from {
        has_room(network, to)
    } else {
        slot == to && has_room(network, from)
    }
}

fn has_room(network: &Network, slot: u8) -> bool
    requires { slot < 16 }
{
    network.loads[slot as usize] < network.limits.cap[slot as usize]
}

// Moves up to `most` out of the slot by runs of the class, from early to late or from late to early. It is
// asked of each class, and most have no run that may move.
#[inline(always)]
#[cycle(push)]
fn switch(network: &Network, search: &mut Progress, class: Class, slot: u8, most: u32) -> u32
    requires has_room { MayPush network.now search.old most }
    requires reached { holds search.old.reached slot ≡ true }
    ensures pushes { Pushes network.now search.old search.new slot most result }
    ensures leads { result ≡ 0 →
        LeadsInto network.now.limits.now (slice_index search.new.early) search.new.reached class.number slot }
{
    if network.limits.lo[class.number as usize] == network.limits.hi[class.number as usize] {
        return 0;
    }
    let early = search.early[class.number as usize];
    let from = start(class.number, true);
    let to = finish(class.number, true);
    if slot == from {
        if network.limits.lo[class.number as usize] < early {
            if !holds(search.reached, to) {
                let room = early - network.limits.lo[class.number as usize];
                let moved = enter(network, search, to, most.min(room));
                search.early[class.number as usize] -= moved;
                return moved;
            }
        }
    }
    if slot == to {
        if early < network.limits.hi[class.number as usize] {
            if !holds(search.reached, from) {
                let room = network.limits.hi[class.number as usize] - early;
                let moved = enter(network, search, from, most.min(room));
                search.early[class.number as usize] += moved;
                return moved;
            }
        }
    }
    0
}
