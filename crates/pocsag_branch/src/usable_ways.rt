ghost use Rattle.std.specs.Prelude.{◌≡◌, ◌<◌, length, slice_index};
ghost use Rattle.pocsag_slots.specs.Loads.{IsChoice};
ghost use Rattle.pocsag_slots.specs.Ways.{MayTake};

use pocsag_slots::{
    CLASSES, Choice, Classes, Limits, SLOTS, Way, finish, holds, loads, rest, start,
};

// The ways that some choice within the limits and caps takes.
#[derive(Clone, Copy)]
pub(crate) struct UsableWays {
    idles: u16,
    early: [bool; 136],
    late: [bool; 136],
    ghost early_long: { length early ≡ 136 },
    ghost late_long: { length late ≡ 136 },
}

// Whether the way is usable.
pub(crate) fn is_usable(usable: &UsableWays, classes: &Classes, limits: &Limits, way: Way) -> bool
    requires { MayTake classes.now limits.now way }
{
    match way {
        Way::IdleIn(slot) => holds(usable.idles, slot),
        Way::Early(class) => usable.early[class as usize],
        Way::Late(class) => usable.late[class as usize],
    }
}

// The set, with the member where it is wanted.
fn joined_if(set: u16, wanted: bool, member: u8) -> u16
    requires { member < 16 }
{
    if wanted { set | 1 << member } else { set }
}

// For each slot the slots that load can be moved to from there, itself included.
fn moves_of(classes: &Classes, limits: &Limits, choice: &Choice) -> [u16; 16] {
    let mut moves = [0; SLOTS];
    for slot in 0..SLOTS as u8 {
        moves[slot as usize] = 1 << slot;
    }
    for class in 0..CLASSES as u8 {
        if classes.count[class as usize] > 0 {
            let from = start(class, true);
            let to = finish(class, true);
            let early = choice.early[class as usize];
            let more = early > limits.lo[class as usize];
            moves[from as usize] = joined_if(moves[from as usize], more, to);
            let less = early < limits.hi[class as usize];
            moves[to as usize] = joined_if(moves[to as usize], less, from);
        }
    }
    for through in 0..SLOTS as u8 {
        let onward = moves[through as usize];
        for slot in 0..SLOTS {
            if holds(moves[slot], through) {
                moves[slot] |= onward;
            }
        }
    }
    moves
}

// The slots that are loaded below their caps.
fn slots_with_room(limits: &Limits, used: &[u32; 16]) -> u16 {
    let mut room = 0;
    for slot in 0..SLOTS as u8 {
        let free = used[slot as usize] < limits.cap[slot as usize];
        room = joined_if(room, free, slot);
    }
    room
}

// From a choice within the limits and caps: a way that it does not take is usable where the load that is
// then too much can be moved on to a slot with room.
pub(crate) fn usable_ways(
    classes: &Classes,
    limits: &Limits,
    choice: &Choice,
    batches: u32,
) -> UsableWays
    requires { IsChoice classes.now (slice_index choice.now.early) }
{
    let used = loads(classes, choice);
    let moves = moves_of(classes, limits, choice);
    let room = slots_with_room(limits, &used);
    let mut idles = 0;
    for slot in 0..SLOTS as u8 {
        let free = used[slot as usize] < batches || moves[slot as usize] & room != 0;
        idles = joined_if(idles, free, slot);
    }
    let mut early = [false; CLASSES];
    let mut late = [false; CLASSES];
    for class in 0..CLASSES as u8 {
        let from = start(class, true);
        let to = finish(class, true);
        let chosen = choice.early[class as usize];
        let stays = rest(class) == 0;
        let to_early = room | 1 << to;
        let to_late = room | 1 << from;
        early[class as usize] = chosen > 0 || stays || moves[from as usize] & to_early != 0;
        late[class as usize] = chosen < classes.count[class as usize]
            || stays
            || moves[to as usize] & to_late != 0;
    }
    UsableWays { idles, early, late }
}
