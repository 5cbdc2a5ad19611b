ghost use Rattle.std.specs.Prelude.{◌≡◌, ◌<◌};
ghost use Rattle.pocsag_slots.specs.Classes.{class_frame, class_rest, finish_of, start_of};

use crate::class::{FIRST_BARE, SLOT_COUNT};

/// The frame of the class, 0 to 7.
#[tactic(auto, unfolding(crate::specs::Classes::class_frame))]
pub fn frame(class: u8) -> u8
    requires { class < 136 }
    ensures value { result ≡ class_frame class }
    ensures below { result < 8 }
{
    if class < FIRST_BARE {
        class / SLOT_COUNT
    } else {
        class - FIRST_BARE
    }
}

/// How many slots a run of the class covers beside its whole turns, 0 to 15.
#[tactic(auto, unfolding(crate::specs::Classes::class_rest))]
pub fn rest(class: u8) -> u8
    requires { class < 136 }
    ensures value { result ≡ class_rest class }
    ensures below { result < 16 }
{
    if class < FIRST_BARE {
        class % SLOT_COUNT
    } else {
        1
    }
}

/// The boundary, and the slot, at which an early or a late run of the class starts.
#[tactic(auto, unfolding(crate::specs::Classes::start_of))]
pub fn start(class: u8, early: bool) -> u8
    requires { class < 136 }
    ensures value { result ≡ start_of class early }
    ensures below { result < 16 }
{
    if early {
        2 * frame(class)
    } else {
        2 * frame(class) + 1
    }
}

/// The boundary to which an early or a late run of the class leads.
#[tactic(auto, unfolding(crate::specs::Classes::finish_of))]
pub fn finish(class: u8, early: bool) -> u8
    requires { class < 136 }
    ensures value { result ≡ finish_of class early }
    ensures below { result < 16 }
{
    (start(class, early) + rest(class)) % SLOT_COUNT
}
