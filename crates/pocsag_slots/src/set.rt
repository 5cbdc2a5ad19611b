ghost use Rattle.std.specs.Prelude.{◌≡◌, ◌<◌, ◌≤◌};
ghost use Rattle.pocsag_slots.specs.Sums.{AddsMember, holds, sum_over};
ghost use Rattle.pocsag_slots.specs.Ways.{idle_crosses, run_crosses, run_touches};

use crate::boundary::{finish, start};
use crate::class::SLOT_COUNT;

/// Whether the set, of slots or of boundaries, has the member, 0 to 15: bit `i` of the number stands
/// for member `i`.
#[tactic(auto, unfolding(crate::specs::Sums::holds))]
pub fn holds(set: u16, member: u8) -> bool
    requires { member < 16 }
    ensures { result ≡ holds set member }
{
    (set >> member) & 1 == 1
}

/// The set with one member more, 0 to 15.
pub fn with_member(set: u16, member: u8) -> u16
    requires { member < 16 }
    ensures { AddsMember set member result }
{
    set | 1 << member
}

/// How many members the set has.
pub fn size(set: u16) -> u32
    ensures members { result ≡ sum_over set (λ _. 1) }
    ensures bound { result ≤ 16 }
{
    let mut members = 0;
    for member in 0..SLOT_COUNT {
        if holds(set, member) {
            members += 1;
        }
    }
    members
}

/// Whether an early or a late run of the class has an end outside the set of boundaries.
#[tactic(auto, unfolding(crate::specs::Ways::run_touches))]
pub fn touches(class: u8, early: bool, set: u16) -> bool
    requires { class < 136 }
    ensures { result ≡ run_touches class early set }
{
    !holds(set, start(class, early)) || !holds(set, finish(class, early))
}

/// Whether exactly one end of an early or a late run of the class is in the set of boundaries.
#[tactic(auto, unfolding(crate::specs::Ways::run_crosses))]
pub fn crosses(class: u8, early: bool, set: u16) -> bool
    requires { class < 136 }
    ensures { result ≡ run_crosses class early set }
{
    holds(set, start(class, early)) != holds(set, finish(class, early))
}
