ghost use Rattle.std.specs.Prelude.{◌≡◌, ◌<◌};
ghost use Rattle.pocsag_tour.specs.Moves.{arc_at, arc_from, arc_to, step_of};

use pocsag_slots::{CLASSES, SLOTS, Step, finish, start};

// The arcs by number: the early runs of the classes from 0 on, then their late runs, then the idles of the
// slots; and how many there are.
pub const FIRST_LATE: usize = CLASSES;

pub const FIRST_IDLE: usize = FIRST_LATE + CLASSES;

pub const ARCS: usize = FIRST_IDLE + SLOTS;

// The boundary that the arc leads from.
#[tactic(auto, unfolding(crate::specs::Moves::arc_from))]
pub fn begins(arc: usize) -> u8
    requires { arc < 288 }
    ensures value { result ≡ arc_from arc }
    ensures below { result < 16 }
{
    if arc < FIRST_LATE {
        start(arc as u8, true)
    } else if arc < FIRST_IDLE {
        start((arc - FIRST_LATE) as u8, false)
    } else {
        (arc - FIRST_IDLE) as u8
    }
}

// The boundary that the arc leads to.
#[tactic(auto, unfolding(crate::specs::Moves::arc_to))]
pub fn ends(arc: usize) -> u8
    requires { arc < 288 }
    ensures value { result ≡ arc_to arc }
    ensures below { result < 16 }
{
    if arc < FIRST_LATE {
        finish(arc as u8, true)
    } else if arc < FIRST_IDLE {
        finish((arc - FIRST_LATE) as u8, false)
    } else {
        ((arc - FIRST_IDLE + 1) % SLOTS) as u8
    }
}

// The step over the arc.
#[tactic(auto, unfolding(crate::specs::Moves::step_of))]
pub fn arc_step(arc: usize) -> Step
    requires { arc < 288 }
    ensures { result ≡ step_of arc }
{
    if arc < FIRST_LATE {
        Step::Run {
            class: arc as u8,
            early: true,
        }
    } else if arc < FIRST_IDLE {
        Step::Run {
            class: (arc - FIRST_LATE) as u8,
            early: false,
        }
    } else {
        Step::Idle
    }
}

// The arc of this kind, 0 to 17, at the boundary.
#[tactic(auto, unfolding(crate::specs::Moves::arc_at))]
pub fn arc_of_kind(boundary: u8, kind: u8) -> usize
    requires boundary { boundary < 16 }
    requires kind { kind < 18 }
    ensures value { result ≡ arc_at boundary kind }
    ensures below { result < 288 }
{
    let place = usize::from(boundary);
    if kind == 17 {
        FIRST_IDLE + place
    } else if kind == 16 {
        place % 2 * FIRST_LATE + 128 + place / 2
    } else {
        place % 2 * FIRST_LATE + 16 * (place / 2) + usize::from(kind)
    }
}
