ghost use Rattle.std.specs.Prelude.{◌≡◌, ◌↔◌, ◌<◌, IsTrue, slice_index};
ghost use Rattle.pocsag_slots.specs.Loads.{IsChoice};
ghost use Rattle.pocsag_tour.specs.Reached.{HasRunOutside, LiesOutside, runs_of};

use pocsag_slots::{CLASSES, Choice, Class, Classes, finish, holds, start};

// How many runs of the class start early, or late.
#[tactic(auto, unfolding(crate::specs::Reached::runs_of))]
pub(crate) fn run_count(classes: &Classes, choice: &Choice, class: Class, early: bool) -> u32
    requires { IsChoice classes.now (slice_index choice.now.early) }
    ensures { result ≡ runs_of classes.now (slice_index choice.now.early) class.number early }
{
    let early_runs = choice.early[class.number as usize];
    if early {
        early_runs
    } else {
        classes.count[class.number as usize] - early_runs
    }
}

/// Whether the choice has an early, or a late, run of the class with both its ends outside the set of
/// boundaries.
pub fn has_run_outside(classes: &Classes, choice: &Choice, set: u16, class: u8, early: bool) -> bool
    requires chosen { IsChoice classes.now (slice_index choice.now.early) }
    requires class { class < 136 }
    ensures { IsTrue result ↔ HasRunOutside classes.now (slice_index choice.now.early) set class early }
{
    run_count(classes, choice, Class { number: class }, early) > 0
        && !holds(set, start(class, early))
        && !holds(set, finish(class, early))
}

/// Whether some run of the choice has both its ends outside the set of boundaries.
pub fn lies_outside(classes: &Classes, choice: &Choice, set: u16) -> bool
    requires { IsChoice classes.now (slice_index choice.now.early) }
    ensures { IsTrue result ↔ LiesOutside classes.now (slice_index choice.now.early) set }
{
    for class in 0..CLASSES as u8 {
        if has_run_outside(classes, choice, set, class, true)
            || has_run_outside(classes, choice, set, class, false)
        {
            return true;
        }
    }
    false
}
