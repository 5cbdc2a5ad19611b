ghost use Rattle.std.specs.Prelude.{◌≡◌, ℕ, ◌<◌, ◌≤◌, IfOk, IsTrue, slice_index};
ghost use Rattle.pocsag_slots.specs.Loads.{AreCarried, IsChoice};
ghost use Rattle.pocsag_slots.specs.Tours.{IsTourFor};

use pocsag_pages::Round;
use pocsag_slots::{Choice, Classes, Step, classes_of, loads};
use pocsag_tour::{TourFault, tour};
use pocsag_words::End;
use std::alloc::Global;

/// Why a choice was given no tour.
#[derive(Clone, Copy, PartialEq, Eq, Debug)]
pub enum NoTour {
    /// Some load is above the batches.
    Overloaded,
    Refused(TourFault),
}

// All pages start early, but those of the class that is named.
fn all_early_but(classes: &Classes, late: Option<u8>) -> Choice
    ensures { IsChoice classes.now (slice_index result.early) }
{
    let mut early = classes.count;
    match late {
        Some(class) if class < 136 => early[class as usize] = 0,
        _ => {}
    }
    Choice { early }
}

// Whether so many batches carry the loads of the choice: no slot is loaded above them.
pub(crate) fn carries(classes: &Classes, choice: &Choice, batches: u32) -> bool
    requires { IsChoice classes.now (slice_index choice.now.early) }
    ensures { IsTrue result → AreCarried classes.now (slice_index choice.now.early) batches }
{
    for load in loads(classes, choice) {
        if load > batches {
            return false;
        }
    }
    true
}

/// A tour of the round with so many batches in which all pages start early, but those of the class that
/// is named.
pub fn tour_of(
    alloc: Global,
    round: &Round,
    late: Option<u8>,
    batches: u32,
    end: End,
) -> Result<Vec<Step>, NoTour>
    requires { 0 < batches }
    ensures { IfOk result (λ steps. IsTourFor end round.now steps.items) }
{
    let classes = classes_of(round, end);
    let choice = all_early_but(&classes, late);
    if !carries(&classes, &choice, batches) {
        return Err(NoTour::Overloaded);
    }
    match tour(alloc, &classes, &choice, batches, end) {
        Ok(steps) => Ok(steps),
        Err(fault) => Err(NoTour::Refused(fault)),
    }
}
