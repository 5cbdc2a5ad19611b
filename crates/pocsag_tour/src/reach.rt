ghost use Rattle.std.specs.Prelude.{◌≡◌, ℕ, ◌^◌, ◌<◌, slice_index, true};
ghost use Rattle.pocsag_slots.specs.Loads.{AreCarried, IsChoice};
ghost use Rattle.pocsag_slots.specs.Sums.{holds};
ghost use Rattle.pocsag_tour.specs.Links.{IsLed};
ghost use Rattle.pocsag_tour.specs.Reached.{AreReached, NoIdleCrosses, NoRunCrosses};

use crate::links::{followed, links_of};
use pocsag_slots::{Choice, Classes, with_member};

// All boundaries to which links lead from boundary 0.
fn led_from_0(links: &[u16; 16]) -> u16
    ensures start { holds result 0 ≡ true }
    ensures closed { (p q : ℕ) → p < 16 → holds result p ≡ true → holds (slice_index links.now p) q ≡ true →
        holds result q ≡ true }
    ensures led { (q : ℕ) → holds result q ≡ true → IsLed (slice_index links.now) q }
{
    let mut set = with_member(0, 0);
    loop {
        let grown = followed(links, set);
        if grown == set {
            break;
        }
        set = grown;
    }
    set
}

/// The boundaries that are reached from boundary 0 over the runs of the choice and the idles that so
/// many batches leave: bit `p` of the set stands for boundary `p`. Where the batches carry the choice,
/// no run and no idle crosses the set.
pub fn reached(classes: &Classes, choice: &Choice, batches: u32) -> u16
    requires { IsChoice classes.now (slice_index choice.now.early) }
    ensures exact { AreReached classes.now (slice_index choice.now.early) batches result }
    ensures small { result < 2 ^ 16 }
    ensures no_run { AreCarried classes.now (slice_index choice.now.early) batches →
        NoRunCrosses classes.now (slice_index choice.now.early) result }
    ensures no_idle { AreCarried classes.now (slice_index choice.now.early) batches →
        NoIdleCrosses classes.now (slice_index choice.now.early) batches result }
{
    led_from_0(&links_of(classes, choice, batches))
}
