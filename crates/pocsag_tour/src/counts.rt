ghost use Rattle.std.specs.Prelude.{◌≡◌, ℕ, ◌<◌, ◌≤◌, length, slice_index};
ghost use Rattle.pocsag_slots.specs.Loads.{IsChoice, load};
ghost use Rattle.pocsag_slots.specs.Sums.{sum_below};
ghost use Rattle.pocsag_tour.specs.Moves.{arc_count, AreCounts};

use crate::arc::{ARCS, FIRST_IDLE, FIRST_LATE};
use pocsag_slots::{Choice, Classes, loads};

// How many of the arc there are, by the loads of the slots.
#[tactic(auto, unfolding(crate::specs::Moves::arc_count))]
fn count_of(classes: &Classes, choice: &Choice, used: &[u32; 16], batches: u32, arc: usize) -> u32
    requires chosen { IsChoice classes.now (slice_index choice.now.early) }
    requires used { (slot : ℕ) → slot < 16 →
        slice_index used.now slot ≡ load classes.now (slice_index choice.now.early) slot }
    requires within { (slot : ℕ) → slot < 16 → load classes.now (slice_index choice.now.early) slot ≤ batches }
    requires arc { arc < 288 }
    ensures { result ≡ arc_count classes.now (slice_index choice.now.early) batches arc }
{
    if arc < FIRST_LATE {
        choice.early[arc]
    } else if arc < FIRST_IDLE {
        classes.count[arc - FIRST_LATE] - choice.early[arc - FIRST_LATE]
    } else {
        batches - used[arc - FIRST_IDLE]
    }
}

// How many of each arc there are: the runs of each class that start early and late under the choice,
// and the idles that fill the batches.
pub fn counts_of(classes: &Classes, choice: &Choice, batches: u32) -> [u32; 288]
    requires chosen { IsChoice classes.now (slice_index choice.now.early) }
    requires within { (slot : ℕ) → slot < 16 → load classes.now (slice_index choice.now.early) slot ≤ batches }
    ensures length { length result ≡ 288 }
    ensures counts { AreCounts classes.now (slice_index choice.now.early) batches (slice_index result) }
{
    let used = loads(classes, choice);
    let mut counts = [0; ARCS];
    for arc in 0..ARCS {
        counts[arc] = count_of(classes, choice, &used, batches, arc);
    }
    counts
}

// How many steps a tour over these arcs has.
pub fn steps_over(counts: &[u32; 288]) -> usize
    ensures { result ≡ sum_below 288 (slice_index counts.now) }
{
    let mut steps = 0;
    for arc in 0..ARCS {
        steps += counts[arc] as usize;
    }
    steps
}
