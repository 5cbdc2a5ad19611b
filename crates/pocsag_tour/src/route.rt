ghost use Rattle.std.specs.Prelude.{◌≡◌, ◌∷◌, [], ◌<◌, ◌≤◌, slice_index, IfOk, IfErr, IfSome, IfNone};
ghost use Rattle.pocsag_words.specs.declared.ending.End.{End};
ghost use Rattle.pocsag_words.specs.declared.ending.End.TheVariants.{Closed};
ghost use Rattle.pocsag_slots.specs.Loads.{AreCarried, IsChoice};
ghost use Rattle.pocsag_slots.specs.Tours.{IsTour, LastAs};
ghost use Rattle.pocsag_tour.specs.Moves.{AllLeadTo, IsBalanced, IsClosing, IsWay, NoWay, step_of};
ghost use Rattle.pocsag_tour.specs.Reached.{IsRefused};

use crate::arc::{ARCS, FIRST_IDLE, arc_step};
use crate::counts::{counts_of, steps_over};
use crate::fault::TourFault;
use crate::outside::lies_outside;
use crate::reach::reached;
use crate::walk::walk;
use pocsag_slots::{Choice, Classes, Step};
use pocsag_words::End;
use std::alloc::{AllocError, Global};

/// A tour of the choice with so many batches, for the end: steps from boundary 0 back to boundary 0 that
/// take each run once and fill each slot with idles. `Apart` where some run is not reached from boundary
/// 0; with another end than the open one `Unclosed` where there is a tour for the open end and none for
/// this one; `OutOfMemory` only where there is a tour.
pub fn tour(
    alloc: Global,
    classes: &Classes,
    choice: &Choice,
    batches: u32,
    end: End,
) -> Result<Vec<Step>, TourFault>
    requires chosen { IsChoice classes.now (slice_index choice.now.early) }
    requires some { 1 ≤ batches }
    requires within { AreCarried classes.now (slice_index choice.now.early) batches }
    ensures tour { IfOk result (λ steps. IsTour classes.now end (slice_index choice.now.early) batches steps.items) }
    ensures refused { IfErr result (IsRefused classes.now (slice_index choice.now.early) batches end) }
{
    let set = reached(classes, choice, batches);
    if lies_outside(classes, choice, set) {
        return Err(TourFault::Apart(set));
    }
    way(alloc, &counts_of(classes, choice, batches), end)
}

// A way over all arcs that ends as it must.
fn way(alloc: Global, counts: &[u32; 288], end: End) -> Result<Vec<Step>, TourFault>
    requires balanced { IsBalanced (slice_index counts.now) 0 0 }
    requires joined { AllLeadTo (slice_index counts.now) 0 }
    ensures way { IfOk result (λ steps. IsWay (slice_index counts.now) 0 steps.items × LastAs end steps.items) }
    ensures refused { IfErr result (NoWay (slice_index counts.now) end) }
{
    if let End::Open = end {
        return Ok(walk(alloc, counts, 0, steps_over(counts))?);
    }
    match closing(counts, end) {
        Some(last) => Ok(way_with_last(alloc, counts, last)?),
        None => Err(TourFault::Unclosed),
    }
}

// The idle in slot 15, and the late run of class 135.
const LAST_IDLE: usize = ARCS - 1;

const LAST_LATE: usize = FIRST_IDLE - 1;

// An arc with which a tour for the end can end: an idle in slot 15, or else for the closed end a late run
// of an address codeword alone there.
fn closing(counts: &[u32; 288], end: End) -> Option<usize>
    ensures found { IfSome result (λ a. IsClosing (slice_index counts.now) a × LastAs end (step_of a ∷ [])) }
    ensures none { IfNone result
        ((slice_index counts.now 287 ≡ 0) × (end ≡ Closed → slice_index counts.now 271 ≡ 0)) }
{
    if counts[LAST_IDLE] > 0 {
        return Some(LAST_IDLE);
    }
    match end {
        End::Closed if counts[LAST_LATE] > 0 => Some(LAST_LATE),
        _ => None,
    }
}

// A way over all arcs that takes this one last.
fn way_with_last(alloc: Global, counts: &[u32; 288], last: usize) -> Result<Vec<Step>, AllocError>
    requires balanced { IsBalanced (slice_index counts.now) 0 0 }
    requires joined { AllLeadTo (slice_index counts.now) 0 }
    requires last { IsClosing (slice_index counts.now) last }
    ensures { IfOk result (λ steps. IsWay (slice_index counts.now) 0 steps.items
        × ((end : End) → LastAs end (step_of last ∷ []) → LastAs end steps.items)) }
{
    let mut others = *counts;
    others[last] -= 1;
    let mut steps = walk(alloc, &others, 15, steps_over(counts))?;
    steps.push(arc_step(last))?;
    Ok(steps)
}
