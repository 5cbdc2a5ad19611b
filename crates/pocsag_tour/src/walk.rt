ghost use Rattle.std.specs.Prelude.{◌≡◌, ◌≢◌, ℕ, ◌*◌, ◌++◌, ◌<◌, ◌≤◌, length, map, slice_index, take, IfOk, IfSome, IfNone, OnOk};
ghost use Rattle.std.specs.List.{repeat};
ghost use Rattle.arrayvec.specs.ArrayVec.{array_vec_len};
ghost use Rattle.pocsag_tour.specs.Segments.{ArePassed, AreTaken, IsSegment, often};
ghost use Rattle.pocsag_tour.specs.Moves.{AllLeadTo, arc_from, IsBalanced, IsDeparture, IsSpent, IsWay, step_of};

use crate::arc::{arc_of_kind, arc_step, begins, ends};
use crate::exits::exits_to;
use arrayvec::ArrayVec;
use pocsag_slots::{SLOTS, Step, holds, with_member};
use std::alloc::{AllocError, Global};

// The kinds of arc at a boundary.
const KINDS: u8 = 18;

// An arc from the boundary that is left, other than its last exit. The kinds before those that are kept have
// none left, and no arc is looked at again once it has none.
fn detour(
    left: &[u32; 288],
    exits: &[usize; 16],
    kinds: &mut [u8; 16],
    boundary: u8,
) -> Option<usize>
    requires boundary { boundary < 16 }
    requires passed { ArePassed (slice_index left.now) (slice_index exits.now) (slice_index kinds.old) }
    ensures found { IfSome result (λ a. (a < 288) × (0 < slice_index left.now a) × (arc_from a ≡ boundary)
        × (a ≢ slice_index exits.now boundary)) }
    ensures none { IfNone result ((b : ℕ) → b < 288 → arc_from b ≡ boundary →
        b ≢ slice_index exits.now boundary → slice_index left.now b ≡ 0) }
    ensures passed { ArePassed (slice_index left.now) (slice_index exits.now) (slice_index kinds.new) }
{
    let place = boundary as usize;
    let exit = exits[place];
    for kind in kinds[place]..KINDS {
        let arc = arc_of_kind(boundary, kind);
        if arc != exit {
            if left[arc] > 0 {
                kinds[place] = kind;
                return Some(arc);
            }
        }
    }
    kinds[place] = KINDS;
    None
}

// The arc to take next from the boundary: its last exit only where no other is left.
fn departure(
    left: &[u32; 288],
    exits: &[usize; 16],
    kinds: &mut [u8; 16],
    boundary: u8,
) -> Option<usize>
    requires boundary { boundary < 16 }
    requires exit { slice_index exits.now boundary < 288 }
    requires passed { ArePassed (slice_index left.now) (slice_index exits.now) (slice_index kinds.old) }
    ensures found { IfSome result (IsDeparture (slice_index left.now) (slice_index exits.now boundary) boundary) }
    ensures none { IfNone result (IsSpent (slice_index left.now) boundary) }
    ensures passed { ArePassed (slice_index left.now) (slice_index exits.now) (slice_index kinds.new) }
{
    if let Some(arc) = detour(left, exits, kinds, boundary) {
        return Some(arc);
    }
    let exit = exits[boundary as usize];
    if begins(exit) == boundary {
        if left[exit] > 0 {
            return Some(exit);
        }
    }
    None
}

// Arcs that a walk takes next, each from another boundary, and how many times.
#[derive(Drop)]
struct Segment {
    arcs: ArrayVec<usize, 16>,
    end: u8,
    times: u32,
}

// The arcs from the boundary on, up to a boundary that they leave or that nothing leaves; as many times as they
// are left where they lead back, and else once.
fn segment_from(left: &[u32; 288], exits: &[usize; 16], kinds: &mut [u8; 16], start: u8) -> Segment
    requires start { start < 16 }
    requires exits { (q : ℕ) → q < 16 → slice_index exits.now q < 288 }
    requires passed { ArePassed (slice_index left.now) (slice_index exits.now) (slice_index kinds.old) }
    ensures segment { IsSegment (slice_index left.now) (slice_index exits.now) start result.arcs.items result.times
        result.end }
    ensures end { result.end < 16 }
    ensures spent { length result.arcs.items ≡ 0 → IsSpent (slice_index left.now) start }
    ensures passed { ArePassed (slice_index left.now) (slice_index exits.now) (slice_index kinds.new) }
{
    let mut arcs = ArrayVec::new();
    let mut seen = 0;
    let mut times = u32::MAX;
    let mut end = start;
    'arcs: for _place in 0..SLOTS {
        if holds(seen, end) {
            break;
        }
        match departure(left, exits, kinds, end) {
            Some(arc) => {
                arcs.push(arc);
                seen = with_member(seen, end);
                times = times.min(left[arc]);
                end = ends(arc);
            }
            None => break,
        }
    }
    if end != start {
        times = 1;
    }
    Segment { arcs, end, times }
}

// Takes the arcs so many times of what is left.
fn take_segments(left: &mut [u32; 288], arcs: &[usize], times: u32)
    requires known { (k : ℕ) → k < length arcs.now → slice_index arcs.now k < 288 }
    requires enough { (a : ℕ) → times * often a arcs.now ≤ slice_index left.old a }
    ensures { AreTaken times arcs.now (slice_index left.old) (slice_index left.new) }
{
    for arc in arcs {
        left[*arc] -= times;
    }
}

// The steps over the arcs, at the head of sixteen.
fn steps_of_batch(arcs: &[usize]) -> [Step; 16]
    requires few { length arcs.now ≤ 16 }
    requires known { (k : ℕ) → k < length arcs.now → slice_index arcs.now k < 288 }
    ensures length { length result ≡ 16 }
    ensures steps { take (length arcs.now) result ≡ map step_of arcs.now }
{
    let mut piece = [Step::Idle; 16];
    for (place, arc) in arcs.iter().enumerate() {
        piece[place] = arc_step(*arc);
    }
    piece
}

// Puts the steps over the arcs behind the others, so many times.
fn write_segments(steps: &mut Vec<Step>, arcs: &[usize], times: u32) -> Result<(), AllocError>
    requires few { length arcs.now ≤ 16 }
    requires known { (k : ℕ) → k < length arcs.now → slice_index arcs.now k < 288 }
    ensures { OnOk result (steps.new.items ≡ steps.old.items ++ repeat times (map step_of arcs.now)) }
{
    let piece = steps_of_batch(arcs);
    let segment = &piece[..arcs.len()];
    'segments: for _segment in 0..times {
        steps.extend_from_slice(segment)?;
    }
    Ok(())
}

// A way from boundary 0 to the root over all arcs, which leaves each boundary by its last exit last.
pub fn walk(
    alloc: Global,
    counts: &[u32; 288],
    root: u8,
    room: usize,
) -> Result<Vec<Step>, AllocError>
    requires root { root < 16 }
    requires balanced { IsBalanced (slice_index counts.now) 0 root }
    requires joined { AllLeadTo (slice_index counts.now) root }
    ensures { IfOk result (λ steps. IsWay (slice_index counts.now) root steps.items) }
{
    let exits = exits_to(counts, root);
    let mut left = *counts;
    let mut kinds = [0; 16];
    let mut steps = Vec::with_capacity(alloc, room)?;
    let mut at = 0;
    'segments: loop {
        let segment = segment_from(&left, &exits.arcs, &mut kinds, at);
        if segment.arcs.is_empty() {
            break;
        }
        write_segments(&mut steps, segment.arcs.as_slice(), segment.times)?;
        take_segments(&mut left, segment.arcs.as_slice(), segment.times);
        at = segment.end;
    }
    Ok(steps)
}
