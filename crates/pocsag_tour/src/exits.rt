ghost use Rattle.std.specs.Prelude.{◌≡◌, ℕ, ◌<◌, false, true, length, slice_index, IfSome, IfNone};
ghost use Rattle.pocsag_slots.specs.Sums.{holds};
ghost use Rattle.pocsag_tour.specs.Moves.{AreUsed, arc_from, arc_to, IsAmong, ExitsLeadToRoot, NoneEnters};

use crate::arc::{ARCS, begins, ends};
use arrayvec::ArrayVec;
use pocsag_slots::{holds, with_member};

// The arcs of which there are some.
fn used_arcs(counts: &[u32; 288]) -> ArrayVec<usize, 288>
    ensures { AreUsed (slice_index counts.now) 288 result.items }
{
    let mut used = ArrayVec::new();
    for arc in 0..ARCS {
        if counts[arc] > 0 {
            used.push(arc);
        }
    }
    used
}

// The first of these arcs that enters the set.
fn entering(used: &[usize], set: u16) -> Option<usize>
    requires { (k : ℕ) → k < length used.now → slice_index used.now k < 288 }
    ensures found { IfSome result
        (λ a. IsAmong a used.now × (holds set (arc_from a) ≡ false) × (holds set (arc_to a) ≡ true)) }
    ensures none { IfNone result ((k : ℕ) → k < length used.now →
        holds set (arc_to (slice_index used.now k)) ≡ true → holds set (arc_from (slice_index used.now k)) ≡ true) }
{
    for arc in used {
        if holds(set, ends(*arc)) && !holds(set, begins(*arc)) {
            return Some(*arc);
        }
    }
    None
}

// For each boundary from which some root is reached, the arc that is left for last there.
#[derive(Clone, Copy)]
pub struct Exits {
    pub set: u16,
    pub arcs: [usize; 16],
    pub ghost long: { length arcs ≡ 16 },
}

// The boundaries from which the root is reached, and arcs that lead them there.
pub fn exits_to(counts: &[u32; 288], root: u8) -> Exits
    requires { root < 16 }
    ensures root { holds result.set root ≡ true }
    ensures closed { NoneEnters (slice_index counts.now) result.set }
    ensures known { (q : ℕ) → q < 16 → slice_index result.arcs q < 288 }
    ensures leads_to_root { ExitsLeadToRoot (slice_index counts.now) (slice_index result.arcs) root result.set }
{
    let used = used_arcs(counts);
    let mut set = with_member(0, root);
    let mut arcs = [0; 16];
    loop {
        match entering(used.as_slice(), set) {
            Some(arc) => {
                let from = begins(arc);
                arcs[from as usize] = arc;
                set = with_member(set, from);
            }
            None => break,
        }
    }
    Exits { set, arcs }
}
