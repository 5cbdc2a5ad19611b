ghost use Rattle.std.specs.Prelude.{◌≡◌, ◌<◌, ◌↔◌, All, IsTrue, IfSome, length, true};
ghost use Rattle.pocsag_slots.specs.Sums.{holds};
ghost use Rattle.pocsag_slots.specs.Ways.{MayTake};
ghost use Rattle.pocsag_branch.specs.Examined.{IsNodeKind};
ghost use Rattle.pocsag_branch.specs.FreeNode.{IsUndecidedWay};
ghost use Rattle.pocsag_branch.specs.Undecided.{Falls};

use crate::boundaries::BoundarySet;
use crate::child::certain_class;
use crate::node::Node;
use crate::task::NodeKind;
use pocsag_slots::{CLASSES, SLOTS, Way, finish, holds, start, ways, with_member};

// What stands in the count of ways for one that is decided already, and for a set that no class must
// leave.
const DECIDED: u32 = 1_000;

// Whether the way is undecided: taking it and refusing it both narrow the limits.
pub(crate) fn is_undecided(node: &Node<'_>, way: Way) -> bool
    requires { MayTake node.now.classes.now node.now.limits way }
    ensures { IsTrue result ↔ IsUndecidedWay node.now.classes.now node.now.task.batches node.now.limits way }
{
    match way {
        Way::IdleIn(slot) => node.task.batches <= node.limits.cap[slot as usize],
        Way::Early(class) => node.limits.lo[class as usize] == 0,
        Way::Late(class) => node.classes.count[class as usize] <= node.limits.hi[class as usize],
    }
}

// Whether all the ways are open.
fn are_undecided(node: &Node<'_>, out: &[Way]) -> bool
    requires { All (MayTake node.now.classes.now node.now.limits) out.now }
    ensures { IsTrue result → All (Falls node.now.classes.now node.now.task.batches node.now.limits) out.now }
{
    for way in out {
        if !is_undecided(node, *way) {
            return false;
        }
    }
    true
}

// Counts a way between the two boundaries, in counts that have those between u and v at place 16 * u + v;
// one that is decided counts for many. Sums stay at the greatest `u32`, which they never reach.
fn add(between: &mut [u32; 256], from: u8, to: u8, decided: bool)
    requires from { from < 16 }
    requires to { to < 16 }
{
    let more = if decided { 1 + DECIDED } else { 1 };
    let there = usize::from(from) * SLOTS + usize::from(to);
    between[there] = between[there].saturating_add(more);
    let back = usize::from(to) * SLOTS + usize::from(from);
    between[back] = between[back].saturating_add(more);
}

// The ways between boundaries that the limits allow: runs of the classes, and an idle in each slot.
fn ways_between(node: &Node<'_>) -> [u32; 256] {
    let mut between = [0; 256];
    for slot in 0..SLOTS as u8 {
        let decided = node.limits.cap[slot as usize] < node.task.batches;
        add(&mut between, slot, (slot + 1) % 16, decided);
    }
    for class in 0..CLASSES as u8 {
        let count = node.classes.count[class as usize];
        if node.limits.hi[class as usize] > 0 {
            let decided = node.limits.lo[class as usize] > 0;
            add(
                &mut between,
                start(class, true),
                finish(class, true),
                decided,
            );
        }
        if node.limits.lo[class as usize] < count {
            let decided = node.limits.hi[class as usize] < count;
            add(
                &mut between,
                start(class, false),
                finish(class, false),
                decided,
            );
        }
    }
    between
}

// A set that grows: for each boundary the ways from there into the set, and the ways across it.
#[derive(Clone, Copy)]
struct GrowingSet {
    set: BoundarySet,
    into: [u32; 16],
    across: u32,
    ghost long: { length into ≡ 16 },
}

// The set with the boundary more.
fn set_with(between: &[u32; 256], growing: GrowingSet, boundary: u8) -> GrowingSet
    requires { boundary < 16 }
{
    let members = with_member(growing.set.members, boundary);
    let mut into = growing.into;
    let mut across = growing.across.saturating_sub(into[boundary as usize]);
    for other in 0..SLOTS as u8 {
        let more = between[usize::from(boundary) * SLOTS + usize::from(other)];
        into[other as usize] = into[other as usize].saturating_add(more);
        if !holds(members, other) {
            across = across.saturating_add(more);
        }
    }
    GrowingSet {
        set: BoundarySet { members },
        into,
        across,
    }
}

// The boundary outside the set with the most ways into it, the first of these.
fn nearest(growing: &GrowingSet) -> Option<u8>
    ensures { IfSome result (λ boundary. boundary < 16) }
{
    let mut best = None;
    let mut most = 0;
    for boundary in 0..SLOTS as u8 {
        let into = growing.into[boundary as usize];
        if !holds(growing.set.members, boundary) && (best.is_none() || into > most) {
            best = Some(boundary);
            most = into;
        }
    }
    best
}

// A cut at the set, where a class is certain for it and all ways across are open.
fn cut_at(node: &Node<'_>, set: BoundarySet) -> Option<NodeKind>
    ensures { IfSome result (IsNodeKind node.now.classes.now node.now.task node.now.limits) }
{
    let needed = certain_class(node, set)?;
    let out = ways(node.classes, &node.limits, set.members, node.task.batches);
    if are_undecided(node, &out) {
        Some(NodeKind::Cut { set, needed })
    } else {
        None
    }
}

// A cut at a set with fewer ways across than the set that is reached, if one is found. Sets grow from
// boundary 0 by the boundary with the most ways into them.
pub(crate) fn smaller_cut(node: &Node<'_>, reached: BoundarySet) -> Option<NodeKind>
    ensures { IfSome result (IsNodeKind node.now.classes.now node.now.task node.now.limits) }
{
    let between = ways_between(node);
    // where no class must leave the set that is reached, any cut is smaller
    let mut least = match certain_class(node, reached) {
        Some(_) => ways(
            node.classes,
            &node.limits,
            reached.members,
            node.task.batches,
        )
        .len() as u32,
        None => DECIDED,
    };
    let mut best = None;
    let begun = GrowingSet {
        set: BoundarySet {
            members: with_member(0, 0),
        },
        into: [0; SLOTS],
        across: 0,
    };
    let mut growing = set_with(&between, begun, 0);
    for _ in 0..SLOTS {
        if growing.across < least {
            if let Some(kind) = cut_at(node, growing.set) {
                best = Some(kind);
                least = growing.across;
            }
        }
        match nearest(&growing) {
            Some(boundary) => growing = set_with(&between, growing, boundary),
            None => break,
        }
    }
    best
}
