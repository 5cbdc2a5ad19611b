ghost use Rattle.std.specs.Prelude.{◌≡◌, ◌↔◌, ◌<◌, ◌≤◌, All, IsTrue, slice_index};
ghost use Rattle.pocsag_slots.specs.Loads.{AreInOrder};
ghost use Rattle.pocsag_slots.specs.Sums.{holds};
ghost use Rattle.pocsag_slots.specs.Ways.{class_certain, limits_below, limits_from, MayTake, narrowed_limits, ways_across};
ghost use Rattle.pocsag_tree.specs.Views.{bound_tree_of, bounds_of};
ghost use Rattle.pocsag_check.specs.Acceptance.{AcceptsEachWithin, AcceptsWithin};

use pocsag_slots::{
    CLASSES, Classes, Limits, Way, ending_ways, holds, is_certain, overloads, ways,
};
use pocsag_tree::Tree;
use pocsag_words::End;

// What a node is to show under its limits: that no transmission of the classes with so many batches is legal for the
// end; and whether a node that was not examined is taken.
#[derive(Clone, Copy)]
pub(crate) struct Claim<'a> {
    pub(crate) classes: &'a Classes,
    pub(crate) end: End,
    pub(crate) batches: u32,
    pub(crate) takes_open: bool,
}

// Where a class is split: fewer than m of its pages start early, or at least m do.
#[derive(Clone, Copy)]
struct SplitPoint {
    class: u8,
    m: u32,
}

// Whether the class can be split at m.
fn splits(limits: &Limits, class: u8, m: u16) -> bool
    ensures { IsTrue result ↔
        ((class < 136) × (slice_index limits.now.lo class < m) × (m ≤ slice_index limits.now.hi class)) }
{
    if class as usize >= CLASSES {
        return false;
    }
    limits.lo[class as usize] < u32::from(m) && u32::from(m) <= limits.hi[class as usize]
}

// Whether the set can be cut at, with the class that is certain to leave it.
fn cuts(claim: &Claim, limits: &Limits, set: u16, class: u8) -> bool
    ensures { IsTrue result ↔
        ((class < 136) × (1 ≤ claim.now.batches) × IsTrue (holds set 0)
        × IsTrue (class_certain claim.now.classes.now limits.now set class)) }
{
    if class as usize >= CLASSES || claim.batches == 0 {
        return false;
    }
    holds(set, 0) && is_certain(claim.classes, limits, set, class)
}

/// Whether the node is accepted under the limits, at most this deep. It looks at nothing deeper. The limits are
/// narrowed in place and restored after each child, so that a level takes little of the stack.
#[cycle(checking)]
pub(crate) fn check_node(claim: &Claim, limits: &mut Limits, tree: &Tree, depth: u32) -> bool
    requires { AreInOrder claim.now.classes.now limits.old }
    ensures accepted { IsTrue result ↔
        AcceptsWithin claim.now.takes_open claim.now.classes.now claim.now.end claim.now.batches
        limits.old depth (bound_tree_of tree.now) }
    ensures same_limits { limits.new ≡ limits.old }
{
    if depth == 0 {
        return false;
    }
    match tree {
        Tree::Overload(set) => *set != 0 && overloads(claim.classes, limits, *set),
        Tree::Split {
            class,
            m,
            below,
            from,
        } => {
            if !splits(limits, *class, *m) {
                return false;
            }
            let at = SplitPoint {
                class: *class,
                m: u32::from(*m),
            };
            check_below(claim, limits, at, below, depth - 1)
                && check_from(claim, limits, at, from, depth - 1)
        }
        Tree::Cut {
            set,
            needed,
            children,
        } => {
            cuts(claim, limits, *set, *needed)
                && check_cut(claim, limits, *set, children, depth - 1)
        }
        Tree::Close { children } => {
            if claim.end == End::Open || claim.batches == 0 {
                return false;
            }
            let out = ending_ways(claim.classes, claim.end, limits);
            check_each(claim, limits, out.as_slice(), children, depth - 1)
        }
        Tree::Open => claim.takes_open,
    }
}

// Whether the node is accepted under the limits where fewer than m pages of the class start early.
#[cycle(checking)]
fn check_below(claim: &Claim, limits: &mut Limits, at: SplitPoint, tree: &Tree, depth: u32) -> bool
    requires ordered { AreInOrder claim.now.classes.now limits.old }
    requires class { at.class < 136 }
    requires above { slice_index limits.old.lo at.class < at.m }
    requires within { at.m ≤ slice_index limits.old.hi at.class }
    ensures accepted { IsTrue result ↔
        AcceptsWithin claim.now.takes_open claim.now.classes.now claim.now.end claim.now.batches
        (limits_below limits.old at.class at.m) depth (bound_tree_of tree.now) }
    ensures same_limits { limits.new ≡ limits.old }
{
    let most = limits.hi[at.class as usize];
    limits.hi[at.class as usize] = at.m - 1;
    let accepted = check_node(claim, limits, tree, depth);
    limits.hi[at.class as usize] = most;
    accepted
}

// Whether the node is accepted under the limits where at least m pages of the class start early.
#[cycle(checking)]
fn check_from(claim: &Claim, limits: &mut Limits, at: SplitPoint, tree: &Tree, depth: u32) -> bool
    requires ordered { AreInOrder claim.now.classes.now limits.old }
    requires class { at.class < 136 }
    requires above { slice_index limits.old.lo at.class < at.m }
    requires within { at.m ≤ slice_index limits.old.hi at.class }
    ensures accepted { IsTrue result ↔
        AcceptsWithin claim.now.takes_open claim.now.classes.now claim.now.end claim.now.batches
        (limits_from limits.old at.class at.m) depth (bound_tree_of tree.now) }
    ensures same_limits { limits.new ≡ limits.old }
{
    let least = limits.lo[at.class as usize];
    limits.lo[at.class as usize] = at.m;
    let accepted = check_node(claim, limits, tree, depth);
    limits.lo[at.class as usize] = least;
    accepted
}

// Whether each way out of the set has its node accepted. The room for the ways is cleared in here: at
// the start of `check_node` it would be cleared for each node.
#[cycle(checking)]
fn check_cut(claim: &Claim, limits: &mut Limits, set: u16, children: &[Tree], depth: u32) -> bool
    requires ordered { AreInOrder claim.now.classes.now limits.old }
    requires batches { 0 < claim.now.batches }
    ensures accepted { IsTrue result ↔
        AcceptsEachWithin claim.now.takes_open claim.now.classes.now claim.now.end claim.now.batches
        limits.old depth (ways_across claim.now.classes.now limits.old set) (bounds_of children.now) }
    ensures same_limits { limits.new ≡ limits.old }
{
    let out = ways(claim.classes, limits, set, claim.batches);
    check_each(claim, limits, out.as_slice(), children, depth)
}

#[cycle(checking)]
fn check_each(
    claim: &Claim,
    limits: &mut Limits,
    ways: &[Way],
    children: &[Tree],
    depth: u32,
) -> bool
    requires ordered { AreInOrder claim.now.classes.now limits.old }
    requires batches { 0 < claim.now.batches }
    requires allowed { All (MayTake claim.now.classes.now limits.old) ways.now }
    ensures accepted { IsTrue result ↔
        AcceptsEachWithin claim.now.takes_open claim.now.classes.now claim.now.end claim.now.batches
        limits.old depth ways.now (bounds_of children.now) }
    ensures same_limits { limits.new ≡ limits.old }
{
    if ways.len() != children.len() {
        return false;
    }
    for (place, child) in children.iter().enumerate() {
        if !check_way(claim, limits, ways[place], child, depth) {
            return false;
        }
    }
    true
}

// Whether the node is accepted under the limits that the way leaves, as `narrow` has them.
#[cycle(checking)]
fn check_way(claim: &Claim, limits: &mut Limits, way: Way, tree: &Tree, depth: u32) -> bool
    requires ordered { AreInOrder claim.now.classes.now limits.old }
    requires batches { 0 < claim.now.batches }
    requires way { MayTake claim.now.classes.now limits.old way }
    ensures accepted { IsTrue result ↔
        AcceptsWithin claim.now.takes_open claim.now.classes.now claim.now.end claim.now.batches
        (narrowed_limits claim.now.classes.now limits.old way claim.now.batches) depth (bound_tree_of tree.now) }
    ensures same_limits { limits.new ≡ limits.old }
{
    match way {
        Way::IdleIn(slot) => {
            let most = limits.cap[slot as usize];
            limits.cap[slot as usize] = most.min(claim.batches - 1);
            let accepted = check_node(claim, limits, tree, depth);
            limits.cap[slot as usize] = most;
            accepted
        }
        Way::Early(class) => {
            let least = limits.lo[class as usize];
            limits.lo[class as usize] = least.max(1);
            let accepted = check_node(claim, limits, tree, depth);
            limits.lo[class as usize] = least;
            accepted
        }
        Way::Late(class) => {
            let most = limits.hi[class as usize];
            limits.hi[class as usize] = most.min(claim.classes.count[class as usize] - 1);
            let accepted = check_node(claim, limits, tree, depth);
            limits.hi[class as usize] = most;
            accepted
        }
    }
}
