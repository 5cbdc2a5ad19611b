ghost use Rattle.std.specs.Prelude.{◌≡◌, ◌<◌, All, IfOk, if◌then◌else◌, true, length, ℕ};
ghost use Rattle.pocsag_words.specs.declared.ending.End.{End};
ghost use Rattle.pocsag_slots.specs.declared.class.Classes.{Classes};
ghost use Rattle.pocsag_slots.specs.declared.limit.Limits.{Limits};
ghost use Rattle.pocsag_slots.specs.Loads.{AreInOrder};
ghost use Rattle.pocsag_slots.specs.Ways.{MayTake};
ghost use Rattle.pocsag_tree.specs.Views.{bound_tree_of, bounds_of};
ghost use Rattle.pocsag_findings.specs.Findings.{findings_below, findings_by, unjudged_below};
ghost use Rattle.pocsag_findings.specs.Rules.{fact_holds, fact_of};
ghost use Rattle.pocsag_findings.specs.Descents.{MayDescend};
ghost use Rattle.pocsag_findings.specs.Walks.{found_from};

use crate::position::{Descent, NodeContext};
use pocsag_slots::{Limits, Way, ending_ways, ways};
use pocsag_tree::Tree;
use pocsag_words::OutOfMemory;
use std::alloc::Global;

// A child of a node: what leads to it, and its tree.
#[derive(Clone, Copy)]
pub(crate) struct Child<'a> {
    pub(crate) descent: Descent,
    pub(crate) tree: &'a Tree,
}

// A node of which children may be left: its limits, how many nodes stand above a child, and the index of the child that
// is taken next.
#[derive(Drop)]
pub(crate) struct Level<'a> {
    pub(crate) limits: Limits,
    pub(crate) above: u32,
    pub(crate) children: Vec<Child<'a>>,
    pub(crate) next: usize,
}

// The children of a node that cannot be judged, or whose rule does not hold.
fn unjudged_children<'a>(alloc: Global, tree: &'a Tree) -> Result<Vec<Child<'a>>, OutOfMemory>
    ensures found { IfOk result (λ children. (k : Classes) (end : End) (b depth : ℕ) (l : Limits) (above : ℕ) →
        found_from k end b depth l above children.items ≡ unjudged_below depth above (bound_tree_of tree.now)) }
    ensures allowed { IfOk result (λ children. (k : Classes) (b : ℕ) (l : Limits) →
        All (λ child. MayDescend k b l child.descent) children.items) }
{
    let mut found = Vec::new(alloc);
    match tree {
        Tree::Overload(_) | Tree::Open => Ok(found),
        Tree::Split { below, from, .. } => {
            found.push(Child {
                descent: Descent::Unjudged,
                tree: below,
            })?;
            found.push(Child {
                descent: Descent::Unjudged,
                tree: from,
            })?;
            Ok(found)
        }
        Tree::Cut { children, .. } | Tree::Close { children } => {
            for child in children {
                found.push(Child {
                    descent: Descent::Unjudged,
                    tree: child,
                })?;
            }
            Ok(found)
        }
    }
}

// The children of a node under its limits, whose rule holds or not.
pub(crate) fn children_of<'a>(
    context: &NodeContext,
    limits: &Limits,
    tree: &'a Tree,
    holds: bool,
) -> Result<Vec<Child<'a>>, OutOfMemory>
    requires ordered { AreInOrder context.now.classes.now limits.now }
    requires holds { holds ≡ true → fact_holds context.now.end context.now.batches
        (fact_of context.now.classes.now context.now.end limits.now (bound_tree_of tree.now)) ≡ true }
    ensures found { IfOk result (λ children. (depth above : ℕ) →
        found_from context.now.classes.now context.now.end context.now.batches depth limits.now above children.items
        ≡ (if holds
        then findings_below context.now.classes.now context.now.end context.now.batches depth limits.now above
        (bound_tree_of tree.now)
        else unjudged_below depth above (bound_tree_of tree.now))) }
    ensures allowed { IfOk result (λ children.
        All (λ child. MayDescend context.now.classes.now context.now.batches limits.now child.descent) children.items) }
{
    if !holds {
        return unjudged_children(context.alloc, tree);
    }
    let mut found = Vec::new(context.alloc);
    match tree {
        Tree::Overload(_) | Tree::Open => Ok(found),
        Tree::Split {
            class,
            m,
            below,
            from,
        } => {
            let (class, m) = (*class, *m);
            found.push(Child {
                descent: Descent::Low { class, m },
                tree: below,
            })?;
            found.push(Child {
                descent: Descent::High { class, m },
                tree: from,
            })?;
            Ok(found)
        }
        Tree::Cut { set, children, .. } => {
            let out = ways(context.classes, limits, *set, context.batches);
            children_by(context.alloc, out.as_slice(), children)
        }
        Tree::Close { children } => {
            let out = ending_ways(context.classes, context.end, limits);
            children_by(context.alloc, out.as_slice(), children)
        }
    }
}

// These children, each by its way.
fn children_by<'a>(
    alloc: Global,
    ways: &[Way],
    children: &'a [Tree],
) -> Result<Vec<Child<'a>>, OutOfMemory>
    requires long { length ways.now ≡ length children.now }
    ensures found { IfOk result (λ found. (k : Classes) (end : End) (b depth : ℕ) (l : Limits) (above : ℕ) →
        found_from k end b depth l above found.items
        ≡ findings_by k end b depth l above ways.now (bounds_of children.now)) }
    ensures allowed { IfOk result (λ found. (k : Classes) (b : ℕ) (l : Limits) → 0 < b → All (MayTake k l) ways.now →
        All (λ child. MayDescend k b l child.descent) found.items) }
{
    let mut found = Vec::new(alloc);
    for (index, child) in children.iter().enumerate() {
        found.push(Child {
            descent: Descent::Take(ways[index]),
            tree: child,
        })?;
    }
    Ok(found)
}
