ghost use Rattle.std.specs.Prelude.{◌≡◌, false, true, ◌+◌, ◌<◌, ◌≤◌, ◌↔◌, All, IsTrue, IfErr, IfOk};
ghost use Rattle.pocsag_slots.specs.Tours.{AsksForLast};
ghost use Rattle.pocsag_slots.specs.Ways.{class_certain, MayTake, ways_across, ways_to_close};
ghost use Rattle.pocsag_tree.specs.Views.{bound_tree_of};
ghost use Rattle.pocsag_tree.specs.Limits.{greatest_depth};
ghost use Rattle.pocsag_check.specs.Acceptance.{AcceptsWithin};
ghost use Rattle.pocsag_branch.specs.Examined.{AreChildren, IsExamined, IsNodeAs, IsNodeKind, IsStop};
ghost use Rattle.pocsag_branch.specs.Shape.{AdmitApart, AdmitSplit, AdmitUnclosed};
ghost use Rattle.pocsag_branch.specs.Undecided.{Falls, IsSplitPoint};

use crate::boundaries::BoundarySet;
use crate::child::{child_by, lower_child, split_tree, upper_child};
use crate::fixed_kinds::fixed_kind;
use crate::free_kinds::free_kind;
use crate::node::{Children, Node};
use crate::task::{NodeKind, Stop, Task};
use pocsag_check::accepts;
use pocsag_slots::{Class, Way, ending_ways, ways};
use pocsag_tree::Tree;
use std::alloc::Global;

// Whether the tree of a child is accepted for the node itself; the free search keeps it then.
#[inline(never)]
fn stands_for(node: &Node<'_>, tree: &Tree) -> bool
    ensures { IsTrue result ↔ (node.now.task.fixed ≡ false ×
        AcceptsWithin false node.now.classes.now node.now.task.end node.now.task.batches node.now.limits
        greatest_depth (bound_tree_of tree.now)) }
{
    if node.task.fixed {
        return false;
    }
    let Task { end, batches, .. } = node.task;
    accepts(node.classes, &node.limits, batches, tree, end)
}

/// A tree that refutes the node with these limits, and how many nodes are examined after it. Once as many are
/// examined as the task allows, a node of the fixed search is `Open`, and the free search ends.
#[cycle(nodes)]
pub(crate) fn node_tree(alloc: Global, node: &Node<'_>, examined: u32) -> Result<(Tree, u32), Stop>
    requires { examined ≤ node.now.task.limit }
    ensures node { IfOk result
        (λ x. IsExamined node.now.classes.now node.now.task node.now.limits examined x.1 (bound_tree_of x.0)) }
    ensures stop { IfErr result (IsStop node.now.classes.now node.now.task) }
{
    if examined >= node.task.limit {
        if node.task.fixed {
            return Ok((Tree::Open, examined));
        }
        return Err(Stop::Limit);
    }
    let kind = if node.task.fixed {
        fixed_kind(alloc, node)?
    } else {
        free_kind(alloc, node)?
    };
    tree_of_kind(alloc, node, kind, examined)
}

/// The tree of a node of this form, after this many examined nodes.
#[cycle(nodes)]
pub(crate) fn tree_of_kind(
    alloc: Global,
    node: &Node<'_>,
    kind: NodeKind,
    examined: u32,
) -> Result<(Tree, u32), Stop>
    requires examined { examined < node.now.task.limit }
    requires kind { IsNodeKind node.now.classes.now node.now.task node.now.limits kind }
    requires shape { node.now.task.fixed ≡ true → IsNodeAs node.now.classes.now node.now.task node.now.limits kind }
    ensures node { IfOk result
        (λ x. IsExamined node.now.classes.now node.now.task node.now.limits examined x.1 (bound_tree_of x.0)) }
    ensures stop { IfErr result (IsStop node.now.classes.now node.now.task) }
{
    match kind {
        NodeKind::Overload(set) => Ok((Tree::Overload(set), examined + 1)),
        NodeKind::Cut { set, needed } => cut_node(alloc, node, set, needed, examined),
        NodeKind::Split { class, m } => split_node(alloc, node, class, m, examined),
        NodeKind::Close => close_node(alloc, node, examined),
    }
}

#[cycle(nodes)]
fn cut_node(
    alloc: Global,
    node: &Node<'_>,
    set: BoundarySet,
    needed: Class,
    examined: u32,
) -> Result<(Tree, u32), Stop>
    requires examined { examined < node.now.task.limit }
    requires certain { IsTrue (class_certain node.now.classes.now node.now.limits set.members needed.number) }
    requires fall { All (Falls node.now.classes.now node.now.task.batches node.now.limits)
        (ways_across node.now.classes.now node.now.limits set.members) }
    requires shape { node.now.task.fixed ≡ true →
        AdmitApart node.now.classes.now node.now.task.batches node.now.limits set.members }
    ensures node { IfOk result
        (λ x. IsExamined node.now.classes.now node.now.task node.now.limits examined x.1 (bound_tree_of x.0)) }
    ensures stop { IfErr result (IsStop node.now.classes.now node.now.task) }
{
    let out = ways(node.classes, &node.limits, set.members, node.task.batches);
    let (children, after) = child_nodes(alloc, node, &out, examined + 1)?;
    match children {
        Children::Whole(children) => Ok((
            Tree::Cut {
                set: set.members,
                needed: needed.number,
                children,
            },
            after,
        )),
        Children::Kept(tree) => Ok((tree, after)),
    }
}

#[cycle(nodes)]
fn close_node(alloc: Global, node: &Node<'_>, examined: u32) -> Result<(Tree, u32), Stop>
    requires examined { examined < node.now.task.limit }
    requires asks { AsksForLast node.now.task.end }
    requires fall { All (Falls node.now.classes.now node.now.task.batches node.now.limits)
        (ways_to_close node.now.classes.now node.now.task.end node.now.limits) }
    requires shape { node.now.task.fixed ≡ true →
        AdmitUnclosed node.now.classes.now node.now.task.end node.now.task.batches node.now.limits }
    ensures node { IfOk result
        (λ x. IsExamined node.now.classes.now node.now.task node.now.limits examined x.1 (bound_tree_of x.0)) }
    ensures stop { IfErr result (IsStop node.now.classes.now node.now.task) }
{
    let out = ending_ways(node.classes, node.task.end, &node.limits);
    let (children, after) = child_nodes(alloc, node, &out, examined + 1)?;
    match children {
        Children::Whole(children) => Ok((Tree::Close { children }, after)),
        Children::Kept(tree) => Ok((tree, after)),
    }
}

#[cycle(nodes)]
fn split_node(
    alloc: Global,
    node: &Node<'_>,
    class: Class,
    m: u16,
    examined: u32,
) -> Result<(Tree, u32), Stop>
    requires examined { examined < node.now.task.limit }
    requires point { IsSplitPoint node.now.classes.now node.now.task.batches node.now.limits class.number m }
    requires shape { node.now.task.fixed ≡ true →
        AdmitSplit node.now.classes.now node.now.task.batches node.now.limits class.number m }
    ensures node { IfOk result
        (λ x. IsExamined node.now.classes.now node.now.task node.now.limits examined x.1 (bound_tree_of x.0)) }
    ensures stop { IfErr result (IsStop node.now.classes.now node.now.task) }
{
    let under = lower_child(alloc, node, class, m)?;
    let (below, between) = node_tree(alloc, &under, examined + 1)?;
    if stands_for(node, &below) {
        return Ok((below, between));
    }
    let over = upper_child(alloc, node, class, m)?;
    let (from, after) = node_tree(alloc, &over, between)?;
    if stands_for(node, &from) {
        return Ok((from, after));
    }
    let tree = split_tree(alloc, class, m, below, from)?;
    Ok((tree, after))
}

/// The trees of the children that take these ways, in order, or the first that is accepted for the node
/// itself.
#[cycle(nodes)]
fn child_nodes(
    alloc: Global,
    node: &Node<'_>,
    ways: &[Way],
    examined: u32,
) -> Result<(Children, u32), Stop>
    requires examined { examined ≤ node.now.task.limit }
    requires allowed { All (MayTake node.now.classes.now node.now.limits) ways.now }
    requires fall { All (Falls node.now.classes.now node.now.task.batches node.now.limits) ways.now }
    ensures node { IfOk result
        (λ x. AreChildren node.now.classes.now node.now.task node.now.limits examined x.1 ways.now x.0) }
    ensures stop { IfErr result (IsStop node.now.classes.now node.now.task) }
{
    let mut children = Vec::new(alloc);
    let mut after = examined;
    for way in ways {
        let narrowed = child_by(alloc, node, *way)?;
        let (child, next) = node_tree(alloc, &narrowed, after)?;
        if stands_for(node, &child) {
            return Ok((Children::Kept(child), next));
        }
        children.push(child)?;
        after = next;
    }
    Ok((Children::Whole(children), after))
}
