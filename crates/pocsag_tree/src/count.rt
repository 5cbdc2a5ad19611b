ghost use Rattle.std.specs.Prelude.{◌≡◌, min};
ghost use Rattle.pocsag_tree.specs.BoundTrees.{closed_nodes, closed_nodes_in, depth_of, deepest, greatest_count};
ghost use Rattle.pocsag_tree.specs.Views.{bound_tree_of, bounds_of};

use crate::shape::Tree;

/// How many nodes the tree has that are not `Open`, or the greatest `u64` where that is less.
///
/// It goes as deep on the stack as the tree does.
#[cycle(nodes)]
pub fn nodes(tree: &Tree) -> u64
    ensures { result ≡ min (closed_nodes (bound_tree_of tree.now)) greatest_count }
{
    match tree {
        Tree::Overload(_) => 1,
        Tree::Split { below, from, .. } => {
            nodes(below).saturating_add(nodes(from)).saturating_add(1)
        }
        Tree::Cut { children, .. } => nodes_in(children).saturating_add(1),
        Tree::Close { children } => nodes_in(children).saturating_add(1),
        Tree::Open => 0,
    }
}

#[cycle(nodes)]
fn nodes_in(trees: &[Tree]) -> u64
    ensures { result ≡ min (closed_nodes_in (bounds_of trees.now)) greatest_count }
{
    let mut sum: u64 = 0;
    for tree in trees {
        sum = sum.saturating_add(nodes(tree));
    }
    sum
}

/// How deep the tree is, where a leaf has depth 1, or the greatest `u64` where that is less.
///
/// It goes as deep on the stack as the tree does.
#[cycle(depth)]
pub fn depth(tree: &Tree) -> u64
    ensures { result ≡ min (depth_of (bound_tree_of tree.now)) greatest_count }
{
    match tree {
        Tree::Overload(_) => 1,
        Tree::Split { below, from, .. } => depth(below).max(depth(from)).saturating_add(1),
        Tree::Cut { children, .. } => deepest_of(children).saturating_add(1),
        Tree::Close { children } => deepest_of(children).saturating_add(1),
        Tree::Open => 1,
    }
}

#[cycle(depth)]
fn deepest_of(trees: &[Tree]) -> u64
    ensures { result ≡ min (deepest (bounds_of trees.now)) greatest_count }
{
    let mut most: u64 = 0;
    for tree in trees {
        most = most.max(depth(tree));
    }
    most
}
