ghost use Rattle.std.specs.Prelude.{◌≡◌, ◌+◌, ◌<◌, ◌≤◌, ◌↔◌, IsSome, IfSome, IsErrOf};
ghost use Rattle.pocsag_words.specs.Devices.{CountsFailures, Delivers, HasFailed};
ghost use Rattle.pocsag_tree.specs.Limits.{most_nodes, second_ranges};
ghost use Rattle.pocsag_tree.specs.BoundTrees.{all_nodes, all_nodes_in, depth_of, deepest};
ghost use Rattle.pocsag_tree.specs.Views.{bound_tree_of, bounds_of};
ghost use Rattle.pocsag_tree.specs.CertificateText.{IsInRange, AreInRange, HasText, node, row, written_head, written_text};

use crate::limits::{DEPTH_LIMIT, NODE_LIMIT, SECOND_VERSION};
use crate::refusals::TreeWriteFault;
use crate::shape::Tree;
use pocsag_words::{DeviceFault, End, Sink, write_all};

// How many nodes there are with those of the tree, where the tree has a text: every field in its
// range, no node deeper than this, and not too many nodes. It looks at no node that is deeper.
#[cycle(measured)]
fn measured(tree: &Tree, depth: u32, nodes: u32) -> Option<u32>
    requires { nodes ≤ most_nodes }
    ensures fits { IsSome result ↔ (IsInRange second_ranges (bound_tree_of tree.now)
        × (depth_of (bound_tree_of tree.now) ≤ depth)
        × (nodes + all_nodes (bound_tree_of tree.now) ≤ most_nodes)) }
    ensures count { IfSome result (λ n. n ≡ nodes + all_nodes (bound_tree_of tree.now)) }
{
    if depth == 0 {
        return None;
    }
    if nodes >= NODE_LIMIT {
        return None;
    }
    measured_node(tree, depth - 1, nodes + 1)
}

// The same where the node itself is counted already, and its children have this depth.
#[cycle(measured)]
fn measured_node(tree: &Tree, depth: u32, nodes: u32) -> Option<u32>
    requires { nodes ≤ most_nodes }
    ensures fits { IsSome result ↔ (IsInRange second_ranges (bound_tree_of tree.now)
        × (depth_of (bound_tree_of tree.now) ≤ depth + 1)
        × (nodes + all_nodes (bound_tree_of tree.now) ≤ most_nodes + 1)) }
    ensures count { IfSome result (λ n. n + 1 ≡ nodes + all_nodes (bound_tree_of tree.now)) }
{
    match tree {
        Tree::Overload(set) => {
            if *set == 0 {
                return None;
            }
            Some(nodes)
        }
        Tree::Split {
            class,
            m,
            below,
            from,
        } => {
            if *class > SECOND_VERSION.class || *m == 0 || *m > SECOND_VERSION.m {
                return None;
            }
            match measured(below, depth, nodes) {
                Some(nodes) => measured(from, depth, nodes),
                None => None,
            }
        }
        Tree::Cut {
            set,
            needed,
            children,
        } => {
            if *set == 0 || *needed > SECOND_VERSION.class {
                return None;
            }
            if children.len() < 2 || children.len() > usize::from(SECOND_VERSION.children) {
                return None;
            }
            measured_row(children, depth, nodes)
        }
        Tree::Close { children } => {
            if children.len() == 0 || children.len() > 2 {
                return None;
            }
            measured_row(children, depth, nodes)
        }
        Tree::Open => Some(nodes),
    }
}

#[cycle(measured)]
fn measured_row(trees: &[Tree], depth: u32, nodes: u32) -> Option<u32>
    requires { nodes ≤ most_nodes }
    ensures fits { IsSome result ↔ (AreInRange second_ranges (bounds_of trees.now)
        × (deepest (bounds_of trees.now) ≤ depth)
        × (nodes + all_nodes_in (bounds_of trees.now) ≤ most_nodes)) }
    ensures count { IfSome result (λ n. n ≡ nodes + all_nodes_in (bounds_of trees.now)) }
{
    let mut reached = nodes;
    for tree in trees {
        match measured(tree, depth, reached) {
            Some(after) => reached = after,
            None => return None,
        }
    }
    Some(reached)
}

fn write_head<S: Sink>(end: End, batches: u32, writer: &mut S) -> Result<(), DeviceFault>
    ensures delivers { S.is_known → Delivers result (S.taken writer.old) (S.taken writer.new)
        (written_head end batches) }
    ensures failures { CountsFailures result (S.failures writer.old) (S.failures writer.new) }
{
    let batches = batches.to_be_bytes();
    match end {
        End::Open => write_all(
            writer,
            &[
                0x50, 0x43, 0x42, 0x32, 0, batches[0], batches[1], batches[2], batches[3],
            ],
        ),
        End::Closed => write_all(
            writer,
            &[
                0x50, 0x43, 0x42, 0x32, 1, batches[0], batches[1], batches[2], batches[3],
            ],
        ),
        End::Idle => write_all(
            writer,
            &[
                0x50, 0x43, 0x42, 0x34, batches[0], batches[1], batches[2], batches[3],
            ],
        ),
    }
}

// Writes the text of a tree: the node, and then all below it.
#[cycle(written)]
fn write_node<S: Sink>(tree: &Tree, writer: &mut S) -> Result<(), DeviceFault>
    requires { IsInRange second_ranges (bound_tree_of tree.now) }
    ensures delivers { S.is_known → Delivers result (S.taken writer.old) (S.taken writer.new)
        (node (bound_tree_of tree.now)) }
    ensures failures { CountsFailures result (S.failures writer.old) (S.failures writer.new) }
{
    match tree {
        Tree::Overload(set) => {
            let set = set.to_be_bytes();
            write_all(writer, &[0, set[0], set[1]])
        }
        Tree::Split {
            class,
            m,
            below,
            from,
        } => {
            let m = m.to_be_bytes();
            write_all(writer, &[1, *class, m[0], m[1]])?;
            write_node(below, writer)?;
            write_node(from, writer)
        }
        Tree::Cut {
            set,
            needed,
            children,
        } => {
            let set = set.to_be_bytes();
            let count = (children.len() as u16).to_be_bytes();
            write_all(writer, &[2, set[0], set[1], *needed, count[0], count[1]])?;
            write_row(children, writer)
        }
        Tree::Open => write_all(writer, &[3]),
        Tree::Close { children } => {
            write_all(writer, &[4, children.len() as u8])?;
            write_row(children, writer)
        }
    }
}

#[cycle(written)]
fn write_row<S: Sink>(trees: &[Tree], writer: &mut S) -> Result<(), DeviceFault>
    requires { AreInRange second_ranges (bounds_of trees.now) }
    ensures delivers { S.is_known → Delivers result (S.taken writer.old) (S.taken writer.new)
        (row (bounds_of trees.now)) }
    ensures failures { CountsFailures result (S.failures writer.old) (S.failures writer.new) }
{
    for tree in trees {
        write_node(tree, writer)?;
    }
    Ok(())
}

/// Writes the certificate of an end, a number of batches and a tree that are known to have one, as those of a
/// plan are: the tree is walked once, to be written. After a fault a prefix of the certificate stands.
pub fn write_text<S: Sink>(
    end: End,
    batches: u32,
    tree: &Tree,
    writer: &mut S,
) -> Result<(), DeviceFault>
    requires { HasText second_ranges batches (bound_tree_of tree.now) }
    ensures delivers { S.is_known → Delivers result (S.taken writer.old) (S.taken writer.new)
        (written_text end batches (bound_tree_of tree.now)) }
    ensures failures { CountsFailures result (S.failures writer.old) (S.failures writer.new) }
{
    write_head(end, batches, writer)?;
    write_node(tree, writer)
}

/// Writes the certificate of the end, the number of batches and the tree: in version PCB4 for the idle
/// end, and in PCB2 for the others.
///
/// `BadTree` where they have none: no batches, a field outside its range, a depth above `DEPTH_LIMIT`, or more than
/// `NODE_LIMIT` nodes; then nothing is written. After `WriteFault` a prefix of the certificate stands. It looks at no
/// node below depth 301, and takes no memory. It writes in pieces of a few bytes, so a writer to a file must be
/// buffered.
pub fn write_certificate<S: Sink>(
    end: End,
    batches: u32,
    tree: &Tree,
    writer: &mut S,
) -> Result<(), TreeWriteFault>
    // Exactly what has no text is refused, and nothing is written then.
    ensures bad { IsErrOf result TreeWriteFault.BadTree
        → ¬ HasText second_ranges batches (bound_tree_of tree.now) }
    ensures good { ¬ IsErrOf result TreeWriteFault.BadTree
        → HasText second_ranges batches (bound_tree_of tree.now) }
    ensures untouched { IsErrOf result TreeWriteFault.BadTree → writer.new ≡ writer.old }
    // The text is written whole, or a prefix of it where the writer failed.
    ensures delivers { S.is_known → Delivers result (S.taken writer.old) (S.taken writer.new)
        (written_text end batches (bound_tree_of tree.now)) }
    ensures succeeded { ¬ IsErrOf result TreeWriteFault.WriteFault
        → S.failures writer.new ≡ S.failures writer.old }
    ensures failed { IsErrOf result TreeWriteFault.WriteFault
        → HasFailed (S.failures writer.old) (S.failures writer.new) }
{
    if batches == 0 || measured(tree, DEPTH_LIMIT, 0).is_none() {
        return Err(TreeWriteFault::BadTree);
    }
    match write_text(end, batches, tree, writer) {
        Ok(()) => Ok(()),
        Err(_) => Err(TreeWriteFault::WriteFault),
    }
}
