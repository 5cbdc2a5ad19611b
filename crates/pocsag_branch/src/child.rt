ghost use Rattle.std.specs.Prelude.{◌≡◌, ◌<◌, IsTrue, IfOk, IfSome, IfNone};
ghost use Rattle.pocsag_slots.specs.Ways.{class_certain, limits_below, limits_from, MayTake, narrowed_limits};
ghost use Rattle.pocsag_tree.specs.BoundTrees.{split};
ghost use Rattle.pocsag_tree.specs.Views.{bound_tree_of};
ghost use Rattle.pocsag_branch.specs.Shape.{NoneCertain};
ghost use Rattle.pocsag_branch.specs.Undecided.{Falls, IsSplitPoint, undecided};

use crate::boundaries::BoundarySet;
use crate::node::Node;
use pocsag_slots::{CLASSES, Class, Way, below_split, from_split, is_certain, narrow};
use pocsag_tree::Tree;
use std::alloc::{AllocError, AllocFailed, Global};

// The children of a node. Each is made on the heap by a call of its own, so that a level of a deep tree takes little
// of the stack.

// The child that takes the way.
#[inline(never)]
pub(crate) fn child_by<'a>(
    alloc: Global,
    node: &Node<'a>,
    way: Way,
) -> Result<Box<Node<'a>>, AllocError>
    requires way { MayTake node.now.classes.now node.now.limits way }
    requires falls { Falls node.now.classes.now node.now.task.batches node.now.limits way }
    ensures classes { IfOk result (λ child. child.value.classes.now ≡ node.now.classes.now) }
    ensures task { IfOk result (λ child. child.value.task ≡ node.now.task) }
    ensures limits { IfOk result (λ child. child.value.limits ≡
        narrowed_limits node.now.classes.now node.now.limits way node.now.task.batches) }
    ensures falls { IfOk result (λ child.
        undecided child.value.classes.now child.value.task.batches child.value.limits <
        undecided node.now.classes.now node.now.task.batches node.now.limits) }
{
    let child = Node {
        classes: node.classes,
        task: node.task,
        limits: narrow(node.classes, &node.limits, way, node.task.batches),
    };
    Ok(Box::new(alloc, child)?)
}

// The lower child of a split.
#[inline(never)]
pub(crate) fn lower_child<'a>(
    alloc: Global,
    node: &Node<'a>,
    class: Class,
    m: u16,
) -> Result<Box<Node<'a>>, AllocError>
    requires { IsSplitPoint node.now.classes.now node.now.task.batches node.now.limits class.number m }
    ensures classes { IfOk result (λ child. child.value.classes.now ≡ node.now.classes.now) }
    ensures task { IfOk result (λ child. child.value.task ≡ node.now.task) }
    ensures limits { IfOk result (λ child. child.value.limits ≡ limits_below node.now.limits class.number m) }
    ensures falls { IfOk result (λ child.
        undecided child.value.classes.now child.value.task.batches child.value.limits <
        undecided node.now.classes.now node.now.task.batches node.now.limits) }
{
    let child = Node {
        classes: node.classes,
        task: node.task,
        limits: below_split(&node.limits, class.number, u32::from(m)),
    };
    Ok(Box::new(alloc, child)?)
}

// The upper child of a split.
#[inline(never)]
pub(crate) fn upper_child<'a>(
    alloc: Global,
    node: &Node<'a>,
    class: Class,
    m: u16,
) -> Result<Box<Node<'a>>, AllocError>
    requires { IsSplitPoint node.now.classes.now node.now.task.batches node.now.limits class.number m }
    ensures classes { IfOk result (λ child. child.value.classes.now ≡ node.now.classes.now) }
    ensures task { IfOk result (λ child. child.value.task ≡ node.now.task) }
    ensures limits { IfOk result (λ child. child.value.limits ≡ limits_from node.now.limits class.number m) }
    ensures falls { IfOk result (λ child.
        undecided child.value.classes.now child.value.task.batches child.value.limits <
        undecided node.now.classes.now node.now.task.batches node.now.limits) }
{
    let child = Node {
        classes: node.classes,
        task: node.task,
        limits: from_split(&node.limits, class.number, u32::from(m)),
    };
    Ok(Box::new(alloc, child)?)
}

// The tree of a split over those of its two children.
pub(crate) fn split_tree(
    alloc: Global,
    class: Class,
    m: u16,
    below: Tree,
    from: Tree,
) -> Result<Tree, AllocFailed<Tree>>
    ensures { IfOk result
        (λ tree. bound_tree_of tree ≡ split class.number m (bound_tree_of below) (bound_tree_of from)) }
{
    let below = Box::new(alloc, below)?;
    let from = Box::new(alloc, from)?;
    Ok(Tree::Split {
        class: class.number,
        m,
        below,
        from,
    })
}

// The first class that is certain for the set.
pub(crate) fn certain_class(node: &Node<'_>, set: BoundarySet) -> Option<Class>
    ensures certain { IfSome result
        (λ class. IsTrue (class_certain node.now.classes.now node.now.limits set.members class.number)) }
    ensures none { IfNone result (NoneCertain node.now.classes.now node.now.limits set.members) }
{
    for class in 0..CLASSES as u8 {
        if is_certain(node.classes, &node.limits, set.members, class) {
            return Some(Class { number: class });
        }
    }
    None
}
