ghost use Rattle.pocsag_branch.specs.Undecided.{AreNodeLimits};

use crate::task::Task;
use pocsag_slots::{Classes, Limits};
use pocsag_tree::Tree;

// A node of a search: what is asked of the classes, and the limits of the choices that it stands for.
#[derive(Drop)]
pub(crate) struct Node<'a> {
    pub(crate) classes: &'a Classes,
    pub(crate) task: Task,
    pub(crate) limits: Limits,
    pub ghost within: { AreNodeLimits classes.now task.batches limits },
}

// The trees of all children of a node, or the tree of one that stands for the node itself.
#[derive(Drop)]
pub(crate) enum Children {
    Whole(Vec<Tree>),
    Kept(Tree),
}
