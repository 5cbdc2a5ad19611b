ghost use Rattle.std.specs.Prelude.{◌≡◌};
ghost use Rattle.pocsag_slots.specs.Loads.{AreInOrder};
ghost use Rattle.pocsag_findings.specs.Descents.{MayDescend, position_by};

use crate::finding::Reached;
use pocsag_slots::{Classes, Limits, Way, below_split, from_split, narrow};
use pocsag_words::End;
use std::alloc::Global;

/// What the nodes are judged for, and how deep they are listed. The batches are one fewer than the certificate's.
#[derive(Clone, Copy)]
pub(crate) struct NodeContext<'a> {
    pub(crate) alloc: Global,
    pub(crate) classes: &'a Classes,
    pub(crate) end: End,
    pub(crate) batches: u32,
    pub(crate) depth: u32,
}

// Where a node stands: under these limits, below so many nodes, and how it is reached.
#[derive(Clone, Copy)]
pub(crate) struct Position {
    pub(crate) limits: Limits,
    pub(crate) above: u32,
    pub(crate) reached: Reached,
}

// What leads from a node to a child.
#[derive(Clone, Copy)]
pub(crate) enum Descent {
    // To the root, from no node: the limits stay as they are.
    Start,
    // To the first child of a split.
    Low { class: u8, m: u16 },
    // To the second child of a split.
    High { class: u8, m: u16 },
    // By a way out of a cut, or a way to close.
    Take(Way),
    // To a child of a node whose rule does not hold, or that cannot be judged.
    Unjudged,
}

impl Descent {
    // Where the child stands, below so many nodes, if the node stands under these limits.
    pub(crate) fn position(self, context: &NodeContext, limits: &Limits, above: u32) -> Position
        requires ordered { AreInOrder context.now.classes.now limits.now }
        requires allowed { MayDescend context.now.classes.now context.now.batches limits.now self }
        ensures place { result ≡ position_by context.now.classes.now context.now.batches limits.now above self }
        ensures above { result.above ≡ above }
        ensures ordered { AreInOrder context.now.classes.now result.limits }
    {
        let (limits, reached) = match self {
            Descent::Start => (*limits, Reached::Root),
            Descent::Low { class, m } => (below_split(limits, class, u32::from(m)), Reached::Below),
            Descent::High { class, m } => (from_split(limits, class, u32::from(m)), Reached::From),
            Descent::Take(way) => (
                narrow(context.classes, limits, way, context.batches),
                Reached::By(way),
            ),
            Descent::Unjudged => (*limits, Reached::Unreached),
        };
        Position {
            limits,
            above,
            reached,
        }
    }
}
