use pocsag_slots::{Choice, Step};
use pocsag_tree::Tree;
use pocsag_words::End;

/// A plan of a round: how its pages are sent, and why fewer batches do not suffice. Within a `BoundedPlan` the
/// batches may be one more than the fewest, and the tree is for its bound.
#[derive(Drop)]
pub struct Plan {
    /// The end of the transmission that was asked for.
    pub end: End,
    /// How many batches the transmission has: the fewest.
    pub batches: u32,
    /// How many batches the round takes in file order, with the open end.
    pub in_order: u32,
    /// How many pages the round has.
    pub pages: u32,
    /// How many codewords the pages have.
    pub codewords: u32,
    /// The runs and idles of the transmission, in order.
    pub steps: Vec<Step>,
    /// The places in the round, from 0, of the pages of the runs, in order.
    pub order: Vec<u32>,
    /// How many pages of each class start early.
    pub choice: Choice,
    /// The tree that refutes one batch less.
    pub tree: Tree,
}
