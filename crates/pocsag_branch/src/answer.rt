use pocsag_slots::{Choice, Step};
use pocsag_tree::Tree;

/// What the search found: the fewest batches, a choice of starts with the steps of its tour, and the tree
/// that refutes one batch less.
#[derive(Drop)]
pub struct Found {
    pub batches: u32,
    pub choice: Choice,
    pub steps: Vec<Step>,
    pub tree: Tree,
}
