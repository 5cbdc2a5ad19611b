use crate::answer::Plan;
use pocsag_branch::SearchLimit;

/// A plan beside a bound: no transmission of the round has fewer than `bound` batches, and the plan has so
/// many, which are then the fewest, or one more; and so only where the search for the fewest stopped too.
#[derive(Drop)]
pub struct BoundedPlan {
    /// The plan. Its tree is for `bound`, not for `plan.batches`: it refutes one batch less than `bound`.
    pub plan: Plan,
    /// `plan.batches`, or one less.
    pub bound: u32,
    /// If the plan has one batch more than the bound: what `plan` returns at the same node limit, with the tree of
    /// exactly so many nodes that it made.
    pub stopped: Option<SearchLimit>,
}
