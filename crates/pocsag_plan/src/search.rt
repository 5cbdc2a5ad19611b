use pocsag_words::End;

/// What a planner does if its nodes do not decide between two numbers of batches.
#[derive(Clone, Copy, PartialEq, Eq, Debug)]
pub enum OnLimit {
    /// It returns `SearchLimit`.
    Fewest,
    /// It returns a plan of one batch more than its bound, and so refuses no round.
    Always,
}

/// How many nodes a planner may examine where no other number is named.
pub const DEFAULT_LIMIT: u32 = 100_000;

/// What is asked of a planner.
#[derive(Clone, Copy, PartialEq, Eq, Debug)]
pub struct Search {
    /// How many nodes it may examine, 1 to 1,000,000.
    pub limit: u32,
    /// The end of the transmission.
    pub end: End,
    pub on_limit: OnLimit,
}
