ghost use Rattle.std.specs.Prelude.{◌≤◌, ◌↔◌, IsTrue};
ghost use Rattle.pocsag_journal.specs.Growth.{IsDue};

// A journal of at most so many bytes stays as it is while its round is open.
const LEAST_ANEW: usize = 1_048_576;

// What the pages of a longer one need is counted once it has grown by one part in so many, so that counting costs each edit
// the same.
const GROWTH_PARTS: usize = 8;

/// How many bytes a journal has, and how many it had when what its pages need was counted last.
#[derive(Clone, Copy, Drop)]
pub(crate) struct Sizes {
    pub len: usize,
    pub counted: usize,
    ghost within: { counted ≤ len },
}

impl Sizes {
    /// Whether it is long enough for that to be counted again.
    pub fn is_due(self) -> bool
        ensures { IsTrue result ↔ IsDue self.counted self.len }
    {
        self.len > LEAST_ANEW && self.len - self.counted > self.counted / GROWTH_PARTS
    }
}
