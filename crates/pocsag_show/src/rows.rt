ghost use Rattle.std.specs.Prelude.{◌≡◌, ◌-◌, ◌<◌, ◌≤◌, ◌^◌, ◌⊎◌, IfSome, OnSome, IsNone};

use std::fmt::{self, Display, Formatter};

/// The rows that are wanted of a picture: batches, counted from 1.
#[derive(Clone, Copy, PartialEq, Eq, Debug)]
pub struct Rows {
    /// The first that is drawn.
    pub first: u64,
    /// The last; if there are fewer batches, their last one.
    pub last: u64,
    ghost counted: { 1 ≤ first },
    ghost order: { first ≤ last },
}

impl Rows {
    /// All rows.
    pub fn all() -> Rows
        ensures first { result.first ≡ 1 }
        ensures last { result.last ≡ 2 ^ 64 - 1 }
    {
        Rows {
            first: 1,
            last: u64::MAX,
        }
    }

    /// The rows from one to another, of which the first is 1 at least and the last not before it.
    pub fn new(first: u64, last: u64) -> Option<Rows>
        ensures given { IfSome result (λ rows. (rows.first ≡ first) × (rows.last ≡ last)) }
        ensures none { IsNone result → (first ≡ 0) ⊎ (last < first) }
    {
        if first == 0 || last < first {
            return None;
        }
        Some(Rows { first, last })
    }
}

impl Display for Rows {
    fn fmt<W: fmt::Write>(&self, f: &mut Formatter<W>) -> fmt::Result {
        let Rows { first, last } = *self;
        Display::fmt(&first, f)?;
        match last {
            last if last == first => Ok(()),
            u64::MAX => f.write_str("-"),
            last => write!(f, "-{last}"),
        }
    }
}
