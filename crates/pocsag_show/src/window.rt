ghost use Rattle.std.specs.Prelude.{◌≡◌, ◌-◌};
ghost use Rattle.pocsag_show.specs.Drawing.{height};
ghost use Rattle.pocsag_show.specs.Rows.{end_row, first_row};

use crate::rows::Rows;

/// The rows that are drawn, counted from 0: from one up to before another.
#[derive(Clone, Copy)]
pub(crate) struct Window {
    pub(crate) low: usize,
    pub(crate) high: usize,
}

impl Window {
    /// What is wanted of a picture of so many rows.
    pub(crate) fn new(rows: Rows, batches: usize) -> Window
        ensures low { result.low ≡ first_row rows }
        ensures high { result.high ≡ end_row rows batches }
    {
        Window {
            low: (rows.first - 1) as usize,
            high: (rows.last as usize).min(batches),
        }
    }

    /// How many rows are drawn.
    pub(crate) fn count(self) -> usize
        ensures { result ≡ self.high - self.low }
    {
        self.high.saturating_sub(self.low)
    }

    /// How high a drawing of the rows is, where its legend has so many lines.
    pub(crate) fn height(self, lines: usize) -> u128
        ensures { result ≡ height (self.high - self.low) lines }
    {
        116 + 22 * (self.count() as u128 + lines as u128)
    }
}
