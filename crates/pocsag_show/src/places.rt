ghost use Rattle.std.specs.Prelude.{◌≡◌, ◌<◌, ◌^◌};
ghost use Rattle.pocsag_show.specs.Legend.{end_row_of, first_row_of, is_drawn};
ghost use Rattle.pocsag_show.specs.Drawing.{row_top};
ghost use Rattle.pocsag_show.specs.Placed.{index_behind};

use crate::placed::Placed;
use crate::window::Window;
use pocsag_words::BATCH_CODEWORDS;

/// The upper side of a row, where this row is drawn first.
pub(crate) fn row_top(low: usize, row: usize) -> u128
    ensures value { result ≡ row_top low row }
    ensures small { result < 2 ^ 100 }
{
    80 + 22 * row.saturating_sub(low) as u128
}

impl Placed {
    /// The index behind the last codeword.
    pub(crate) fn index_behind(&self) -> u128
        ensures value { result ≡ index_behind self.now }
        ensures small { result < 2 ^ 100 }
    {
        self.start as u128 + (1 + self.page.payload.as_slice().len() as u128)
    }

    /// Of the rows that are drawn the first in which the page may have codewords.
    pub(crate) fn first_row(&self, window: Window) -> usize
        ensures { result ≡ first_row_of window.low self.now }
    {
        window.low.max(self.start / BATCH_CODEWORDS)
    }

    /// The row behind the last.
    pub(crate) fn end_row(&self, window: Window) -> usize
        ensures { result ≡ end_row_of window.high self.now }
    {
        let end = (self.index_behind() + 15) / 16;
        if end < window.high as u128 {
            end as usize
        } else {
            window.high
        }
    }

    /// Whether the page has codewords in the rows that are drawn.
    pub(crate) fn is_drawn(&self, window: Window) -> bool
        ensures { result ≡ is_drawn window.low window.high self.now }
    {
        self.first_row(window) < self.end_row(window)
    }
}
