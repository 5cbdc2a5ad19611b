//! The sixteen slots of a node as columns.

use crate::finding::{Column, Fact, Finding};
use crate::sets::{BATCH_SLOTS, smaller_side};
use pocsag_slots::holds;
use std::alloc::AllocError;

// The line on which the bars stand, the height of the highest, and the left side of the first column.
const GROUND: u64 = 98;

const HIGHEST: u64 = 80;

const LEFT: u64 = 80;

const WIDTH: u64 = 28;

// What stands under the columns: the ground, and what their numbers are.
const AXIS: &str = "\
<path class='x' d='M80 98h448'/>\n\
<text class='e' x='74' y='112'>slot</text>\
<text class='e' x='74' y='126'>at least</text>\
<text class='e' x='74' y='140'>room</text>\n";

/// The number of codewords of the highest bar, on a scale in which all columns of the findings fit.
pub(crate) fn most_of(findings: &[Finding]) -> u64 {
    let mut most = 1;
    for finding in findings {
        for column in finding.columns.as_slice() {
            most = most.max(column.least).max(u64::from(column.room));
        }
    }
    most
}

// Where so many codewords are, above the ground.
fn top(most: u64, codewords: u64) -> u64 {
    let height = codewords.saturating_mul(HIGHEST) / most.max(1);
    GROUND.saturating_sub(height)
}

/// Adds the columns of a node, and marks the slots or boundaries that it names.
pub(crate) fn push_columns(
    text: &mut String,
    most: u64,
    finding: &Finding,
) -> Result<(), AllocError> {
    text.push_str(AXIS)?;
    let (slots, boundaries) = match finding.fact {
        Fact::Overload { set, .. } => (set, 0),
        Fact::Cut { set, .. } => (0, smaller_side(set)),
        _ => (0, 0),
    };
    for slot in 0..BATCH_SLOTS {
        if let Some(column) = finding.columns.get(usize::from(slot)) {
            push_column(text, most, slot, *column, holds(slots, slot))?;
        }
    }
    for boundary in 0..BATCH_SLOTS {
        if holds(boundaries, boundary) {
            let x = LEFT + WIDTH * u64::from(boundary);
            write!(text, "<path class='s' d='M{x} 6V102'/>\n")?;
        }
    }
    Ok(())
}

// A column: its bar, with a wedge over it where the slot is named, the room in it, and its numbers.
fn push_column(
    text: &mut String,
    most: u64,
    slot: u8,
    column: Column,
    is_named: bool,
) -> Result<(), AllocError> {
    let Column { least, room } = column;
    let words = if least == 1 { "codeword" } else { "codewords" };
    let class = if is_named { 'n' } else { 'c' };
    let left = LEFT.saturating_add(WIDTH.saturating_mul(u64::from(slot)));
    let x = left.saturating_add(4);
    let y = top(most, least);
    let tall = GROUND.saturating_sub(y);
    write!(
        text,
        "<g><title>slot {slot}: {least} {words} at the least, room for {room}</title>\
        <rect class='{class}' x='{x}' y='{y}' width='20' height='{tall}'/>"
    )?;
    if is_named {
        let wedge = left.saturating_add(9);
        write!(text, "<path class='w' d='M{wedge} 4h10l-5 8z'/>")?;
    }
    let y = top(most, u64::from(room));
    let x = left.saturating_add(WIDTH / 2);
    write!(
        text,
        "<path class='r' d='M{left} {y}h28'/>\
        <text class='m' x='{x}' y='112'>{slot}</text><text class='m' x='{x}' y='126'>{least}</text><text class='m' x='{x}' y='140'>{room}</text></g>\n"
    )
}
