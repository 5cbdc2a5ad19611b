//! The line of `--verbose` on a line of an open round that is refused.

use csv::ByteRecord;
use pocsag_journal::{Line, line_of, record_of};
use pocsag_shell::{Context, Excerpt};

// What is wrong with the fields of a line `plan` that is none.
fn wrong_field(row: &ByteRecord) -> &'static str {
    let (Some(tx), Some(cert)) = (row.get(1), row.get(2)) else {
        return "TX and CERT are wanted";
    };
    if str::from_utf8(tx).is_err() || str::from_utf8(cert).is_err() {
        return "TX and CERT must be UTF-8";
    }
    let ends: [&[u8]; 3] = [b"open", b"closed", b"idle"];
    let names_end = ends.iter().any(|end| row.get(3) == Some(*end));
    match row.len() {
        4 | 5 if !names_end => "END must be open, closed or idle",
        5 => "B must be a number from 1 to 4294967295, without a sign or leading zeros",
        _ => "nothing follows TX, CERT, END and B",
    }
}

/// Prints a line that changed no page, and what is wrong with its words where its answer does not say it. A `clear` of no pages is
/// not refused.
pub(crate) fn print_refused(context: Context<'_>, line: &[u8]) {
    let text = Excerpt { bytes: line };
    match record_of(context.alloc, line) {
        Ok(row) => match line_of(&row) {
            Line::Clear => return,
            Line::Unknown if row.get(0) == Some(b"plan".as_slice()) => {
                let wrong = wrong_field(&row);
                context.note(format_args!("plan: {wrong}"));
            }
            Line::Unknown => {
                let wrong = if row.get(0) == Some(b"add".as_slice()) {
                    "ADDRESS, KIND and MESSAGE are wanted, and quotes around a message that holds a comma"
                } else {
                    "the edits are add, cancel, sent and clear"
                };
                context.note(format_args!("{text}: {wrong}"));
            }
            _ => context.note(text),
        },
        Err(_) => context.note(text),
    }
    context.print_more(&[]);
}
