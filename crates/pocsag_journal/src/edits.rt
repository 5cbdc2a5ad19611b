ghost use Rattle.std.specs.Prelude.{◌≡◌, ◌≢◌, ◌↔◌, ℕ, List, length, IfErr, IfNone, IfOk, IfSome, IsTrue, None, Some};
ghost use Rattle.std.specs.Str.{IsUtf8};
ghost use Rattle.csv.specs.Records.{field_at, fields_of};
ghost use Rattle.pocsag_words.specs.declared.ending.End.{End};
ghost use Rattle.pocsag_journal.specs.Asks.{IsAskedBy, IsAskedIn, IsPlanEnd, end_word};
ghost use Rattle.pocsag_journal.specs.Edited.{SpellsCount};
ghost use Rattle.pocsag_journal.specs.Runs.{asked_by_line, asked_in, asked_of};
ghost use Rattle.pocsag_pages.specs.RecordTexts.{IsRowText};
ghost use Rattle.pocsag_journal.specs.LineTexts.{IsUnread, record_text};

use crate::quote::{quote_state_of, without_return};
use crate::refusal::{Refusal, UndoneFault};
use csv::ByteRecord;
use pocsag_pages::{QuoteState, only_row};
use pocsag_words::End;
use std::alloc::Global;
use std::str;

/// What a line of an open round asks for.
#[derive(Clone, Copy)]
pub enum Line<'a> {
    /// `add,ADDRESS,KIND,MESSAGE`: three fields as in a page file.
    Add {
        address: &'a [u8],
        kind: &'a [u8],
        message: &'a [u8],
    },
    /// `cancel,ADDRESS`.
    Cancel {
        address: &'a [u8],
    },
    /// `sent,COUNT`: takes this many first pages out.
    Sent {
        count: &'a [u8],
    },
    /// `list`.
    List,
    /// `plan,TX,CERT`, the end where it is named, and how many batches the longest front may have.
    Plan {
        tx: &'a str,
        cert: &'a str,
        end: End,
        at_most: Option<u32>,
    },
    /// `clear`.
    Clear,
    /// `pocsag journal,1`: the first line of a journal, which asks for nothing.
    Journal,
    /// Anything else.
    Unknown,
}

/// The record of a line, without a carriage return at its end.
pub fn record_of(alloc: Global, line: &[u8]) -> Result<ByteRecord, Refusal>
    // The line is what the product would write for the record, or differs from it in quoting alone.
    ensures spelled { IfOk result (λ row. IsRowText (fields_of row) (record_text line.now)) }
    ensures refused { IfErr result (IsUnread (record_text line.now)) }
{
    let bare = without_return(line);
    match quote_state_of(bare) {
        QuoteState::Open => return Err(Refusal::InQuotes),
        QuoteState::Broken => return Err(Refusal::StrayQuote),
        QuoteState::Ended => return Err(Refusal::Unknown),
        QuoteState::Start | QuoteState::Bare | QuoteState::Closed => {}
    }
    match only_row(alloc, bare) {
        Ok(Some(row)) => Ok(row),
        Ok(None) => Err(Refusal::Unknown),
        Err(_) => Err(Refusal::Undone(UndoneFault::OutOfMemory)),
    }
}

/// What the record asks for.
#[tactic(auto, unfolding(crate::specs::Runs::asked_of))]
pub fn line_of(row: &ByteRecord) -> Line<'_>
    ensures edit { asked_by_line result ≡ asked_of (fields_of row.now) }
    ensures asks { IsAskedBy result (fields_of row.now) }
{
    let asked = match row.len() {
        1 => bare_line(row),
        2 => pair_line(row),
        3 => plan_line(row, End::Open, None),
        4 => long_line(row),
        5 => front_line(row),
        _ => None,
    };
    match asked {
        Some(line) => line,
        None => Line::Unknown,
    }
}

// Whether the field of this index is the word.
fn is_at(row: &ByteRecord, index: usize, word: &[u8]) -> bool
    ensures { IsTrue result ↔ (Some word.now ≡ field_at (fields_of row.now) index) }
{
    match row.get(index) {
        Some(field) => field == word,
        None => false,
    }
}

#[tactic(auto, unfolding(crate::specs::Runs::asked_of))]
fn bare_line(row: &ByteRecord) -> Option<Line<'_>>
    requires { length (fields_of row.now) ≡ 1 }
    ensures edit { asked_in result ≡ asked_of (fields_of row.now) }
    ensures asks { IsAskedIn result (fields_of row.now) }
{
    if is_at(row, 0, b"clear") {
        return Some(Line::Clear);
    }
    if is_at(row, 0, b"list") {
        return Some(Line::List);
    }
    None
}

// The lines of two fields: a page or first pages that are taken out, and the first line of a journal with its version.
#[tactic(auto, unfolding(crate::specs::Runs::asked_of))]
fn pair_line(row: &ByteRecord) -> Option<Line<'_>>
    requires { length (fields_of row.now) ≡ 2 }
    ensures edit { asked_in result ≡ asked_of (fields_of row.now) }
    ensures asks { IsAskedIn result (fields_of row.now) }
{
    if is_at(row, 0, b"cancel") {
        return Some(Line::Cancel {
            address: row.get(1)?,
        });
    }
    if is_at(row, 0, b"sent") {
        return Some(Line::Sent { count: row.get(1)? });
    }
    if is_at(row, 0, b"pocsag journal") && is_at(row, 1, b"1") {
        return Some(Line::Journal);
    }
    None
}

// A plan for the end, which the fourth field names, or none where it is open, with the batches that the fifth names.
fn plan_line(row: &ByteRecord, end: End, at_most: Option<u32>) -> Option<Line<'_>>
    requires { IsPlanEnd end at_most (fields_of row.now) }
    ensures edit { asked_in result ≡ None }
    ensures asks { IsAskedIn result (fields_of row.now) }
{
    if !is_at(row, 0, b"plan") {
        return None;
    }
    Some(Line::Plan {
        tx: text_at(row, 1)?,
        cert: text_at(row, 2)?,
        end,
        at_most,
    })
}

// The field of this index, where it is a text.
fn text_at(row: &ByteRecord, index: usize) -> Option<&str>
    ensures text { IfSome result (λ text. Some text.now ≡ field_at (fields_of row.now) index) }
    ensures none { IfNone result
        ((field : List ℕ) → Some field ≡ field_at (fields_of row.now) index → ¬ IsUtf8 field) }
{
    str::from_utf8(row.get(index)?).ok()
}

// The lines of four fields: a page, and a plan that names its end.
#[tactic(auto, unfolding(crate::specs::Runs::asked_of))]
fn long_line(row: &ByteRecord) -> Option<Line<'_>>
    requires { length (fields_of row.now) ≡ 4 }
    ensures edit { asked_in result ≡ asked_of (fields_of row.now) }
    ensures asks { IsAskedIn result (fields_of row.now) }
{
    if is_at(row, 0, b"add") {
        return Some(Line::Add {
            address: row.get(1)?,
            kind: row.get(2)?,
            message: row.get(3)?,
        });
    }
    match end_at(row) {
        Some(end) => plan_line(row, end, None),
        None => None,
    }
}

// The line of five fields: a plan of the longest front, with its end and its batches.
#[tactic(auto, unfolding(crate::specs::Runs::asked_of))]
fn front_line(row: &ByteRecord) -> Option<Line<'_>>
    requires { length (fields_of row.now) ≡ 5 }
    ensures edit { asked_in result ≡ asked_of (fields_of row.now) }
    ensures asks { IsAskedIn result (fields_of row.now) }
{
    let end = end_at(row)?;
    let batches = spelled_count(row.get(4)?)?;
    plan_line(row, end, Some(batches))
}

/// The count, from 1, whose decimal number the field is.
pub(crate) fn spelled_count(field: &[u8]) -> Option<u32>
    ensures { (count : ℕ) → (result ≡ Some count) ↔ SpellsCount field.now count }
{
    let first = *field.first()?;
    // A sign, or a zero in front of others.
    if first <= b'0' {
        return None;
    }
    str::from_utf8(field).ok()?.parse::<u32>().ok()
}

// The end that the fourth field names.
fn end_at(row: &ByteRecord) -> Option<End>
    ensures named { IfSome result (λ end. Some (end_word end) ≡ field_at (fields_of row.now) 3) }
    ensures none { IfNone result ((end : End) → Some (end_word end) ≢ field_at (fields_of row.now) 3) }
{
    if is_at(row, 3, b"open") {
        Some(End::Open)
    } else if is_at(row, 3, b"closed") {
        Some(End::Closed)
    } else if is_at(row, 3, b"idle") {
        Some(End::Idle)
    } else {
        None
    }
}
