ghost use Rattle.std.specs.Prelude.{◌≡◌, ◌≤◌, ◌++◌, length, map, IfErr, OnErr, OnOk};
ghost use Rattle.pocsag_words.specs.Devices.{CountsFailures, Delivers, TookPrefix};
ghost use Rattle.pocsag_shell.specs.Faults.{IsFailure};
ghost use Rattle.pocsag_shell.specs.Notes.{IsOneLine, TookLine, numbered_text};

use crate::fault::{Failure, FileFault};
use arrayvec::ArrayString;
use itoa::Buffer;
use pocsag_words::{Sink, write_all};
use std::fmt::Write;

// The longest text in bytes.
pub(crate) const LONGEST: usize = 200;

// What each line begins with, and how much of the text of a fault has room behind it.
const PREFIX: &str = "pocsag: ";

const LONGEST_FAULT: usize = 191;

/// Writes the bytes whole. After a fault a prefix of them was taken.
pub fn put_whole<S: Sink>(sink: &mut S, bytes: &[u8]) -> Result<(), FileFault>
    ensures delivers { S.is_known → Delivers result (S.taken sink.old) (S.taken sink.new) bytes.now }
    ensures lost { IfErr result (λ e. e ≡ FileFault.Write) }
    ensures failures { CountsFailures result (S.failures sink.old) (S.failures sink.new) }
{
    write_all(sink, bytes).map_err(|_| FileFault::Write)
}

// Keeps the text behind the one that is kept. Where it has no room there, both are written.
fn keep_text<S: Sink>(
    sink: &mut S,
    line: &mut ArrayString<LONGEST>,
    text: &str,
) -> Result<(), FileFault>
    ensures whole { S.is_known → OnOk result
        (S.taken sink.new ++ line.new.bytes ≡ S.taken sink.old ++ (line.old.bytes ++ text.now)) }
    ensures more { S.is_known → OnOk result (length (S.taken sink.old) ≤ length (S.taken sink.new)) }
    ensures part { S.is_known → OnErr result
        (TookPrefix (S.taken sink.old) (S.taken sink.new) (line.old.bytes ++ text.now)) }
    ensures lost { IfErr result (λ e. e ≡ FileFault.Write) }
    ensures failures { CountsFailures result (S.failures sink.old) (S.failures sink.new) }
{
    if line.try_push_str(text).is_ok() {
        return Ok(());
    }
    put_whole(sink, line.as_str().as_bytes())?;
    line.clear();
    put_whole(sink, text.as_bytes())
}

/// Writes each text with its number behind it, and then the last text. It does not allocate, and a text of at most 200
/// bytes is one piece. After a fault a prefix was taken.
pub fn print_numbers<S: Sink>(
    sink: &mut S,
    numbers: &[(&str, u64)],
    last: &str,
) -> Result<(), FileFault>
    ensures delivers { S.is_known → Delivers result (S.taken sink.old) (S.taken sink.new)
        (numbered_text (map (λ pair. (pair.0.now, pair.1)) numbers.now) last.now) }
    ensures lost { IfErr result (λ e. e ≡ FileFault.Write) }
    ensures failures { CountsFailures result (S.failures sink.old) (S.failures sink.new) }
{
    let mut line = ArrayString::<LONGEST>::new();
    let mut digits = Buffer::new();
    for pair in numbers {
        keep_text(sink, &mut line, pair.0)?;
        keep_text(sink, &mut line, digits.format(pair.1))?;
    }
    keep_text(sink, &mut line, last)?;
    put_whole(sink, line.as_str().as_bytes())
}

/// Writes the line of a fault to standard error and returns the exit status. If standard error fails, the line is lost, or
/// only its beginning is written.
pub fn print_fault<S: Sink, F: Failure>(err: &mut S, fault: F) -> u8
    ensures line { TookLine S.Sink err.old err.new }
    ensures value { result ≡ F.status_is fault }
    ensures failure { IsFailure result }
{
    let mut text = ArrayString::<LONGEST_FAULT>::new();
    let _ = write!(text, "{fault}");
    let mut line = ArrayString::<LONGEST>::new();
    line.push_str(PREFIX);
    line.push_str(one_line(text.as_str()));
    line.push('\n');
    let _ = put_whole(err, line.as_str().as_bytes());
    fault.status()
}

// The text, where it is one line; nothing of any other.
fn one_line(text: &str) -> &str
    ensures line { IsOneLine result.now }
    ensures long { length result.now ≤ length text.now }
{
    if text.as_bytes().contains(&b'\n') {
        return "";
    }
    text
}
