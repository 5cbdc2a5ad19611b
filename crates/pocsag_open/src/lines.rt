ghost use Rattle.std.specs.Prelude.{◌≡◌, ◌≤◌, ◌⊎◌, [], ◌++◌, length, IfErr, IfOk, OnOk};
ghost use Rattle.pocsag_words.specs.Devices.{CountsFailures, HasFailed};
ghost use Rattle.pocsag_shell.specs.Faults.{file_status};
ghost use Rattle.pocsag_open.specs.Ends.{AreCountless, ExplainsEnd};
ghost use Rattle.pocsag_open.specs.Lines.{IsByteKept, IsLineFound, IsNextByte, line_limit};

use pocsag_shell::FileFault;
use pocsag_words::{DeviceFault, Source};
use std::alloc::Global;

/// The longest line that is kept, in bytes, its line feed not counted.
pub const LINE_LIMIT: usize = 65_536;

// How many bytes are asked for at a time.
const PIECE: usize = 4_096;

/// What came of the next line.
#[derive(Clone, Copy, PartialEq, Eq)]
pub enum LineRead {
    /// It is kept, without its line feed.
    Kept,
    /// It is longer than the limit, and is passed over.
    TooLong,
    /// There is none.
    End,
}

/// A line of a source, and the bytes that were read ahead of it. The memory for a line is taken once.
#[derive(Drop)]
pub struct Lines {
    /// The line that is kept.
    pub line: Vec<u8>,
    piece: [u8; PIECE],
    start: usize,
    end: usize,
    ghost within: { end ≤ length piece },
}

impl Lines {
    ghost use Rattle.pocsag_open.specs.Ahead.{ahead_of};

    pub fn new(alloc: Global) -> Result<Lines, FileFault>
        ensures ahead { IfOk result (λ lines. ahead_of lines ≡ []) }
        ensures lost { IfErr result (λ e. e ≡ FileFault.OutOfMemory) }
    {
        Ok(Lines {
            line: Vec::with_capacity(alloc, LINE_LIMIT)?,
            piece: [0; PIECE],
            start: 0,
            end: 0,
        })
    }

    // The next byte, unless the source has ended. It reads the next bytes of the source in place of those that are used up.
    fn next_byte<S: Source>(&mut self, source: &mut S) -> Result<Option<u8>, DeviceFault>
        ensures read { CountsFailures result (S.failures source.old) (S.failures source.new) }
        ensures next { S.is_known → IfOk result (λ next. IsNextByte next
            (ahead_of self.old ++ S.held source.old) (ahead_of self.new ++ S.held source.new)) }
        ensures kept { self.new.line.items ≡ self.old.line.items }
    {
        if self.start >= self.end {
            self.start = 0;
            self.end = 0;
            self.end = source.read(&mut self.piece)?;
        }
        if self.start >= self.end {
            return Ok(None);
        }
        let byte = self.piece[self.start];
        self.start += 1;
        Ok(Some(byte))
    }

    /// Reads the next line of the source. The last line may lack its line feed. A line of more bytes than a count
    /// holds is taken for a fault of the source.
    pub fn read_line<S: Source>(&mut self, source: &mut S) -> Result<LineRead, FileFault>
        ensures found { S.is_known → IfOk result (λ found. IsLineFound found
            (ahead_of self.old ++ S.held source.old) self.new.line.items (ahead_of self.new ++ S.held source.new)) }
        ensures short { length self.new.line.items ≤ line_limit }
        ensures read { OnOk result (S.failures source.new ≡ S.failures source.old) }
        ensures explained { S.is_known →
            IfErr result (ExplainsEnd (HasFailed (S.failures source.old) (S.failures source.new)
            ⊎ AreCountless (ahead_of self.old ++ S.held source.old)) ⊥ ⊥) }
        ensures lost { IfErr result (λ e. file_status e ≡ 3) }
    {
        self.line.clear();
        let mut found = LineRead::End;
        for _seen in 0..u64::MAX {
            let Ok(next) = self.next_byte(source) else {
                return Err(FileFault::Device);
            };
            match next {
                None => return Ok(found),
                Some(b'\n') if found == LineRead::TooLong => return Ok(LineRead::TooLong),
                Some(b'\n') => return Ok(LineRead::Kept),
                Some(byte) => found = self.keep(byte)?,
            }
        }
        Err(FileFault::Device)
    }

    // Keeps one byte more of a line, unless the line is as long as may be.
    fn keep(&mut self, byte: u8) -> Result<LineRead, FileFault>
        ensures kept { IfOk result (λ found. IsByteKept found byte self.old.line.items self.new.line.items) }
        ensures short { length self.old.line.items ≤ line_limit → length self.new.line.items ≤ line_limit }
        ensures ahead { ahead_of self.new ≡ ahead_of self.old }
        ensures lost { IfErr result (λ e. e ≡ FileFault.OutOfMemory) }
    {
        if self.line.len() >= LINE_LIMIT {
            return Ok(LineRead::TooLong);
        }
        self.line.push(byte)?;
        Ok(LineRead::Kept)
    }
}
