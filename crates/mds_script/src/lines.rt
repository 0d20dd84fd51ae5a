//! Reads an input line by line, in buffers allocated first.
ghost use Rattle.std.specs.Prelude.{◌≡◌, ℕ, ◌+◌, ◌-◌, ◌<◌, ◌≤◌, vec_len, vec_capacity};
ghost use Rattle.mds_script.specs.declared.gather.TheConstants.{STORED_LIMIT, LINE_LIMIT};
ghost use Rattle.mds_script.specs.declared.lines.TheConstants.{INPUT_LIMIT};

use crate::gather::{STORED_LIMIT, close, close_last, gather};
use crate::source_sink::{Failed, Source};
use std::alloc::{AllocError, Global};

/// The most bytes of a whole input.
pub const INPUT_LIMIT: usize = 1_073_741_824;

/// How many bytes are read from the source at once.
const CHUNK: usize = 65_536;

/// The result of a search for the next line.
#[derive(Clone, Copy, Debug, PartialEq, Eq)]
pub enum NextLine {
    /// A line, which is in the reader.
    Line,
    /// A line of more bytes than the limit.
    TooLong,
    /// No further line.
    End,
}

/// Reads the lines of a source. A line ends at a line feed, and one carriage return before it is
/// dropped; bytes after the last line feed are a line too, and keep a carriage return at their end.
/// The buffers are allocated first, and a line over the limit is skipped.
#[derive(Drop)]
pub struct LineReader {
    chunk: Vec<u8>,
    start: usize,
    end: usize,
    total: usize,
    line: Vec<u8>,
    ghost ordered: { start ≤ end },
    ghost within: { end ≤ vec_len chunk },
    ghost roomy: { 0 < vec_len chunk },
    ghost counted: { end - start ≤ total },
    ghost limited: { total ≤ INPUT_LIMIT },
    ghost short: { vec_len line ≤ STORED_LIMIT },
    ghost reserved: { STORED_LIMIT ≤ vec_capacity line },
}

impl LineReader {
    ghost use Rattle.std.specs.Prelude.{List, [], ◌∷◌, ◌++◌, take, ◌^◌, Bool, true, false, length, IfOk, OnOk, OnErr, IsTrue, IfSome, Some, ◌⊎◌, drop, MatchBool, ◌==◌, nat_lt, if◌then◌else◌};
    ghost use Rattle.std.specs.Io.KnownBytes.{Keeps, IsAtEnd};
    ghost use Rattle.mds_script.specs.LineReading.{ahead, held, passed, left, Advances, FailsReading, Finds, IsWithoutFeed};
    ghost use Rattle.std.specs.Io.BufRead.{strip_last};

    /// A reader that has read nothing. The only error is out of memory.
    pub fn new(alloc: Global) -> Result<LineReader, AllocError>
        ensures ahead { IfOk result (λ r. ahead r ≡ []) }
        ensures passed { IfOk result (λ r. passed r ≡ 0) }
    {
        Ok(LineReader {
            chunk: vec![in alloc; 0; CHUNK]?,
            start: 0,
            end: 0,
            total: 0,
            line: Vec::with_capacity(alloc, STORED_LIMIT)?,
        })
    }

    /// The line that was found last.
    pub fn line(&self) -> &[u8]
        ensures { result.now ≡ held self.now }
    {
        self.line.as_slice()
    }

    /// Finds the next line. The error is a failed read or an input over its limit.
    pub fn next<S: Source>(&mut self, source: &mut S) -> Result<NextLine, Failed>
        requires countable { S.failures source.old < 2 ^ 64 - 1 }
        ensures found { IfOk result (λ found. Finds found (held self.new) (left self.old (S.remaining source.old)) (left self.new (S.remaining source.new))) }
        ensures advances { OnOk result (Advances (passed self.old) (left self.old (S.remaining source.old)) (passed self.new) (left self.new (S.remaining source.new))) }
        ensures nearer { IfOk result (λ found. (found ≡ NextLine.End) ⊎ (passed self.old < passed self.new)) }
        ensures unfailed { OnOk result (S.failures source.new ≡ S.failures source.old) }
        ensures failed { OnErr result (FailsReading (S.failures source.old) (S.failures source.new) (passed self.old) (left self.old (S.remaining source.old))) }
    {
        self.begin_line();
        'pieces: loop {
            if self.take_line() {
                return Ok(self.end_line());
            }
            match self.refill(source) {
                Ok(true) => {}
                Ok(false) => return Ok(self.end_input()),
                Err(failed) => return Err(failed),
            }
        }
    }

    /// Begins an empty line.
    fn begin_line(&mut self)
        ensures held { held self.new ≡ [] }
        ensures ahead { ahead self.new ≡ ahead self.old }
        ensures passed { passed self.new ≡ passed self.old }
    {
        self.line.clear();
    }

    /// Ends the line at a line feed.
    fn end_line(&mut self) -> NextLine
        ensures line { held self.new ≡ strip_last 13 (held self.old) }
        ensures found { result ≡ (if nat_lt LINE_LIMIT (length (held self.new)) then NextLine.TooLong else NextLine.Line) }
        ensures ahead { ahead self.new ≡ ahead self.old }
        ensures passed { passed self.new ≡ passed self.old }
    {
        close(&mut self.line)
    }

    /// Ends the last line, which has no line feed.
    fn end_input(&mut self) -> NextLine
        ensures held { held self.new ≡ held self.old }
        ensures found { result ≡ (if length (held self.old) == 0 then NextLine.End else (if nat_lt LINE_LIMIT (length (held self.old)) then NextLine.TooLong else NextLine.Line)) }
        ensures ahead { ahead self.new ≡ ahead self.old }
        ensures passed { passed self.new ≡ passed self.old }
    {
        close_last(&mut self.line)
    }

    /// Appends the buffered bytes up to their first line feed to the line, as many as there is room
    /// for, and returns whether there is a line feed. Without one all of them are taken.
    fn take_line(&mut self) -> bool
        ensures takes { MatchBool result
            ((front : List ℕ) × (ahead self.old ≡ front ++ 10 ∷ ahead self.new) × IsWithoutFeed front
            × (held self.new ≡ take STORED_LIMIT (held self.old ++ front)) × (passed self.new ≡ passed self.old + length front + 1))
            (IsWithoutFeed (ahead self.old) × (ahead self.new ≡ [])
            × (held self.new ≡ take STORED_LIMIT (held self.old ++ ahead self.old)) × (passed self.new ≡ passed self.old + length (ahead self.old))) }
        ensures total { self.new.total ≡ self.old.total }
    {
        let window = &self.chunk[self.start..self.end];
        match gather(&mut self.line, window) {
            Some(count) => {
                self.start += count;
                true
            }
            None => {
                self.start = self.end;
                false
            }
        }
    }

    /// Reads further bytes, once none are buffered; `false` at the end of the input. The error is a
    /// failed read or an input over its limit.
    fn refill<S: Source>(&mut self, source: &mut S) -> Result<bool, Failed>
        requires countable { S.failures source.old < 2 ^ 64 - 1 }
        requires empty { ahead self.old ≡ [] }
        ensures kept { OnOk result (held self.new ≡ held self.old) }
        ensures passed { OnOk result (passed self.new ≡ passed self.old) }
        ensures left { OnOk result (Keeps (left self.old (S.remaining source.old)) (left self.new (S.remaining source.new))) }
        ensures more { IfOk result (λ more. MatchBool more (0 < length (ahead self.new)) ((ahead self.new ≡ []) × IsAtEnd (S.remaining source.new))) }
        ensures unfailed { OnOk result (S.failures source.new ≡ S.failures source.old) }
        ensures failed { OnErr result (FailsReading (S.failures source.old) (S.failures source.new) (passed self.old) (left self.old (S.remaining source.old))) }
        ensures total { IfOk result (λ more. IsTrue more → self.old.total < self.new.total) }
    {
        let count = match source.read(self.chunk.as_mut_slice()) {
            Ok(count) => count,
            Err(failed) => return Err(failed),
        };
        if count > INPUT_LIMIT - self.total {
            return Err(Failed);
        }
        self.start = 0;
        self.end = count;
        self.total += count;
        Ok(count > 0)
    }
}
