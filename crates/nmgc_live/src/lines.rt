//! Lines of a source, one at a time, as they come.
//!
//! A reader reads from its source only if no whole line is left of the bytes that it read before. So a caller can answer a line
//! before the next one has come. A line has at most `MAX_LINE_BYTES` bytes, and a longer one is passed over.
//!
//! Easy to get wrong: if the source ends after some bytes without a line feed, they are no line. A pipe may have been cut there.
ghost use Rattle.std.specs.Prelude.{◌≡◌, ◌++◌, ◌≤◌, List, ℕ, [], length, IfOk, IfErr, OnOk, IsErrOf};
ghost use Rattle.std.specs.Io.KnownBytes.{Consumes, IsAtEnd, Keeps};
ghost use Rattle.nmgc_io.specs.Text.{Rose};
ghost use Rattle.nmgc_live.specs.Lines.{EndsPart, HasNoLineFeed, HoldsPart, IsNextLine, IsReader, ended_as, next_number, unread, whole_of};

use nmgc_io::{ReadEnd, Source, cut};
use nmgc_lists::NoMemory;
use std::alloc::Global;

/// The greatest number of bytes of a line, without its line feed.
pub const MAX_LINE_BYTES: usize = 65_536;

// The number of bytes requested at a time.
const PIECE: usize = 65_536;

/// The outcome of reading a line.
#[derive(Clone, Copy, Debug, PartialEq, Eq)]
pub enum NextLine {
    /// A line was read.
    Whole,
    /// A line of more than `MAX_LINE_BYTES` bytes was passed over.
    Long,
    /// The source ended after some bytes without a line feed.
    Cut,
    /// The source ended.
    End,
}

/// The lines of a source.
#[derive(Drop)]
pub struct LineReader {
    // The bytes read last. Those from `start` to `end` are in no line yet.
    piece: Vec<u8>,
    start: usize,
    end: usize,
    // The last line, or the part of it that was read.
    line: Vec<u8>,
    is_long: bool,
    number: u64,
}

impl LineReader {
    /// Returns a reader that has read nothing. Takes memory for a piece of 65,536 bytes.
    pub fn new(alloc: Global) -> Result<LineReader, NoMemory>
        ensures reader { IfOk result (λ reader. IsReader reader) }
        ensures nothing { IfOk result (λ reader. unread reader ≡ []) }
        ensures number { IfOk result (λ reader. reader.number ≡ 0) }
    {
        let mut piece = Vec::new(alloc);
        piece.resize(PIECE, 0u8)?;
        Ok(LineReader {
            piece,
            start: 0,
            end: 0,
            line: Vec::new(alloc),
            is_long: false,
            number: 0,
        })
    }

    /// Returns the line that was read last, without its line feed.
    pub fn line(&self) -> &[u8]
        ensures { result.now ≡ self.now.line.items }
    {
        self.line.as_slice()
    }

    /// Returns the number of the line that was read last, from 1.
    pub fn number(&self) -> u64
        ensures { result ≡ self.now.number }
    {
        self.number
    }

    /// Reads the next line. Returns `ReadFault` if the source failed: then no whole line is left of the bytes that came.
    /// Returns `TooLong` if no line feed came in 2^64 - 1 reads. After an error nothing more may be read.
    pub fn next<S: Source>(&mut self, source: &mut S) -> Result<NextLine, ReadEnd>
        requires { IsReader self.old }
        ensures reader { OnOk result (IsReader self.new) }
        ensures line { IsNextLine self.old self.new (S.left source.old) (S.left source.new) result }
        ensures number { OnOk result (self.new.number ≡ next_number self.old.number) }
        ensures later { S.faults source.old ≤ S.faults source.new }
        ensures fault { IsErrOf result ReadEnd.ReadFault → Rose (S.faults source.old) (S.faults source.new) }
    {
        self.line.clear();
        self.is_long = false;
        self.number = self.number.saturating_add(1);
        for _read in 0..u64::MAX {
            if self.take_part()? {
                return Ok(self.whole());
            }
            if self.fill(source)? == 0 {
                return Ok(self.at_end());
            }
        }
        Err(ReadEnd::TooLong)
    }

    // Returns the outcome of a line that has its line feed.
    fn whole(&self) -> NextLine
        ensures { result ≡ whole_of self.now.is_long }
    {
        if self.is_long {
            NextLine::Long
        } else {
            NextLine::Whole
        }
    }

    // Returns the outcome of a source that has ended.
    fn at_end(&self) -> NextLine
        ensures { result ≡ ended_as self.now.is_long self.now.line.items }
    {
        match self.line.as_slice() {
            [] if !self.is_long => NextLine::End,
            _ => NextLine::Cut,
        }
    }

    // Adds the bytes up to the next line feed to the line, and passes the line feed. Returns whether there is one.
    fn take_part(&mut self) -> Result<bool, ReadEnd>
        requires { IsReader self.old }
        ensures reader { OnOk result (IsReader self.new) }
        ensures part { IfOk result (λ is_whole. (part : List ℕ) × EndsPart is_whole (unread self.old) part (unread self.new) × HasNoLineFeed part ×
            ((before : List ℕ) → HoldsPart self.old.is_long self.old.line.items before → HoldsPart self.new.is_long self.new.line.items (before ++ part))) }
        ensures number { OnOk result (self.new.number ≡ self.old.number) }
        ensures cause { IfErr result (λ end. end ≡ ReadEnd.NoMemory) }
    {
        let left = &self.piece[..self.end][self.start..];
        match cut(left, b'\n') {
            Some((part, _)) => {
                let many = part.len();
                add_part(&mut self.line, &mut self.is_long, part)?;
                self.start += many + 1;
                Ok(true)
            }
            None => {
                add_part(&mut self.line, &mut self.is_long, left)?;
                self.start = self.end;
                Ok(false)
            }
        }
    }

    // Reads the next piece, and returns the number of its bytes: 0 only if the source has ended.
    fn fill<S: Source>(&mut self, source: &mut S) -> Result<usize, ReadEnd>
        requires { IsReader self.old }
        ensures reader { OnOk result (IsReader self.new) }
        ensures bytes { OnOk result (Consumes (S.left source.old) (S.left source.new) (unread self.new)) }
        ensures count { IfOk result (λ count. length (unread self.new) ≡ count) }
        ensures end { IfOk result (λ count. count ≡ 0 → IsAtEnd (S.left source.new)) }
        ensures line { OnOk result (self.new ≡ record self.old { piece = self.new.piece; start = self.new.start; end = self.new.end }) }
        ensures err { IfErr result (λ end. (end ≡ ReadEnd.ReadFault) × Keeps (S.left source.old) (S.left source.new)) }
        ensures later { S.faults source.old ≤ S.faults source.new }
        ensures fault { IfErr result (λ end. Rose (S.faults source.old) (S.faults source.new)) }
    {
        let Ok(count) = source.read(self.piece.as_mut_slice()) else {
            return Err(ReadEnd::ReadFault);
        };
        self.start = 0;
        self.end = count;
        Ok(count)
    }
}

// Adds a part to the line, or notes that the line is too long.
fn add_part(line: &mut Vec<u8>, is_long: &mut bool, part: &[u8]) -> Result<(), ReadEnd>
    ensures part { OnOk result ((before : List ℕ) → HoldsPart is_long.old line.old.items before → HoldsPart is_long.new line.new.items (before ++ part.now)) }
    ensures cause { IfErr result (λ end. end ≡ ReadEnd.NoMemory) }
{
    if *is_long || line.len() > MAX_LINE_BYTES || part.len() > MAX_LINE_BYTES - line.len() {
        *is_long = true;
    } else if line.extend_from_slice(part).is_err() {
        return Err(ReadEnd::NoMemory);
    }
    Ok(())
}
