//! The lines of a text that are read.
//!
//! `Lines` iterates over the lines that are neither blank nor comments, and keeps the number of the next line of the text.
//! Easy to get wrong: lines that are passed over are counted. If the text ends too early, the reported line doesn't exist.
ghost use Rattle.std.specs.Prelude.{◌≡◌, ◌+◌, ◌<◌, ◌≤◌, ◌^◌, [], ◌∷◌, length, take, IfSome, IfNone};
ghost use Rattle.nmgc_script.specs.{Reading.kept_after, Reading.end_after, Spelling.kept_lines, Parts.end_of};

use nmgc_io::{is_blank_or_comment, split_line};

/// A position in a text: the beginning of a line.
#[derive(Drop)]
pub struct Lines<'a> {
    rest: &'a [u8],
    number: u32,
    text: &'a [u8],
    ghost small: { number + length rest.now < 2 ^ 32 },
}

impl<'a> Lines<'a> {
    /// Returns the position at the beginning of a text, line 1. Takes no memory.
    pub fn new(bytes: &'a [u8]) -> Self
        requires { length bytes.now ≤ 2 ^ 31 }
        ensures kept { kept_after result.number result.rest.now ≡ kept_lines bytes.now }
        ensures end { end_after result.number result.rest.now ≡ end_of bytes.now }
    {
        Lines {
            rest: bytes,
            number: 1,
            text: bytes,
        }
    }

    /// Returns the number of the next line of the text.
    pub fn number(&self) -> u32
        ensures { result ≡ self.now.number }
    {
        self.number
    }

    /// Returns the text from the beginning of the line that `next` returned last, or the whole text if `next` has returned no
    /// line yet.
    pub fn text(&self) -> &'a [u8]
        ensures { result.now ≡ self.now.text.now }
    {
        self.text
    }

    /// Returns the number and the text of the next line that is neither blank nor a comment, and moves past it. After `None`
    /// no text is left.
    pub fn next(&mut self) -> Option<(u32, &'a [u8])>
        ensures line { IfSome result (λ line. kept_after self.old.number self.old.rest.now ≡ (line.0, line.1.now) ∷
            kept_after self.new.number self.new.rest.now) }
        ensures none { IfNone result (kept_after self.old.number self.old.rest.now ≡ []) }
        ensures last { IfNone result (self.new.number ≡ end_after self.old.number self.old.rest.now) }
        ensures end { end_after self.new.number self.new.rest.now ≡ end_after self.old.number self.old.rest.now }
        ensures less { IfSome result (λ line. length self.new.rest.now < length self.old.rest.now) }
        ensures text { IfSome result (λ line. line.1.now ≡ take (length line.1.now) self.new.text.now) }
    {
        while let Some((line, rest)) = split_line(self.rest) {
            let number = self.number;
            let text = self.rest;
            self.rest = rest;
            self.number += 1;
            if !is_blank_or_comment(line) {
                self.text = text;
                return Some((number, line));
            }
        }
        None
    }
}
