//! The head of a session: its lines up to `begin`.
//!
//! They are the head of a script of version 3: the version line, the heap line, and a section line for each mutator, without
//! commands. After each line the lines so far are parsed, so a bad line is found as it comes. If a head only lacks its next
//! line, the parser's fault is behind the last line, and the head goes on.
//!
//! Easy to get wrong: empty lines, comments and bad lines aren't kept. So the parser's line numbers are no numbers of the source.
ghost use Rattle.std.specs.Prelude.{List, None, ℕ, ◌≡◌, ◌≢◌, ◌≤◌, ◌++◌, ◌∷◌, ◌+◌, ◌<◌, ◌⊎◌, ◌↔◌, IfErr, IfOk, IfSome, IsErrOf, IsTrue, OnOk, [], codes, false, length, true};
ghost use Rattle.nmgc_io.specs.Text.{Rose, is_blank_or_comment, lines_of};
ghost use Rattle.nmgc_live.specs.Heads.{HasBadLineWithin, HasNoCommands, IsBegin, IsEndRefusal, IsHeadLine, IsHeadSoFar, IsNextHeadLine, IsNoHeadLine, SpellsOther};
ghost use Rattle.nmgc_live.specs.Lines.{IsReader, next_number, unread};
ghost use Rattle.nmgc_live.specs.Live.{HasGivenUp};
ghost use Rattle.nmgc_live.specs.Steps.{HasNotTakenHeadLine, HasReadHead, HasTakenHeadLine};

use crate::lines::{LineReader, NextLine};
use crate::options::Options;
use crate::prompts::prompt;
use crate::refusal::{Fault, Refusal, answer_bad};
use nmgc_io::{Sink, Source, is_blank_or_comment};
use nmgc_lists::NoMemory;
use nmgc_script::{Cause, Script, ScriptFault, parse};
use std::alloc::Global;

// The most bytes of a head. Its longest lines have under 100.
const MAX_HEAD_BYTES: usize = 65_536;

// The meaning of a line of the head.
enum HeadLine {
    // The head goes on.
    More,
    // The head has its last line, `begin`.
    Begun(Script),
    Bad(Fault),
}

// The lines of a head so far.
#[derive(Drop)]
struct Head {
    // The lines that were kept, each with its line feed.
    text: Vec<u8>,
}

/// Reads the head of a session up to `begin`, and returns its script, which has no commands.
pub fn read_head<S: Source, K: Sink, E: Sink>(
    alloc: Global,
    lines: &mut LineReader,
    source: &mut S,
    sink: &mut K,
    prompts: &mut E,
    options: Options,
) -> Result<Script, Refusal>
    requires reader { IsReader lines.old }
    requires first { (unread lines.old ≡ []) × (lines.old.number ≡ 0) }
    ensures reader { OnOk result (IsReader lines.new) }
    ensures read { IfOk result (λ head. HasReadHead options (S.left source.old) (S.left source.new) (K.taken sink.old) (K.taken sink.new) lines.new head) }
    ensures refused { IfErr result (λ refusal. HasGivenUp options (S.left source.old) (S.left source.new) (K.taken sink.old) (K.taken sink.new) refusal) }
    ensures reads { S.faults source.old ≤ S.faults source.new }
    ensures writes { K.faults sink.old ≤ K.faults sink.new }
    ensures read_fault { IsErrOf result Refusal.ReadFault → Rose (S.faults source.old) (S.faults source.new) }
    ensures write_fault { IsErrOf result Refusal.WriteFault → Rose (K.faults sink.old) (K.faults sink.new) }
{
    let mut head = Head {
        text: Vec::new(alloc),
    };
    for _line in 0..u64::MAX {
        prompt(prompts, options);
        if let Some(script) = head.take_line(alloc, options, lines, source, sink)? {
            return Ok(script);
        }
    }
    Err(Refusal::NoMemory)
}

impl Head {
    // Reads a line of the head, and keeps it or answers it. Returns the script if the line was `begin`.
    fn take_line<S: Source, K: Sink>(
        &mut self,
        alloc: Global,
        options: Options,
        lines: &mut LineReader,
        source: &mut S,
        sink: &mut K,
    ) -> Result<Option<Script>, Refusal>
        requires reader { IsReader lines.old }
        requires within { length self.old.text.items ≤ MAX_HEAD_BYTES }
        ensures reader { OnOk result (IsReader lines.new) }
        ensures within { OnOk result (length self.new.text.items ≤ MAX_HEAD_BYTES) }
        ensures read { IfOk result (λ script. HasTakenHeadLine options (S.left source.old) (S.left source.new) (K.taken sink.old) (K.taken sink.new)
            lines.old lines.new self.old.text.items self.new.text.items script) }
        ensures refused { IfErr result (λ refusal. HasNotTakenHeadLine options (S.left source.old) (S.left source.new) (K.taken sink.old) (K.taken sink.new)
            lines.old self.old.text.items refusal) }
        ensures reads { S.faults source.old ≤ S.faults source.new }
        ensures writes { K.faults sink.old ≤ K.faults sink.new }
        ensures read_fault { IsErrOf result Refusal.ReadFault → Rose (S.faults source.old) (S.faults source.new) }
        ensures write_fault { IsErrOf result Refusal.WriteFault → Rose (K.faults sink.old) (K.faults sink.new) }
    {
        match self.next_line(alloc, lines, source)? {
            HeadLine::More => Ok(None),
            HeadLine::Begun(script) => Ok(Some(script)),
            HeadLine::Bad(fault) => {
                answer_bad(alloc, sink, options, lines.number(), fault)?;
                Ok(None)
            }
        }
    }

    // Reads a line of the head and judges it. At the source's end the head is refused.
    fn next_line<S: Source>(
        &mut self,
        alloc: Global,
        lines: &mut LineReader,
        source: &mut S,
    ) -> Result<HeadLine, Refusal>
        requires reader { IsReader lines.old }
        requires within { length self.old.text.items ≤ MAX_HEAD_BYTES }
        ensures reader { OnOk result (IsReader lines.new) }
        ensures number { OnOk result (lines.new.number ≡ next_number lines.old.number) }
        ensures within { OnOk result (length self.new.text.items ≤ MAX_HEAD_BYTES) }
        ensures judged { IfOk result (λ judged. IsNextHeadLine lines.old lines.new (S.left source.old) (S.left source.new) self.old.text.items self.new.text.items judged) }
        ensures refused { IfErr result (λ refusal. IsNoHeadLine lines.old (S.left source.old) (S.left source.new) self.old.text.items refusal) }
        ensures reads { S.faults source.old ≤ S.faults source.new }
        ensures read_fault { IsErrOf result Refusal.ReadFault → Rose (S.faults source.old) (S.faults source.new) }
    {
        match lines.next(source)? {
            NextLine::Whole => Ok(self.judge(alloc, lines.line())?),
            NextLine::Long => Ok(HeadLine::Bad(Fault::Line)),
            NextLine::Cut => Ok(HeadLine::Bad(Fault::Line)),
            NextLine::End => Err(self.refuse_end(alloc, lines.number())),
        }
    }

    // Judges a line of the head, and keeps it if it is good.
    fn judge(&mut self, alloc: Global, line: &[u8]) -> Result<HeadLine, NoMemory>
        requires { length self.old.text.items ≤ MAX_HEAD_BYTES }
        ensures within { OnOk result (length self.new.text.items ≤ MAX_HEAD_BYTES) }
        ensures judged { IfOk result (λ judged. IsHeadLine self.old.text.items self.new.text.items line.now judged) }
    {
        if is_blank_or_comment(line) {
            return Ok(HeadLine::More);
        }
        if line == b"begin".as_slice() {
            return self.begin(alloc);
        }
        if self.text.len() + line.len() >= MAX_HEAD_BYTES {
            return Ok(HeadLine::Bad(Fault::Line));
        }
        if self.text.is_empty() && line != b"nmgc 3".as_slice() {
            return Ok(HeadLine::Bad(Fault::Script(Cause::Version)));
        }
        self.add(alloc, line)
    }

    // Keeps a line of the head, if it is good.
    fn add(&mut self, alloc: Global, line: &[u8]) -> Result<HeadLine, NoMemory>
        requires room { length self.old.text.items + length line.now < MAX_HEAD_BYTES }
        requires kept { is_blank_or_comment line.now ≡ false }
        requires no_begin { line.now ≢ codes "begin" }
        requires first { self.old.text.items ≡ [] → line.now ≡ codes "nmgc 3" }
        ensures within { OnOk result (length self.new.text.items ≤ MAX_HEAD_BYTES) }
        ensures judged { IfOk result (λ judged. IsHeadLine self.old.text.items self.new.text.items line.now judged) }
    {
        let before = self.text.len();
        self.text.extend_from_slice(line)?;
        self.text.push(b'\n')?;
        match self.fault_of_last(alloc)? {
            None => Ok(HeadLine::More),
            Some(cause) => {
                self.text.truncate(before);
                Ok(HeadLine::Bad(Fault::Script(cause)))
            }
        }
    }

    // Returns the script of the whole head, or the cause for which it isn't whole.
    fn begin(&self, alloc: Global) -> Result<HeadLine, NoMemory>
        requires { length self.now.text.items ≤ MAX_HEAD_BYTES }
        ensures { IfOk result (λ judged. IsBegin self.now.text.items judged) }
    {
        match parse(alloc, &self.text) {
            Ok(script) => {
                if is_head(&script) {
                    Ok(HeadLine::Begun(script))
                } else {
                    Ok(HeadLine::Bad(Fault::Script(Cause::Thread)))
                }
            }
            Err(ScriptFault::Bad { line: _, cause }) => { Ok(HeadLine::Bad(Fault::Script(cause))) }
            Err(ScriptFault::NoMemory) => Err(NoMemory),
        }
    }

    // Returns the refusal of a source that ended in the head.
    fn refuse_end(&self, alloc: Global, line: u64) -> Refusal
        requires { length self.now.text.items ≤ MAX_HEAD_BYTES }
        ensures { IsEndRefusal self.now.text.items line result }
    {
        match parse(alloc, &self.text) {
            Ok(_) => Refusal::Bad {
                line,
                fault: Fault::Script(Cause::Thread),
            },
            Err(ScriptFault::Bad { line: _, cause }) => Refusal::Bad {
                line,
                fault: Fault::Script(cause),
            },
            Err(ScriptFault::NoMemory) => Refusal::NoMemory,
        }
    }

    // Returns the cause for which a line of the text is bad, or `None`. A line that is missing behind the text makes none bad.
    fn fault_of_last(&self, alloc: Global) -> Result<Option<Cause>, NoMemory>
        requires within { length self.now.text.items ≤ MAX_HEAD_BYTES }
        requires lines { (front : List ℕ) × (self.now.text.items ≡ front ++ 10 ∷ []) }
        ensures none { IfOk result (λ fault. fault ≡ None → IsHeadSoFar self.now.text.items) }
        ensures some { IfOk result (λ fault. IfSome fault (λ c. HasBadLineWithin self.now.text.items c ⊎ ((c ≡ Cause.Thread) × SpellsOther self.now.text.items))) }
    {
        match parse(alloc, &self.text) {
            Ok(script) => {
                if has_commands(&script) {
                    Ok(Some(Cause::Thread))
                } else {
                    Ok(None)
                }
            }
            Err(ScriptFault::Bad { line, cause }) => {
                if u64::from(line) <= count_lines(&self.text) {
                    Ok(Some(cause))
                } else {
                    Ok(None)
                }
            }
            Err(ScriptFault::NoMemory) => Err(NoMemory),
        }
    }
}

// Returns the number of line feeds in a text. It is the number of lines, if a line feed comes last.
fn count_lines(text: &[u8]) -> u64
    requires { length text.now ≤ MAX_HEAD_BYTES }
    ensures most { result ≤ length (lines_of text.now) }
    ensures all { (front : List ℕ) → text.now ≡ front ++ 10 ∷ [] → length (lines_of text.now) ≤ result }
{
    let mut count: u64 = 0;
    for byte in text {
        if *byte == b'\n' {
            count += 1;
        }
    }
    count
}

// Whether a script is the head of a session: it has version 3, and no program has commands.
fn is_head(script: &Script) -> bool
    ensures { IsTrue result ↔ ((script.now.version ≡ 3) × HasNoCommands script.now) }
{
    script.version == 3 && !has_commands(script)
}

// Whether any program of a script has commands.
fn has_commands(script: &Script) -> bool
    ensures none { result ≡ false → HasNoCommands script.now }
    ensures some { result ≡ true → HasNoCommands script.now → ⊥ }
{
    for program in script.threads.items() {
        if !program.items().is_empty() {
            return true;
        }
    }
    false
}
