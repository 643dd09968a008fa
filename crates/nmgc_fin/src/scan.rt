//! A text that is taken in pieces, as far as it was taken.
//!
//! A scan keeps the jobs of the lines that are ended, or the number of the first bad line. Of the line that isn't ended it
//! keeps at most `FRONT` bytes. A line of `dead` and a name has at most 18 bytes, so the front of a longer line shows that it
//! gives no job, and whether it is bad. So a text takes memory only for its jobs, whatever its length and its lines.
//!
//! Easy to get wrong: a piece may end anywhere, also within `dead` and right before a line feed.
ghost use Rattle.std.specs.Prelude.{◌≡◌, ◌≢◌, ◌≤◌, ◌+◌, ◌^◌, ℕ, List, [], ◌∷◌, ◌++◌, All, length, IfErr, IfOk, OnOk};
ghost use Rattle.nmgc_io.specs.Text.{lines_of};
ghost use Rattle.nmgc_fin.specs.{Jobs.AreJobsOf, Jobs.IsFaultOf, Scan.AreScanned, Scan.HasScanned};

use crate::job::Job;
use crate::text::{JobsFault, LineKind, line_kind};
use nmgc_io::cut;
use nmgc_lists::{List, NoMemory};
use std::alloc::Global;

/// The most bytes that are kept of a line that isn't ended.
pub const FRONT: usize = 32;

/// The text taken so far: the jobs and the count of its ended lines, the number of the first bad line, and the front of the
/// line that isn't ended. After the first bad line, jobs and count stay as they are.
#[derive(Drop)]
pub struct Scan {
    jobs: Vec<Job>,
    bad: Option<u32>,
    lines: u32,
    front: Vec<u8>,
}

impl Scan {
    /// Makes a scan that has taken no byte yet. Takes no memory.
    #[tactic(auto, using(crate::proofs::Scanned::taken_none))]
    pub fn new(alloc: Global) -> Self
        ensures { HasScanned result [] }
    {
        Scan {
            jobs: Vec::new(alloc),
            bad: None,
            lines: 0,
            front: Vec::new(alloc),
        }
    }

    /// Takes the next bytes of the text. Requires at most 2^31 bytes in all. Takes memory for the jobs of the lines that the
    /// bytes end, and `FRONT` bytes.
    pub fn take_piece(&mut self, piece: &[u8]) -> Result<(), NoMemory>
        requires { (bytes : List ℕ) × HasScanned self.old bytes × (length bytes + length piece.now ≤ 2 ^ 31) }
        ensures { (bytes : List ℕ) → HasScanned self.old bytes → OnOk result (HasScanned self.new (bytes ++ piece.now)) }
    {
        let mut rest = piece;
        while let Some((part, after)) = cut(rest, b'\n') {
            self.add_to_line(part)?;
            self.end_line()?;
            rest = after;
        }
        self.add_to_line(rest)
    }

    /// Ends the text, and returns its jobs or its first bad line. Requires that at most 2^31 bytes were taken.
    pub fn finish(self) -> Result<List<Job>, JobsFault>
        requires { (bytes : List ℕ) × HasScanned self bytes × (length bytes ≤ 2 ^ 31) }
        ensures jobs { (bytes : List ℕ) → HasScanned self bytes → IfOk result (λ jobs. AreJobsOf (lines_of bytes) jobs) }
        ensures fault { (bytes : List ℕ) → HasScanned self bytes → IfErr result (IsFaultOf (lines_of bytes)) }
    {
        let mut scan = self;
        let Ok(()) = scan.end_last_line() else {
            return Err(JobsFault::NoMemory);
        };
        scan.answer()
    }

    // Ends the last line, unless it is ended or the text has none. Then all lines of the text were read.
    fn end_last_line(&mut self) -> Result<(), NoMemory>
        requires { (bytes : List ℕ) × HasScanned self.old bytes × (length bytes ≤ 2 ^ 31) }
        ensures { (bytes : List ℕ) → HasScanned self.old bytes → OnOk result (AreScanned self.new.bad self.new.jobs.items self.new.lines (lines_of bytes)) }
    {
        if self.front.is_empty() {
            return Ok(());
        }
        self.end_line()
    }

    // Returns the jobs or the first bad line of the lines that were read.
    fn answer(self) -> Result<List<Job>, JobsFault>
        ensures jobs { (lines : List (List ℕ)) → AreScanned self.bad self.jobs.items self.lines lines → IfOk result (λ jobs. AreJobsOf lines jobs) }
        ensures fault { (lines : List (List ℕ)) → AreScanned self.bad self.jobs.items self.lines lines → IfErr result (IsFaultOf lines) }
    {
        if let Some(line) = self.bad {
            return Err(JobsFault::Bad { line });
        }
        match List::from_vec(self.jobs) {
            Ok(jobs) => Ok(jobs),
            Err(_) => Err(JobsFault::NoMemory),
        }
    }

    // Adds bytes to the line that isn't ended. Requires that none is a line feed. Keeps at most `FRONT` bytes of the line.
    #[tactic(auto, using(crate::proofs::Scanned::has_room, crate::proofs::Scanned::taken_more))]
    fn add_to_line(&mut self, part: &[u8]) -> Result<(), NoMemory>
        requires taken { (bytes : List ℕ) × HasScanned self.old bytes }
        requires plain { All (λ b. b ≢ 10) part.now }
        ensures { (bytes : List ℕ) → HasScanned self.old bytes → OnOk result (HasScanned self.new (bytes ++ part.now)) }
    {
        let room = (FRONT - self.front.len()).min(part.len());
        self.front.extend_from_slice(&part[..room])?;
        Ok(())
    }

    // Ends the line that isn't ended: notes its job, or that it is the first bad line. The next line is empty so far.
    #[tactic(auto, using(crate::proofs::Scanned::few_lines, crate::proofs::Scanned::few_jobs, crate::proofs::Scanned::line_other, crate::proofs::Scanned::line_bad, crate::proofs::Scanned::line_dead, crate::proofs::Scanned::line_after))]
    fn end_line(&mut self) -> Result<(), NoMemory>
        requires { (bytes : List ℕ) × HasScanned self.old bytes × (length bytes ≤ 2 ^ 31) }
        ensures { (bytes : List ℕ) → HasScanned self.old bytes → OnOk result (HasScanned self.new (bytes ++ 10 ∷ []) × (self.new.front.items ≡ [])) }
    {
        let kind = line_kind(&self.front);
        self.front.clear();
        if self.bad.is_some() {
            return Ok(());
        }
        self.lines += 1;
        match kind {
            LineKind::Other => {}
            LineKind::Bad => {
                self.bad = Some(self.lines);
            }
            LineKind::Weak(weak) => {
                let number = self.jobs.len() as u32;
                self.jobs.push(Job { number, weak })?;
            }
        }
        Ok(())
    }
}
