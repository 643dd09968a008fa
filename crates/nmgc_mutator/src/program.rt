//! Programs: what decides on the commands of a mutator.
//!
//! A program is asked for its next command, and gets the reply. So it may look at a reply before it decides on the next
//! command. `Listed` is a list of commands that is known before the run. A caller's own type may be a program too.
//!
//! The next command is a function of the program's state, and asking changes nothing. So a command that waits for room in the
//! nursery is given again in the next round, and it is the same command. No history is kept, at run time or as ghost data.
//! Instead `Gives` relates the first state of a program to its last one, by the commands that it gave and the replies that it
//! took. A program runs in its mutator's thread within a round, so it is `Send`. It sees no word of the heap.
ghost use Rattle.std.specs.Prelude.{ℕ, ◌≡◌, ◌+◌, ◌-◌, ◌<◌, ◌≤◌, Option, Some, None, IfSome, IfNone, length, slice_get, All, ◌^◌, min};
ghost use Rattle.nmgc_world_spec.specs.{declared.command.Command.Command, World.Fits};
ghost use Rattle.nmgc_world_spec.specs.declared.command.Reply.{Reply as ReplySeen};

use nmgc_commands::PackedCommand;
use nmgc_world_spec::Reply;

/// What decides on the commands of a mutator.
pub trait Program: Send {
    /// The next command, or none at the program's end.
    ghost next: { Self → Option Command };
    /// The states that a program may have after it took the reply to its next command.
    ghost steps: { Self → ReplySeen → Self → Type 0 };
    /// No object that the program makes has more words.
    ghost words: { Self → ℕ };
    /// The program gives at most this number of further commands.
    ghost most: { Self → ℕ };
    /// The program's own invariant, for its own proofs.
    ghost valid: { Self → Type 0 };

    /// Returns the next command, or `None` at the program's end.
    fn peek(&self) -> Option<&PackedCommand>
        requires { valid self.now }
        ensures some { IfSome result (λ c. next self.now ≡ Some c.now) }
        ensures none { IfNone result (next self.now ≡ None) }
        ensures fits { IfSome result (λ c. Fits (words self.now) c.now) }
        ensures more { IfSome result (λ c. 0 < most self.now) };

    /// Returns an upper bound of the further commands, by which room is made: `u32::MAX` if the program knows none.
    fn at_most(&self) -> u32
        requires { valid self.now }
        ensures { min (most self.now) (2 ^ 32 - 1) ≤ result };

    /// Takes the reply to the next command, which was done.
    fn take_reply(&mut self, reply: Reply)
        requires valid { valid self.old }
        requires next { (c : Command) × (next self.old ≡ Some c) }
        ensures valid { valid self.new }
        ensures steps { steps self.old reply self.new }
        ensures words { words self.new ≡ words self.old }
        ensures fewer { most self.new < most self.old };

    /// The next command of a valid program fits, and the program may give it: a law, which each program proves.
    ghost waits: { (p : Self) (c : Command) → valid p → next p ≡ Some c → Fits (words p) c × (0 < most p) };
}

/// A list of commands that is known before the run.
#[derive(Drop)]
pub struct Listed<'a> {
    pub commands: &'a [PackedCommand],
    /// The number of commands that were done.
    pub position: usize,
    /// No object that they make has more words.
    pub words: u32,
}

impl<'a> Program for Listed<'a> {
    ghost use Rattle.nmgc_mutator.specs.laws.Lists.{listed_waits};

    ghost next = { λ p. slice_get p.commands.now p.position };

    ghost steps = { λ p r q. (q.commands ≡ p.commands) × (q.position ≡ p.position + 1) };

    ghost words = { λ p. p.words };

    ghost most = { λ p. length p.commands.now - p.position };

    ghost valid = { λ p. All (Fits p.words) p.commands.now };

    ghost waits = { λ p c v e. listed_waits p.commands.now p.position p.words c v e };

    fn peek(&self) -> Option<&PackedCommand> {
        self.commands.get(self.position)
    }

    fn at_most(&self) -> u32 {
        self.commands
            .len()
            .saturating_sub(self.position)
            .min(u32::MAX as usize) as u32
    }

    fn take_reply(&mut self, reply: Reply) {
        drop(reply);
        self.position += 1;
    }
}
