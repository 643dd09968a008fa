//! Deciders, and the programs that they are.
//!
//! The state of a decider is all that it knows of the run. The invariant of `Decided` is that its waiting command fits, and that
//! a command is left if one waits.
ghost use Rattle.std.specs.Prelude.{ℕ, ◌≡◌, ◌<◌, IfSome};
ghost use Rattle.nmgc_world_spec.specs.World.{Fits};
ghost use Rattle.nmgc_world_spec.specs.declared.command.Reply.{Reply as ReplySeen};

use nmgc_commands::{Form, PackedCommand};
use nmgc_cycle::{Bounded, Parks};
use nmgc_mutator::Program;
use nmgc_world_spec::Reply;

/// What decides on the next command of a program by the reply to the last one.
pub trait Decider: Send {
    /// The states that a decider may have after it took a reply.
    ghost steps: { Self → ReplySeen → Self → Type 0 };
    /// No object that the decider makes has more words.
    ghost words: { Self → ℕ };
    /// The decider's own invariant, for its own proofs.
    ghost valid: { Self → Type 0 };

    /// Takes the reply to the last command, and returns the next one, or `None` at the program's end.
    fn decide(&mut self, reply: Reply) -> Option<PackedCommand>
        requires valid { valid self.old }
        ensures valid { valid self.new }
        ensures steps { steps self.old reply self.new }
        ensures words { words self.new ≡ words self.old }
        ensures fits { IfSome result (Fits (words self.old)) };
}

/// The program of a decider.
#[derive(Drop)]
pub struct Decided<D> {
    pub decider: D,
    /// The next command, or `None` at the program's end.
    pub waiting: Option<PackedCommand>,
    /// The greatest number of further commands.
    pub left: u32,
}

impl<D> Decided<D> {
    ghost use Rattle.std.specs.Prelude.{◌↔◌, IsTrue, Some};

    /// Makes the program of a decider, which gives `first` and then the decider's commands, `most` commands at most. Requires
    /// that `most` isn't 0. Takes no memory.
    pub fn new(decider: D, first: PackedCommand, most: u32) -> Self
        requires { 0 < most }
        ensures decider { result.decider ≡ decider }
        ensures waiting { result.waiting ≡ Some first }
        ensures left { result.left ≡ most }
    {
        Decided {
            decider,
            waiting: Some(first),
            left: most,
        }
    }

    /// Returns whether no command is left, so that the program may have ended before its decider did. Takes no memory.
    pub fn is_used_up(&self) -> bool
        ensures { IsTrue result ↔ (self.now.left ≡ 0) }
    {
        self.left == 0
    }
}

impl<D: Decider> Program for Decided<D> {
    ghost use Rattle.nmgc_decider.specs.Waiting.{IsWaiting};
    ghost use Rattle.nmgc_decider.specs.laws.Waiting.{waiting_fits};

    ghost next = { λ p. p.waiting };

    ghost steps = { λ p r q. D.steps p.decider r q.decider };

    ghost words = { λ p. D.words p.decider };

    ghost most = { λ p. p.left };

    ghost valid = { λ p. D.valid p.decider × IsWaiting (D.words p.decider) p.left p.waiting };

    ghost waits = { λ p c v e. waiting_fits (D.words p.decider) p.left p.waiting c v.1 e };

    fn peek(&self) -> Option<&PackedCommand> {
        self.waiting.as_ref()
    }

    fn at_most(&self) -> u32 {
        self.left
    }

    fn take_reply(&mut self, reply: Reply) {
        let next = self.decider.decide(reply);
        self.left -= 1;
        self.waiting = if self.left > 0 { next } else { None };
    }
}

/// A decider knows its bound.
impl<D: Decider> Bounded for Decided<D> {
    fn bound(&self) -> u32 {
        self.left
    }
}

/// A program whose next command is `yield` is parked. It may wait for another one, and find its work in the heap already. A
/// program that has ended is never parked.
impl<D: Decider> Parks for Decided<D> {
    fn is_parked(&self) -> bool {
        match &self.waiting {
            Some(command) => matches!(command.form(), Form::Yield),
            None => false,
        }
    }
}
