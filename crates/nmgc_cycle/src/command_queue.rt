//! The commands of one mutator in a session: they come between two rounds, and wait until a round asks for them.
//!
//! A queue is a program. In a round it gives the commands that wait, in order. If none is left, it gives a `yield`, its pause, at
//! most once in a round. So a mutator whose commands are all answered ends its slice, and still has a command left at the next
//! stop. The commands that were accepted, and those that were answered, exist in proofs alone (`PastRows`). So a queue takes
//! memory for the commands that wait.
//!
//! Easy to get wrong: a pause that wasn't answered in its round isn't kept, so no mutator falls behind.
ghost use Rattle.std.specs.Prelude.{ℕ, ◌≡◌, ◌↔◌, [], ◌++◌, ◌∷◌, IfOk, OnOk, IsTrue, true};
ghost use Rattle.nmgc_world_spec.specs.World.{Fits};
ghost use Rattle.nmgc_cycle.specs.Sessions.{HasPushed, HasRoom, IsQueue};

use crate::past_rows::PastRows;
use nmgc_commands::{Form, PackedCommand};
use nmgc_limits::MAX_SCRIPT_BYTES;
use nmgc_lists::NoMemory;
use nmgc_mutator::Program;
use nmgc_world_spec::Reply;
use std::alloc::Global;
use std::collections::VecDeque;

/// The commands of one mutator in a session.
#[derive(Drop)]
pub struct CommandQueue {
    // The commands that wait.
    pub(crate) waiting: VecDeque<PackedCommand>,
    // The command `yield`.
    pub(crate) pause: PackedCommand,
    // Whether the pause may be given after the commands that wait.
    pub(crate) can_pause: bool,
    // All commands that were ever added.
    pub(crate) accepted: PastRows<PackedCommand>,
    // The commands that were answered, with the pauses among them.
    pub(crate) answered: PastRows<PackedCommand>,
    // No object that the commands make has more words.
    pub(crate) words: u32,
}

impl CommandQueue {
    /// Returns a queue without commands, whose commands make objects of at most `words` words. Takes no memory.
    pub fn new(alloc: Global, words: u32) -> CommandQueue
        ensures queue { IsQueue result }
        ensures words { result.words ≡ words }
        ensures waiting { result.waiting.items ≡ [] }
        ensures accepted { result.accepted ≡ [] }
        ensures answered { result.answered ≡ [] }
    {
        CommandQueue {
            waiting: VecDeque::new(alloc),
            pause: PackedCommand { form: Form::Yield },
            can_pause: false,
            accepted: PastRows::new(),
            answered: PastRows::new(),
            words,
        }
    }

    /// Whether the mutator may get another command, or a pause: a program has at most `MAX_SCRIPT_BYTES` commands, and there is
    /// always room for one more pause.
    pub fn has_room(&self) -> bool
        ensures { IsTrue result ↔ HasRoom self.now }
    {
        let most = MAX_SCRIPT_BYTES as u64;
        let answered = self.answered.count();
        let waiting = self.waiting.len() as u64;
        answered < most && waiting < most && answered + waiting + 2 <= most
    }

    /// Adds a command behind those that wait. Requires room for it, and that it fits.
    pub fn push(&mut self, command: PackedCommand) -> Result<(), NoMemory>
        requires queue { IsQueue self.old }
        requires fits { Fits self.old.words command }
        requires room { HasRoom self.old }
        ensures pushed { OnOk result (HasPushed command self.old self.new) }
        ensures queue { OnOk result (IsQueue self.new) }
    {
        self.accepted.note(&command);
        self.waiting.push_back(command)?;
        Ok(())
    }

    // Lets the queue give a pause after the commands that wait.
    pub(crate) fn allow_pause(&mut self)
        ensures { self.new ≡ record self.old { can_pause = true } }
    {
        self.can_pause = true;
    }
}

impl Program for CommandQueue {
    ghost use Rattle.nmgc_cycle.specs.Sessions.{HasGiven, IsQueue, most_in, next_in};
    ghost use Rattle.nmgc_cycle.specs.laws.Queues.{queue_waits};

    ghost next = { λ q. next_in q };

    ghost steps = { λ q reply r. HasGiven q r };

    ghost words = { λ q. q.words };

    ghost most = { λ q. most_in q };

    ghost valid = { λ q. IsQueue q };

    ghost waits = { λ q c valid is. queue_waits q c valid is };

    fn peek(&self) -> Option<&PackedCommand> {
        match self.waiting.front() {
            Some(command) => Some(command),
            None if self.can_pause => Some(&self.pause),
            None => None,
        }
    }

    fn at_most(&self) -> u32 {
        self.waiting
            .len()
            .saturating_add(usize::from(self.can_pause))
            .min(u32::MAX as usize) as u32
    }

    fn take_reply(&mut self, reply: Reply) {
        drop(reply);
        match self.waiting.pop_front() {
            Some(command) => self.answered.note(&command),
            None => {
                self.can_pause = false;
                self.answered.note(&self.pause);
            }
        }
    }
}
