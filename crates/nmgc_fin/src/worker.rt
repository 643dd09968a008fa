//! A worker: it takes jobs off the queue until it finds none.
//!
//! The jobs that its pass took are the jobs in its list. So after the passes are joined the lists are known to be all jobs
//! taken. The list has room for every job from the start, so nothing can fail while jobs are out of the queue.
//!
//! `has_ended` is private to this module. So a worker that has ended (`HaveEnded`) is one whose `work` was called.
//!
//! Easy to get wrong: if a worker found none, none was left at one moment. Nothing is pushed after the workers have started,
//! so none comes later. But only the pass with every part knows which jobs the other passes took.
ghost use Rattle.std.specs.Prelude.{false, ◌≡◌, ◌<◌, ◌≤◌, ◌++◌, [], length, vec_capacity};
ghost use Rattle.crossbeam_queue.specs.SegTies.{IsSegPassOf};
ghost use Rattle.nmgc_fin.specs.Worker.{CanWork, HasWorked};

use crate::hand::Hand;
use crate::job::Job;
use crate::plays::{Gets, Rules};
use crossbeam_queue::{RuledSegQueue, SegPass};
use nmgc_round::Gate;
use std::sync::Wait;

/// The queue of jobs.
pub type JobQueue = RuledSegQueue<Job, Hand, Rules>;

/// The permission to use the queue. Its knowledge exists only in proofs.
pub type JobPass = SegPass<Job, Hand>;

/// A worker: its pass, the jobs that it handled, the number of its passes of the gate, and whether it has ended.
#[derive(Drop)]
pub struct Worker {
    pub pass: JobPass,
    pub done: Vec<Job>,
    pub turns: u64,
    // Whether `work` was called and found no more job. Only `work` sets it.
    has_ended: bool,
}

impl Worker {
    /// Makes a worker that handled no job and hasn't ended, with `done` as its list. Takes no memory.
    pub fn new(pass: JobPass, done: Vec<Job>) -> Worker
        ensures pass { result.pass ≡ pass }
        ensures done { result.done ≡ done }
        ensures turns { result.turns ≡ 0 }
        ensures ended { result.has_ended ≡ false }
    {
        Worker {
            pass,
            done,
            turns: 0,
            has_ended: false,
        }
    }

    /// Returns the worker's pass, and the list of the jobs that it handled.
    pub fn into_parts(self) -> (JobPass, Vec<Job>)
        ensures pass { result.0 ≡ self.pass }
        ensures done { result.1 ≡ self.done }
    {
        let Worker {
            pass,
            done,
            turns: _,
            has_ended: _,
        } = self;
        (pass, done)
    }

    /// Takes jobs until none is found. For each job it passes `gate` and then puts the job into the worker's list. Requires
    /// `CanWork`. If the worker's pass has every part, the pass has taken all pushed jobs then. Takes no memory.
    pub fn work<R: Wait, G: Gate>(&mut self, rt: &R, queue: &JobQueue, number: u8, gate: &G)
        requires { CanWork queue.now self.old }
        ensures { HasWorked queue.now self.old self.new }
    {
        for _ in rt.forever() {
            let Some(job) = queue.pop_as::<Gets, R>(rt, &mut self.pass) else {
                self.has_ended = true;
                return;
            };
            self.turns = self.turns.saturating_add(1);
            gate.pass(number, self.turns);
            self.done.push_reserved(job);
        }
        unreachable!()
    }
}
