//! A mutator on a thread of its own in a round.
//!
//! A worker is a mutator with its seat. It notes the number of commands that it did in the round, and the end of its slice.
//! `asking` does the slices, in threads that share their inputs (`RoundInputs`).
//!
//! Between two rounds there are no workers. Their room lasts for the run (`WorkerRoom`), and so does the room of the
//! mutators' list, which is empty within a round. `seat_all` and `unseat_all` take the items of a list from its front, as a
//! queue in the list's memory, and give the list back empty. So no round takes memory for either.
ghost use Rattle.std.specs.Prelude.{◌≡◌, ◌↔◌, ◌≤◌, [], IfOk, IsTrue, length, map, vec_len, vec_capacity};
ghost use Rattle.std.specs.List.{list_any};
ghost use Rattle.nmgc_cycle.specs.Stopping.{SomeIsLeft};
ghost use Rattle.nmgc_cycle.specs.Working.{asks_of, asks_full_of, workers_of, mutator_of, seat_of};

use nmgc_lists::{List, NoMemory};
use nmgc_mutator::{Mutator, SliceEnd};
use nmgc_round::{Gate, MutatorSeat, Round};
use nmgc_script::{Config, Script};
use std::alloc::Global;
use std::collections::VecDeque;
use std::marker::Model;
use std::mem;
use std::thread::Threads;

/// The inputs of a round's threads, which leave them unchanged: the round, and the configuration with the most commands of a
/// slice and the collector's quota.
#[derive(Drop)]
pub struct RoundInputs<'a, R: Threads + Sync, G: Gate> {
    /// Starts the threads.
    pub rt: &'a R,
    pub round: &'a Round,
    pub config: &'a Config,
    pub gate: &'a G,
}

/// A mutator with its seat in the round, the number of commands that its slice did, and the slice's end.
#[derive(Drop)]
pub struct Worker {
    pub mutator: Mutator,
    pub seat: MutatorSeat,
    pub done: u32,
    /// It has the slice's request, if there is one. Before the slice it is `Slice`.
    pub end: SliceEnd,
}

/// Room for the workers of a round, which lasts for the run. Contracts see the number of workers for which there is room.
#[derive(Drop)]
pub struct WorkerRoom {
    // Empty.
    workers: Vec<Worker>,
}

impl Model for WorkerRoom {
    ghost use Rattle.std.specs.Prelude.{ℕ, ◌≡◌, [], vec_capacity};

    ghost Value = { ℕ };

    ghost view = { λ r. vec_capacity r.workers };

    ghost invariant = { λ r. r.workers.items ≡ [] };
}

impl WorkerRoom {
    /// Takes the room for `count` workers, and returns it.
    pub fn reserve(alloc: Global, count: usize) -> Result<WorkerRoom, NoMemory>
        ensures { IfOk result (λ room. room ≡ count) }
    {
        Ok(WorkerRoom {
            workers: Vec::with_capacity(alloc, count)?,
        })
    }

    /// Lends the room, as an empty list of workers. Until the list is given back, no room is left. Takes no memory.
    pub fn lend(&mut self, alloc: Global) -> Vec<Worker>
        ensures empty { result.items ≡ [] }
        ensures room { vec_capacity result ≡ self.old }
    {
        mem::replace(&mut self.workers, Vec::new(alloc))
    }

    /// Takes the list of workers back, with its room. Requires that the list is empty again.
    pub fn give_back(&mut self, workers: Vec<Worker>)
        requires { workers.items ≡ [] }
        ensures { self.new ≡ vec_capacity workers }
    {
        self.workers = workers;
    }
}

/// Whether any program has commands left. Requires that there is a position for each program.
pub fn are_commands_left(script: &Script, positions: &[u32]) -> bool
    requires { length positions.now ≡ length script.now.threads }
    ensures { IsTrue result ↔ SomeIsLeft script.now.threads positions.now }
{
    script.threads.items().iter().zip(positions.iter()).any(|(
        program,
        position,
    )| (*position as usize) < program.items().len())
}

/// Whether any worker's slice ended with the request for a cycle. A request for a full cycle doesn't count.
pub fn some_asks(workers: &[Worker]) -> bool
    ensures { result ≡ list_any asks_of workers.now }
{
    workers
        .iter()
        .any(|worker| matches!(worker.end, SliceEnd::Collect))
}

/// Whether any worker's slice ended with the request for a full cycle.
pub fn some_ask_full(workers: &[Worker]) -> bool
    ensures { result ≡ list_any asks_full_of workers.now }
{
    workers
        .iter()
        .any(|worker| matches!(worker.end, SliceEnd::Full))
}

/// Moves mutators and their seats into an empty list of workers with room. Returns the mutators' list, empty, with its room.
pub fn seat_all(
    mutators: Vec<Mutator>,
    seats: List<MutatorSeat>,
    workers: &mut Vec<Worker>,
) -> Vec<Mutator>
    requires count { vec_len mutators ≡ length seats }
    requires room { (workers.old.items ≡ []) × (vec_len mutators ≤ vec_capacity workers.old) }
    ensures workers { workers.new.items ≡ workers_of mutators.items seats }
    ensures room { vec_capacity workers.new ≡ vec_capacity workers.old }
    ensures left { (result.items ≡ []) × (vec_capacity result ≡ vec_capacity mutators) }
{
    let mut left = VecDeque::from_vec(mutators);
    let mut seats = seats;
    while let Some(mutator) = left.pop_front() {
        let Some(seat) = seats.take_first() else {
            unreachable!();
        };
        workers.push_reserved(Worker {
            mutator,
            seat,
            done: 0,
            end: SliceEnd::Slice,
        });
    }
    left.into_vec()
}

/// Moves the workers' mutators and seats into two empty lists with room. Returns the workers' list, empty, with its room.
pub fn unseat_all(
    workers: Vec<Worker>,
    mutators: &mut Vec<Mutator>,
    seats: &mut Vec<MutatorSeat>,
) -> Vec<Worker>
    requires mutators { (mutators.old.items ≡ []) × (vec_len workers ≤ vec_capacity mutators.old) }
    requires seats { (seats.old.items ≡ []) × (vec_len workers ≤ vec_capacity seats.old) }
    ensures mutators { mutators.new.items ≡ map mutator_of workers.items }
    ensures seats { seats.new.items ≡ map seat_of workers.items }
    ensures left { (result.items ≡ []) × (vec_capacity result ≡ vec_capacity workers) }
{
    let mut left = VecDeque::from_vec(workers);
    while let Some(worker) = left.pop_front() {
        let Worker {
            mutator,
            seat,
            done: _,
            end: _,
        } = worker;
        mutators.push_reserved(mutator);
        seats.push_reserved(seat);
    }
    left.into_vec()
}
