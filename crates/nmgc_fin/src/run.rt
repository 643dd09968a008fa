//! All jobs are handled once, by some worker.
//!
//! The queue's first pass has every part, and gives one part to each worker's pass. Only a pass with every part may push, or
//! learns that no job is left. All jobs are pushed first. Then each worker takes jobs until it finds none, in a thread of its
//! own if the system can start it. After all have returned, their passes are joined to the first pass, which has every part
//! again. With this pass the last worker takes jobs until it finds none. Only then is it known that all jobs were taken.
ghost use Rattle.std.specs.Prelude.{◌≡◌, ◌+◌, ◌-◌, ◌<◌, ◌≤◌, [], ◌++◌, length, vec_len, vec_capacity, IfOk, OnOk, All};
ghost use Rattle.std.specs.Thread.{IsSync};
ghost use Rattle.crossbeam_queue.specs.SegTies.{IsSegPassOf};
ghost use Rattle.nmgc_fin.specs.{declared.run.TheConstants.MOST_WORKERS, Handles.AreNumbered, Handles.Handles, Handles.joined, Rule.hand, Rule.most_parts, Worker.IsWorker, Worker.AreWorkers, Worker.HasEnded, Worker.HaveEnded, Worker.lists_of};

use crate::hand::Hand;
use crate::job::Job;
use crate::plays::{Both, Part, Puts};
use crate::worker::{JobPass, JobQueue, Worker};
use nmgc_lists::{List, NoMemory};
use nmgc_round::Gate;
use std::alloc::Global;
use std::sync::Wait;
use std::thread::Threads;
use std::{mem, thread};

/// The most workers.
pub const MOST_WORKERS: u8 = 32;

/// For each worker, the jobs that it handled, in the order in which it handled them.
#[derive(Drop)]
pub struct Handled {
    pub by: List<List<Job>>,
}

/// Handles the jobs with `workers` workers, from 1 to `MOST_WORKERS`, each job once and in any order. Returns each worker's
/// jobs. Requires that the jobs are numbered from 0. Before a worker handles a job, it passes `gate` with its own number,
/// from 0, and the count of its passes, from 1. May wait while another thread is within a push, and returns after every
/// worker has returned. No clause promises a return, a call of `gate`, or that more than one worker handles a job. Takes
/// memory for the queue, and in each worker's list for all jobs. After `NoMemory` some jobs may have been handled.
pub fn run_jobs<R: Threads + Wait + Sync, G: Gate>(
    alloc: Global,
    rt: &R,
    jobs: &[Job],
    workers: u8,
    gate: &G,
) -> Result<Handled, NoMemory>
    requires workers { (1 ≤ workers) × (workers ≤ MOST_WORKERS) }
    requires numbered { AreNumbered jobs.now }
    ensures handled { IfOk result (λ handled. Handles jobs.now handled.by) }
    ensures count { IfOk result (λ handled. length handled.by ≡ workers) }
{
    let (queue, pass) = JobQueue::with_rule(alloc)?;
    let handled = handle(alloc, rt, &queue, pass, jobs, workers, gate);
    queue.destroy();
    handled
}

// Pushes all jobs with the queue's first pass, lets the workers handle them, and returns the workers' lists.
fn handle<R: Threads + Wait + Sync, G: Gate>(
    alloc: Global,
    rt: &R,
    queue: &JobQueue,
    pass: JobPass,
    jobs: &[Job],
    workers: u8,
    gate: &G,
) -> Result<Handled, NoMemory>
    requires pass { IsSegPassOf queue.now pass }
    requires first { pass.me.view.client ≡ hand most_parts [] [] }
    requires workers { (1 ≤ workers) × (workers ≤ MOST_WORKERS) }
    ensures handled { IfOk result (λ handled. Handles jobs.now handled.by) }
    ensures count { IfOk result (λ handled. length handled.by ≡ workers) }
{
    let mut pass = pass;
    push_all(rt, queue, &mut pass, jobs)?;
    let mut crew = hire(alloc, queue, &mut pass, workers, jobs)?;
    work_all(rt, queue, jobs, crew.as_mut_slice(), gate);
    gather(alloc, rt, queue, pass, jobs, crew, gate)
}

// Pushes all jobs into the queue, in order. Requires a pass that has every part, and that no job was pushed yet.
fn push_all<R: Wait>(
    rt: &R,
    queue: &JobQueue,
    pass: &mut JobPass,
    jobs: &[Job],
) -> Result<(), NoMemory>
    requires pass { IsSegPassOf queue.now pass.old }
    requires first { pass.old.me.view.client ≡ hand most_parts [] [] }
    ensures pass { OnOk result (IsSegPassOf queue.now pass.new) }
    ensures pushed { OnOk result (pass.new.me.view.client ≡ hand most_parts jobs.now []) }
{
    for job in jobs {
        if queue.push_as::<Puts, R>(rt, pass, *job).is_err() {
            return Err(NoMemory);
        }
    }
    Ok(())
}

// Makes `workers` workers that handled nothing yet, each with one part of the pass, and with room for all jobs in its list.
fn hire(
    alloc: Global,
    queue: &JobQueue,
    pass: &mut JobPass,
    workers: u8,
    jobs: &[Job],
) -> Result<Vec<Worker>, NoMemory>
    requires pass { IsSegPassOf queue.now pass.old }
    requires pushed { pass.old.me.view.client ≡ hand most_parts jobs.now [] }
    requires workers { workers ≤ MOST_WORKERS }
    ensures pass { OnOk result (IsSegPassOf queue.now pass.new) }
    ensures left { OnOk result (pass.new.me.view.client ≡ hand (most_parts - workers) jobs.now []) }
    ensures crew { IfOk result (λ crew. AreWorkers queue.now jobs.now crew.items) }
    ensures count { IfOk result (λ crew. vec_len crew ≡ workers) }
{
    let mut crew = Vec::with_capacity(alloc, workers as usize)?;
    for _number in 0..workers {
        let done = Vec::with_capacity(alloc, jobs.len())?;
        crew.push_reserved(Worker::new(queue.another::<Part>(pass), done));
    }
    Ok(crew)
}

// Lets each worker take jobs until it finds none, in a thread of its own if the system can start it.
fn work_all<R: Threads + Wait + Sync, G: Gate>(
    rt: &R,
    queue: &JobQueue,
    jobs: &[Job],
    crew: &mut [Worker],
    gate: &G,
)
    requires workers { AreWorkers queue.now jobs.now crew.old }
    requires few { length crew.old ≤ MOST_WORKERS }
    ensures workers { AreWorkers queue.now jobs.now crew.new }
    ensures ended { HaveEnded crew.new }
    ensures count { length crew.new ≡ length crew.old }
{
    thread::for_each_mut(
        rt,
        crew,
        MOST_WORKERS as usize,
        &|number, worker: &mut Worker|
            requires { (number < MOST_WORKERS) × IsWorker queue.now jobs.now worker.now }
            ensures { IsWorker queue.entry.now jobs.entry.now worker.exit.now × HasEnded worker.exit.now }
        { work_one(rt, queue, jobs, number as u8, worker, gate) },
    );
}

// Lets one worker take and handle jobs until it finds none. Only the contract uses `jobs`, which are all pushed jobs.
fn work_one<R: Wait, G: Gate>(
    rt: &R,
    queue: &JobQueue,
    jobs: &[Job],
    number: u8,
    worker: &mut Worker,
    gate: &G,
)
    requires { IsWorker queue.now jobs.now worker.old }
    ensures { IsWorker queue.now jobs.now worker.new × HasEnded worker.new }
{
    let _ = jobs;
    worker.work(rt, queue, number, gate);
}

// Joins all passes to `pass`, lets the last worker look for jobs with `pass` once more, and returns the workers' lists.
fn gather<R: Wait, G: Gate>(
    alloc: Global,
    rt: &R,
    queue: &JobQueue,
    pass: JobPass,
    jobs: &[Job],
    crew: Vec<Worker>,
    gate: &G,
) -> Result<Handled, NoMemory>
    requires pass { IsSegPassOf queue.now pass }
    requires left { pass.me.view.client ≡ hand (most_parts - vec_len crew) jobs.now [] }
    requires crew { AreWorkers queue.now jobs.now crew.items }
    requires ended { HaveEnded crew.items }
    requires count { (1 ≤ vec_len crew) × (vec_len crew ≤ MOST_WORKERS) }
    ensures handled { IfOk result (λ handled. Handles jobs.now handled.by) }
    ensures lists { IfOk result (λ handled. length handled.by ≡ vec_len crew) }
{
    let mut crew = crew;
    let mut pass = pass;
    let Some(last) = crew.pop() else {
        unreachable!();
    };
    let number = crew.len() as u8;
    let mut by = join_all(alloc, queue, &mut pass, jobs, crew)?;
    let mut last = last;
    let theirs = mem::replace(&mut last.pass, pass);
    queue.absorb::<Both>(&mut last.pass, theirs);
    last.work(rt, queue, number, gate);
    let (_, done) = last.into_parts();
    by.push(List::from_vec(done)?)?;
    Ok(Handled { by })
}

// Joins the workers' passes to `pass`, and returns the workers' lists. Only the contract uses `jobs`, which are all pushed.
fn join_all(
    alloc: Global,
    queue: &JobQueue,
    pass: &mut JobPass,
    jobs: &[Job],
    crew: Vec<Worker>,
) -> Result<List<List<Job>>, NoMemory>
    requires pass { IsSegPassOf queue.now pass.old }
    requires part { 0 < pass.old.me.view.client.parts }
    requires pushed { pass.old.me.view.client ≡ hand pass.old.me.view.client.parts jobs.now [] }
    requires crew { AreWorkers queue.now jobs.now crew.items }
    ensures pass { OnOk result (IsSegPassOf queue.now pass.new) }
    ensures joined { OnOk result (pass.new.me.view.client ≡ hand (pass.old.me.view.client.parts + length crew.items) jobs.now (joined (lists_of crew.items))) }
    ensures lists { IfOk result (λ by. by ≡ lists_of crew.items) }
{
    let _ = jobs;
    let mut by = List::new(alloc);
    for worker in crew {
        let (theirs, done) = worker.into_parts();
        queue.absorb::<Both>(pass, theirs);
        by.push(List::from_vec(done)?)?;
    }
    Ok(by)
}
