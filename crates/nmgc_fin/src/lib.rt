//! Finaliser workers: one job for each dead weak pointer of a report, each handled once by some worker.
//!
//! A report's text is read back into jobs, the jobs are put into a queue, and workers, in threads of their own if possible,
//! take them until none is left. Each worker has a *pass*, the permission to use the queue. Each job is handled exactly once,
//! by a fact about the queue: the jobs that its passes took and the jobs left are together the pushed jobs. No worker waits
//! for another, and the output doesn't depend on which worker handled which job.
//!
//! - `job`, `text`, `scan`, `reading`: a job, the jobs of a report's text, a text taken in pieces, and a report read in pieces.
//! - `hand`, `plays`: the knowledge of a pass of the queue, and the rule of the queue.
//! - `worker`, `run`: one worker, and all of them.
//! - `order`: the handled jobs in order of number, as text.
//! - `top`, `entry`: the top call, and the whole program except its streams.
//!
//! This is the one crate that may wait: the queue's `pop` waits for a thread within a push. Easy to get wrong: a worker that
//! finds no job knows only that none was queued at one moment. Only when all passes are joined is it known that none is left.
#![tactic(auto)]

pub mod entry;
pub mod hand;
pub mod job;
pub mod order;
mod plays;
pub mod reading;
pub mod run;
pub mod scan;
pub mod text;
pub mod top;
pub mod worker;

pub use entry::program;
pub use job::Job;
pub use run::{Handled, run_jobs};
pub use text::{JobsFault, jobs};
pub use top::{FinStatus, nmgc_fin};
