//! The handled jobs in the order of their numbers, and their text.
//!
//! Which worker handled a job, and when, depends on the schedule; the text doesn't. A job's position is its number, so
//! nothing is sorted.
ghost use Rattle.std.specs.Prelude.{◌≡◌, ◌++◌, All, length, IfOk, OnOk, Contains};
ghost use Rattle.nmgc_fin.specs.{Handles.joined, Order.AreWithin, Order.AreAlike, Order.IsPlaced, Order.job_line, Order.jobs_text, declared.job.Job.Job as JobOf};

use crate::Handled;
use crate::job::Job;
use nmgc_io::push_number;
use nmgc_journal::push_name;
use nmgc_lists::NoMemory;
use nmgc_world_spec::Name;
use std::alloc::Global;

/// Returns `count` names. The name of each handled job's weak pointer is at the position of the job's number. Requires that
/// the numbers are below `count`, and that jobs with the same number have the same weak pointer. Takes memory for the names.
pub fn names_in_order(alloc: Global, count: usize, handled: &Handled) -> Result<Vec<Name>, NoMemory>
    requires within { AreWithin count (joined handled.now.by) }
    requires alike { AreAlike (joined handled.now.by) }
    ensures count { IfOk result (λ names. length names.items ≡ count) }
    ensures placed { IfOk result (λ names. All (IsPlaced names.items) (joined handled.now.by)) }
{
    let mut names = Vec::from_elem(alloc, Name::SHARED, count)?;
    for list in handled.by.items() {
        place(&mut names, list.items());
    }
    Ok(names)
}

// Puts the name of each job's weak pointer at the position of the job's number. Names at all other positions stay.
fn place(names: &mut Vec<Name>, done: &[Job])
    requires within { AreWithin (length names.old.items) done.now }
    requires alike { AreAlike done.now }
    ensures count { length names.new.items ≡ length names.old.items }
    ensures placed { (x : JobOf) → Contains done.now x → IsPlaced names.new.items x }
    ensures kept { (x : JobOf) → IsPlaced names.old.items x → ((y : JobOf) → Contains done.now y → y.number ≡ x.number → y.weak ≡ x.weak) →
        IsPlaced names.new.items x }
{
    for job in done {
        names[job.number as usize] = job.weak;
    }
}

/// Returns the text that lists a job for each name of `names`, in order, numbered from 0. Takes memory for the text.
pub fn handled_text(alloc: Global, names: &[Name]) -> Result<Vec<u8>, NoMemory>
    ensures { IfOk result (λ text. text.items ≡ jobs_text names.now) }
{
    let mut out = Vec::from_slice(alloc, b"jobs ")?;
    push_number(&mut out, names.len() as u64)?;
    out.push(b'\n')?;
    for (number, name) in names.iter().enumerate() {
        push_job(&mut out, number as u64, *name)?;
    }
    out.extend_from_slice(b"end\n")?;
    Ok(out)
}

// Appends the line of a job: its number and the name of its weak pointer.
fn push_job(out: &mut Vec<u8>, number: u64, name: Name) -> Result<(), NoMemory>
    ensures { OnOk result (out.new.items ≡ out.old.items ++ job_line number name) }
{
    out.extend_from_slice(b"job ")?;
    push_number(out, number)?;
    out.push(b' ')?;
    push_name(out, name)?;
    out.push(b'\n')?;
    Ok(())
}
