//! The end of a cycle. A cycle can end if no debt is left and no pushed name is untaken: if takes are reported, each pushed
//! name except g was taken. The snapshot and the opened, pushed and finalised names decide the end. The roots and the names
//! opened by commands or pushed are live, with all that is reachable from them. Without reported deaths, each weak pointer of
//! the snapshot dies that is alive, wasn't finalised, and has a key that isn't live.
//!
//! Easy to get wrong: a name floats if only pushes keep it. Floating names are kept, but reported deaths are judged by the
//! names that the commands keep. A weak pointer may live on although the commands don't keep its key, if the key floats or
//! the death isn't reported. Its finaliser is still to run, and a mutator that holds the weak pointer can still read its
//! value. So the names that its key keeps may not be freed, and a weak pointer whose key is such a name isn't dead.
ghost use Rattle.std.specs.Prelude.{◌≡◌, ◌++◌, [], None, IfOk, All, filter};
ghost use Rattle.nmgc_world_spec.specs.Reach.{IsInOrder, IsAliveWeak, closed};
ghost use Rattle.nmgc_barrier_checker.specs.{Cycles.is_outside, Cycles.keys_then, Watching.AreSerials};

use crate::cycle::Cycle;
use crate::cycle_result::{CycleResult, first_missing};
use crate::event::Why;
use crate::sorted_names::SortedNames;
use nmgc_graph::opened::names_among;
use nmgc_graph::{Marks, World};
use nmgc_lists::{List, NoMemory};
use nmgc_world_spec::Name;
use std::alloc::Global;

impl Cycle {
    ghost use Rattle.nmgc_world_spec.specs.Reach.{IsDead, Lists};
    ghost use Rattle.nmgc_barrier_laws.specs.Cycle.{MarksName as HasToMark, Needs, IsAllTaken};
    ghost use Rattle.nmgc_barrier_checker.specs.{Cycles.IsOpenedWith, Watching.IsEnding, Watching.IsEndingWith, Watching.IsAgainstIf, Watching.IsDeadIf, Watching.IsLeft, Watching.IsResultWith};

    /// Returns the result of a close without reported deaths, or a reason why the cycle can't end. The reason is an unpaid
    /// debt of the least line, or else an untaken pushed name. Takes time and memory for each object, field and debt.
    pub fn result_or_why(&self) -> Result<Result<CycleResult, Why>, NoMemory>
        ensures { IfOk result (IsEnding self.now) }
    {
        match self.reason_against_end() {
            Some(why) => Ok(Err(why)),
            None => Ok(Ok(self.close_result()?)),
        }
    }

    /// Returns the result of a close at which exactly the weak pointers `named` die, or else a reason against this close. The
    /// reason is against any end of the cycle, or is a weak pointer of `named` that isn't dead (`Why::NotDead`).
    pub fn result_or_why_with(&self, named: &[Name]) -> Result<Result<CycleResult, Why>, NoMemory>
        ensures { IfOk result (IsEndingWith self.now named.now) }
    {
        match self.reason_against_end() {
            Some(why) => Ok(Err(why)),
            None => self.result_if_dead(named),
        }
    }

    // Returns a reason why the cycle can't end, if any: an unpaid debt of the least line, or else an untaken pushed name.
    fn reason_against_end(&self) -> Option<Why>
        ensures { IsAgainstIf self.now result }
    {
        if let Some(debt) = self.first_debt() {
            return Some(Why::Due(debt));
        }
        match self.first_untaken() {
            Some(name) => Some(Why::Untaken(name)),
            None => None,
        }
    }

    // Returns the result of a close at which exactly these weak pointers die, or one of them that isn't dead, as a reason.
    // Requires that no debt and no untaken name is left.
    fn result_if_dead(&self, named: &[Name]) -> Result<Result<CycleResult, Why>, NoMemory>
        requires none { self.now.debts ≡ [] }
        requires taken { IsAllTaken self.now }
        ensures { IfOk result (IsEndingWith self.now named.now) }
    {
        match self.first_not_dead(named)? {
            Some(weak) => Ok(Err(Why::NotDead(weak))),
            None => Ok(Ok(self.close_result_with(named)?)),
        }
    }

    // Returns the first of these weak pointers that isn't dead if exactly these die, or `None` if all of them are dead.
    fn first_not_dead(&self, named: &[Name]) -> Result<Option<Name>, NoMemory>
        ensures { IfOk result (IsDeadIf self.now named.now) }
    {
        let names = self.opened_and_keys(named)?;
        let dead = self
            .snapshot
            .dead_weaks(names.as_slice(), self.finalised.items())?;
        let other = first_missing(&self.snapshot, dead.items(), named)?;
        Ok(other)
    }

    // Returns the result of a close at which all dead weak pointers die. Requires that no debt and no untaken name is left.
    fn close_result(&self) -> Result<CycleResult, NoMemory>
        requires none { self.now.debts ≡ [] }
        requires taken { IsAllTaken self.now }
        ensures { IfOk result (IsLeft self.now) }
    {
        let dead = self.dying_weaks()?;
        let world = copy_and_close(&self.world, dead.items())?;
        let left = self.make_result(world, dead.items())?;
        Ok(left)
    }

    // Returns the result of a close at which exactly these weak pointers die. Requires that they are dead if exactly they
    // die, and that no debt and no untaken name is left.
    fn close_result_with(&self, named: &[Name]) -> Result<CycleResult, NoMemory>
        requires none { self.now.debts ≡ [] }
        requires taken { IsAllTaken self.now }
        requires dead { IsDeadIf self.now named.now None }
        ensures { IfOk result (IsResultWith self.now named.now) }
    {
        let set = self.snapshot.set_of(named)?;
        let dead = set.names(self.snapshot.alloc())?;
        let world = copy_and_close(&self.world, dead.items())?;
        let left = self.make_result(world, named)?;
        Ok(left)
    }

    // Returns, in order, the weak pointers that die at a close without reported deaths. Each was alive in the snapshot, isn't
    // finalised, and has a key that isn't live from roots, opened names and pushed names.
    fn dying_weaks(&self) -> Result<List<Name>, NoMemory>
        ensures { IfOk result (Lists (IsDead self.now.snapshot (self.now.opened ++ self.now.remembered) self.now.finalised)) }
    {
        let all = join_names(
            self.world.alloc(),
            self.opened.names.items(),
            self.remembered.names.items(),
        )?;
        let dead = self
            .snapshot
            .dead_weaks(all.as_slice(), self.finalised.items())?;
        Ok(dead)
    }

    // Makes the result of a close at which these weak pointers die, with `world` as the heap after it.
    fn make_result(&self, world: World, dead: &[Name]) -> Result<CycleResult, NoMemory>
        ensures world { IfOk result (λ left. left.world ≡ world) }
        ensures kept { IfOk result (λ left. Lists (HasToMark self.now) left.kept) }
        ensures needed { IfOk result (λ left. Lists (Needs self.now dead.now) left.needed) }
        ensures old { IfOk result (λ left. AreSerials self.now.snapshot left.old) }
    {
        let all = join_names(
            self.world.alloc(),
            self.opened.names.items(),
            self.remembered.names.items(),
        )?;
        let kept = self.snapshot.kept(all.as_slice(), self.finalised.items())?;
        let needed = self.needed_names(dead)?;
        let old = name_counts(&self.snapshot)?;
        Ok(CycleResult {
            world,
            kept: SortedNames::new(kept),
            needed: SortedNames::new(needed),
            old,
        })
    }

    // Returns the names that no collector may free if exactly these weak pointers die.
    fn needed_names(&self, dead: &[Name]) -> Result<List<Name>, NoMemory>
        ensures { IfOk result (Lists (Needs self.now dead.now)) }
    {
        let names = self.opened_and_keys(dead)?;
        let needed = self
            .snapshot
            .kept(names.as_slice(), self.finalised.items())?;
        Ok(needed)
    }

    // Returns the opened names, followed by the targets of the keys of the weak pointers that live on if exactly these die.
    fn opened_and_keys(&self, dead: &[Name]) -> Result<Vec<Name>, NoMemory>
        ensures { IfOk result (λ names. IsOpenedWith self.now dead.now names.items) }
    {
        let weaks = self.snapshot.alive_weaks()?;
        let dying = self.snapshot.set_of(dead)?;
        let ended = self.snapshot.set_of(self.finalised.items())?;
        let living = weaks_outside(self.world.alloc(), weaks.items(), &dying, &ended)?;
        let keys = keys_of_weaks(&self.snapshot, living.items())?;
        let names = join_names(
            self.world.alloc(),
            self.opened.names.items(),
            keys.as_slice(),
        )?;
        Ok(names)
    }
}

// Returns the weak pointers of `weaks` that are neither in `dying` nor in `ended`.
fn weaks_outside(
    alloc: Global,
    weaks: &[Name],
    dying: &Marks,
    ended: &Marks,
) -> Result<List<Name>, NoMemory>
    ensures { IfOk result (λ living. living ≡ filter (is_outside dying.now ended.now) weaks.now) }
{
    let mut living = List::new(alloc);
    for weak in weaks {
        if is_outside(dying, ended, *weak) {
            living.push(*weak)?;
        }
    }
    Ok(living)
}

// Whether a name is in neither set.
fn is_outside(dying: &Marks, ended: &Marks, weak: Name) -> bool
    ensures { result ≡ is_outside dying.now ended.now weak }
{
    !dying.contains(weak) && !ended.contains(weak)
}

// Returns the targets of keys: for each weak pointer of `weaks` that is alive in the world, its key, if that is a reference.
fn keys_of_weaks(world: &World, weaks: &[Name]) -> Result<Vec<Name>, NoMemory>
    ensures { IfOk result (λ keys. keys.items ≡ keys_then world.now weaks.now) }
{
    let mut keys = Vec::new(world.alloc());
    for weak in weaks {
        if let Some(parts) = world.parts(*weak) {
            let key = names_among(world.alloc(), &[parts.key])?;
            keys.extend_from_slice(key.as_slice())?;
        }
    }
    Ok(keys)
}

// Returns the names of both lists, one list after the other.
fn join_names(alloc: Global, left: &[Name], right: &[Name]) -> Result<Vec<Name>, NoMemory>
    ensures { IfOk result (λ names. names.items ≡ left.now ++ right.now) }
{
    let mut names = Vec::new(alloc);
    names.extend_from_slice(left)?;
    names.extend_from_slice(right)?;
    Ok(names)
}

// Returns, for each mutator of a world, the number of its names.
fn name_counts(world: &World) -> Result<List<u32>, NoMemory>
    ensures { IfOk result (AreSerials world.now) }
{
    let mut serials = List::new(world.alloc());
    for mutator in 0..world.mutators() {
        serials.push(world.serial(mutator))?;
    }
    Ok(serials)
}

// Returns a copy of the world in which these weak pointers are dead. They have to be alive in the world, and in order.
fn copy_and_close(world: &World, dead: &[Name]) -> Result<World, NoMemory>
    requires ordered { IsInOrder dead.now }
    requires alive { All (IsAliveWeak world.now) dead.now }
    ensures { IfOk result (λ after. after ≡ closed world.now dead.now) }
{
    let mut after = world.copy()?;
    after.close(dead)?;
    Ok(after)
}
