//! The debts of each mutator. A debt is a name that a mutator's command made due, with the command's line. It is unpaid until
//! the name is pushed. Each mutator has a queue of its debts, in the order in which they came, and the set of the names that
//! came due by it so far. So a name enters a queue at most once, and all queues together take memory for each name and
//! mutator. No debt has a greater line than `newest`. Paid debts leave a queue from the front (`forget_paid`), so a mutator
//! settles in amortised constant time, whatever other mutators owe. A reason is about the earliest unpaid debt. It has the
//! least line and, among debts of that line, the first name.
//!
//! Easy to get wrong: two mutators may owe the same name, if commands of both made it due.
ghost use Rattle.std.specs.Prelude.{◌≡◌, ◌⊎◌, ◌↔◌, ◌<◌, ◌∷◌, ◌++◌, List, [], false, leb, length, replicate, IsTrue, IfOk, OnOk, OnErr, All, Contains, Some, None};
ghost use Rattle.nmgc_world_spec.specs.declared.value.Name.{Name as NameAt};
ghost use Rattle.nmgc_graph.specs.Marks.{HasPlaces, mark_of};
ghost use Rattle.nmgc_barrier_laws.specs.declared.debt.Debt.{Debt as DebtAt};
ghost use Rattle.nmgc_barrier_checker.specs.{Accounts.AreAccounts, Accounts.AreNew, Accounts.IsOwing, Accounts.IsForgotten, Accounts.IsLeastIn, Accounts.IsPaidUp, Accounts.owed_one, Accounts.queue_of, Accounts.all_debts, Accounts.unpaid, First.IsEarlier};

use crate::due::is_owable;
use crate::sorted_names::is_before;
use nmgc_barrier_laws::Debt;
use nmgc_graph::{Marks, World};
use nmgc_lists::{List, NoMemory, Queue};
use nmgc_world_spec::Name;
use std::alloc::Global;

/// For each mutator, its debts and the names that its commands made due.
#[derive(Drop)]
pub(crate) struct Accounts {
    pub(crate) debts: List<Queue<Debt>>,
    pub(crate) names: List<Marks>,
    pub(crate) newest: usize,
}

impl Accounts {
    /// Makes accounts without debts. Takes memory for each mutator and name of the snapshot.
    pub(crate) fn new(snapshot: &World) -> Result<Self, NoMemory>
        ensures { IfOk result (AreNew snapshot.now) }
    {
        let debts = empty_queues(snapshot.alloc(), snapshot.mutators())?;
        let names = empty_sets(snapshot)?;
        Ok(Accounts {
            debts,
            names,
            newest: 0,
        })
    }

    /// Adds a debt of the mutator and the line for each of `names`, except names that can't be due (`is_owable`), were pushed
    /// (`marks`), or came due by this mutator before. Requires that the mutator exists. Paid debts at the front of its queue
    /// are removed first. After `NoMemory` some debts may be added. Takes amortised constant time for each name.
    pub(crate) fn owe(
        &mut self,
        snapshot: &World,
        marks: &Marks,
        line: usize,
        mutator: u8,
        names: &[Name],
    ) -> Result<(), NoMemory>
        requires are { AreAccounts marks.now snapshot.now self.old }
        requires mutator { mutator < length self.old.debts }
        ensures are { AreAccounts marks.now snapshot.now self.new }
        ensures count { length self.new.debts ≡ length self.old.debts }
        ensures owing { OnOk result (IsOwing snapshot.now marks.now line mutator names.now self.old self.new) }
    {
        self.forget(marks, mutator);
        for name in names {
            let debt = Debt {
                name: *name,
                line,
                mutator,
            };
            self.owe_one(snapshot, marks, debt)?;
        }
        Ok(())
    }

    // Adds a debt to its mutator's queue if its name may be due, wasn't pushed, and didn't come due by this mutator before.
    fn owe_one(&mut self, snapshot: &World, marks: &Marks, debt: Debt) -> Result<(), NoMemory>
        requires are { AreAccounts marks.now snapshot.now self.old }
        requires mutator { debt.mutator < length self.old.debts }
        ensures ok { OnOk result (self.new ≡ owed_one snapshot.now marks.now self.old debt) }
        ensures err { OnErr result (self.new ≡ self.old) }
    {
        let mutator = debt.mutator as usize;
        if !is_owable(snapshot, debt.name)
            || marks.contains(debt.name)
            || self.names.items()[mutator].contains(debt.name)
        {
            return Ok(());
        }
        self.debts.items_mut()[mutator].push(debt)?;
        self.names.items_mut()[mutator].insert(debt.name);
        self.newest = self.newest.max(debt.line);
        Ok(())
    }

    // Removes paid debts from the front of a mutator's queue, until an unpaid debt is first or the queue is empty.
    fn forget(&mut self, marks: &Marks, mutator: u8)
        requires { mutator < length self.old.debts }
        ensures { IsForgotten marks.now mutator self.old self.new }
    {
        forget_paid(marks, &mut self.debts.items_mut()[mutator as usize]);
    }

    /// Returns the earliest unpaid debt of a mutator, if any, and removes paid debts from the front of its queue. Takes
    /// amortised constant time if there is none, and otherwise time for each debt in the queue.
    pub(crate) fn first_unpaid(&mut self, marks: &Marks, mutator: u8) -> Option<Debt>
        requires { mutator < length self.old.debts }
        ensures forgotten { IsForgotten marks.now mutator self.old self.new }
        ensures first { IsLeastIn (unpaid marks.now (queue_of self.old.debts mutator)) result }
    {
        self.forget(marks, mutator);
        least_of(marks, self.debts.items()[mutator as usize].items(), None)
    }

    /// Whether a debt of this line or of a greater line was added. If not, no debt has this line. Takes constant time.
    pub(crate) fn may_have_debt_of_line(&self, line: usize) -> bool
        ensures { result ≡ leb line self.now.newest }
    {
        line <= self.newest
    }

    /// Returns the earliest unpaid debt, or `None` if no debt is unpaid. Takes time for each debt in the queues.
    pub(crate) fn least_unpaid(&self, marks: &Marks) -> Option<Debt>
        ensures { IsLeastIn (unpaid marks.now (all_debts self.now.debts)) result }
    {
        least_among(marks, self.debts.items())
    }
}

// Makes `mutators` empty queues.
fn empty_queues(alloc: Global, mutators: u8) -> Result<List<Queue<Debt>>, NoMemory>
    ensures { IfOk result (λ queues. queues ≡ replicate mutators []) }
{
    let mut queues = List::new(alloc);
    for _ in 0..mutators {
        queues.push(Queue::new(alloc))?;
    }
    Ok(queues)
}

// Makes, for each mutator, an empty set with a position for each name of the snapshot.
fn empty_sets(snapshot: &World) -> Result<List<Marks>, NoMemory>
    ensures count { IfOk result (λ sets. length sets ≡ length snapshot.now.mutators) }
    ensures places { IfOk result (λ sets. All (HasPlaces snapshot.now) sets) }
    ensures free { IfOk result (λ sets. All (λ set. (name : NameAt) → mark_of set name ≡ false) sets) }
{
    let mut sets = List::new(snapshot.alloc());
    for _ in 0..snapshot.mutators() {
        sets.push(snapshot.empty_set()?)?;
    }
    Ok(sets)
}

// Removes paid debts from the front of a queue, until an unpaid debt is first or the queue is empty.
fn forget_paid(marks: &Marks, debts: &mut Queue<Debt>)
    ensures same { unpaid marks.now debts.new ≡ unpaid marks.now debts.old }
    ensures fewer { (d : DebtAt) → Contains debts.new d → Contains debts.old d }
    ensures first { IsPaidUp marks.now debts.new }
{
    while let Some(debt) = debts.first() {
        if !marks.contains(debt.name) {
            return;
        }
        debts.take_first();
    }
}

// Returns the earliest unpaid debt in all queues, or `None` if no debt is unpaid.
fn least_among(marks: &Marks, queues: &[Queue<Debt>]) -> Option<Debt>
    ensures { IsLeastIn (unpaid marks.now (all_debts queues.now)) result }
{
    let mut least = None;
    for queue in queues {
        least = least_of(marks, queue.items(), least);
    }
    least
}

// Returns the earliest debt among `so_far` and the unpaid debts of `debts`, or `None` if there is no such debt.
fn least_of(marks: &Marks, debts: &[Debt], so_far: Option<Debt>) -> Option<Debt>
    ensures { (before : List DebtAt) → IsLeastIn before so_far → IsLeastIn (before ++ unpaid marks.now debts.now) result }
{
    let mut least = so_far;
    for debt in debts {
        least = lesser_unpaid(marks, least, *debt);
    }
    least
}

// Returns `so_far` if `debt` is paid. Otherwise returns the earlier debt, which is `debt` if there is no `so_far`.
fn lesser_unpaid(marks: &Marks, so_far: Option<Debt>, debt: Debt) -> Option<Debt>
    ensures { (before : List DebtAt) → IsLeastIn before so_far → IsLeastIn (before ++ unpaid marks.now (debt ∷ [])) result }
{
    if marks.contains(debt.name) {
        return so_far;
    }
    Some(earlier_debt(so_far, debt))
}

// Returns the earlier debt: `first` if neither is earlier, and `second` if there is no `first`.
fn earlier_debt(first: Option<Debt>, second: Debt) -> Debt
    ensures some { (d : DebtAt) → first ≡ Some d → ((result ≡ d) × (IsEarlier second d → ⊥)) ⊎ ((result ≡ second) × IsEarlier second d) }
    ensures none { first ≡ None → result ≡ second }
{
    match first {
        Some(debt) if !is_earlier(second, debt) => debt,
        _ => second,
    }
}

// Whether the debt `a` is earlier than `b`: by line, and then by name.
fn is_earlier(a: Debt, b: Debt) -> bool
    ensures { IsTrue result ↔ IsEarlier a b }
{
    a.line < b.line || (a.line == b.line && is_before(a.name, b.name))
}
