//! The debts of a cycle, in the order of their lines. A debt counts until the collector has its object.
ghost use Rattle.std.specs.Prelude.{◌≡◌, ◌↔◌, ◌<◌, ◌⊎◌, ℕ, [], length, replicate, None, Some, All, Contains, IsTrue, IfOk, OnErr, OnOk};
ghost use Rattle.nmgc_field_checker.specs.Stores.{AddsDebt, AreAccounts, IsEarlier, IsEarliestIf, IsHad, IsSameAccounts, OwesAll, IsOwnDebt, debt_line, unpaid};

use crate::event::FieldDebt;
use crate::object_set::ObjectSet;
use nmgc_lists::{List, NoMemory};
use std::alloc::Global;

/// The debts of a cycle, paid or not, and for each object of the snapshot the actor that owes it since the latest line.
#[derive(Drop)]
pub(crate) struct Accounts {
    debts: Vec<FieldDebt>,
    latest: List<Option<u64>>,
}

impl Accounts {
    /// Makes accounts without debts, over `count` objects.
    pub(crate) fn new(alloc: Global, count: u32) -> Result<Self, NoMemory>
        ensures debts { IfOk result (λ a. a.debts.items ≡ []) }
        ensures latest { IfOk result (λ a. a.latest ≡ replicate count None) }
    {
        let latest = List::from_vec(vec![in alloc; None; count as usize]?)?;
        Ok(Accounts {
            debts: Vec::new(alloc),
            latest,
        })
    }

    /// Adds a debt of an actor for each of these objects that the collector doesn't have, unless the actor owes it already
    /// since the latest line that made it due. Requires objects of the snapshot. After `NoMemory` some may be added.
    pub(crate) fn owe_all(
        &mut self,
        roots: &ObjectSet,
        remembered: &ObjectSet,
        line: usize,
        number: u64,
        objects: &[u32],
    ) -> Result<(), NoMemory>
        requires below { All (λ object. object < length self.old.latest) objects.now }
        requires are { AreAccounts (IsHad roots.now.items remembered.now.items) (length self.old.latest) self.old }
        ensures are { AreAccounts (IsHad roots.now.items remembered.now.items) (length self.old.latest) self.new }
        ensures owed { OnOk result (OwesAll (IsHad roots.now.items remembered.now.items) line number objects.now self.old self.new) }
    {
        for object in objects {
            if !roots.has(*object) && !remembered.has(*object) {
                self.owe(FieldDebt {
                    object: *object,
                    line,
                    number,
                })?;
            }
        }
        Ok(())
    }

    // Adds a debt, unless the same actor owes the object already since the latest line that made it due.
    fn owe(&mut self, debt: FieldDebt) -> Result<(), NoMemory>
        requires { debt.object < length self.old.latest }
        ensures ok { OnOk result (AddsDebt debt self.old self.new) }
        ensures err { OnErr result (IsSameAccounts self.old self.new) }
    {
        if is_owed_by(self.latest.items()[debt.object as usize], debt.number) {
            return Ok(());
        }
        self.debts.push(debt)?;
        self.latest.items_mut()[debt.object as usize] = Some(debt.number);
        Ok(())
    }

    /// Forgets the debts whose objects the collector has. Takes time for each debt.
    pub(crate) fn forget(&mut self, roots: &ObjectSet, remembered: &ObjectSet)
        ensures debts { self.new.debts.items ≡ unpaid roots.now.items remembered.now.items self.old.debts.items }
        ensures latest { self.new.latest ≡ self.old.latest }
    {
        self.debts.retain(|debt| !roots.has(debt.object) && !remembered.has(debt.object));
    }

    /// Returns the debt of the least line, or `None` if there are none. Takes time for each debt.
    pub(crate) fn first(&self) -> Option<FieldDebt>
        ensures { IsEarliestIf debt_line (Contains self.now.debts.items) result }
    {
        let mut least: Option<FieldDebt> = None;
        for debt in self.debts.as_slice() {
            least = Some(earlier(*debt, least));
        }
        least
    }

    /// Returns the debt of an actor of the least line, or `None` if it has none. Takes time for each debt.
    pub(crate) fn first_of(&self, number: u64) -> Option<FieldDebt>
        ensures { IsEarliestIf debt_line (IsOwnDebt self.now.debts.items number) result }
    {
        let mut least: Option<FieldDebt> = None;
        for debt in self.debts.as_slice() {
            if debt.number == number {
                least = Some(earlier(*debt, least));
            }
        }
        least
    }

    /// Returns the line of the last debt, or `None` if there are none.
    pub(crate) fn last_line(&self) -> Option<usize> {
        match self.debts.as_slice().last() {
            Some(debt) => Some(debt.line),
            None => None,
        }
    }
}

// Returns the debt of the lesser line, or the one that there is.
fn earlier(debt: FieldDebt, least: Option<FieldDebt>) -> FieldDebt
    ensures { IsEarlier debt_line debt least result }
{
    match least {
        Some(other) if other.line <= debt.line => other,
        _ => debt,
    }
}

// Whether the latest line that made an object due was this actor's.
fn is_owed_by(latest: Option<u64>, number: u64) -> bool
    ensures { IsTrue result ↔ (latest ≡ Some number) }
{
    match latest {
        Some(other) => other == number,
        None => false,
    }
}
