//! A cycle that is watched without a marker. A cycle has the world as it is, the snapshot, and three sets of names of the
//! snapshot, each with a list (`name_set`). These are the pushed names, the names that commands opened, and, if takes are
//! reported, the names that the marker took. Names that came due wait in a queue for each mutator (`accounts`), and a debt
//! counts until its name is pushed. A cycle takes memory for each name and mutator, however long it is.
//!
//! If registers are read at scans, the names that a scan reads, and those that an unscanned mutator stores, count as opened.
//! Which mutators are scanned is passed in (`scans`), since only commands depend on it (`watch` keeps it).
//!
//! Easy to get wrong: a name outside the snapshot has no position in a set. It can't be due; a push of it changes nothing.
ghost use Rattle.std.specs.Prelude.{◌≡◌, ◌↔◌, ◌<◌, ◌⊎◌, ◌++◌, ◌∷◌, List, [], true, false, length, slice_index_or, Contains, None, Some, IfOk, OnOk, IsSome, IsTrue};
ghost use Rattle.nmgc_barrier_laws.specs.declared.debt.Debt.{Debt as DebtAt};
ghost use Rattle.nmgc_world_spec.specs.{declared.value.Name.Name as NameAt, Reach.IsBefore, World.node_of, World.state_of, World.next_name, World.with_register};
ghost use Rattle.nmgc_barrier_checker.specs.{Dues.targets, Dues.handed_in, Cycles.IsUntakenIn, Cycles.is_untaken};

use crate::accounts::Accounts;
use crate::due::{
    Field, coming_field, common_fields, count_due, kept_by_weaks, missing_fields, names_in,
    owable_names, push_came,
};
use crate::event::Why;
use crate::hand::{Hand, can_hand, given_names};
use crate::name_set::NameSet;
use crate::rows::{Task, suits};
use crate::sorted_names::is_before;
use nmgc_barrier_laws::Debt;
use nmgc_graph::World;
use nmgc_graph::opened::{finalised_by, names_among, opened_by};
use nmgc_lists::{NoMemory, Queue};
use nmgc_world_spec::{Command, Name, Reply, Value};
use std::alloc::Global;
use std::marker::Model;

/// A watched cycle, from its beginning on.
#[derive(Drop)]
pub struct Cycle {
    pub(crate) world: World,
    pub(crate) snapshot: World,
    pub(crate) remembered: NameSet,
    accounts: Accounts,
    pub(crate) opened: NameSet,
    taken: NameSet,
    pub(crate) finalised: Queue<Name>,
}

impl Model for Cycle {
    ghost use Rattle.nmgc_barrier_laws.specs.Cycle.{Cycle as Seen};
    ghost use Rattle.nmgc_barrier_checker.specs.{Accounts.unpaid, Accounts.all_debts, Cycles.IsCycle};

    ghost Value = { Seen };

    ghost view = { λ c. record { world = c.world; snapshot = c.snapshot; remembered = c.remembered.names; debts = unpaid c.remembered.set (all_debts c.accounts.debts); opened = c.opened.names; taken = c.taken.names; finalised = c.finalised } };

    ghost invariant = { λ c. IsCycle c.world c.snapshot c.remembered c.accounts c.opened c.taken c.finalised };
}

impl Cycle {
    ghost use Rattle.nmgc_world_spec.specs.Known.{CanApply, IsKnown, IsRegister};
    ghost use Rattle.nmgc_barrier_laws.specs.{Cycle.watching, Cycle.IsPushed, Hybrid.beginning, Hybrid.IsDueIn, Hybrid.IsHandedBy};
    ghost use Rattle.nmgc_barrier_checker.specs.CameDue.{IsAdded, IsAddedIf};
    ghost use Rattle.nmgc_barrier_checker.specs.Cycles.{IsSnapshotOf, with_scans, IsTaken, IsRead, IsMadeDue, Hands, IsGivenOver, IsHand, IsCommand, IsActing, IsPush, IsSettle, IsTake, IsLeastDebt, IsUntakenIf};

    /// Begins a cycle with this world as its snapshot. Takes time and memory for each object, and for each name and mutator.
    pub fn new(world: &World) -> Result<Self, NoMemory>
        ensures { IfOk result (λ cycle. cycle ≡ watching world.now) }
    {
        let snapshot = world.copy()?;
        Cycle::with_snapshot(world, snapshot)
    }

    /// Begins a cycle whose roots are g and the finaliser queues: the snapshot is the world without registers. Takes time and
    /// memory as `new`.
    pub fn without_registers(world: &World) -> Result<Self, NoMemory>
        ensures { IfOk result (λ cycle. cycle ≡ (beginning world.now).watch) }
    {
        let snapshot = world.copy_without_registers()?;
        Cycle::with_snapshot(world, snapshot)
    }

    // Begins a cycle with this snapshot of the world.
    #[tactic(auto, using(crate::proofs::CycleLaws::new_cycle))]
    fn with_snapshot(world: &World, snapshot: World) -> Result<Self, NoMemory>
        requires { IsSnapshotOf world.now snapshot }
        ensures { IfOk result (λ cycle. cycle ≡ record (watching world.now) { snapshot = snapshot }) }
    {
        let alloc = world.alloc();
        let remembered = NameSet::new(&snapshot)?;
        let accounts = Accounts::new(&snapshot)?;
        let opened = NameSet::new(&snapshot)?;
        let taken = NameSet::new(&snapshot)?;
        let world = world.copy()?;
        let finalised = Queue::new(alloc);
        Ok(Cycle {
            world,
            snapshot,
            remembered,
            accounts,
            opened,
            taken,
            finalised,
        })
    }

    /// Returns the world as it is. Takes no memory and constant time.
    pub fn world(&self) -> &World
        ensures { result.now ≡ self.now.world }
    {
        &self.world
    }

    /// Whether a debt may have this line: a debt of this line or of a greater line was added in the cycle. If lines ascend, the
    /// answer after a line's command is yes exactly if the command added a debt. Takes no memory and constant time.
    pub fn may_owe_since(&self, line: usize) -> bool
        ensures { (debt : DebtAt) → Contains self.now.debts debt → debt.line ≡ line → result ≡ true }
    {
        self.accounts.may_have_debt_of_line(line)
    }

    /// Does a mutator's command if the heap can take it and gives this answer. Otherwise returns why not, and changes
    /// nothing. Names that come due are due since `line`, unless they were pushed or the mutator owes them already. A mutator
    /// that isn't scanned also owes the names that it stores. Adds the number of names that came due, pushed or not, to `dues`.
    /// After `NoMemory` any state is possible. Takes amortised constant time for each operand, and the time of a sort for
    /// fields made or lost.
    pub fn do_command(
        &mut self,
        scans: &[bool],
        line: usize,
        mutator: u8,
        command: &Command,
        answer: Reply,
        dues: &mut u64,
    ) -> Result<Option<Why>, NoMemory>
        ensures command { IfOk result (λ why. IsCommand line mutator command.now answer (with_scans scans.now self.old) why (with_scans scans.now self.new)) }
        ensures dues { IfOk result (λ why. IsAddedIf (IsDueIn (with_scans scans.now self.old) mutator command.now) why dues.old dues.new) }
    {
        if !self.world.can_apply(mutator, command) {
            return Ok(Some(Why::CannotApply));
        }
        let reply = self.world.reply(mutator, command);
        if reply != answer {
            return Ok(Some(Why::Answer(reply)));
        }
        self.give(scans, line, mutator, command, dues)?;
        Ok(None)
    }

    /// Does a mutator's task if the heap takes it with an answer that suits it, or returns why not and changes nothing. Adds the
    /// number of names that came due to `dues`.
    pub fn act(
        &mut self,
        scans: &[bool],
        line: usize,
        mutator: u8,
        task: &Task,
        dues: &mut u64,
    ) -> Result<Option<Why>, NoMemory>
        ensures dues { IfOk result (λ why. IsAddedIf (IsDueIn (with_scans scans.now self.old) mutator task.now.command) why dues.old dues.new) }
        ensures command { IfOk result (λ why. IsActing line mutator task.now (with_scans scans.now self.old) why (with_scans scans.now self.new)) }
    {
        if !self.world.can_apply(mutator, &task.command) {
            return Ok(Some(Why::CannotApply));
        }
        let reply = self.world.reply(mutator, &task.command);
        if !suits(task.answer, reply) {
            return Ok(Some(Why::Answer(reply)));
        }
        self.give(scans, line, mutator, &task.command, dues)?;
        Ok(None)
    }

    // Does a mutator's command, whatever the heap answers. Requires that the world can take it. Adds the names of the
    // snapshot that it opens, or stores before its mutator is scanned (`scans`), and the weak pointers that it finalises.
    // Afterwards each name that came due was pushed, or is a debt of this mutator. A new debt gets the line `line`. Adds the
    // number of names that came due to `dues`.
    fn give(
        &mut self,
        scans: &[bool],
        line: usize,
        mutator: u8,
        command: &Command,
        dues: &mut u64,
    ) -> Result<(), NoMemory>
        requires { CanApply self.old.world mutator command.now }
        ensures dues { OnOk result (IsAdded (IsDueIn (with_scans scans.now self.old) mutator command.now) dues.old dues.new) }
        ensures taken { OnOk result (IsTaken line mutator command.now (with_scans scans.now self.old) (with_scans scans.now self.new)) }
    {
        let fields = common_fields(&self.snapshot, &self.world, mutator, command)?;
        let opens = opened_by(&self.world, mutator, command)?;
        let ends = finalised_by(&self.world, mutator, command)?;
        let kept = kept_by_weaks(&self.snapshot, ends.as_slice())?;
        let coming = coming_field(&self.world, mutator, command);
        let made = next_name(&self.world, mutator);
        self.opened.extend(&self.snapshot, opens.as_slice())?;
        self.finalised.extend(ends.as_slice())?;
        self.world.apply(mutator, command)?;
        let lost = missing_fields(&self.world, fields.items())?;
        let seen = is_set(scans, mutator);
        let handed = handed_out(seen, &self.snapshot, &self.world, made, coming)?;
        self.opened.extend(&self.snapshot, handed.as_slice())?;
        let alloc = self.world.alloc();
        let mut names = due_candidates(alloc, lost.items(), opens.as_slice(), kept.as_slice())?;
        names.extend_from_slice(handed.as_slice())?;
        let came = count_due(&self.snapshot, names.as_slice())?;
        *dues = dues.saturating_add(came);
        let marks = &self.remembered.set;
        self.accounts
            .owe(&self.snapshot, marks, line, mutator, names.as_slice())?;
        Ok(())
    }

    /// Hands a value over if the heap can do so and the answer is `Fine`. Otherwise returns why not, and changes nothing. A
    /// name of the snapshot is due since `line` if only the taker is scanned, unless it was pushed or the giver owes it
    /// already. Adds the number of names that came due, pushed or not, to `dues`. After `NoMemory` some names may be due. Takes
    /// amortised constant time.
    pub fn do_hand(
        &mut self,
        scans: &[bool],
        line: usize,
        hand: Hand,
        answer: Reply,
        dues: &mut u64,
    ) -> Result<Option<Why>, NoMemory>
        ensures hand { IfOk result (λ why. IsHand line hand answer (with_scans scans.now self.old) why (with_scans scans.now self.new)) }
        ensures dues { IfOk result (λ why. IsAddedIf (IsHandedBy (with_scans scans.now self.old) hand.giver hand.value hand.taker) why dues.old dues.new) }
    {
        if !can_hand(&self.world, hand) {
            return Ok(Some(Why::CannotApply));
        }
        if answer != Reply::Fine {
            return Ok(Some(Why::Answer(Reply::Fine)));
        }
        self.hand(scans, line, hand, dues)?;
        Ok(None)
    }

    // Hands a value over. Requires that the heap can do so.
    fn hand(
        &mut self,
        scans: &[bool],
        line: usize,
        hand: Hand,
        dues: &mut u64,
    ) -> Result<(), NoMemory>
        requires { Hands self.old.world hand }
        ensures dues { OnOk result (IsAdded (IsHandedBy (with_scans scans.now self.old) hand.giver hand.value hand.taker) dues.old dues.new) }
        ensures given { OnOk result (IsGivenOver line hand (with_scans scans.now self.old) (with_scans scans.now self.new)) }
    {
        let value = self.world.value(hand.giver, hand.value);
        let seen = is_set(scans, hand.giver);
        let names = given_names(seen, is_set(scans, hand.taker), &self.snapshot, value)?;
        let came = count_due(&self.snapshot, names.as_slice())?;
        *dues = dues.saturating_add(came);
        self.owe_names(line, hand.giver, names.as_slice())?;
        self.set_register(hand.taker, hand.dest, value);
        Ok(())
    }

    // Makes names due by a mutator, without a command. Names of the snapshot count as opened. Each name that may be due was
    // pushed, or is a debt of this mutator afterwards. After `NoMemory` some names may be debts.
    fn owe_names(&mut self, line: usize, mutator: u8, names: &[Name]) -> Result<(), NoMemory>
        requires { mutator < length self.old.world.mutators }
        ensures { OnOk result (IsMadeDue line mutator names.now self.old self.new) }
    {
        self.opened.extend(&self.snapshot, names)?;
        let marks = &self.remembered.set;
        self.accounts
            .owe(&self.snapshot, marks, line, mutator, names)?;
        Ok(())
    }

    // Writes a known value into a register of a mutator.
    pub(crate) fn set_register(&mut self, mutator: u8, register: u8, value: Value)
        requires mutator { mutator < length self.old.world.mutators }
        requires register { IsRegister register }
        requires known { IsKnown self.old.world value }
        ensures { self.new ≡ record self.old { world = with_register self.old.world mutator register value } }
    {
        let _fine = self.world.set_register(mutator, register, value);
    }

    /// Reads the registers of a mutator: the names of the snapshot in them count as opened. After `NoMemory` some may. Takes
    /// amortised constant time for each register.
    pub fn read_registers(&mut self, mutator: u8) -> Result<(), NoMemory>
        requires { mutator < length self.old.world.mutators }
        ensures { OnOk result (IsRead mutator self.old self.new) }
    {
        let names = names_among(self.world.alloc(), self.world.registers(mutator))?;
        self.opened.extend(&self.snapshot, names.as_slice())?;
        Ok(())
    }

    /// Adds a name to the pushed names if the snapshot has it. If only the heap has it, nothing changes. Refuses a name that
    /// the heap doesn't have, and changes nothing. Takes amortised constant time.
    pub fn push(&mut self, name: Name) -> Result<Option<Why>, NoMemory>
        ensures push { IfOk result (λ why. IsPush name self.old why self.new) }
    {
        if self.world.node(name).is_none() {
            return Ok(Some(Why::NoSuchName(name)));
        }
        self.remember(name)?;
        Ok(None)
    }

    // Adds a name to the pushed names if the snapshot has it. Requires that the heap has it.
    fn remember(&mut self, name: Name) -> Result<(), NoMemory>
        requires { IsSome (node_of self.old.world name) }
        ensures { OnOk result (IsPushed self.old name self.new) }
    {
        self.remembered.add(&self.snapshot, name)?;
        Ok(())
    }

    /// Returns the reason why a mutator hasn't settled, or `None` if it has. The reason is the earliest unpaid debt of its
    /// commands, or that there is no such mutator. Changes nothing. Takes amortised constant time if the mutator has settled,
    /// whatever other mutators owe, and otherwise time for each of its debts.
    pub fn reason_against_settle(&mut self, mutator: u8) -> Option<Why>
        ensures settle { IsSettle mutator self.old result }
        ensures same { self.new ≡ self.old }
    {
        if !has_mutator(&self.world, mutator) {
            return Some(Why::CannotApply);
        }
        match self.accounts.first_unpaid(&self.remembered.set, mutator) {
            Some(debt) => Some(Why::Due(debt)),
            None => None,
        }
    }

    /// Adds a pushed name to the taken names. Any other name is refused, and changes nothing. Takes amortised constant time.
    pub fn take(&mut self, name: Name) -> Result<Option<Why>, NoMemory>
        ensures { IfOk result (λ why. IsTake name self.old why self.new) }
    {
        if !self.remembered.has(name) {
            return Ok(Some(Why::NotPushed(name)));
        }
        self.taken.add(&self.snapshot, name)?;
        Ok(None)
    }

    /// Returns the earliest unpaid debt, or `None` if there are no unpaid debts. Takes time for each debt.
    pub fn first_debt(&self) -> Option<Debt>
        ensures { IsLeastDebt self.now result }
    {
        self.accounts.least_unpaid(&self.remembered.set)
    }

    /// Returns the first name in order, except g, that was pushed and isn't among the taken names. Returns `None` if there is no
    /// such name, or if no take was reported in the cycle. Takes time for each pushed name.
    pub fn first_untaken(&self) -> Option<Name>
        ensures { IsUntakenIf self.now result }
    {
        if self.taken.is_empty() {
            return None;
        }
        first_untaken_in(&self.taken, self.remembered.names.items())
    }
}

// Returns the first name in order, among `names`, that still has to be taken, if there is one.
fn first_untaken_in(taken: &NameSet, names: &[Name]) -> Option<Name>
    ensures { IsUntakenIn taken.now names.now result }
{
    let mut first = None;
    for name in names {
        first = earlier_untaken(taken, first, *name);
    }
    first
}

// Returns the first in order of `first` and `name` if `name` still has to be taken, and otherwise `first`.
fn earlier_untaken(taken: &NameSet, first: Option<Name>, name: Name) -> Option<Name>
    ensures { (before : List NameAt) → IsUntakenIn taken.now before first → IsUntakenIn taken.now (before ++ name ∷ []) result }
{
    if !is_untaken(taken, name) {
        return first;
    }
    Some(earlier_name(first, name))
}

// Returns the name that comes before the other, or `second` if there is no `first`.
fn earlier_name(first: Option<Name>, second: Name) -> Name
    ensures some { (n : NameAt) → first ≡ Some n → ((result ≡ n) × (IsBefore second n → ⊥)) ⊎ ((result ≡ second) × IsBefore second n) }
    ensures none { first ≡ None → result ≡ second }
{
    match first {
        Some(name) if !is_before(second, name) => name,
        _ => second,
    }
}

// Whether a name still has to be taken: it isn't g, and isn't among the taken names.
fn is_untaken(taken: &NameSet, name: Name) -> bool
    ensures { result ≡ is_untaken taken.now name }
{
    name != Name::SHARED && !taken.has(name)
}

/// Whether there is a flag for a mutator, and it is set.
pub(crate) fn is_set(flags: &[bool], mutator: u8) -> bool
    ensures { result ≡ slice_index_or flags.now mutator false }
{
    let place = mutator as usize;
    if place >= flags.len() {
        return false;
    }
    flags[place]
}

// Returns the names that a command handed out, by the world after it: none if its mutator is scanned. `made` is the name
// of the object that it may have made, and `coming` the field that it may have written.
fn handed_out(
    is_scanned: bool,
    snapshot: &World,
    world: &World,
    made: Name,
    coming: Option<Field>,
) -> Result<Vec<Name>, NoMemory>
    ensures { IfOk result (λ names. names.items ≡ handed_in is_scanned snapshot.now world.now made coming) }
{
    let mut names = Vec::new(world.alloc());
    if is_scanned {
        return Ok(names);
    }
    push_came(&mut names, world, coming)?;
    let stored = names_in(world, made)?;
    names.extend_from_slice(stored.as_slice())?;
    owable_names(snapshot, names.as_slice())
}

// Returns the name of the next object that a mutator makes.
fn next_name(world: &World, mutator: u8) -> Name
    requires { mutator < length world.now.mutators }
    ensures { result ≡ next_name (state_of world.now mutator) mutator }
{
    Name {
        maker: mutator,
        serial: world.serial(mutator),
    }
}

// Whether there is a mutator with this number.
fn has_mutator(world: &World, mutator: u8) -> bool
    ensures { IsTrue result ↔ (mutator < length world.now.mutators) }
{
    mutator < world.mutators()
}

// Returns the names that may have come due: targets of lost fields, opened names, and names kept by finalised weak pointers.
fn due_candidates(
    alloc: Global,
    lost: &[Field],
    opens: &[Name],
    kept: &[Name],
) -> Result<Vec<Name>, NoMemory>
    ensures { IfOk result (λ names. names.items ≡ targets lost.now ++ (opens.now ++ kept.now)) }
{
    let mut names = Vec::new(alloc);
    for field in lost {
        names.push(field.target)?;
    }
    names.extend_from_slice(opens)?;
    names.extend_from_slice(kept)?;
    Ok(names)
}
