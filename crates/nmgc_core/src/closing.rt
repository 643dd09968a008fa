//! The end of marking: the weak pointers of the snapshot.
//!
//! A weak pointer whose key is marked marks itself, its value and its finaliser. From these the key of another weak pointer
//! may be reachable, even of an earlier one in the list. So the closing passes over the weak pointers until a pass marks
//! nothing new. The weak pointers whose keys are still unmarked then die. Their finalisers are still to be run, so they are
//! marked last, with all that is reachable from them. Fields are followed in the world as it is.
//!
//! Easy to get wrong: only names of the snapshot are marked. A weak pointer dies even if its key is reachable from a
//! finaliser of a dying weak pointer. A finalised weak pointer keeps nothing and doesn't die again.
ghost use Rattle.std.specs.Prelude.{◌≡◌, IfOk, OnOk, ◌∷◌, [], All};
ghost use Rattle.nmgc_graph.specs.{Marks.HasPlaces, Search.parts_of, Search.is_key_marked, Search.finaliser_in, Search.finalisers_of};
ghost use Rattle.nmgc_world_spec.specs.Reach.{Lists, strong_fields};
ghost use Rattle.nmgc_snapshot_laws.specs.Closing.{IsDying};
ghost use Rattle.nmgc_core.specs.Sound.{IsFound};
ghost use Rattle.nmgc_core.specs.Finding.{Adds, IsSearch, IsFollowed, IsWaitingWeak, IsReviving, IsPass, IsFirstFound, IsLastFound, values_kept, is_hidden};

use crate::Core;
use nmgc_graph::{Marks, World};
use nmgc_lists::{List, NoMemory};
use nmgc_world_spec::{Name, Node, Value};

/// The marked names, and a worklist of the marked names whose fields still have to be followed.
#[derive(Drop)]
struct Finding {
    marks: Marks,
    work: List<Name>,
}

/// The marked names after a closing, and the weak pointers that die, in the order of names.
#[derive(Drop)]
pub(crate) struct Closing {
    pub(crate) marks: Marks,
    pub(crate) dead: List<Name>,
}

/// Returns the names that are marked after a closing of this machine, and the weak pointers that die, in the order of names.
pub(crate) fn find_closing(core: &Core) -> Result<Closing, NoMemory>
    ensures { IfOk result (IsFound core.now) }
{
    let weaks = waiting_weaks(core)?;
    let mut finding = begin_search(core)?;
    finding.revive(core, weaks.items())?;
    let dead = finding.dying_weaks(core, weaks.items())?;
    finding.rescue(core, dead.items())?;
    Ok(Closing {
        marks: finding.marks,
        dead,
    })
}

// Makes a search with the names that were marked before the closing, and with an empty worklist.
fn begin_search(core: &Core) -> Result<Finding, NoMemory>
    ensures { IfOk result (IsReviving core.now) }
{
    let marks = core.snapshot().set_of(core.marked_names())?;
    let work = List::new(core.snapshot().alloc());
    Ok(Finding { marks, work })
}

// Returns, in order, the weak pointers that were alive in the snapshot and haven't been finalised since.
fn waiting_weaks(core: &Core) -> Result<List<Name>, NoMemory>
    ensures { IfOk result (Lists (IsWaitingWeak core.now)) }
{
    let snapshot = core.snapshot();
    let ended = snapshot.set_of(core.finalised())?;
    let alive = snapshot.alive_weaks()?;
    let mut weaks = List::new(snapshot.alloc());
    for weak in alive.items() {
        if !ended.contains(*weak) {
            weaks.push(*weak)?;
        }
    }
    Ok(weaks)
}

impl Finding {
    // If a name is an unmarked name of the snapshot, marks it and puts it on the worklist.
    fn mark(&mut self, snapshot: &World, name: Name) -> Result<(), NoMemory>
        requires { HasPlaces snapshot.now self.old.marks }
        ensures { OnOk result (Adds snapshot.now self.old self.new (Value.Ref name ∷ [])) }
    {
        if snapshot.node(name).is_none() || self.marks.contains(name) {
            return Ok(());
        }
        self.marks.insert(name);
        self.work.push(name)
    }

    // If a value refers to an unmarked name of the snapshot, marks the name and puts it on the worklist.
    fn mark_value(&mut self, snapshot: &World, value: Value) -> Result<(), NoMemory>
        requires { HasPlaces snapshot.now self.old.marks }
        ensures { OnOk result (Adds snapshot.now self.old self.new (value ∷ [])) }
    {
        match value {
            Value::Ref(name) => self.mark(snapshot, name),
            _ => Ok(()),
        }
    }

    // Marks the unmarked names of the snapshot to which values refer, and puts them on the worklist.
    fn mark_values(&mut self, snapshot: &World, values: &[Value]) -> Result<(), NoMemory>
        requires { HasPlaces snapshot.now self.old.marks }
        ensures { OnOk result (Adds snapshot.now self.old self.new values.now) }
    {
        for value in values {
            self.mark_value(snapshot, *value)?;
        }
        Ok(())
    }

    // Marks the unmarked names of the snapshot to which a node's strong fields refer, and puts them on the worklist.
    fn mark_fields(&mut self, snapshot: &World, node: &Node) -> Result<(), NoMemory>
        requires { HasPlaces snapshot.now self.old.marks }
        ensures { OnOk result (Adds snapshot.now self.old self.new (strong_fields node.now)) }
    {
        match node {
            Node::Con { values, .. } | Node::Arr { values } | Node::Stack { values, .. } => {
                self.mark_values(snapshot, values.items())
            }
            Node::Var { value } => self.mark_values(snapshot, &[*value]),
            Node::Thunk {
                result: Some(value),
                ..
            } => self.mark_values(snapshot, &[*value]),
            Node::Thunk { free, result: None } => self.mark_values(snapshot, free.items()),
            Node::Weak { .. } => self.mark_values(snapshot, &[]),
        }
    }

    // Until the worklist is empty, takes a name off, and does `mark_fields` for the name's node, if any, in the world now.
    fn follow(&mut self, core: &Core) -> Result<(), NoMemory>
        requires { IsSearch core.now self.old }
        ensures followed { OnOk result (IsFollowed core.now self.old self.new) }
        ensures empty { OnOk result (self.new.work ≡ []) }
    {
        let world = core.world();
        let snapshot = core.snapshot();
        while let Some(name) = self.work.pop() {
            if let Some(node) = world.node(name) {
                self.mark_fields(snapshot, node)?;
            }
        }
        Ok(())
    }

    // Whether a key counts as marked: it is nil, a number, or a reference to a marked name.
    fn is_key_marked(&self, value: Value) -> bool
        ensures { result ≡ is_key_marked self.now.marks value }
    {
        match value {
            Value::Ref(name) => self.marks.contains(name),
            _ => true,
        }
    }

    // If a weak pointer was alive in the snapshot and its key counts as marked, marks the weak pointer, value and finaliser.
    fn mark_weak(&mut self, snapshot: &World, weak: Name) -> Result<(), NoMemory>
        requires { HasPlaces snapshot.now self.old.marks }
        ensures { OnOk result (Adds snapshot.now self.old self.new (values_kept self.old.marks weak (parts_of snapshot.now weak))) }
    {
        match snapshot.parts(weak) {
            Some(parts) if self.is_key_marked(parts.key) => self.mark_values(
                snapshot,
                &[Value::Ref(weak), parts.value, parts.finaliser],
            ),
            _ => self.mark_values(snapshot, &[]),
        }
    }

    // In order, marks each weak pointer in `weaks` whose key is marked by then, with its value and its finaliser.
    fn mark_weaks(&mut self, core: &Core, weaks: &[Name]) -> Result<(), NoMemory>
        requires reviving { IsReviving core.now self.old }
        requires waiting { All (IsWaitingWeak core.now) weaks.now }
        ensures { OnOk result (IsPass core.now weaks.now self.old self.new) }
    {
        for weak in weaks {
            self.mark_weak(core.snapshot(), *weak)?;
        }
        Ok(())
    }

    // Marks all names that the closing marks first. Passes over `weaks`, which have to wait, until a pass marks nothing new.
    fn revive(&mut self, core: &Core, weaks: &[Name]) -> Result<(), NoMemory>
        requires reviving { IsReviving core.now self.old }
        requires waiting { Lists (IsWaitingWeak core.now) weaks.now }
        ensures { OnOk result (IsFirstFound core.now self.new) }
    {
        self.mark_weaks(core, weaks)?;
        while !self.work.items().is_empty() {
            self.follow(core)?;
            self.mark_weaks(core, weaks)?;
        }
        Ok(())
    }

    // Returns, in order, the weak pointers in `weaks` whose keys aren't marked.
    fn dying_weaks(&self, core: &Core, weaks: &[Name]) -> Result<List<Name>, NoMemory>
        requires found { IsFirstFound core.now self.now }
        requires waiting { Lists (IsWaitingWeak core.now) weaks.now }
        ensures { IfOk result (Lists (IsDying core.now)) }
    {
        let snapshot = core.snapshot();
        let mut names = List::new(snapshot.alloc());
        for weak in weaks {
            if self.has_unmarked_key(snapshot, *weak) {
                names.push(*weak)?;
            }
        }
        Ok(names)
    }

    // Whether a weak pointer was alive in the snapshot and its key isn't marked.
    fn has_unmarked_key(&self, snapshot: &World, weak: Name) -> bool
        ensures { result ≡ is_hidden self.now.marks (parts_of snapshot.now weak) }
    {
        match snapshot.parts(weak) {
            Some(parts) => !self.is_key_marked(parts.key),
            None => false,
        }
    }

    // Marks the finalisers of the dying weak pointers, and the names of the snapshot that these finalisers reach.
    fn rescue(&mut self, core: &Core, dead: &[Name]) -> Result<(), NoMemory>
        requires found { IsFirstFound core.now self.old }
        requires dying { Lists (IsDying core.now) dead.now }
        ensures { OnOk result (IsLastFound core.now self.new) }
    {
        self.mark_finalisers(core.snapshot(), dead)?;
        self.follow(core)
    }

    // Marks the finalisers of those weak pointers in `weaks` that were alive in the snapshot.
    fn mark_finalisers(&mut self, snapshot: &World, weaks: &[Name]) -> Result<(), NoMemory>
        requires { HasPlaces snapshot.now self.old.marks }
        ensures { OnOk result (Adds snapshot.now self.old self.new (finalisers_of snapshot.now weaks.now)) }
    {
        for weak in weaks {
            self.mark_finaliser(snapshot, *weak)?;
        }
        Ok(())
    }

    // Marks the finaliser of a weak pointer, if the weak pointer was alive in the snapshot.
    fn mark_finaliser(&mut self, snapshot: &World, weak: Name) -> Result<(), NoMemory>
        requires { HasPlaces snapshot.now self.old.marks }
        ensures { OnOk result (Adds snapshot.now self.old self.new (finaliser_in (parts_of snapshot.now weak))) }
    {
        match snapshot.parts(weak) {
            Some(parts) => self.mark_values(snapshot, &[parts.finaliser]),
            None => self.mark_values(snapshot, &[]),
        }
    }
}
