//! Live names, dead weak pointers and kept names.
//!
//! The live names are a least set, and so are the kept names: each contains only the names that its rules give. If the key of
//! a weak pointer is live, the weak pointer, its value and its finaliser are live too. The search for live names marks the
//! roots. Then a pass over the weak pointers that are alive marks those with a marked key. Last it takes up the marked names
//! one by one. For each name it marks the targets of the name's strong fields, and the weak pointers that have this name as
//! key. With a weak pointer it marks value and finaliser. An index finds these weak pointers, so each is looked at twice at
//! most, however they revive one another.
//!
//! Easy to get wrong: a single pass is not enough, since a weak pointer may revive the key of a weak pointer before it. A
//! weak pointer with nil or a number as key is live from the start. And a weak pointer needs no reference to be live.
ghost use Rattle.std.specs.Prelude.{◌≡◌, ℕ, ◌+◌, ◌<◌, [], false, IsSome, IfSome, IfOk, OnOk, All, length, flat_map};
ghost use Rattle.nmgc_world_spec.specs.declared.value.Name.{Name as NameAt};
ghost use Rattle.nmgc_graph.specs.{Marks.IsPlaced, Marks.mark_of, Search.with_values, Search.values_held, Search.parts_in, Search.fields_in};

use crate::World;
use crate::marks::Marks;
use crate::search::Search;
use crate::waiting::Waiting;
use nmgc_limits::SHARED_MAKER;
use nmgc_lists::{List, NoMemory};
use nmgc_world_spec::{MutatorState, Name, Node, Parts, Value};

impl World {
    ghost use Rattle.nmgc_world_spec.specs.{Known.AreKnown, World.parts_held, World.node_of, Reach.IsAliveWeak, Reach.IsLive, Reach.IsDead, Reach.IsKept, Reach.Lists, Order.ListsBefore};
    ghost use Rattle.nmgc_graph.specs.{Marks.HasPlaces, Marks.count_of, Waiting.key_of, Waiting.bounds_of, Waiting.bound_of, Waiting.AreFiled, Waiting.IsRevival};
    ghost use Rattle.nmgc_graph.specs.Search.{IsSearch, IsFollowed, parts_of, with_weak, with_weaks, starts_of, IsLiveSearch, IsLiveFound, IsKeptFound, IsLost, IsSetOf, is_lost, finalisers_of};

    /// Returns the live names in order: the least set with three rules. It has g, the targets of registers and finaliser
    /// queues, and the names in `extra`, which must be in the world. It has the targets of its names' strong fields. It has
    /// each weak pointer that is alive and whose key is live, nil or a number, with value and finaliser. After `NoMemory`
    /// there is no answer. Takes time proportional to the names, their fields and `extra`, and memory for each name.
    pub fn live(&self, extra: &[Name]) -> Result<List<Name>, NoMemory>
        requires { All (λ name. IsSome (node_of self.now name)) extra.now }
        ensures { IfOk result (λ names. Lists (IsLive self.now extra.now) names) }
    {
        // Note [Lines that do nothing] in `nmgc_alloc`: this gives the prover that the world is closed, as every world is.
        let _ = &self.mutators;
        let weaks = self.alive_weaks()?;
        let search = self.find_live(extra, weaks.items())?;
        search.marks.names(self.alloc)
    }

    /// Returns the dead weak pointers in order. Each is alive so far and isn't in `finalised`, and its key refers to a name
    /// that isn't live with `extra` (`live`). Names in `finalised` that the world doesn't have are ignored. Takes the time of
    /// `live`, and constant time for each name in `finalised`.
    pub fn dead_weaks(&self, extra: &[Name], finalised: &[Name]) -> Result<List<Name>, NoMemory>
        requires { All (λ name. IsSome (node_of self.now name)) extra.now }
        ensures { IfOk result (λ names. Lists (IsDead self.now extra.now finalised.now) names) }
    {
        let weaks = self.alive_weaks()?;
        let search = self.find_live(extra, weaks.items())?;
        self.lost_weaks(&search, weaks.items(), finalised)
    }

    /// Returns the kept names in order: the live names, the finalisers of dead weak pointers, and all names that these
    /// finalisers reach along strong fields. Takes the time of `live`, and constant time for each name in `finalised`.
    pub fn kept(&self, extra: &[Name], finalised: &[Name]) -> Result<List<Name>, NoMemory>
        requires { All (λ name. IsSome (node_of self.now name)) extra.now }
        ensures { IfOk result (λ names. Lists (IsKept self.now extra.now finalised.now) names) }
    {
        let _ = &self.mutators;
        let search = self.find_kept(extra, finalised)?;
        search.marks.names(self.alloc)
    }

    // Returns a search that has marked exactly the kept names.
    fn find_kept(&self, extra: &[Name], finalised: &[Name]) -> Result<Search, NoMemory>
        requires { All (λ name. IsSome (node_of self.now name)) extra.now }
        ensures { IfOk result (IsKeptFound self.now extra.now finalised.now) }
    {
        let _ = &self.mutators;
        let weaks = self.alive_weaks()?;
        let mut search = self.find_live(extra, weaks.items())?;
        let dead = self.lost_weaks(&search, weaks.items(), finalised)?;
        self.mark_finalisers(dead.items(), &mut search)?;
        self.follow(&mut search)?;
        Ok(search)
    }

    /// Returns the weak pointers that are alive, in order. After `NoMemory` there is no answer. Takes time for each name.
    pub fn alive_weaks(&self) -> Result<List<Name>, NoMemory>
        ensures { IfOk result (λ names. Lists (IsAliveWeak self.now) names) }
    {
        let mut weaks = List::new(self.alloc);
        for maker in 0..self.mutators() {
            self.list_weaks(maker, &mut weaks)?;
        }
        Ok(weaks)
    }

    // Adds the weak pointers of `maker` that are alive to a list that has the alive weak pointers of all earlier makers.
    fn list_weaks(&self, maker: u8, weaks: &mut List<Name>) -> Result<(), NoMemory>
        requires maker { maker < length self.now.mutators }
        requires before { ListsBefore (IsAliveWeak self.now) maker 0 weaks.old }
        ensures { OnOk result (ListsBefore (IsAliveWeak self.now) (maker + 1) 0 weaks.new) }
    {
        let _ = &self.mutators;
        for serial in 0..self.serial(maker) {
            let weak = Name { maker, serial };
            if self.parts(weak).is_some() {
                weaks.push(weak)?;
            }
        }
        Ok(())
    }

    // Returns, in order, the weak pointers in `weaks` that aren't in `finalised` and whose keys aren't marked.
    fn lost_weaks(
        &self,
        search: &Search,
        weaks: &[Name],
        finalised: &[Name],
    ) -> Result<List<Name>, NoMemory>
        requires { Lists (IsAliveWeak self.now) weaks.now }
        ensures { IfOk result (λ names. Lists (IsLost self.now search.now.marks finalised.now) names) }
    {
        let set = self.set_of(finalised)?;
        let mut names = List::new(self.alloc);
        for weak in weaks {
            if self.is_lost(search, *weak, &set) {
                names.push(*weak)?;
            }
        }
        Ok(names)
    }

    // Whether a weak pointer is alive and isn't in `finalised`, and its key isn't marked.
    fn is_lost(&self, search: &Search, weak: Name, finalised: &Marks) -> bool
        ensures { result ≡ is_lost search.now.marks finalised.now weak (parts_of self.now weak) }
    {
        match self.parts(weak) {
            Some(parts) => !search.is_key_marked(parts.key) && !finalised.contains(weak),
            None => false,
        }
    }

    /// Returns the set of those names in `names` that the world has. After `NoMemory` there is no answer. Takes memory and
    /// time for each name of this world, and constant time for each name in `names`.
    pub fn set_of(&self, names: &[Name]) -> Result<Marks, NoMemory>
        ensures { IfOk result (IsSetOf self.now names.now) }
    {
        let mut marks = self.empty_set()?;
        for name in names {
            if self.node(*name).is_some() {
                marks.insert(*name);
            }
        }
        Ok(marks)
    }

    // Marks the finalisers of those weak pointers in `weaks` that are alive.
    fn mark_finalisers(&self, weaks: &[Name], search: &mut Search) -> Result<(), NoMemory>
        requires { HasPlaces self.now search.old.marks }
        ensures { OnOk result (search.new ≡ with_values search.old (finalisers_of self.now weaks.now)) }
    {
        let _ = &self.mutators;
        for weak in weaks {
            if let Some(parts) = self.parts(*weak) {
                search.mark_value(parts.finaliser)?;
            }
        }
        Ok(())
    }

    // Marks all names that strong fields reach from the names on the worklist, and empties the worklist.
    fn follow(&self, search: &mut Search) -> Result<(), NoMemory>
        requires { IsSearch self.now search.old }
        ensures followed { OnOk result (IsFollowed self.now search.old search.new) }
        ensures empty { OnOk result (search.new.work ≡ []) }
    {
        let _ = &self.mutators;
        while let Some(name) = search.work.pop() {
            self.mark_fields(name, search)?;
        }
        Ok(())
    }

    // Marks the targets of the strong fields of a name's node, if the name has a node.
    fn mark_fields(&self, name: Name, search: &mut Search) -> Result<(), NoMemory>
        requires { HasPlaces self.now search.old.marks }
        ensures { OnOk result (search.new ≡ with_values search.old (fields_in (node_of self.now name))) }
    {
        match self.object(Value::Ref(name)) {
            Some(node) => search.mark_fields(node),
            None => Ok(()),
        }
    }

    /// Returns the parts of a weak pointer that is alive, and `None` for any other name. Takes no memory, and constant time.
    pub fn parts(&self, weak: Name) -> Option<Parts>
        ensures parts { result ≡ parts_of self.now weak }
        ensures known { IfSome result (λ parts. AreKnown self.now (parts_held (Some parts))) }
    {
        match self.object(Value::Ref(weak)) {
            Some(node) => parts_in(node),
            None => None,
        }
    }

    // If a weak pointer is alive and its key counts as marked, marks the weak pointer, its value and its finaliser.
    fn mark_weak(&self, weak: Name, search: &mut Search) -> Result<(), NoMemory>
        requires { HasPlaces self.now search.old.marks }
        ensures { OnOk result (search.new ≡ with_weak search.old weak (parts_of self.now weak)) }
    {
        let _ = &self.mutators;
        match self.parts(weak) {
            Some(parts) if search.is_key_marked(parts.key) => {
                search.mark_values(&[Value::Ref(weak), parts.value, parts.finaliser])
            }
            _ => Ok(()),
        }
    }

    // In order, marks each weak pointer in `weaks` that is alive and has a marked key by then, with its value and finaliser.
    fn mark_weaks(&self, weaks: &[Name], search: &mut Search) -> Result<(), NoMemory>
        requires { HasPlaces self.now search.old.marks }
        ensures { OnOk result (search.new ≡ with_weaks self.now search.old weaks.now) }
    {
        let _ = &self.mutators;
        for weak in weaks {
            self.mark_weak(*weak, search)?;
        }
        Ok(())
    }

    // Returns the name that a weak pointer waits for: its key, if the weak pointer is alive and the key is a reference.
    fn key(&self, weak: Name) -> Option<Name>
        ensures key { result ≡ key_of self.now weak }
        ensures known { IfSome result (λ name. IsSome (node_of self.now name)) }
    {
        let parts = self.parts(weak)?;
        match parts.key {
            Value::Ref(name) => Some(name),
            _ => None,
        }
    }

    // Makes an index without weak pointers, with a place for each name of the world.
    fn empty_index(&self) -> Result<Waiting, NoMemory>
        ensures before { IfOk result (λ waiting. waiting.before ≡ []) }
        ensures counts { IfOk result (λ waiting. (maker : ℕ) → length (bounds_of waiting.bounds maker) ≡ count_of self.now maker) }
        ensures none { IfOk result (λ waiting. (name : NameAt) → bound_of waiting.bounds name ≡ 0) }
    {
        let mut waiting = Waiting::new(self.alloc);
        for maker in 0..SHARED_MAKER + 1 {
            waiting.add_maker(self.alloc, self.count(maker))?;
        }
        Ok(waiting)
    }

    // Makes an index of the weak pointers in `weaks` by the names that they wait for, which are their keys.
    fn index_weaks(&self, weaks: &[Name]) -> Result<Waiting, NoMemory>
        ensures { IfOk result (AreFiled self.now weaks.now (length weaks.now)) }
    {
        let mut waiting = self.empty_index()?;
        for weak in weaks {
            waiting.add(self.key(*weak))?;
        }
        Ok(waiting)
    }

    // Marks the weak pointers in `weaks` that wait for `name`, if `name` is marked, with their values and their finalisers.
    fn revive(
        &self,
        name: Name,
        weaks: &[Name],
        waiting: &Waiting,
        search: &mut Search,
    ) -> Result<(), NoMemory>
        requires places { HasPlaces self.now search.old.marks }
        requires filed { AreFiled self.now weaks.now (length weaks.now) waiting.now }
        ensures { OnOk result (IsRevival self.now weaks.now name search.old search.new) }
    {
        let _ = &self.mutators;
        let mut bound = waiting.bound(name);
        while bound > 0 {
            let place = bound - 1;
            self.mark_weak(weaks[place], search)?;
            bound = waiting.bound_before(place);
        }
        Ok(())
    }

    // Returns the number of names that a maker has in the world.
    fn count(&self, maker: u8) -> usize
        ensures { result ≡ count_of self.now maker }
    {
        if maker == SHARED_MAKER {
            return 1;
        }
        match self.mutators.items().get(maker as usize) {
            Some(state) => state.nodes.items().len(),
            None => 0,
        }
    }

    /// Returns an empty set of names, with a place for exactly the names of this world. Takes memory and time for each name.
    pub fn empty_set(&self) -> Result<Marks, NoMemory>
        ensures places { IfOk result (λ marks. HasPlaces self.now marks) }
        ensures none { IfOk result (λ marks. (name : NameAt) → mark_of marks name ≡ false) }
    {
        let mut marks = Marks::new(self.alloc);
        for maker in 0..SHARED_MAKER + 1 {
            marks.add_maker(self.alloc, self.count(maker))?;
        }
        Ok(marks)
    }

    // Marks g, the targets of the mutators' registers and queues, and the names in `extra`.
    fn mark_starts(&self, extra: &[Name], search: &mut Search) -> Result<(), NoMemory>
        requires extra { All (λ name. IsSome (node_of self.now name)) extra.now }
        requires places { HasPlaces self.now search.old.marks }
        ensures { OnOk result (search.new ≡ with_values search.old (starts_of self.now extra.now)) }
    {
        search.mark(Name::SHARED)?;
        mark_states(self.mutators.items(), search)?;
        search.mark_names(extra)
    }

    // Returns a search that has marked its starts: g, the targets of registers and queues, and the names in `extra`.
    fn start_search(&self, extra: &[Name]) -> Result<Search, NoMemory>
        requires { All (λ name. IsSome (node_of self.now name)) extra.now }
        ensures { IfOk result (IsLiveSearch self.now extra.now) }
    {
        let mut search = Search {
            marks: self.empty_set()?,
            work: List::new(self.alloc),
        };
        self.mark_starts(extra, &mut search)?;
        Ok(search)
    }

    // Returns a search that has marked exactly the live names. `weaks` has to list the weak pointers that are alive.
    fn find_live(&self, extra: &[Name], weaks: &[Name]) -> Result<Search, NoMemory>
        requires extra { All (λ name. IsSome (node_of self.now name)) extra.now }
        requires weaks { Lists (IsAliveWeak self.now) weaks.now }
        ensures { IfOk result (IsLiveFound self.now extra.now) }
    {
        let _ = &self.mutators;
        let waiting = self.index_weaks(weaks)?;
        let mut search = self.start_search(extra)?;
        self.mark_weaks(weaks, &mut search)?;
        while let Some(name) = search.work.pop() {
            self.mark_fields(name, &mut search)?;
            self.revive(name, weaks, &waiting, &mut search)?;
        }
        Ok(search)
    }
}

// Marks the targets of the mutators' registers and finaliser queues.
fn mark_states(states: &[MutatorState], search: &mut Search) -> Result<(), NoMemory>
    requires { All (λ state. All (IsPlaced search.old.marks) (values_held state)) states.now }
    ensures { OnOk result (search.new ≡ with_values search.old (flat_map values_held states.now)) }
{
    for state in states {
        mark_state(state, search)?;
    }
    Ok(())
}

// Marks the targets of a mutator's registers and finaliser queue.
fn mark_state(state: &MutatorState, search: &mut Search) -> Result<(), NoMemory>
    requires { All (IsPlaced search.old.marks) (values_held state.now) }
    ensures { OnOk result (search.new ≡ with_values search.old (values_held state.now)) }
{
    search.mark_values(state.registers.items())?;
    search.mark_values(state.queue.items())
}

// Returns the parts of a weak pointer that is alive, and `None` for every other node.
fn parts_in(node: &Node) -> Option<Parts>
    ensures { result ≡ parts_in node.now }
{
    match node {
        Node::Weak { parts } => *parts,
        _ => None,
    }
}
