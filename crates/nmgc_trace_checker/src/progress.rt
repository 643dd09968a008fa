//! The state of a trace of format 1, line by line.
//!
//! The commands before `mark` build a world; from then on each line is an event of the marking machine, which may refuse it.
//! The machine's take has no name, but a trace's take has the name that the runtime took. So that name is compared with the
//! names that the machine's take marked. A line that can't happen ends the trace, so `advance` takes the progress.
//!
//! Easy to get wrong: a name that was marked before is among the marked names after any take. In that case the number of
//! marked names is compared too, since a take of another name would raise it.
//!
//! A world or a machine is dropped by one call of `drop`: an implicit drop is proved wherever the function can end.
ghost use Rattle.std.specs.Prelude.{◌≡◌, ◌↔◌, IfOk, OnOk, IsTrue, Contains, length};
ghost use Rattle.nmgc_trace_checker.specs.Trace.{IsNext, CanStart, IsAnsweredIf, IsTakeIf, IsDrain, next_if};
ghost use Rattle.nmgc_trace_checker.specs.declared.line.Line.TheVariants as line_is;

use crate::line::Line;
use nmgc_core::Core;
use nmgc_graph::World;
use nmgc_limits::MAKERS;
use nmgc_lists::NoMemory;
use nmgc_snapshot_laws::Event;
use nmgc_world_spec::Name;
use std::alloc::Global;
use std::marker::Model;

/// A world that commands build. Contracts see only the world.
#[derive(Drop)]
pub struct Built {
    world: Box<World>,
}

impl Model for Built {
    ghost use Rattle.nmgc_world_spec.specs.World.{World};

    ghost Value = { World };

    ghost view = { λ b. b.world.value };
}

impl Built {
    // Puts a world in its own memory, as the world that commands build.
    fn new(alloc: Global, world: World) -> Result<Self, NoMemory>
        ensures { IfOk result (λ built. built ≡ world) }
    {
        let world = Box::new(alloc, world)?;
        Ok(Built { world })
    }

    // Returns the world. Takes no memory and constant time.
    fn into_world(self) -> World
        ensures { result ≡ self }
    {
        let Built { world } = self;
        Box::into_inner(world)
    }

    // Applies an event to the world as the function `apply_answered` does, and returns its answer.
    fn apply_answered(&mut self, event: &Event) -> Result<bool, NoMemory>
        ensures { IfOk result (λ done. IsAnsweredIf self.old event.now done self.new) }
    {
        apply_answered(&mut self.world, event)
    }
}

/// The state of a trace.
#[derive(Drop)]
pub enum Progress {
    /// There are no mutators yet.
    Nothing,
    /// Commands build the world at which marking will begin.
    Building(Built),
    /// Marking has begun in this marking machine, and may have ended.
    Marking(Core),
}

impl Progress {
    /// Returns the progress after one more line, or `None` exactly if the line can't happen. Takes the memory and time of
    /// `World::apply` and `Core::step`, of a drain's scans, and for a take also memory and time for each marked name.
    pub fn advance(self, alloc: Global, line: &Line) -> Result<Option<Self>, NoMemory>
        ensures { IfOk result (IsNext self line.now) }
    {
        match line {
            Line::Blank => Ok(Some(self)),
            Line::Mutators(count) => self.start(alloc, *count),
            Line::Mark => self.mark(),
            Line::Event(event) => self.do_event(event),
            Line::Take { mutator, name } => self.take(*mutator, *name),
            Line::Drain => self.drain(),
            Line::Unknown => {
                drop(self);
                Ok(None)
            }
        }
    }

    // Begins with the empty heap of `count` mutators. Returns `None` exactly if there are mutators or `count` isn't allowed.
    fn start(self, alloc: Global, count: u8) -> Result<Option<Self>, NoMemory>
        ensures { IfOk result (IsNext self (line_is.Mutators count)) }
    {
        match self {
            Progress::Nothing => start_building(alloc, count),
            Progress::Building(built) => {
                drop(built);
                Ok(None)
            }
            Progress::Marking(core) => {
                drop(core);
                Ok(None)
            }
        }
    }

    // Begins marking, with the world built so far as the snapshot. Returns `None` exactly if no world is being built.
    fn mark(self) -> Result<Option<Self>, NoMemory>
        ensures { IfOk result (IsNext self line_is.Mark) }
    {
        match self {
            Progress::Nothing => Ok(None),
            Progress::Building(built) => {
                Ok(Some(Progress::Marking(Core::new(built.into_world())?)))
            }
            Progress::Marking(core) => {
                drop(core);
                Ok(None)
            }
        }
    }

    // Returns the progress after an event, or `None` exactly if it can't happen. Before marking only a command can happen.
    fn do_event(self, event: &Event) -> Result<Option<Self>, NoMemory>
        ensures { IfOk result (IsNext self (line_is.Event event.now)) }
    {
        match self {
            Progress::Nothing => Ok(None),
            Progress::Building(mut built) => {
                let happened = built.apply_answered(event);
                Progress::Building(built).keep_if_happened(happened)
            }
            Progress::Marking(mut core) => {
                let happened = core.step(event);
                Progress::Marking(core).keep_if_happened(happened)
            }
        }
    }

    // Returns the progress after the marker took `name` from a mutator, or `None` exactly if the marker can't take that name.
    fn take(self, mutator: u8, name: Name) -> Result<Option<Self>, NoMemory>
        ensures { IfOk result (IsNext self (line_is.Take mutator name)) }
    {
        match self {
            Progress::Nothing => Ok(None),
            Progress::Building(built) => {
                drop(built);
                Ok(None)
            }
            Progress::Marking(mut core) => {
                let happened = take_name(&mut core, mutator, name);
                Progress::Marking(core).keep_if_happened(happened)
            }
        }
    }

    // Returns the progress after scans until none can happen, or 2^64 - 1 scans; `None` exactly if marking hasn't begun.
    fn drain(self) -> Result<Option<Self>, NoMemory>
        ensures { IfOk result (IsNext self line_is.Drain) }
    {
        match self {
            Progress::Nothing => Ok(None),
            Progress::Building(built) => {
                drop(built);
                Ok(None)
            }
            Progress::Marking(mut core) => match drain(&mut core) {
                Ok(()) => Ok(Some(Progress::Marking(core))),
                Err(error) => {
                    drop(core);
                    Err(error)
                }
            },
        }
    }

    // Returns this progress if the line happened, and `None` if it didn't. An error is passed on.
    fn keep_if_happened(self, happened: Result<bool, NoMemory>) -> Result<Option<Self>, NoMemory>
        ensures { result ≡ next_if self happened }
    {
        match happened {
            Ok(true) => Ok(Some(self)),
            Ok(false) => {
                drop(self);
                Ok(None)
            }
            Err(error) => {
                drop(self);
                Err(error)
            }
        }
    }
}

// Returns the progress with the empty heap of `count` mutators, or `None` exactly if that number isn't allowed.
fn start_building(alloc: Global, count: u8) -> Result<Option<Progress>, NoMemory>
    ensures { IfOk result (IsNext Progress.Nothing (line_is.Mutators count)) }
{
    if count == 0 || count > MAKERS {
        return Ok(None);
    }
    let built = Built::new(alloc, World::new(alloc, count)?)?;
    Ok(Some(Progress::Building(built)))
}

// Applies an event and returns `true`, if it is a command that can be given, with the heap's answer. Otherwise returns
// `false`, and the world may be any world.
fn apply_answered(world: &mut World, event: &Event) -> Result<bool, NoMemory>
    ensures { IfOk result (λ done. IsAnsweredIf world.old event.now done world.new) }
{
    match event {
        Event::Command {
            mutator,
            command,
            answer,
        } => {
            if !world.can_apply(*mutator, command) {
                return Ok(false);
            }
            Ok(world.apply(*mutator, command)? == *answer)
        }
        Event::Push { .. } | Event::Scan | Event::Take { .. } | Event::Close => Ok(false),
    }
}

// Lets the marker take a mutator's first pushed name. Returns whether it could and thereby marked just `name`. After `false`
// the machine may be in any state.
fn take_name(core: &mut Core, mutator: u8, name: Name) -> Result<bool, NoMemory>
    ensures { IfOk result (λ done. IsTakeIf core.old mutator name done core.new) }
{
    let before = core.marked()?;
    if !core.step(&Event::Take { mutator })? {
        return Ok(false);
    }
    let after = core.marked()?;
    Ok(is_just_marked(before.items(), after.items(), name))
}

// Does scans until no scan can happen, or 2^64 - 1 of them.
fn drain(core: &mut Core) -> Result<(), NoMemory>
    ensures { OnOk result (IsDrain core.old core.new) }
{
    for _ in 0..u64::MAX {
        if !core.step(&Event::Scan)? {
            return Ok(());
        }
    }
    Ok(())
}

// Whether a take marked just `name`: `after` has it and, if `before` has it too, the two lists are equally long.
fn is_just_marked(before: &[Name], after: &[Name], name: Name) -> bool
    ensures { IsTrue result ↔ (Contains after.now name × (Contains before.now name → length after.now ≡ length before.now)) }
{
    after.contains(&name) && (!before.contains(&name) || after.len() == before.len())
}
