//! The parts of a world, for reading, and a copy of it.
ghost use Rattle.std.specs.Prelude.{◌≡◌, ◌<◌, length, map, IfOk};
ghost use Rattle.nmgc_graph.specs.Bare.{cleared, without_registers};

use crate::World;
use crate::world::copies;
use nmgc_lists::{List, NoMemory, Queue};
use nmgc_world_spec::{MutatorState, Node, Value};
use std::alloc::Global;

impl World {
    ghost use Rattle.nmgc_world_spec.specs.{World.state_of, World.serial_of, Known.IsWorld};

    /// Returns the allocator from which the world takes its memory. Takes constant time.
    pub fn alloc(&self) -> Global {
        self.alloc
    }

    /// Returns the number of mutators. Takes no memory, and constant time. The clause `closed` holds in every world.
    pub fn mutators(&self) -> u8
        ensures count { result ≡ length self.now.mutators }
        ensures closed { IsWorld self.now }
    {
        self.mutators.items().len() as u8
    }

    /// Returns the registers of a mutator. Takes no memory, and constant time.
    pub fn registers(&self, mutator: u8) -> &[Value]
        requires { mutator < length self.now.mutators }
        ensures { result.now ≡ (state_of self.now mutator).registers }
    {
        self.mutators.items()[mutator as usize].registers.items()
    }

    /// Returns a mutator's next serial: the number of objects that it has made. Takes no memory, and constant time.
    pub fn serial(&self, mutator: u8) -> u32
        requires { mutator < length self.now.mutators }
        ensures { result ≡ serial_of self.now mutator }
    {
        self.mutators.items()[mutator as usize].nodes.items().len() as u32
    }

    /// Returns the finaliser queue of a mutator, from the front. Takes no memory, and constant time.
    pub fn queue(&self, mutator: u8) -> &[Value]
        requires { mutator < length self.now.mutators }
        ensures { result.now ≡ (state_of self.now mutator).queue }
    {
        self.mutators.items()[mutator as usize].queue.items()
    }

    /// Returns an equal world, in memory of its own.
    pub fn copy(&self) -> Result<World, NoMemory>
        ensures { IfOk result (λ world. world ≡ self.now) }
    {
        let shared = copy_node(self.alloc, &self.shared)?;
        let mutators = copy_states(self.alloc, self.mutators.items())?;
        Ok(World {
            alloc: self.alloc,
            shared,
            mutators,
        })
    }

    /// Returns a copy of the world with nil in each register, in memory of its own.
    pub fn copy_without_registers(&self) -> Result<World, NoMemory>
        ensures { IfOk result (λ world. world ≡ without_registers self.now) }
    {
        let shared = copy_node(self.alloc, &self.shared)?;
        let mutators = cleared_states(self.alloc, self.mutators.items())?;
        Ok(World {
            alloc: self.alloc,
            shared,
            mutators,
        })
    }
}

// Returns an equal node, in memory of its own.
fn copy_node(alloc: Global, node: &Node) -> Result<Node, NoMemory>
    ensures { IfOk result (λ copy. copy ≡ node.now) }
{
    let copy = match node {
        Node::Con { tag, values } => Node::Con {
            tag: *tag,
            values: values.copy(alloc)?,
        },
        Node::Var { value } => Node::Var { value: *value },
        Node::Arr { values } => Node::Arr {
            values: values.copy(alloc)?,
        },
        Node::Thunk { free, result } => Node::Thunk {
            free: free.copy(alloc)?,
            result: *result,
        },
        Node::Weak { parts } => Node::Weak { parts: *parts },
        Node::Stack { size, values } => Node::Stack {
            size: *size,
            values: values.copy(alloc)?,
        },
    };
    Ok(copy)
}

// Returns equal nodes, in the same order.
fn copy_nodes(alloc: Global, nodes: &[Node]) -> Result<List<Node>, NoMemory>
    ensures { IfOk result (λ copies. copies ≡ nodes.now) }
{
    let mut copies = List::new(alloc);
    for node in nodes {
        copies.push(copy_node(alloc, node)?)?;
    }
    Ok(copies)
}

// Returns a queue of the same values.
fn copy_queue(alloc: Global, values: &[Value]) -> Result<Queue<Value>, NoMemory>
    ensures { IfOk result (λ queue. queue ≡ values.now) }
{
    let mut queue = Queue::new(alloc);
    queue.extend(values)?;
    Ok(queue)
}

// Returns an equal state of a mutator.
fn copy_state(alloc: Global, state: &MutatorState) -> Result<MutatorState, NoMemory>
    ensures { IfOk result (λ copy. copy ≡ state.now) }
{
    let registers = state.registers.copy(alloc)?;
    let queue = copy_queue(alloc, state.queue.items())?;
    let nodes = copy_nodes(alloc, state.nodes.items())?;
    Ok(MutatorState {
        registers,
        queue,
        nodes,
    })
}

// Returns equal states, in the same order.
fn copy_states(alloc: Global, states: &[MutatorState]) -> Result<List<MutatorState>, NoMemory>
    ensures { IfOk result (λ copies. copies ≡ states.now) }
{
    let mut copies = List::new(alloc);
    for state in states {
        copies.push(copy_state(alloc, state)?)?;
    }
    Ok(copies)
}

// Returns a copy of a mutator's state with nil in each register.
fn cleared_state(alloc: Global, state: &MutatorState) -> Result<MutatorState, NoMemory>
    ensures { IfOk result (λ copy. copy ≡ cleared state.now) }
{
    let registers = copies(alloc, Value::Nil, state.registers.items().len())?;
    let queue = copy_queue(alloc, state.queue.items())?;
    let nodes = copy_nodes(alloc, state.nodes.items())?;
    Ok(MutatorState {
        registers,
        queue,
        nodes,
    })
}

// Returns copies of states with nil in each register, in the same order.
fn cleared_states(alloc: Global, states: &[MutatorState]) -> Result<List<MutatorState>, NoMemory>
    ensures { IfOk result (λ copies. copies ≡ map cleared states.now) }
{
    let mut copies = List::new(alloc);
    for state in states {
        copies.push(cleared_state(alloc, state)?)?;
    }
    Ok(copies)
}
