//! Closing a world: weak pointers die, and their finalisers are queued.
//!
//! The collector finds the weak pointers that are dead by its snapshot, and closes the world with them at a stop. Each of
//! them dies, in the order of names. Its finaliser, unless nil, joins the end of the finaliser queue of the weak pointer's
//! maker. So two runs that find the same dead weak pointers hand out the same finalisers in the same order.
ghost use Rattle.std.specs.Prelude.{◌≡◌, ◌<◌, All, OnOk, OnErr, length, slice_get, Some, None};
ghost use Rattle.nmgc_world_spec.specs.{Reach.queued, Pieces.with_nth};
ghost use Rattle.nmgc_graph.specs.Closing.{finaliser_of};

use crate::World;
use nmgc_lists::NoMemory;
use nmgc_world_spec::{MutatorState, Name, Node, Value};

impl World {
    ghost use Rattle.nmgc_world_spec.specs.{Known.IsWorld, World.node_of, Reach.IsAliveWeak, Reach.IsInOrder, Reach.closed, Reach.closed_by};
    ghost use Rattle.nmgc_graph.specs.Closing.{IsPartlyClosed};

    /// Closes the world with the weak pointers in `dead`. Each dies, and its finaliser, unless nil, joins the end of the
    /// queue of the weak pointer's maker. They must be alive and in the order of names. After `NoMemory` the world is closed
    /// with only the first few of them. Takes time proportional to their number.
    pub fn close(&mut self, dead: &[Name]) -> Result<(), NoMemory>
        requires ordered { IsInOrder dead.now }
        requires alive { All (IsAliveWeak self.old) dead.now }
        ensures ok { OnOk result (self.new ≡ closed self.old dead.now) }
        ensures err { OnErr result (IsPartlyClosed self.old dead.now self.new) }
        ensures closed { IsWorld self.new }
    {
        let answer = self.close_all(dead);
        // Note [Lines that do nothing] in `nmgc_alloc`: this gives the prover that the world is closed, as every world is.
        let _ = &self.mutators;
        answer
    }

    // Makes each weak pointer dead, in order, and queues its finaliser, unless nil. `NoMemory` leaves the first few dead.
    fn close_all(&mut self, dead: &[Name]) -> Result<(), NoMemory>
        requires ordered { IsInOrder dead.now }
        requires alive { All (IsAliveWeak self.old) dead.now }
        ensures ok { OnOk result (self.new ≡ closed self.old dead.now) }
        ensures err { OnErr result (IsPartlyClosed self.old dead.now self.new) }
    {
        let _ = &self.mutators;
        for weak in dead {
            self.close_one(*weak)?;
        }
        Ok(())
    }

    // Makes a weak pointer dead, and adds its finaliser, unless nil, to the queue of the weak pointer's maker.
    fn close_one(&mut self, weak: Name) -> Result<(), NoMemory>
        requires { IsAliveWeak self.old weak }
        ensures ok { OnOk result (self.new ≡ closed_by self.old weak (node_of self.old weak)) }
        ensures err { OnErr result (self.new ≡ self.old) }
    {
        kill_and_queue(
            &mut self.mutators.items_mut()[weak.maker as usize],
            weak.serial,
        )
    }
}

// Makes the mutator's object with this serial a dead weak pointer, and queues `finaliser_of` the object, unless nil.
fn kill_and_queue(state: &mut MutatorState, serial: u32) -> Result<(), NoMemory>
    requires { serial < length state.old.nodes }
    ensures ok { OnOk result (state.new ≡ queued (with_nth state.old serial (Node.Weak None)) (finaliser_of (slice_get state.old.nodes serial))) }
    ensures err { OnErr result (state.new ≡ state.old) }
{
    let finaliser = finaliser_of(&state.nodes.items()[serial as usize]);
    enqueue(state, finaliser)?;
    kill(state, serial);
    Ok(())
}

// Returns the finaliser of a weak pointer that is alive, and nil for any other node.
fn finaliser_of(node: &Node) -> Value
    ensures { result ≡ finaliser_of (Some node.now) }
{
    match node {
        Node::Weak { parts: Some(parts) } => parts.finaliser,
        _ => Value::Nil,
    }
}

// Adds a finaliser to the end of the mutator's queue, unless the finaliser is nil.
fn enqueue(state: &mut MutatorState, finaliser: Value) -> Result<(), NoMemory>
    ensures ok { OnOk result (state.new ≡ queued state.old finaliser) }
    ensures err { OnErr result (state.new ≡ state.old) }
{
    match finaliser {
        Value::Nil => Ok(()),
        value => state.queue.push(value),
    }
}

// Replaces the object at a serial by a dead weak pointer.
fn kill(state: &mut MutatorState, serial: u32)
    requires { serial < length state.old.nodes }
    ensures { state.new ≡ with_nth state.old serial (Node.Weak None) }
{
    state.nodes.items_mut()[serial as usize] = Node::Weak { parts: None };
}
