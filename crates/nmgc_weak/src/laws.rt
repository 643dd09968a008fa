//! The queues of finalisers after a cycle was closed, and the list of weak pointers after a round. Each function here does
//! nothing. Its contract is the law, over the clauses of this crate's calls.
ghost use Rattle.nmgc_weak.specs.Closes.{DeathsHaveRoom, QueuesClose, LeavingLists};

/// Proves that the queues have room for the finalisers of a closing's deaths, if each mutator has a queue with room for its
/// listed weak pointers of the snapshot. If registers, queues and serials represent a world, they represent the closed world
/// once the deaths' finalisers have joined the queues. The deaths have to be in order of names.
pub fn queues_close()
    ensures room { DeathsHaveRoom }
    ensures closed { QueuesClose }
{}

/// Proves that after a round the listed weak pointers whose value word isn't 0 are exactly the weak pointers with a block
/// that are alive. It supposes that the list was exact in this way when the round began, and that words represent the world.
/// The round has to give no new object a block, to revive no weak pointer and to change none that is alive (`KeepsOldWeaks`).
pub fn weaks_without_value_leave_the_list()
    ensures { LeavingLists }
{}
