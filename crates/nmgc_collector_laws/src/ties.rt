//! The marker and the closing of a cycle, in the terms of a run. Each function's contract is the law.
ghost use Rattle.nmgc_collector_laws.specs.{Blocks.TiesAgree, CycleCloses.CycleMayResolve, CycleCloses.CycleCloses, Longer.StopsAreOfLonger};

/// Proves that a marker is tied to the marking machine by blocks, as in a run, exactly if the marker has the cycle's epoch
/// and is tied by places. A tied marker has the machine's marks and queue. Requires that places are blocks (`AreOfBlocks`).
pub fn ties_agree()
    ensures { TiesAgree }
{}

/// Proves that a closing with weak pointers is a closing of a run. Weak pointers may be resolved at a stop if the marker is
/// ready, the weak pointers are listed (`ListsWeaks`), and nothing is queued, owed or pushed (`CycleMayResolve`). Once they
/// are resolved, exactly the cycle's dead weak pointers have died, exactly the kept names in blocks are marked, and the
/// marker has counted the kept objects. `CycleCloses` has the premises for this.
pub fn a_cycle_closes()
    ensures may { CycleMayResolve }
    ensures closes { CycleCloses }
{
    ties_agree();
}

/// Proves that a collector at a stop of a run is also at a stop of the same run of longer programs, with the same places.
/// Only programs with commands left at this stop may be longer.
pub fn a_stop_is_of_longer_programs()
    ensures { StopsAreOfLonger }
{}
