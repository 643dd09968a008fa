//! Scripts that run under gates or have several reports, each with its text by the rules of a run.

// Two mutators. Each reads the value that the other stored in the round before.
pub(crate) const EXCHANGE: &str =
    "nmgc 1\nheap 64 64 64 100 1000 0\nthread 0\nnum r1 5\ncon r0 0 r1\nset g 0 r0\nyield\nget r2 g 1\nthread 1\nnum r1 6\ncon r0 0 r1\nset g 1 r0\nyield\nget r2 g 0\nget r3 r2 0\n";

pub(crate) const EXCHANGE_REPORT: &str =
    "report 1\nstop 0 idle free 64 filled 0 sweep 0 promoted 0\nround 1\n0 ok\n0 0.0\n0 ok\n0 ok\n1 ok\n1 1.0\n1 ok\n1 ok\nstop 1 idle free 62 filled 0 sweep 0 promoted 2\nround 2\n0 1.0\n1 0.0\n1 5\nstop 2 idle free 62 filled 0 sweep 0 promoted 0\nend done\n";

// Sixteen constructors fill a nursery, and a variable waits for the next round.
pub(crate) const WAITING: &str =
    "nmgc 1\nheap 32 64 64 100 1000 0\nthread 0\ncon r0 0 r1 r1\ncon r0 0 r1 r1\ncon r0 0 r1 r1\ncon r0 0 r1 r1\ncon r0 0 r1 r1\ncon r0 0 r1 r1\ncon r0 0 r1 r1\ncon r0 0 r1 r1\ncon r0 0 r1 r1\ncon r0 0 r1 r1\ncon r0 0 r1 r1\ncon r0 0 r1 r1\ncon r0 0 r1 r1\ncon r0 0 r1 r1\ncon r0 0 r1 r1\ncon r0 0 r1 r1\nvar r2 r0\n";

// One of three segments is free after the sweep, one active and one filled.
pub(crate) const THREE_SEGMENTS: &str =
    "nmgc 1\nheap 32 64 256 100 1000 0\nthread 0\ncon r0 0 r0 r1\ncon r0 0 r0 r1\ncon r0 0 r0 r1\ncon r0 0 r0 r1\ncon r0 0 r0 r1\ncon r0 0 r0 r1\ncon r0 0 r0 r1\ncon r0 0 r0 r1\ncon r0 0 r0 r1\ncon r0 0 r0 r1\ncon r0 0 r0 r1\ncon r0 0 r0 r1\ncon r0 0 r0 r1\ncon r0 0 r0 r1\ncon r0 0 r0 r1\ncon r0 0 r0 r1\ncon r2 0 r2 r1\ncon r2 0 r2 r1\ncon r2 0 r2 r1\ncon r2 0 r2 r1\ncon r2 0 r2 r1\ncon r2 0 r2 r1\ncon r2 0 r2 r1\ncon r2 0 r2 r1\ncon r2 0 r2 r1\ncon r2 0 r2 r1\ncon r2 0 r2 r1\ncon r2 0 r2 r1\ncon r2 0 r2 r1\ncon r2 0 r2 r1\ncon r2 0 r2 r1\ncon r2 0 r2 r1\ncon r3 0 r3 r1\ncon r3 0 r3 r1\ncon r3 0 r3 r1\ncon r3 0 r3 r1\ncon r3 0 r3 r1\ncon r3 0 r3 r1\ncon r3 0 r3 r1\ncon r3 0 r3 r1\ncon r3 0 r3 r1\ncon r3 0 r3 r1\ncon r3 0 r3 r1\ncon r3 0 r3 r1\ncon r3 0 r3 r1\ncon r3 0 r3 r1\ncon r3 0 r3 r1\ncon r3 0 r3 r1\nyield\nnil r0\nget r2 r2 0\ncollect\n";

pub(crate) const THREE_SEGMENTS_REPORT: &str =
    "report 1\nstop 0 idle free 32 filled 0 sweep 0 promoted 0\nround 1\n0 0.0\n0 0.1\n0 0.2\n0 0.3\n0 0.4\n0 0.5\n0 0.6\n0 0.7\n0 0.8\n0 0.9\n0 0.10\n0 0.11\n0 0.12\n0 0.13\n0 0.14\n0 0.15\n0 0.16\n0 0.17\n0 0.18\n0 0.19\n0 0.20\n0 0.21\n0 0.22\n0 0.23\n0 0.24\n0 0.25\n0 0.26\n0 0.27\n0 0.28\n0 0.29\n0 0.30\n0 0.31\n0 0.32\n0 0.33\n0 0.34\n0 0.35\n0 0.36\n0 0.37\n0 0.38\n0 0.39\n0 0.40\n0 0.41\n0 0.42\n0 0.43\n0 0.44\n0 0.45\n0 0.46\n0 0.47\n0 ok\nstop 1 idle free 29 filled 3 sweep 0 promoted 48\nround 2\n0 ok\n0 0.30\n0 ok\nstop 2 marking free 29 filled 0 sweep 3 promoted 0\nround 3\nstop 3 sweeping free 29 filled 0 sweep 3 promoted 0\nround 4\nstop 4 idle free 30 filled 1 sweep 0 promoted 0\ncycle 1 from 2 closed 3 swept 3 had 48 freed 17 kept 31 dead 0\nfreed 0.0\nfreed 0.1\nfreed 0.2\nfreed 0.3\nfreed 0.4\nfreed 0.5\nfreed 0.6\nfreed 0.7\nfreed 0.8\nfreed 0.9\nfreed 0.10\nfreed 0.11\nfreed 0.12\nfreed 0.13\nfreed 0.14\nfreed 0.15\nfreed 0.31\nend done\n";

// The only reference to an object is overwritten while the cycle marks: the cycle keeps it, and the next one frees it.
pub(crate) const OVERWRITTEN: &str =
    "nmgc 1\nheap 32 64 64 100 1000 0\nthread 0\nnum r1 5\ncon r2 0 r1\nvar r0 r2\nnil r2\ncon r3 0 r3 r1\ncon r3 0 r3 r1\ncon r3 0 r3 r1\ncon r3 0 r3 r1\ncon r3 0 r3 r1\ncon r3 0 r3 r1\ncon r3 0 r3 r1\ncon r3 0 r3 r1\ncon r3 0 r3 r1\ncon r3 0 r3 r1\ncon r3 0 r3 r1\ncon r3 0 r3 r1\ncon r3 0 r3 r1\ncon r3 0 r3 r1\ncollect\nset r0 0 r1\ncollect\n";

pub(crate) const OVERWRITTEN_REPORT: &str =
    "report 1\nstop 0 idle free 32 filled 0 sweep 0 promoted 0\nround 1\n0 ok\n0 0.0\n0 0.1\n0 ok\n0 0.2\n0 0.3\n0 0.4\n0 0.5\n0 0.6\n0 0.7\n0 0.8\n0 0.9\n0 0.10\n0 0.11\n0 0.12\n0 0.13\n0 0.14\n0 0.15\n0 ok\nstop 1 marking free 31 filled 0 sweep 1 promoted 16\nround 2\n0 ok\n0 ok\nstop 2 sweeping free 31 filled 0 sweep 1 promoted 0\nround 3\nstop 3 marking free 31 filled 0 sweep 1 promoted 0\ncycle 1 from 1 closed 2 swept 1 had 16 freed 0 kept 16 dead 0\nround 4\nstop 4 sweeping free 31 filled 0 sweep 1 promoted 0\nround 5\nstop 5 idle free 31 filled 0 sweep 0 promoted 0\ncycle 2 from 3 closed 4 swept 1 had 16 freed 1 kept 15 dead 0\nfreed 0.0\nend done\n";

// Two mutators that update one thunk, each with a number of its own. One update comes first, and both then read its number.
pub(crate) const THUNK: &str =
    "nmgc 1\nheap 64 64 64 100 1000 0\nthread 0\nnum r1 5\nthunk r0 r1\nset g 0 r0\nyield\nupdate r0 r1\nforce r2 r0\nthread 1\nyield\nget r0 g 0\nnum r1 6\nupdate r0 r1\nforce r2 r0\n";

pub(crate) const FIRST_UPDATED_REPORT: &str =
    "report 1\nstop 0 idle free 64 filled 0 sweep 0 promoted 0\nround 1\n0 ok\n0 0.0\n0 ok\n0 ok\n1 ok\nstop 1 idle free 63 filled 0 sweep 0 promoted 1\nround 2\n0 updated\n0 5\n1 0.0\n1 ok\n1 already\n1 5\nstop 2 idle free 63 filled 0 sweep 0 promoted 0\nend done\n";

pub(crate) const SECOND_UPDATED_REPORT: &str =
    "report 1\nstop 0 idle free 64 filled 0 sweep 0 promoted 0\nround 1\n0 ok\n0 0.0\n0 ok\n0 ok\n1 ok\nstop 1 idle free 63 filled 0 sweep 0 promoted 1\nround 2\n0 already\n0 6\n1 0.0\n1 ok\n1 updated\n1 6\nstop 2 idle free 63 filled 0 sweep 0 promoted 0\nend done\n";

// Two mutators. Each stores its number into the first slot of g and reads that slot. The last one to store reads its own
// number, so they can't both read the other's.
pub(crate) const RACE: &str =
    "nmgc 1\nheap 64 64 64 100 1000 0\nthread 0\nnum r1 1\nset g 0 r1\nget r2 g 0\nthread 1\nnum r1 2\nset g 0 r1\nget r2 g 0\n";
