//! The addresses of a heap's objects: in blocks in use, and in the used parts of nurseries.
//!
//! Words represent a world by places alone, without segments. `specs/` adds the segments: below the nurseries exactly the
//! blocks in use are places of objects, and each object fits its block. It defines the lists that a round leaves for its
//! stop, the recorded fields and the new weak pointers, and an object's strong fields in words. It defines which new objects
//! are promoted, and the places of objects. It also defines a cycle with its census (`Cycle`, `Waiting`): the objects that the
//! cycle judges, frees and keeps, by its snapshot alone. Promotion, the sweeper, the stops and the run cite these definitions;
//! nothing here runs.
//!
//! Easy to get wrong: a block in use may hold an object no longer used. Its place and name count; its fields mean nothing.
#![tactic(auto)]

pub mod laws;
