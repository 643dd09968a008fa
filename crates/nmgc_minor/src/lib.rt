//! Promotion: at a stop, the surviving objects of all nurseries are copied into segments.
//!
//! The mutators are stopped, so words are read and written plainly. None of the three passes takes memory, sorts or hashes:
//!
//! 1. *Find* (`starts`, `young`). It begins with the nursery objects to which the roots, the slots of g and the recorded
//!    fields refer. To these it adds the new weak pointers that are alive, and their parts. From all these it follows strong
//!    fields. Found objects are noted in a table by nursery word, and wait in a list that is read once. Words are only read.
//! 2. *Place* (`nurseries`, `placing`). It reads the table from its beginning on, but skips the words of a found object. A
//!    nursery's objects lie in the order of their serials, and the nurseries in the order of their makers, so this is the
//!    order of names. Each found object is given a block, and the block's address becomes its entry. Words are only read.
//! 3. *Forward* (`forwarding`). It forwards the slots of g and the recorded fields by the table. Then it copies each found
//!    object to its block with its fields forwarded, and forwards the roots.
//!
//! No pass writes to a nursery, and only the last pass writes to a block. So all facts about the old words hold to the end,
//! and each new word is a function of an old one. One proof, over all words at once, shows that the world stays the same.
//!
//! Contracts of the passes are about words alone: about the least set of addresses that pointers reach. So `run_passes`
//! serves callers that have no world, such as a walk through a heap. Only `Promotion::promote` is about the world. A heap at
//! a stop meets the passes' premises, exactly the promoted objects are found, and the world and the order of names stay.
#![tactic(auto)]

mod forwarding;
mod nurseries;
mod passes;
mod placing;
mod promotion;
mod starts;
mod young;

pub use passes::run_passes;
pub use placing::Move;
pub use promotion::Promotion;
pub use young::Young;
