//! The update remembered set of a mutator (GHC's name): the objects to which its commands removed references, for the marker.
//! The fields of segments that refer into nurseries are another list, `Mutator::recorded`.
//!
//! While a cycle is marking, a command takes references out of the marker's sight, such as the old word of a field that it
//! overwrites. If such a reference leads to an object in a segment, the mutator pushes the object's address here, in the
//! order of the commands. So no object that was reachable at the snapshot is lost, though its only reference may have left
//! the marker's sight: Note [Why the deletion barrier is enough] in `nmgc_mutator/src/barrier.rt`.
//!
//! A push happens in the middle of a round and may take no memory, so room is made before the round. Contracts see an
//! `UpdRem` as its entries in order, and the number of further entries for which it has room. Full blocks go through a ring
//! to the collector beside the mutators (`ring`). The collector puts the entries that it takes out into a list for each
//! mutator (`inbox`). At a stop the entries of the list, then those in the ring, then those still in the remembered set are
//! all entries pushed since the last stop, in order.
//!
//! Easy to get wrong: that the blocks received and those in the ring are all blocks sent is known only to a thread that has
//! both ends. So each end counts its own calls, and `Inbox::take_rest`, at a stop, ties the two.
#![tactic(auto)]

pub mod block;
pub mod inbox;
pub mod laws;
mod level;
pub mod poll;
pub mod ring;
pub mod updrem;

pub use block::{BLOCK_ENTRIES, UpdBlock};
pub use inbox::Inbox;
pub use poll::Poll;
pub use ring::{RING_BLOCKS, UpdReceiver, UpdSender, link};
pub use updrem::UpdRem;
