//! The meaning of the heap's words: they represent a world, as far as a mutator or the collector may still use it.
//!
//! A world of the reference heap is a finite map from names to nodes that only grows. The collector's heap has words,
//! addresses that are used again, and objects that move. `specs/` connects the two. It defines tracked names, the addresses
//! of objects, the meaning of a field word, and words that represent a world. The promises of `nmgc_round` and `nmgc_mutator`
//! use these definitions, so read them first. A round adds definitions for its knowledge of its objects between two steps.
//!
//! `laws` has the laws of these definitions for all worlds and words. `heap_words` has the trait by which words are read and
//! written, and `mutator_roots` the trait for a mutator's state outside the words.
//!
//! Easy to get wrong: a word means nothing by itself. A pointer means the name of the object at its address, and a field of
//! an object that is no longer used may hold any word at all.
#![tactic(auto)]

pub mod heap_words;
pub mod laws;
pub mod mutator_roots;

pub use heap_words::HeapWords;
pub use mutator_roots::MutatorRoots;
