//! The layout of the heap's words: the meaning of a word, the size of an object, and the parts of the heap.
//!
//! The collector's heap is one array of 64-bit words. Only this crate defines its headers, names and fields, and where
//! segments and nurseries begin. Everything above cites the definitions in `specs/`.
//!
//! `words` has the three kinds of word, `size` the words of an object and the classes of blocks, and `layout` the addresses.
//! `fin_queue` has the queue of finalisers. It holds field words because the collector finds and forwards the pointers in it.
#![tactic(auto)]

pub mod fin_queue;
pub mod laws;
pub mod layout;
pub mod size;
pub mod words;

pub use fin_queue::FinQueue;
pub use layout::{FIRST_PLACE, Layout, Nursery, SHARED_PLACE};
pub use size::{
    HEADER_WORDS, MAX_PARTS, MIN_BLOCK_WORDS, NAME_OFFSET, block_words, class_of, object_words,
    words_of,
};
pub use words::{
    Address, Field, FieldWord, Header, MAX_FIELDS, NUMBER_LIMIT, decode_header, decode_name,
    decode_value, encode_header, encode_name, encode_value, fields_of, header_of, name_of,
};
