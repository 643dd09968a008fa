//! A debt: a name that a barrier still has to remember.
use nmgc_world_spec::Name;

/// A name that is due, the line of the command that made it due, and the command's mutator. The caller counts lines from 1.
#[derive(Clone, Copy, Debug, PartialEq, Eq)]
pub struct Debt {
    pub name: Name,
    pub line: usize,
    pub mutator: u8,
}
