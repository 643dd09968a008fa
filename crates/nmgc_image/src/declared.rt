//! The names that have node lines.
//!
//! A line may mention a name whose node line comes only later. So names are looked up after all lines were read. The names of
//! the objects read, and of the node lines after them, are collected as sorted numbers.
ghost use Rattle.std.specs.Prelude.{◌≡◌, ◌↔◌, ◌++◌, [], true, All, Contains, IfOk, IsTrue, OnOk, map};
ghost use Rattle.nmgc_object.specs.Words.{IsName};
ghost use Rattle.nmgc_image.specs.{Names.IsTestOf, Reading.has_key, Reading.key_of, Reading.keys_beside, Reading.keys_in, Reading.keys_of as all_keys, Reading.HaveSame, Image.cut};
ghost use Rattle.std.specs.List.Sorted.{IsNonDecreasing};

use crate::LineFault;
use crate::image::Entry;
use crate::nodes::node_line;
use crate::text::next_line;
use nmgc_io::cut_tokens;
use nmgc_limits::MAKERS;
use nmgc_lists::NoMemory;
use nmgc_world_spec::Name;
use std::alloc::Global;

/// A set of names, as sorted numbers. If a maker's serials are consecutive, the position of a number is the number plus the
/// maker's shift, modulo 2^64. So a number is looked for there first. Only the time depends on the shifts.
#[derive(Drop)]
pub(crate) struct Declared {
    keys: Vec<u64>,
    shifts: Vec<u64>,
    ghost sorted: { IsNonDecreasing keys.items },
}

impl Declared {
    /// Whether a name is in the set. Takes no memory.
    pub(crate) fn has(&self, name: Name) -> bool
        ensures { result ≡ has_key self.now.keys.items name }
    {
        let key = key(name);
        if self.is_at_shift(name.maker, key) {
            return true;
        }
        self.keys.binary_search(&key).is_ok()
    }

    // Whether `key` is at the position that the maker's shift gives. If it isn't, the set may still have it.
    fn is_at_shift(&self, maker: u8, key: u64) -> bool
        ensures { result ≡ true → Contains self.now.keys.items key }
    {
        let Some(shift) = self.shifts.get(maker as usize) else {
            return false;
        };
        match self.keys.get((*shift).wrapping_add(key) as usize) {
            Some(found) => *found == key,
            None => false,
        }
    }

    /// Whether the set is empty. Takes no memory.
    pub(crate) fn is_empty(&self) -> bool
        ensures { IsTrue result ↔ (self.now.keys.items ≡ []) }
    {
        self.keys.is_empty()
    }
}

/// Returns the number that represents a name. These numbers are in the order of names.
pub(crate) fn key(name: Name) -> u64
    ensures { result ≡ key_of name }
{
    u64::from(name.maker) * (1 << 32) + u64::from(name.serial)
}

// Returns each maker's shift, for sorted `keys`: the position of the maker's least number minus that number, modulo 2^64. The
// shift of a maker without numbers is arbitrary.
fn shifts_of(alloc: Global, keys: &[u64]) -> Result<Vec<u64>, NoMemory> {
    let mut shifts = Vec::new(alloc);
    for maker in 0..MAKERS {
        let first = match keys.binary_search(&(u64::from(maker) * (1 << 32))) {
            Ok(at) => at,
            Err(at) => at,
        };
        let shift = match keys.get(first) {
            Some(key) => (first as u64).wrapping_sub(*key),
            None => 0,
        };
        shifts.push(shift)?;
    }
    Ok(shifts)
}

// Sorts the numbers `keys`, and returns the set of the names that they represent.
fn set_of_keys(alloc: Global, keys: Vec<u64>) -> Result<Declared, NoMemory>
    ensures { IfOk result (λ declared. HaveSame declared.keys.items keys.items) }
{
    let mut keys = keys;
    keys.sort_unstable();
    let shifts = shifts_of(alloc, &keys)?;
    Ok(Declared { keys, shifts })
}

// Returns the number of each object's name, in the order of `nodes`.
fn keys_of(alloc: Global, nodes: &[Entry]) -> Result<Vec<u64>, NoMemory>
    ensures { IfOk result (λ keys. keys.items ≡ map (λ entry. key_of entry.name) nodes.now) }
{
    let mut keys = Vec::with_capacity(alloc, nodes.len())?;
    for entry in nodes {
        keys.push(key(entry.name))?;
    }
    Ok(keys)
}

// Appends the number of each node line's name to `keys`, for all lines of a text.
fn push_keys(alloc: Global, keys: &mut Vec<u64>, bytes: &[u8]) -> Result<(), NoMemory>
    ensures { OnOk result (keys.new.items ≡ keys.old.items ++ all_keys (cut bytes.now).lines) }
{
    let mut tokens = Vec::new(alloc);
    let mut rest = bytes;
    while let Some((line, after)) = next_line(rest) {
        cut_tokens(&mut tokens, line)?;
        push_key(alloc, keys, &tokens)?;
        rest = after;
    }
    Ok(())
}

// Appends the number of a line's name to `keys` if the line is a node line. Any other line adds nothing.
fn push_key(alloc: Global, keys: &mut Vec<u64>, tokens: &[&[u8]]) -> Result<(), NoMemory>
    ensures { OnOk result (keys.new.items ≡ keys.old.items ++ keys_in (map (λ w. w.now) tokens.now)) }
{
    match node_line(alloc, tokens) {
        Ok(entry) => {
            keys.push(key(entry.name))?;
            Ok(())
        }
        Err(LineFault::NoMemory) => Err(NoMemory),
        Err(LineFault::Bad) => Ok(()),
    }
}

/// Returns the set of the names of `nodes` and of the node lines of a text.
pub(crate) fn names_in(alloc: Global, nodes: &[Entry], bytes: &[u8]) -> Result<Declared, NoMemory>
    ensures { IfOk result (λ declared. HaveSame declared.keys.items (keys_beside nodes.now (cut bytes.now).lines)) }
{
    let mut keys = keys_of(alloc, nodes)?;
    push_keys(alloc, &mut keys, bytes)?;
    set_of_keys(alloc, keys)
}

/// Returns the set of these names. Requires valid names.
pub(crate) fn set_of_names(alloc: Global, names: &[Name]) -> Result<Declared, NoMemory>
    requires { All IsName names.now }
    ensures { IfOk result (λ declared. IsTestOf (has_key declared.keys.items) names.now) }
{
    let mut keys = Vec::new(alloc);
    for name in names {
        keys.push(key(*name))?;
    }
    set_of_keys(alloc, keys)
}
