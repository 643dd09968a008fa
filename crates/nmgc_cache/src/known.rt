//! The plain map of a mutator, by which it checks each value that it reads.
//!
//! For a key that the mutator owns it has the version written last; for another key, the last version that it read. Key K is
//! owned by the mutator whose number is K modulo the number of mutators. Easy to get wrong: of another's key each later version
//! passes, even one that was never written.
use crate::stamp::Stamp;
use nmgc_lists::NoMemory;
use std::alloc::Global;

/// The versions of all keys as a mutator knows them.
#[derive(Drop)]
pub struct Known {
    versions: Vec<u32>,
    mutator: u8,
    threads: u8,
    /// The number of values read and finalisers that the map excludes.
    pub wrong: u64,
}

/// Returns whether a mutator owns a key.
pub fn owns(key: u32, mutator: u8, threads: u8) -> bool {
    key % u32::from(threads.max(1)) == u32::from(mutator)
}

/// Returns a key near `key`, below `keys`, that a mutator owns. There is one if keys aren't fewer than mutators.
pub fn owned_near(key: u32, mutator: u8, threads: u8, keys: u32) -> u32 {
    let threads = u32::from(threads.max(1));
    let own = (key / threads)
        .saturating_mul(threads)
        .saturating_add(u32::from(mutator));
    if own < keys {
        own
    } else {
        own.saturating_sub(threads)
    }
}

impl Known {
    /// Makes the map of a mutator that knows of no version yet. Takes memory for a number for each key.
    pub fn new(alloc: Global, mutator: u8, threads: u8, keys: u32) -> Result<Self, NoMemory> {
        let mut versions = Vec::with_capacity(alloc, keys as usize)?;
        for _key in 0..keys {
            versions.push(0)?;
        }
        Ok(Known {
            versions,
            mutator,
            threads,
            wrong: 0,
        })
    }

    /// Returns whether the mutator owns a key.
    pub fn owns(&self, key: u32) -> bool {
        owns(key, self.mutator, self.threads)
    }

    /// Returns the known version of a key, and 0 if there is none.
    pub fn version(&self, key: u32) -> u32 {
        self.versions.get(key as usize).copied().unwrap_or(0)
    }

    // Notes the version of a key.
    fn note(&mut self, key: u32, version: u32) {
        if let Some(known) = self.versions.get_mut(key as usize) {
            *known = version;
        }
    }

    /// Notes that an own key is written once more, and returns the stamp of its new value.
    pub fn write(&mut self, key: u32) -> Stamp {
        let version = self.version(key).saturating_add(1);
        self.note(key, version);
        Stamp { key, version }
    }

    /// Checks the stamp that was read for a key, and notes its version. An own key has the version written last. Another key has
    /// the version read last, or a later one.
    pub fn read(&mut self, key: u32, found: Stamp) {
        let version = self.version(key);
        let is_right = if self.owns(key) {
            found.version == version
        } else {
            found.version >= version
        };
        if found.key == key && is_right && found.version > 0 {
            self.note(key, found.version);
        } else {
            self.wrong = self.wrong.saturating_add(1);
        }
    }

    /// Checks the finaliser of a value that died: the mutator made the value, so it owns the key, and wrote this version.
    pub fn evict(&mut self, found: Stamp) {
        if !self.owns(found.key) || found.version == 0 || found.version > self.version(found.key) {
            self.wrong = self.wrong.saturating_add(1);
        }
    }
}
