//! The barriers of a mutator: the objects that it pushes and the fields that it records as it writes.
//!
//! # Note [Why the deletion barrier is enough]
//!
//! The write barrier is a Yuasa-style deletion barrier, for marking from a snapshot at the beginning of the cycle. While a
//! cycle marks, a command *owes* the references that its step takes out of the marker's sight. Before the command ends, it
//! pushes those that refer to objects in segments (`push`, `push_words`). Owed are the old word of `set`, `cas` and
//! `pop_value`, and the free variables of a thunk to which `update` gives a result. The marker doesn't follow the fields of a
//! weak pointer. So `deref` owes the value that it reads, and `finalise` owes the weak pointer that it kills, with value and
//! finaliser. `owed_by` lists all (`specs/Reach.antt` of `nmgc_world_spec`).
//!
//! Then no object live at the snapshot is lost. The marker scans each marked object once. The target of each strong field of
//! the snapshot is marked, owed or pushed, or the field is unchanged and not scanned yet. In that case the field's object
//! isn't marked, or its scan is still to come. A command that changes the field owes the target; a scan marks it. Stops give
//! the marker all pushed references; a closing scans until nothing is queued. Mutators are stopped: nothing is owed. So a
//! marked object's strong fields have marked targets. The roots are marked, so all objects are that strong fields reach from
//! them. Resolving weak pointers marks the other live objects.
//!
//! New references need no push. A mutator gets references only from its registers and queue, and fields of objects that it
//! holds. So the objects to which they lead are live in the snapshot, or were made since and are kept. Hence only objects
//! live in the snapshot are marked, until weak pointers are resolved: marking is exact. (Reading or finalising a weak pointer
//! makes more of the snapshot live.) `nmgc_core/src/core_machine.rt` argues this, `nmgc_snapshot_laws` proves it.
//!
//! A Dijkstra-style insertion barrier pushes the new word of each store, so no scanned field refers to an unmarked object. It
//! may free an object in the cycle in which it became garbage. But a load into a register is no store, and the field may be
//! overwritten before its scan. So a closing would have to scan registers again. Here only a cycle's start does.
//!
//! The word is taken out by one step of the round, a swap or an exchange, whose answer shows the very word that it replaced.
//! So of several mutators that write one field, each owes the word that its own step replaced, and none is missed, however
//! late it is pushed. Marking begins and ends only at stops, so no mutator can miss that, and no handshake is needed.
//!
//! The barrier doesn't look whether an object is marked, and takes no memory: `Mutator::reserve` makes room before a round.
//!
//! # Promotion
//!
//! The other barrier is the usual one of a generational heap, for references from segments into nurseries. A field in a
//! segment that was given a nursery object is recorded (`record`, called by `set`, `cas`, `update` and `push_value`), since a
//! promotion doesn't look through the segments. A finalised weak pointer in a segment is noted (`note_finalised`), since a
//! stop doesn't look through the list of weak pointers that are alive.
//!
//! Easy to get wrong: the barrier pushes the old word, and records the field of the new one.
ghost use Rattle.std.specs.Prelude.{◌≡◌, ◌++◌, ◌+◌, ◌*◌, ◌-◌, ◌^◌, ◌<◌, length, Some, ◌≤◌};
ghost use Rattle.nmgc_round.specs.{View.owed_word, Owing.owed_words};
ghost use Rattle.nmgc_mutator.specs.{Ready.IsWhole, Records.numbers, Records.is_young, Records.is_old, Records.recorded_at, Records.pushed_at, Records.all_pushed, Does.with_recorded, Does.with_finalised, Does.with_updrem};
ghost use Rattle.nmgc_object.specs.declared.size.TheConstants.{HEADER_WORDS};

use crate::mutator::Mutator;
use nmgc_object::{Address, FIRST_PLACE, FieldWord, HEADER_WORDS};

impl Mutator {
    // Whether a word refers to an object in a nursery.
    fn is_young(&self, word: u64) -> bool
        requires { IsWhole self.now }
        ensures { result ≡ is_young self.now.layout word }
    {
        let Some(at) = FieldWord(word).place() else {
            return false;
        };
        u64::from(self.layout.nursery_base(0)) <= at
    }

    // Whether an address is in a segment.
    fn is_old(&self, at: u64) -> bool
        requires { IsWhole self.now }
        ensures { result ≡ is_old self.now.layout (2 * at) }
    {
        let base = u64::from(self.layout.nursery_base(0));
        at >= u64::from(FIRST_PLACE) && at < base
    }

    // Records a field that was given `word`, if the field's object is in a segment and `word` refers to a nursery object.
    pub(crate) fn record(&mut self, at: Address, index: u32, word: u64)
        requires one { IsWhole self.old }
        requires place { at.0 + HEADER_WORDS + index < 2 ^ 32 }
        requires room { 0 < self.old.recorded.spare }
        ensures rest { self.new ≡ with_recorded self.old self.new.recorded }
        ensures recorded { numbers self.new.recorded.items ≡ numbers self.old.recorded.items ++ recorded_at self.old.layout (2 * at.0) index word }
        ensures room { self.old.recorded.spare ≤ self.new.recorded.spare + 1 }
    {
        if self.is_old(u64::from(at.0)) && self.is_young(word) {
            self.recorded.add(Address(at.0 + HEADER_WORDS + index));
        }
    }

    // Notes a finalised weak pointer, if it is in a segment.
    #[inline(always)]
    pub(crate) fn note_finalised(&mut self, at: Address)
        requires one { IsWhole self.old }
        requires room { 0 < self.old.finalised.spare }
        ensures rest { self.new ≡ with_finalised self.old self.new.finalised }
        ensures noted { numbers self.new.finalised.items ≡ numbers self.old.finalised.items ++ pushed_at self.old.layout (2 * at.0) }
        ensures room { self.old.finalised.spare ≤ self.new.finalised.spare + 1 }
    {
        if self.is_old(u64::from(at.0)) {
            self.finalised.add(at);
        }
    }

    // Pushes an owed word that refers to a segment, if the round is marking: Note [Why the deletion barrier is enough].
    pub(crate) fn push(&mut self, marking: bool, word: u64)
        requires one { IsWhole self.old }
        requires room { 0 < self.old.updrem.spare }
        ensures rest { self.new ≡ with_updrem self.old self.new.updrem }
        ensures pushed { numbers self.new.updrem.items ≡ numbers self.old.updrem.items ++ all_pushed self.old.layout (owed_word marking word) }
        ensures room { self.old.updrem.spare ≤ self.new.updrem.spare + 1 }
    {
        if !marking {
            return;
        }
        let Some(at) = FieldWord(word).place() else {
            return;
        };
        if self.is_old(at) {
            self.updrem.push(Address(at as u32));
        }
    }

    // Pushes the owed words that refer to objects in segments, if the round is marking.
    pub(crate) fn push_words(&mut self, marking: bool, words: &[u64])
        requires one { IsWhole self.old }
        requires room { length words.now ≤ self.old.updrem.spare }
        ensures rest { self.new ≡ with_updrem self.old self.new.updrem }
        ensures pushed { numbers self.new.updrem.items ≡ numbers self.old.updrem.items ++ all_pushed self.old.layout (owed_words marking words.now) }
        ensures room { self.old.updrem.spare ≤ self.new.updrem.spare + length words.now }
    {
        for word in words {
            self.push(marking, *word);
        }
    }
}
