//! A value that only clauses read: an end of a ring as it was when both ends were last found level (`ring`).
//!
//! Easy to get wrong: the library has such a type too, its snapshot. But a type with a snapshot and an end of a ring isn't
//! found to be `Send`, since the snapshot's proof isn't filed with its type. A mutator moves to a thread.
ghost use Rattle.std.specs.Prelude.{◌≡◌};
ghost use base.Fml.{ftrue};

use std::marker::{Model, PhantomData};

/// A `T` as clauses saw it at some moment. It has no bytes, and may go to any thread.
pub(crate) struct Level<T> {
    marker: PhantomData<T>,
    pub ghost value: { T },
}

impl<T> Model for Level<T> {
    ghost also_owns = { λ _. ftrue };
}

impl<T> Level<T> {
    /// Returns a `Level` without bytes. Its `value`, which only clauses read, is the value to which `x` refers now.
    pub(crate) fn of(x: &T) -> Level<T>
        ensures { result.value ≡ x.now }
    {
        let _ = x;
        Level {
            marker: PhantomData,
        }
    }
}

// Drops nothing: a level has no bytes.
impl<T> Drop for Level<T> {
    fn drop(self) {
        let Self { marker: _ } = self;
    }
}

unsafe impl<T> Send for Level<T> {}

unsafe impl<T> Sync for Level<T> {}
