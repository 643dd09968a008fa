//! A value that only clauses read, chosen in a proof.
//!
//! A clause can say that some value exists; a program that goes on from there needs a name for that value. A witness is this
//! name, and has no bytes: `Witness::of` makes it from the fact alone that a value exists. So a caller that only knows that
//! the words represent some world can begin a round with that world as its opening.
ghost use Rattle.std.specs.Prelude.{◌≡◌};
ghost use base.Fml.{ftrue};

use std::marker::{Model, PhantomData};

/// The condition on a chosen value: `wanted` holds of it and the caller's argument.
pub trait WitnessFor<I, T> {
    ghost wanted: { I → T → Type 0 };
}

/// The name of a chosen value of type `T`, which only clauses read. It has no bytes.
pub struct Witness<T> {
    marker: PhantomData<T>,
    pub ghost value: { T },
}

impl<T> Model for Witness<T> {
    ghost also_owns = { λ _. ftrue };
}

impl<T> Witness<T> {
    /// Returns the name of a value, chosen in the proof, that `wanted` allows. There has to be one. Does nothing at run time.
    pub fn of<I, Q: WitnessFor<I, T>>(about: &I) -> Witness<T>
        requires { (x : T) × Q.wanted about.now x }
        ensures { Q.wanted about.now result.value }
    {
        let _ = about;
        Witness {
            marker: PhantomData,
        }
    }
}

// Drops nothing: a witness has no bytes.
impl<T> Drop for Witness<T> {
    fn drop(self) {
        let Self { marker: _ } = self;
    }
}

unsafe impl<T> Send for Witness<T> {}

unsafe impl<T> Sync for Witness<T> {}
