//! A value that only contracts read. It has no bytes, takes no memory, and nothing runs because of it.
//!
//! **[`GhostValue::of`] makes the value that a real one denotes.** An object that stands for more than it
//! keeps, as an account store stands for the whole history of its calls, keeps that history as such a
//! value, and its invariant ties what it really keeps to it. Nothing stands below this crate.
#![tactic(auto)]

ghost use Rattle.std.specs.Prelude.{◌≡◌};
ghost use base.Fml.{ftrue};

use std::marker::{Model, PhantomData};

/// A `T` as contracts see it. Only clauses tie it to anything, so a type that holds one says in its
/// invariant what its value has to do with the rest.
pub struct GhostValue<T> {
    marker: PhantomData<T>,
    pub ghost value: { T },
}

impl<T> Model for GhostValue<T> {
    ghost also_owns = { λ _. ftrue };
}

/// A type whose values each denote a `T`.
pub trait Denotes<T> {
    ghost denoted: { Self → T };
}

impl<T> GhostValue<T> {
    /// What `about` denotes.
    pub fn of<X: Denotes<T>>(about: &X) -> GhostValue<T>
        ensures { result.value ≡ X.denoted about.now }
    {
        let _ = about;
        GhostValue {
            marker: PhantomData,
        }
    }
}

unsafe impl<T> Send for GhostValue<T> {}

unsafe impl<T> Sync for GhostValue<T> {}

impl<T> Drop for GhostValue<T> {
    fn drop(self) {
        let Self { marker: _ } = self;
    }
}
