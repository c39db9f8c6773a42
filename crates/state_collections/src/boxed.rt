//! A value in a box of its own, for tables whose entries would be large where they are moved. A contract sees the value itself.
ghost use Rattle.std.specs.Prelude.{◌≡◌, IfOk};
ghost use Rattle.std.specs.Borrow.{Lends, sem};
ghost use Rattle.state_collections.specs.contracts.boxed.Boxed.{the_row};

use std::alloc::{AllocError, Global};
use std::marker::Model;

/// A value in a box of its own.
pub struct Boxed<T> {
    value: Box<T>,
}

impl<T: Drop> Drop for Boxed<T> {
    /// Drops it by one call, where a derived drop is its steps at each exit of a function that holds one.
    fn drop(self) {
        let Boxed { value: _content } = self;
    }
}

impl<T> Model for Boxed<T> {
    ghost use Rattle.std.specs.Prelude.{◌≡◌};

    ghost Value = { T };

    ghost view = { λ k. k.value.value };
}

impl<T> Boxed<T> {
    /// Puts a value into a box. Fails if memory is refused; the value is dropped then.
    pub fn new(alloc: Global, value: T) -> Result<Boxed<T>, AllocError>
    where
        T: Drop,
        ensures { IfOk result (λ k. k ≡ value) }
    {
        match Box::new(alloc, value) {
            Ok(value) => Ok(Boxed { value }),
            Err(_failed) => Err(AllocError),
        }
    }

    /// The value.
    pub fn as_ref(&self) -> &T
        ensures { result.now ≡ self.now }
    {
        self.value.as_ref()
    }

    /// The value, to change it in its place.
    pub fn as_mut(&mut self) -> &mut T
        ensures* lends { sem 𝓛 (Lends (the_row T.row) T.row self.entry result (λ w. w)) }
        ensures value { result.now ≡ self.old }
    {
        self.value.as_mut()
    }
}
