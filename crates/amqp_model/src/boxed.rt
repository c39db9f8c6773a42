//! A value in a box of its own: the large and rare parts of a performative stand in one, so that the frequent ones are small where they
//! are moved. A contract sees the value itself.
ghost use Rattle.std.specs.Prelude.{◌≡◌, IfOk};

use std::alloc::{AllocError, Global};
use std::marker::Model;

/// A value in a box of its own.
#[derive(Debug)]
pub struct Boxed<T> {
    value: Box<T>,
}

impl<T: Drop> Drop for Boxed<T> {
    /// Drops it by one call, where a derived drop is its steps at each exit of a function that holds one.
    fn drop(self) {
        let Boxed { value: _content } = self;
    }
}

impl<T> Model for Boxed<T> {
    ghost Value = { T };

    ghost view = { λ b. b.value.value };
}

impl<T> Boxed<T> {
    /// Puts a value into a box.
    ///
    /// # Errors
    ///
    /// `AllocError` where memory was refused; the value is dropped then.
    pub fn new(alloc: Global, value: T) -> Result<Boxed<T>, AllocError>
    where
        T: Drop,
        ensures { IfOk result (λ b. b ≡ value) }
    {
        match Box::new(alloc, value) {
            Ok(value) => Ok(Boxed { value }),
            Err(_failed) => Err(AllocError),
        }
    }

    /// The allocator of its box.
    pub fn alloc(&self) -> Global {
        *Box::allocator(&self.value)
    }

    /// The value.
    pub fn as_ref(&self) -> &T
        ensures { result.now ≡ self.now }
    {
        self.value.as_ref()
    }

    /// The value, taken out of its box.
    pub fn into_inner(self) -> T
        ensures { result ≡ self }
    {
        let Boxed { value } = self;
        Box::into_inner(value)
    }
}
