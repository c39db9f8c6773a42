//! Where a journal's memory comes from, and a buffer that is kept from one checkpoint to the next.
ghost use Rattle.std.specs.Prelude.{◌≡◌, ◌+◌, ◌≤◌, [], vec_capacity, IfOk};

use std::alloc::{AllocError, Global};
use std::marker::Model;
use std::mem;

/// An allocator, with a buffer for the bytes of a checkpoint. Contracts see the allocator alone, so what the buffer
/// holds changes no promise.
#[derive(Drop)]
pub(crate) struct Scratch {
    alloc: Global,
    bytes: Vec<u8>,
}

impl Model for Scratch {
    ghost use Rattle.std.specs.Global.{Global};

    ghost Value = { Global };

    ghost view = { λ s. s.alloc };
}

impl Scratch {
    /// One whose buffer has no memory yet.
    pub(crate) fn new(alloc: Global) -> Scratch {
        Scratch {
            alloc,
            bytes: Vec::new(alloc),
        }
    }

    /// Its allocator.
    pub(crate) fn alloc(&self) -> Global
        ensures { result ≡ self.now }
    {
        self.alloc
    }

    /// Takes the buffer, with nothing in it and room for so many bytes, and no more than twice as many: a larger one is
    /// given back, and a new one is made.
    pub(crate) fn take(&mut self, room: usize) -> Result<Vec<u8>, AllocError>
        ensures empty { IfOk result (λ v. v.items ≡ []) }
        ensures room { IfOk result (λ v. room ≤ vec_capacity v) }
        ensures small { IfOk result (λ v. vec_capacity v ≤ room + room + 1) }
    {
        let mut bytes = mem::replace(&mut self.bytes, Vec::new(self.alloc));
        bytes.clear();
        if bytes.capacity() / 2 > room {
            bytes.shrink_to(0);
        }
        bytes.reserve_exact(room)?;
        Ok(bytes)
    }

    /// Keeps a buffer.
    pub(crate) fn keep(&mut self, bytes: Vec<u8>) {
        self.bytes = bytes;
    }
}
