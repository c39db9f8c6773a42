//! A record that clauses read and that needs no memory: a ghost list of what was done.
ghost use Rattle.std.specs.Prelude.{◌≡◌, List, [], ◌∷◌};
ghost use Rattle.std.specs.Borrow.{ftrue};
ghost use Rattle.disk_core.specs.Note.{Note, note_of};

use std::marker::{Model, PhantomData};

/// What was done, as the first number of a note.
pub(crate) const WROTE: u64 = 0;

pub(crate) const SHORTENED: u64 = 1;

pub(crate) const BEGAN_WRITE: u64 = 2;

pub(crate) const BEGAN_CUT: u64 = 3;

pub(crate) const SYNCED: u64 = 4;

#[derive(Drop)]
pub(crate) struct Record {
    marker: PhantomData<u8>,
    pub ghost notes: { List Note },
}

impl Model for Record {
    ghost also_owns = { λ _. ftrue };
}

// It owns nothing.
unsafe impl Send for Record {}

impl Record {
    pub(crate) fn new() -> Record
        ensures { result.notes ≡ [] }
    {
        Record {
            marker: PhantomData,
        }
    }

    /// The numbers are what was done and its place or length.
    pub(crate) fn note(&mut self, _numbers: &[u64], _bytes: &[u8])
        ensures { self.new.notes ≡ note_of _numbers.now _bytes.now ∷ self.old.notes }
    {}
}
