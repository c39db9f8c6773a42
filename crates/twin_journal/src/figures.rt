//! The figures of a journal.
ghost use Rattle.std.specs.Prelude.{◌≡◌, ◌+◌, IfSome};

use disk_core::Side;

/// The figures of a journal.
#[derive(Clone, Copy, Debug)]
pub(crate) struct Figures {
    /// The active side.
    pub(crate) side: Side,
    /// Its epoch.
    pub(crate) epoch: u64,
    /// The number of the last batch in its checkpoint.
    pub(crate) base: u64,
    /// The bytes of its checkpoint.
    pub(crate) size: usize,
    /// The place of the gate that ends the journal, in bytes from the beginning of the active side.
    pub(crate) place: usize,
    /// The number of the last batch.
    pub(crate) last: u64,
    /// Whether the gate of the idle side is open.
    pub(crate) idle_open: bool,
}

/// What a journal knows of the needs of its book.
#[derive(Clone, Copy, Debug)]
pub(crate) struct Needs {
    /// The bytes that are kept free for it.
    pub(crate) reserve: u64,
    /// The most bytes that a checkpoint of it has.
    pub(crate) size: u64,
}

impl Figures {
    /// The figures with one more batch, which has this many bytes from its length up to and with the gate after it;
    /// none where a number is too large for its type.
    pub(crate) fn longer(self, bytes: usize) -> Option<Figures>
        ensures { IfSome result (λ new. new ≡ record self { place = self.place + bytes; last = self.last + 1 }) }
    {
        Some(Figures {
            place: self.place.checked_add(bytes)?,
            last: self.last.checked_add(1)?,
            ..self
        })
    }
}
