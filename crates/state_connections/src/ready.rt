//! The connections that are ready: an item is waiting in their outbox, or they are over.
ghost use Rattle.std.specs.Prelude.{◌≡◌, ◌==◌, ◌&&◌, nat_lt, ℕ, Bool, false, true, OnOk, if◌then◌else◌};
ghost use Rattle.state_connections.specs.Fits.{IsLeast};
ghost use Rattle.state_connections.specs.Noting.{is_noted};

use state_collections::NumberSet;
use std::alloc::{AllocError, Global};

/// The numbers of the connections that are ready.
#[derive(Drop)]
pub struct Ready {
    marks: NumberSet,
}

impl Ready {
    /// An empty set.
    pub fn new(alloc: Global) -> Ready
        ensures { (c : ℕ) → is_noted result c ≡ false }
    {
        Ready {
            marks: NumberSet::new(alloc),
        }
    }

    /// Notes whether a connection is ready.
    pub fn note(&mut self, conn: u64, ready: bool) -> Result<(), AllocError>
        ensures { OnOk result ((c : ℕ) → is_noted self.new c ≡ (if conn == c then ready else is_noted self.old c)) }
    {
        if ready {
            return self.marks.insert(conn);
        }
        self.marks.remove(conn);
        Ok(())
    }

    /// Whether a connection is ready.
    pub fn has(&self, conn: u64) -> bool
        ensures { result ≡ is_noted self.now conn }
    {
        self.marks.contains(conn)
    }

    /// The lowest ready connection above a number.
    pub fn after(&self, conn: u64) -> Option<u64>
        ensures { IsLeast (λ c. nat_lt conn c && is_noted self.now c) result }
    {
        self.marks.after(conn)
    }

    /// The lowest ready connection.
    pub fn first(&self) -> Option<u64>
        ensures { IsLeast (is_noted self.now) result }
    {
        self.marks.first()
    }
}
