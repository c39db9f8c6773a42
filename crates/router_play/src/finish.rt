//! The end of a run: what its router keeps, and how it failed.
ghost use Rattle.std.specs.Prelude.{◌≡◌};
ghost use Rattle.router_play.specs.Ending.{graver};

use router_core::CoreFault;

/// The size of a book, and the number of its journal's last batch.
#[derive(Clone, Copy)]
pub struct Size {
    /// The rows.
    pub rows: u64,
    /// The termini.
    pub termini: u64,
    /// The batches.
    pub batches: u64,
}

/// How a run ended.
#[derive(Drop)]
pub struct Ended<C: Drop> {
    /// The fault with which its router failed.
    pub failed: Option<CoreFault>,
    /// What its router keeps.
    pub size: Size,
    /// Its two files, as its stop left them.
    pub twin: C,
}

/// The fault with which routers failed, of those of two: want of memory if one had too little, else that of the first.
pub fn graver(one: Option<CoreFault>, other: Option<CoreFault>) -> Option<CoreFault>
    ensures { result ≡ graver one other }
{
    match (one, other) {
        (None, other) => other,
        (Some(fault), None) => Some(fault),
        (Some(_), Some(CoreFault::Memory)) => Some(CoreFault::Memory),
        (Some(fault), Some(_)) => Some(fault),
    }
}
