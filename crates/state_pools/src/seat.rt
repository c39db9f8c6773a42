//! Where a link is.
ghost use Rattle.std.specs.Prelude.{◌≡◌, false, IfNone, IfSome, IfOk};
ghost use Rattle.std.specs.Str.{bytes_eq};
ghost use Rattle.state_pools.specs.Digest.{digest_of};

use crate::digest::digest;
use crate::same::same;
use std::alloc::{AllocError, Global};

/// The address that a link is at, with its digest, so that a link that stays there has it computed once.
#[derive(Drop)]
pub(crate) struct Seat {
    pub(crate) address: Vec<u8>,
    pub(crate) digest: u64,
    ghost found: { digest ≡ digest_of address.items },
}

impl Seat {
    /// The seat at an address.
    pub(crate) fn new(alloc: Global, address: &[u8]) -> Result<Seat, AllocError>
        ensures { IfOk result (λ seat. seat.address.items ≡ address.now) }
    {
        let copy = address.to_vec(alloc)?;
        let digest = digest(copy.as_slice());
        Ok(Seat {
            address: copy,
            digest,
        })
    }

    /// The digest of the address, if the seat is at this one.
    #[inline]
    pub(crate) fn digest_at(&self, address: &[u8]) -> Option<u64>
        ensures there { IfSome result (λ digest. (self.now.address.items ≡ address.now) × (digest ≡ digest_of address.now)) }
        ensures elsewhere { IfNone result (bytes_eq self.now.address.items address.now ≡ false) }
    {
        if same(self.address.as_slice(), address) {
            return Some(self.digest);
        }
        None
    }
}
