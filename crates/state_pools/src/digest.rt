//! The digest of an address, by which it is found.
ghost use Rattle.std.specs.Prelude.{◌≡◌};
ghost use Rattle.state_pools.specs.Digest.{digest_of};

/// A number of an address: FNV-1a, of 64 bits. Few addresses have the same one, unless somebody chose them so.
#[inline]
pub(crate) fn digest(address: &[u8]) -> u64
    ensures { result ≡ digest_of address.now }
{
    let mut digest: u64 = 0xcbf29ce484222325;
    for byte in address {
        digest ^= u64::from(*byte);
        digest = digest.wrapping_mul(0x100000001b3);
    }
    digest
}
