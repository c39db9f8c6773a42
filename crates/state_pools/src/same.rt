//! Whether two strings of bytes are the same.
ghost use Rattle.std.specs.Prelude.{◌≡◌};
ghost use Rattle.std.specs.Str.{bytes_eq};

/// Whether these bytes are the same. Eight stand in a register at once, so that an address costs a few instructions.
#[inline]
pub(crate) fn same(one: &[u8], other: &[u8]) -> bool
    ensures { result ≡ bytes_eq one.now other.now }
{
    let mut left = one;
    let mut right = other;
    while let Some((first, rest)) = left.split_first_chunk::<8>() {
        let Some((second, behind)) = right.split_first_chunk::<8>() else {
            return false;
        };
        if first != second {
            return false;
        }
        left = rest;
        right = behind;
    }
    left == right
}
