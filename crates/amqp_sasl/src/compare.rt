//! Comparing secrets without showing, byte by byte, how much of a guess is right.
ghost use Rattle.std.specs.Prelude.{◌≡◌, ◌↔◌, IsTrue, slice_get, unwrap_or};

/// Whether the two are the same bytes. All given bytes are looked at, even after one that differs and after
/// the end of those that are held, so that the time taken doesn't show how many are the same.
pub(crate) fn same_bytes(given: &[u8], held: &[u8]) -> bool
    ensures { IsTrue result ↔ (given.now ≡ held.now) }
{
    let mut same = given.len() == held.len();
    for place in 0..given.len() {
        same &= given[place] == byte_at(held, place);
    }
    same
}

/// The byte at this place, 0 after the end.
fn byte_at(bytes: &[u8], place: usize) -> u8
    ensures { result ≡ unwrap_or (slice_get bytes.now place) 0 }
{
    bytes.get(place).copied().unwrap_or(0)
}
