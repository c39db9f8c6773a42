//! How far the item at the front of some bytes goes.
ghost use Rattle.std.specs.Prelude.{◌≡◌};
ghost use Rattle.amqp_frames.specs.Extents.{extent, sized};

use amqp_model::FrameFault;

/// The bytes of a protocol header, and the fewest that a frame has (AMQP 1.0 part 2, sections 2.2 and 2.3.1).
pub(crate) const MIN_SIZE: usize = 8;

/// The most bytes that a frame has here.
const MAX_FRAME_SIZE: usize = 16_384;

/// The most bytes that a SASL frame has (AMQP 1.0 part 5, section 5.3.1).
const MAX_SASL_FRAME_SIZE: usize = 512;

/// How far the item at the front of some bytes goes, as far as the bytes show it.
#[derive(Clone, Copy, Debug, PartialEq, Eq)]
pub(crate) enum Extent {
    /// Too few bytes have come.
    Unknown,
    /// The item has this many bytes, where they have come.
    Whole(usize),
    /// These bytes begin no item.
    Wrong(FrameFault),
}

/// How far the item at the front of these bytes goes. It looks at six bytes at most.
#[tactic(auto, using(crate::proofs::Sizes::unknown_short, crate::proofs::Sizes::extent_of_header))]
pub(crate) fn extent_of(bytes: &[u8]) -> Extent
    ensures { result ≡ extent bytes.now }
{
    let [a, b, c, d, rest @ ..] = bytes else {
        return Extent::Unknown;
    };
    let front = [*a, *b, *c, *d];
    if front == *b"AMQP" {
        return Extent::Whole(MIN_SIZE);
    }
    extent_of_frame(u32::from_be_bytes(front) as usize, rest)
}

/// How far a frame with this size goes, where these bytes follow the size.
fn extent_of_frame(size: usize, rest: &[u8]) -> Extent
    ensures { result ≡ sized size rest.now }
{
    if size < MIN_SIZE {
        return Extent::Wrong(FrameFault::TooSmall);
    }
    if size > MAX_FRAME_SIZE {
        return Extent::Wrong(FrameFault::TooLarge);
    }
    match rest {
        [] => Extent::Unknown,
        [offset, ..] if *offset < 2 || 4 * (*offset as usize) > size => Extent::Wrong(
            FrameFault::BadOffset,
        ),
        [_] => Extent::Unknown,
        [_, kind, ..] if *kind > 1 => Extent::Wrong(FrameFault::BadType),
        [_, 1, ..] if size > MAX_SASL_FRAME_SIZE => Extent::Wrong(FrameFault::TooLarge),
        _ => Extent::Whole(size),
    }
}
