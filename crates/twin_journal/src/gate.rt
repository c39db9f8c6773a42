//! The gate of a side, and the epoch behind it.
ghost use Rattle.std.specs.Prelude.{◌≡◌, IfSome, IfNone};
ghost use Rattle.disk_core.specs.Twin.{Contents};
ghost use Rattle.disk_core.specs.declared.side.Side.TheVariants.{First, Second};
ghost use Rattle.twin_journal.specs.Sides.{IsNoSide, IsActive, NoneActive, Says, is_open, newer_side};

use crate::numbers::number_8;
use disk_core::Side;

/// The first bytes of each side.
pub(crate) const MAGIC: [u8; 8] = *b"AMQRJ002";

/// The place of a side's gate, in bytes from the file's beginning.
pub(crate) const GATE: usize = 8;

/// What the first bytes of a side say of it.
#[derive(Clone, Copy, Debug)]
pub(crate) enum Gate {
    /// Its gate isn't open.
    Shut,
    /// It is, and this epoch follows it; none where the file ends before.
    Open(Option<u64>),
}

impl Gate {
    /// Whether it is open.
    pub(crate) fn is_open(self) -> bool
        ensures { result ≡ is_open self }
    {
        match self {
            Gate::Shut => false,
            Gate::Open(_) => true,
        }
    }
}

/// What the first bytes of a side say; none where it is no side of a journal.
pub(crate) fn gate_of(bytes: &[u8]) -> Option<Gate>
    ensures says { IfSome result (Says bytes.now) }
    ensures none { IfNone result (IsNoSide bytes.now) }
{
    if bytes.len() < 9 {
        return None;
    }
    let (head, behind) = bytes.split_at(8);
    if head != MAGIC.as_slice() {
        return None;
    }
    match behind {
        [1, inside @ ..] => match number_8(inside) {
            Some((epoch, _)) => Some(Gate::Open(Some(epoch))),
            None => Some(Gate::Open(None)),
        },
        _ => Some(Gate::Shut),
    }
}

/// The side with the higher one of two epochs.
fn newer_side(first: u64, second: u64) -> Option<Side>
    ensures { result ≡ newer_side first second }
{
    if first > second {
        return Some(Side::First);
    }
    if first < second {
        return Some(Side::Second);
    }
    None
}

/// The active side, by what the first bytes of both say: the one whose gate is open; of two, the one with the higher
/// epoch.
pub(crate) fn active_side(first: Gate, second: Gate) -> Option<Side>
    ensures some { IfSome result (λ side. (c : Contents) → Says (c First) first → Says (c Second) second → IsActive c side) }
    ensures none { IfNone result ((c : Contents) → Says (c First) first → Says (c Second) second → NoneActive c) }
{
    match (first, second) {
        (Gate::Open(_), Gate::Shut) => Some(Side::First),
        (Gate::Shut, Gate::Open(_)) => Some(Side::Second),
        (Gate::Open(Some(one)), Gate::Open(Some(two))) => newer_side(one, two),
        (Gate::Shut, Gate::Shut) => None,
        (Gate::Open(None), Gate::Open(_)) => None,
        (Gate::Open(Some(_)), Gate::Open(None)) => None,
    }
}
