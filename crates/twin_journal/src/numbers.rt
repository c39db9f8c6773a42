//! Numbers as bytes, the highest byte first.
ghost use Rattle.std.specs.Prelude.{◌≡◌, ◌++◌, ◌<◌, ◌≤◌, ◌^◌, ℕ, List, length, OnOk, IfSome, IfNone};
ghost use Rattle.journal_codec.specs.Format.{in_4, in_8};
ghost use Rattle.twin_journal.specs.Format.{largest};

use std::alloc::AllocError;

/// The largest number that is read in a head.
pub(crate) const LARGEST: u64 = 1 << 62;

#[tactic(auto, using(crate::proofs::Spelled::in_4_is))]
pub(crate) fn put_4(out: &mut Vec<u8>, number: u32) -> Result<(), AllocError>
    ensures { OnOk result (out.new.items ≡ out.old.items ++ in_4 number) }
{
    out.extend_from_slice(&number.to_be_bytes())
}

#[tactic(auto, using(crate::proofs::Spelled::in_8_is))]
pub(crate) fn put_8(out: &mut Vec<u8>, number: u64) -> Result<(), AllocError>
    ensures { OnOk result (out.new.items ≡ out.old.items ++ in_8 number) }
{
    out.extend_from_slice(&number.to_be_bytes())
}

/// The number of four bytes at the front, and what follows it.
pub(crate) fn number_4(bytes: &[u8]) -> Option<(u32, &[u8])>
    ensures some { IfSome result (λ x. bytes.now ≡ in_4 x.0 ++ x.1.now) }
    ensures fits { IfSome result (λ x. x.0 < 2 ^ 32) }
    ensures none { IfNone result (length bytes.now < 4) }
{
    match bytes.split_first_chunk::<4>() {
        None => None,
        Some((field, rest)) => Some((u32::from_be_bytes(*field), rest)),
    }
}

/// The number of eight bytes at the front, and what follows it.
pub(crate) fn number_8(bytes: &[u8]) -> Option<(u64, &[u8])>
    ensures some { IfSome result (λ x. bytes.now ≡ in_8 x.0 ++ x.1.now) }
    ensures fits { IfSome result (λ x. x.0 < 2 ^ 64) }
    ensures none { IfNone result (length bytes.now < 8) }
{
    match bytes.split_first_chunk::<8>() {
        None => None,
        Some((field, rest)) => Some((u64::from_be_bytes(*field), rest)),
    }
}

/// A number of at most 2^62 at the front, and what follows it.
pub(crate) fn small_number(bytes: &[u8]) -> Option<(u64, &[u8])>
    ensures some { IfSome result (λ x. bytes.now ≡ in_8 x.0 ++ x.1.now) }
    ensures small { IfSome result (λ x. x.0 ≤ largest) }
    ensures none { IfNone result ((n : ℕ) (rest : List ℕ) → n ≤ largest → bytes.now ≡ in_8 n ++ rest → ⊥) }
{
    match number_8(bytes) {
        None => None,
        Some((number, rest)) => {
            if number > LARGEST {
                return None;
            }
            Some((number, rest))
        }
    }
}
