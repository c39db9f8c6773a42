//! Passing over values: the same faults as reading them, without allocation.

ghost use Rattle.std.specs.Prelude.{◌≡◌, ◌≤◌, ◌++◌, List, ℕ, Result, length, take, IfOk};
ghost use Rattle.amqp_types.specs.Spells.{Spells};
ghost use Rattle.amqp_model.specs.Data.{Data};
ghost use Rattle.amqp_model.specs.declared.type_fault.TypeFault.{TypeFault};
ghost use Rattle.amqp_types.specs.Reading.{Same, after, behind, whole, length_of, value_at, body_at, value_by, one_by, items_at, pair_at, pairs_at, list_in, map_in, array_in, described_at};

use crate::decoder::{MOST_LEVELS, kind_of_elements};
use crate::reader::{code_of, leaf_of, size_of, sized_of};
use amqp_model::{Code, Size, TypeFault};

/// How many bytes encode the value at the front: the length and the faults of `decode`, without
/// allocation.
pub fn skip(bytes: &[u8]) -> Result<usize, TypeFault>
    // What is passed over is a value.
    ensures found { IfOk result (λ n. (v : Data) × Spells 32 (take n bytes.now) v) }
    ensures bounded { IfOk result (λ n. n ≤ length bytes.now) }

    // What encodes a value is passed over, whatever follows.
    ensures only { (v : Data) (text rest : List ℕ) → bytes.now ≡ text ++ rest → Spells 32 text v → result ≡ Ok (length text) }

    // Which length, or which fault.
    ensures exact { Same (λ n. n) result (length_of bytes.now (value_at 32 bytes.now)) }
{
    skip_counted(bytes)
}

fn skip_counted(bytes: &[u8]) -> Result<usize, TypeFault>
    ensures { Same (λ n. n) result (length_of bytes.now (value_at 32 bytes.now)) }
{
    let rest = skip_at(MOST_LEVELS, bytes)?;
    Ok(bytes.len().saturating_sub(rest.len()))
}

/// The bytes after the value at the front, with at most `depth` levels of nesting:
/// the value itself is the first of them.
#[cycle(pass)]
#[tactic(auto, using(crate::proofs::Passing::after_value_by), unfolding(crate::specs::Reading::value_at))]
pub fn skip_at(depth: u32, bytes: &[u8]) -> Result<&[u8], TypeFault>
    ensures { Same (λ x. x.now) result (after (value_at depth bytes.now)) }
{
    let (code, rest) = code_of(bytes)?;
    pass_body(depth, code, rest)
}

/// The bytes after what follows a constructor.
#[cycle(pass)]
#[tactic(auto, using(crate::proofs::Passing::after_body_at), unfolding(crate::specs::Reading::body_at))]
pub(crate) fn pass_body(depth: u32, code: Code, bytes: &[u8]) -> Result<&[u8], TypeFault>
    ensures { Same (λ x. x.now) result (after (body_at depth code bytes.now)) }
{
    if depth == 0 {
        return Err(TypeFault::TooDeep);
    }
    let depth = depth - 1;
    match code {
        Code::Leaf(leaf) => {
            let (_, rest) = leaf_of(leaf, bytes)?;
            Ok(rest)
        }
        Code::EmptyList => Ok(bytes),
        Code::List(size) => {
            let (inside, rest) = sized_of(size, bytes)?;
            all_passed(pass_list(depth, size, inside), rest)
        }
        Code::Map(size) => {
            let (inside, rest) = sized_of(size, bytes)?;
            all_passed(pass_map(depth, size, inside), rest)
        }
        Code::Array(size) => {
            let (inside, rest) = sized_of(size, bytes)?;
            all_passed(pass_array(depth, size, inside), rest)
        }
        Code::Described => pass_described(depth, bytes),
    }
}

#[cycle(pass)]
#[tactic(auto, unfolding(crate::specs::Reading::value_at))]
fn pass_one(depth: u32, element: Option<Code>, bytes: &[u8]) -> Result<&[u8], TypeFault>
    ensures { Same (λ x. x.now) result (after (one_by (body_at depth) element bytes.now)) }
{
    match element {
        None => skip_at(depth, bytes),
        Some(code) => pass_body(depth, code, bytes),
    }
}

#[cycle(pass)]
fn pass_items(
    depth: u32,
    element: Option<Code>,
    count: u32,
    bytes: &[u8],
) -> Result<&[u8], TypeFault>
    ensures { Same (λ x. x.now) result (after (items_at (one_by (body_at depth) element) count bytes.now)) }
{
    let mut rest = bytes;
    for _ in 0..count {
        rest = pass_one(depth, element, rest)?;
    }
    Ok(rest)
}

#[cycle(pass)]
#[tactic(auto, using(crate::proofs::Passing::after_pair_at), unfolding(crate::specs::Reading::value_at))]
fn pass_pair(depth: u32, bytes: &[u8]) -> Result<&[u8], TypeFault>
    ensures { Same (λ x. x.now) result (after (pair_at (value_by (body_at depth)) bytes.now)) }
{
    let rest = skip_at(depth, bytes)?;
    skip_at(depth, rest)
}

#[cycle(pass)]
fn pass_pairs(depth: u32, count: u32, bytes: &[u8]) -> Result<&[u8], TypeFault>
    ensures { Same (λ x. x.now) result (after (pairs_at (value_by (body_at depth)) count bytes.now)) }
{
    let mut rest = bytes;
    for _ in 0..count {
        rest = pass_pair(depth, rest)?;
    }
    Ok(rest)
}

#[cycle(pass)]
#[tactic(auto, using(crate::proofs::Passing::after_list_in))]
fn pass_list(depth: u32, size: Size, inside: &[u8]) -> Result<&[u8], TypeFault>
    ensures { Same (λ x. x.now) result (after (list_in (body_at depth) size inside.now)) }
{
    let (count, rest) = size_of(size, inside)?;
    pass_items(depth, None, count, rest)
}

#[cycle(pass)]
#[tactic(auto, using(crate::proofs::Passing::after_map_in))]
fn pass_map(depth: u32, size: Size, inside: &[u8]) -> Result<&[u8], TypeFault>
    ensures { Same (λ x. x.now) result (after (map_in (body_at depth) size inside.now)) }
{
    let (count, rest) = size_of(size, inside)?;
    if count % 2 == 1 {
        return Err(TypeFault::OddMap);
    }
    pass_pairs(depth, count / 2, rest)
}

#[cycle(pass)]
#[tactic(auto, using(crate::proofs::Passing::after_array_in))]
fn pass_array(depth: u32, size: Size, inside: &[u8]) -> Result<&[u8], TypeFault>
    ensures { Same (λ x. x.now) result (after (array_in (body_at depth) size inside.now)) }
{
    let (count, rest) = size_of(size, inside)?;
    let (element, rest) = code_of(rest)?;
    kind_of_elements(count, element)?;
    pass_items(depth, Some(element), count, rest)
}

#[cycle(pass)]
#[tactic(auto, using(crate::proofs::Passing::after_described_at), unfolding(crate::specs::Reading::value_at))]
fn pass_described(depth: u32, bytes: &[u8]) -> Result<&[u8], TypeFault>
    ensures { Same (λ x. x.now) result (after (described_at (body_at depth) bytes.now)) }
{
    let rest = skip_at(depth, bytes)?;
    skip_at(depth, rest)
}

/// What follows a list, a map or an array, where all of its inside was passed over.
#[tactic(auto, unfolding(crate::specs::Reading::whole))]
fn all_passed<'a>(passed: Result<&[u8], TypeFault>, rest: &'a [u8]) -> Result<&'a [u8], TypeFault>
    ensures { (all : Result (Data × List ℕ) TypeFault)
        → Same (λ x. x.now) passed.entry (after all)
        → Same (λ x. x.now) result (behind (whole all) rest.now) }
{
    match passed {
        Err(fault) => Err(fault.inside()),
        Ok([]) => Ok(rest),
        Ok(_) => Err(TypeFault::SizeMismatch),
    }
}
