//! Decoding values.

ghost use Rattle.std.specs.Prelude.{◌≡◌, ◌≤◌, ◌++◌, List, ℕ, Result, length, take, IfOk};
ghost use Rattle.amqp_types.specs.Spells.{Spells};
ghost use Rattle.amqp_model.specs.Codes.{kind_of};
ghost use Rattle.amqp_model.specs.Data.{Data};
ghost use Rattle.amqp_model.specs.View.{view, items_view, pairs_view};
ghost use Rattle.amqp_model.specs.declared.type_fault.TypeFault.{TypeFault};
ghost use Rattle.amqp_types.specs.Reading.{Gives, Same, element_kind, whole, found_at, measured, value_at, body_at, value_by, one_by, items_at, pair_at, pairs_at, list_in, map_in, array_in, described_at};

use crate::reader::{code_of, leaf_of, size_of, sized_of};
use amqp_model::{Code, Kind, Size, TypeFault, Value};
use std::alloc::Global;

/// The most elements without bytes that an array may have.
const MOST_EMPTY_ELEMENTS: u32 = 1024;

/// The deepest nesting of values: a value is in at most 31 others.
pub const MOST_LEVELS: u32 = 32;

/// The value at the front of the bytes, and how many bytes encode it.
///
/// Errors: the first fault from the front where no prefix of the bytes encodes a value, or
/// `TypeFault::Memory`.
pub fn decode(alloc: Global, bytes: &[u8]) -> Result<(Value, usize), TypeFault>
    // What is read is encoded by these bytes.
    ensures found { IfOk result (λ x. Spells 32 (take x.1 bytes.now) (view x.0)) }
    ensures bounded { IfOk result (λ x. x.1 ≤ length bytes.now) }

    // What is encoded this way is read, whatever follows, unless memory runs out.
    ensures only { (v : Data) (text rest : List ℕ) → bytes.now ≡ text ++ rest → Spells 32 text v
        → Gives (λ x. (view x.0, x.1)) result (found_at v (length text)) }

    // Which value and length, or which fault.
    ensures exact { Gives (λ x. (view x.0, x.1)) result (measured bytes.now (value_at 32 bytes.now)) }
{
    decode_counted(alloc, bytes)
}

fn decode_counted(alloc: Global, bytes: &[u8]) -> Result<(Value, usize), TypeFault>
    ensures { Gives (λ x. (view x.0, x.1)) result (measured bytes.now (value_at 32 bytes.now)) }
{
    let (value, rest) = value_of(alloc, MOST_LEVELS, bytes)?;
    Ok((value, bytes.len().saturating_sub(rest.len())))
}

/// The value at the front of the bytes, and the bytes after it, with at most `depth` levels of
/// nesting: the value itself is the first of them.
#[cycle(read)]
#[tactic(auto, unfolding(crate::specs::Reading::value_at))]
pub fn value_of(alloc: Global, depth: u32, bytes: &[u8]) -> Result<(Value, &[u8]), TypeFault>
    ensures { Gives (λ x. (view x.0, x.1.now)) result (value_at depth bytes.now) }
{
    let (code, rest) = code_of(bytes)?;
    body_of(alloc, depth, code, rest)
}

#[cycle(read)]
#[tactic(auto, using(crate::proofs::Loops::body_at_deeper), unfolding(crate::specs::Reading::body_at))]
fn body_of(alloc: Global, depth: u32, code: Code, bytes: &[u8]) -> Result<(Value, &[u8]), TypeFault>
    ensures { Gives (λ x. (view x.0, x.1.now)) result (body_at depth code bytes.now) }
{
    if depth == 0 {
        return Err(TypeFault::TooDeep);
    }
    let depth = depth - 1;
    match code {
        Code::Leaf(leaf) => {
            let (plain, rest) = leaf_of(leaf, bytes)?;
            Ok((plain.to_value(alloc)?, rest))
        }
        Code::EmptyList => Ok((Value::List(Vec::new(alloc)), bytes)),
        Code::List(size) => {
            let (inside, rest) = sized_of(size, bytes)?;
            Ok((finished(list_of(alloc, depth, size, inside))?, rest))
        }
        Code::Map(size) => {
            let (inside, rest) = sized_of(size, bytes)?;
            Ok((finished(map_of(alloc, depth, size, inside))?, rest))
        }
        Code::Array(size) => {
            let (inside, rest) = sized_of(size, bytes)?;
            Ok((finished(array_of(alloc, depth, size, inside))?, rest))
        }
        Code::Described => described_of(alloc, depth, bytes),
    }
}

/// A value after the one constructor of an array's elements, or after its own.
#[cycle(read)]
#[tactic(auto, unfolding(crate::specs::Reading::value_at))]
fn one_of(
    alloc: Global,
    depth: u32,
    element: Option<Code>,
    bytes: &[u8],
) -> Result<(Value, &[u8]), TypeFault>
    ensures { Gives (λ x. (view x.0, x.1.now)) result (one_by (body_at depth) element bytes.now) }
{
    match element {
        None => value_of(alloc, depth, bytes),
        Some(code) => body_of(alloc, depth, code, bytes),
    }
}

#[cycle(read)]
fn items_of(
    alloc: Global,
    depth: u32,
    element: Option<Code>,
    count: u32,
    bytes: &[u8],
) -> Result<(Vec<Value>, &[u8]), TypeFault>
    ensures { Gives (λ x. (items_view x.0.items, x.1.now)) result (items_at (one_by (body_at depth) element) count bytes.now) }
{
    let mut items = Vec::new(alloc);
    let mut rest = bytes;
    for _ in 0..count {
        let (value, behind) = one_of(alloc, depth, element, rest)?;
        items.push(value)?;
        rest = behind;
    }
    Ok((items, rest))
}

#[cycle(read)]
fn pairs_of(
    alloc: Global,
    depth: u32,
    count: u32,
    bytes: &[u8],
) -> Result<(Vec<(Value, Value)>, &[u8]), TypeFault>
    ensures { Gives (λ x. (pairs_view x.0.items, x.1.now)) result (pairs_at (value_by (body_at depth)) count bytes.now) }
{
    let mut pairs = Vec::new(alloc);
    let mut rest = bytes;
    for _ in 0..count {
        let (pair, behind) = pair_of(alloc, depth, rest)?;
        pairs.push(pair)?;
        rest = behind;
    }
    Ok((pairs, rest))
}

#[cycle(read)]
#[tactic(auto, unfolding(crate::specs::Reading::pair_at, crate::specs::Reading::value_at))]
fn pair_of(alloc: Global, depth: u32, bytes: &[u8]) -> Result<((Value, Value), &[u8]), TypeFault>
    ensures { Gives (λ x. ((view x.0.0, view x.0.1), x.1.now)) result (pair_at (value_by (body_at depth)) bytes.now) }
{
    let (key, rest) = value_of(alloc, depth, bytes)?;
    let (value, rest) = value_of(alloc, depth, rest)?;
    Ok(((key, value), rest))
}

#[cycle(read)]
#[tactic(auto, unfolding(crate::specs::Reading::list_in))]
fn list_of(
    alloc: Global,
    depth: u32,
    size: Size,
    inside: &[u8],
) -> Result<(Value, &[u8]), TypeFault>
    ensures { Gives (λ x. (view x.0, x.1.now)) result (list_in (body_at depth) size inside.now) }
{
    let (count, rest) = size_of(size, inside)?;
    let (items, rest) = items_of(alloc, depth, None, count, rest)?;
    Ok((Value::List(items), rest))
}

#[cycle(read)]
#[tactic(auto, unfolding(crate::specs::Reading::map_in))]
fn map_of(alloc: Global, depth: u32, size: Size, inside: &[u8]) -> Result<(Value, &[u8]), TypeFault>
    ensures { Gives (λ x. (view x.0, x.1.now)) result (map_in (body_at depth) size inside.now) }
{
    let (count, rest) = size_of(size, inside)?;
    if count % 2 == 1 {
        return Err(TypeFault::OddMap);
    }
    let (pairs, rest) = pairs_of(alloc, depth, count / 2, rest)?;
    Ok((Value::Map(pairs), rest))
}

#[cycle(read)]
#[tactic(auto, unfolding(crate::specs::Reading::array_in))]
fn array_of(
    alloc: Global,
    depth: u32,
    size: Size,
    inside: &[u8],
) -> Result<(Value, &[u8]), TypeFault>
    ensures { Gives (λ x. (view x.0, x.1.now)) result (array_in (body_at depth) size inside.now) }
{
    let (count, rest) = size_of(size, inside)?;
    let (element, rest) = code_of(rest)?;
    let kind = kind_of_elements(count, element)?;
    let (items, rest) = items_of(alloc, depth, Some(element), count, rest)?;
    Ok((Value::Array(kind, items), rest))
}

#[cycle(read)]
#[tactic(auto, unfolding(crate::specs::Reading::described_at, crate::specs::Reading::value_at))]
fn described_of(alloc: Global, depth: u32, bytes: &[u8]) -> Result<(Value, &[u8]), TypeFault>
    ensures { Gives (λ x. (view x.0, x.1.now)) result (described_at (body_at depth) bytes.now) }
{
    let (descriptor, rest) = value_of(alloc, depth, bytes)?;
    let (value, rest) = value_of(alloc, depth, rest)?;
    let described = Value::Described(Box::new(alloc, descriptor)?, Box::new(alloc, value)?);
    Ok((described, rest))
}

/// The type of an array's elements, by their number and their constructor.
pub(crate) fn kind_of_elements(count: u32, element: Code) -> Result<Kind, TypeFault>
    ensures { Same (λ x. x) result (element_kind count element) }
{
    match element.kind() {
        None => Err(TypeFault::DescribedArray),
        Some(_) if element.is_without_bytes() && count > MOST_EMPTY_ELEMENTS => {
            Err(TypeFault::SizeMismatch)
        }
        Some(kind) => Ok(kind),
    }
}

/// What was read inside a list, a map or an array, where that is all of it.
#[inline(always)]
#[tactic(auto, unfolding(crate::specs::Reading::whole))]
fn finished(read: Result<(Value, &[u8]), TypeFault>) -> Result<Value, TypeFault>
    ensures { (all : Result (Data × List ℕ) TypeFault)
        → Gives (λ x. (view x.0, x.1.now)) read.entry all → Gives view result (whole all) }
{
    match read {
        Err(fault) => Err(fault.inside()),
        Ok((value, [])) => Ok(value),
        Ok((_, _)) => Err(TypeFault::SizeMismatch),
    }
}
