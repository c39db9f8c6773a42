//! How a value begins, and the list at the front of bytes: what the readers of described lists share.
ghost use Rattle.std.specs.Prelude.{◌≡◌, option_map};
ghost use Rattle.amqp_perf.specs.Contract.{GivesAs, Refuses};
ghost use Rattle.amqp_perf.specs.Fields as fields;
ghost use Rattle.amqp_perf.specs.Places.{at_of};
ghost use Rattle.amqp_model.specs.View.{plain_view};

use crate::fault::within_list;
use crate::fields::{Fields, spelt};
use amqp_model::{AnyValue, Descriptor, PerfFault};
use amqp_types::{Code, Leaf, Plain, code_of, front_of, size_of, sized_of, skip_at, value_of};
use std::alloc::Global;

/// How a value begins.
#[derive(Clone, Copy, Debug, PartialEq, Eq)]
pub enum Opening {
    /// It is null.
    Null,
    /// It is described, by a descriptor of the table or by another.
    Described(Option<Descriptor>),
    /// Another constructor stands there.
    Other,
}

/// Which list a descriptor names; a value that holds others names none.
fn name_of(descriptor: Option<Plain<'_>>) -> Option<Descriptor>
    ensures { result ≡ fields.name_of (option_map plain_view descriptor.entry) }
{
    match descriptor {
        Some(Plain::Ulong(code)) => Descriptor::from_code(code),
        Some(Plain::Symbol(symbol)) => Descriptor::from_symbol(symbol.as_bytes()),
        _ => None,
    }
}

/// How the value at the front begins, and the bytes after that: after a descriptor, or after the constructor.
#[tactic(auto, unfolding(crate::specs::Fields::opening_at))]
pub(crate) fn opening_of(depth: u32, bytes: &[u8]) -> Result<(Opening, &[u8]), PerfFault>
    ensures { GivesAs (λ x. (x.0, x.1.now)) result (fields.opening_at depth bytes.now) }
{
    let (code, rest) = code_of(bytes)?;
    match code {
        Code::Leaf(Leaf::Null) => Ok((Opening::Null, rest)),
        Code::Described => {
            let (descriptor, rest) = front_of(depth.saturating_sub(1), rest)?;
            Ok((Opening::Described(name_of(descriptor)), rest))
        }
        _ => Ok((Opening::Other, rest)),
    }
}

/// The fields of the list at the front, of which there are `limit` at most, and the bytes after the list. Another value
/// is passed over first, and is then `wrong`.
#[tactic(auto, unfolding(crate::specs::Fields::listed))]
pub(crate) fn listed(
    depth: u32,
    limit: u32,
    wrong: PerfFault,
    bytes: &[u8],
) -> Result<(Fields<'_>, &[u8]), PerfFault>
    ensures { GivesAs (λ x. (at_of x.0, x.1.now)) result (fields.listed depth limit wrong bytes.now) }
{
    let (code, rest) = code_of(bytes)?;
    let inside_depth = depth.saturating_sub(1);
    match code {
        Code::EmptyList => Ok((
            Fields {
                depth: inside_depth,
                left: 0,
                rest: &[],
            },
            rest,
        )),
        Code::List(size) => {
            let (inside, behind) = sized_of(size, rest)?;
            let (left, rest) = size_of(size, inside).map_err(within_list)?;
            if limit < left {
                return Err(PerfFault::TooManyFields);
            }
            Ok((
                Fields {
                    depth: inside_depth,
                    left,
                    rest,
                },
                behind,
            ))
        }
        _ => {
            skip_at(depth, bytes)?;
            Err(wrong)
        }
    }
}

/// A value of the wrong kind, passed over first.
pub(crate) fn refused(depth: u32, bytes: &[u8]) -> PerfFault
    ensures { Refuses result (fields.refused {A = Unit {0}} depth bytes.now) }
{
    match skip_at(depth, bytes) {
        Ok(_) => PerfFault::WrongKind,
        Err(fault) => fault.into(),
    }
}

/// A value that is carried unread, and the bytes after it.
pub(crate) fn carried(
    alloc: Global,
    depth: u32,
    bytes: &[u8],
) -> Result<(AnyValue, &[u8]), PerfFault>
    ensures { GivesAs (λ x. (x.0, x.1.now)) result (fields.carried depth bytes.now) }
{
    let (value, rest) = value_of(alloc, depth, bytes)?;
    Ok((AnyValue::new(spelt(alloc, &value)?), rest))
}
