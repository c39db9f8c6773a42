//! How values that hold others begin, so that what they hold can be read in place.

ghost use Rattle.std.specs.Prelude.{◌≡◌, option_map};
ghost use Rattle.amqp_model.specs.View.{plain_view, plain_part};
ghost use Rattle.amqp_types.specs.Reading.{Same, to, value_at, body_at};
ghost use Rattle.amqp_types.specs.Opening.{opening_view, opening_at, opening_by, list_opening, array_opening};

use crate::decoder::kind_of_elements;
use crate::reader::{code_of, leaf_of, size_of, sized_of};
use crate::skipper::pass_body;
use amqp_model::{Code, Plain, Size, TypeFault};

/// How a value that holds others begins.
#[derive(Clone, Copy, Debug, PartialEq)]
pub enum Opening<'a> {
    /// A list: how many items, their bytes to the end of the list, and the bytes after the list.
    List {
        count: u32,
        items: &'a [u8],
        behind: &'a [u8],
    },
    /// An array: the constructor of its elements, how many they are, their bytes to the end of the
    /// array, and the bytes after the array.
    Array {
        element: Code,
        count: u32,
        items: &'a [u8],
        behind: &'a [u8],
    },
    /// A described value: the bytes from its descriptor on.
    Described {
        descriptor: &'a [u8],
    },
    /// Another value, which was not looked at past its constructor.
    Other,
}

/// How the value at the front begins, with at most `depth` levels of nesting:
/// the value itself is the first of them.
///
/// The answer for a list or an array has the faults that come before its first item; what they
/// hold is not looked at.
#[tactic(auto, unfolding(crate::specs::Opening::opening_at))]
pub fn opening_of(depth: u32, bytes: &[u8]) -> Result<Opening<'_>, TypeFault>
    ensures { Same opening_view result (opening_at depth bytes.now) }
{
    let (code, rest) = code_of(bytes)?;
    opening_behind(depth, code, rest)
}

#[tactic(auto, using(crate::proofs::Openings::opening_by_deeper), unfolding(crate::specs::Opening::opening_by))]
fn opening_behind(depth: u32, code: Code, bytes: &[u8]) -> Result<Opening<'_>, TypeFault>
    ensures { Same opening_view result (opening_by depth code bytes.now) }
{
    if depth == 0 {
        return Err(TypeFault::TooDeep);
    }
    match code {
        Code::EmptyList => Ok(Opening::List {
            count: 0,
            items: &[],
            behind: bytes,
        }),
        Code::List(size) => {
            let (inside, behind) = sized_of(size, bytes)?;
            match open_list(size, inside, behind) {
                Ok(opening) => Ok(opening),
                Err(fault) => Err(fault.inside()),
            }
        }
        Code::Array(size) => {
            let (inside, behind) = sized_of(size, bytes)?;
            match open_array(size, inside, behind) {
                Ok(opening) => Ok(opening),
                Err(fault) => Err(fault.inside()),
            }
        }
        Code::Described => Ok(Opening::Described { descriptor: bytes }),
        Code::Leaf(_) | Code::Map(_) => Ok(Opening::Other),
    }
}

#[tactic(auto, unfolding(crate::specs::Opening::list_opening))]
fn open_list<'a>(size: Size, inside: &'a [u8], behind: &'a [u8]) -> Result<Opening<'a>, TypeFault>
    ensures { Same opening_view result (list_opening size inside.now behind.now) }
{
    let (count, items) = size_of(size, inside)?;
    Ok(Opening::List {
        count,
        items,
        behind,
    })
}

#[tactic(auto, unfolding(crate::specs::Opening::array_opening))]
fn open_array<'a>(size: Size, inside: &'a [u8], behind: &'a [u8]) -> Result<Opening<'a>, TypeFault>
    ensures { Same opening_view result (array_opening size inside.now behind.now) }
{
    let (count, rest) = size_of(size, inside)?;
    let (element, items) = code_of(rest)?;
    kind_of_elements(count, element)?;
    Ok(Opening::Array {
        element,
        count,
        items,
        behind,
    })
}

/// The value at the front, where it holds no others, and the bytes after it. A value that holds
/// others is passed over whole.
#[inline(always)]
#[tactic(auto, using(crate::proofs::Openings::to_value_at), unfolding(crate::specs::Reading::value_at))]
pub fn front_of(depth: u32, bytes: &[u8]) -> Result<(Option<Plain<'_>>, &[u8]), TypeFault>
    ensures { Same (λ x. (option_map plain_view x.0, x.1.now)) result (to plain_part (value_at depth bytes.now)) }
{
    let (code, rest) = code_of(bytes)?;
    element_of(depth, code, rest)
}

/// The same for a value after a constructor, as the elements of an array are.
#[inline(always)]
#[tactic(auto, using(crate::proofs::Openings::to_leaf, crate::proofs::Openings::to_others), unfolding(crate::specs::Reading::body_at))]
pub fn element_of(
    depth: u32,
    code: Code,
    bytes: &[u8],
) -> Result<(Option<Plain<'_>>, &[u8]), TypeFault>
    ensures { Same (λ x. (option_map plain_view x.0, x.1.now)) result (to plain_part (body_at depth code bytes.now)) }
{
    if depth == 0 {
        return Err(TypeFault::TooDeep);
    }
    if let Code::Leaf(leaf) = code {
        let (plain, rest) = leaf_of(leaf, bytes)?;
        return Ok((Some(plain), rest));
    }
    let rest = pass_body(depth, code, bytes)?;
    Ok((None, rest))
}
