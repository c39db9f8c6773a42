//! Reading what needs no allocation: constructors, sizes, and values that hold no others.

ghost use Rattle.std.specs.Prelude.{◌≡◌, length, IfOk};
ghost use Rattle.amqp_model.specs.Codes.{IsLaid, layout_of};
ghost use Rattle.amqp_model.specs.View.{plain_view};
ghost use Rattle.amqp_types.specs.Reading.{Same, bytes_at, size_at, sized_at, code_at, chunk_at, leaf_at, content_of, boolean_of, char_of, string_of, symbol_of, all_ascii};

use amqp_model::{Code, Layout, Leaf, Plain, Size, TypeFault, constructor};

/// The first bytes, as many as asked for.
#[inline(always)]
pub(crate) fn bytes_of(count: usize, bytes: &[u8]) -> Result<(&[u8], &[u8]), TypeFault>
    ensures { Same (λ x. (x.0.now, x.1.now)) result (bytes_at count bytes.now) }
{
    if bytes.len() < count {
        return Err(TypeFault::Truncated);
    }
    Ok(bytes.split_at(count))
}

/// A size or a count.
#[inline(always)]
pub fn size_of(size: Size, bytes: &[u8]) -> Result<(u32, &[u8]), TypeFault>
    ensures { Same (λ x. (x.0, x.1.now)) result (size_at size bytes.now) }
{
    match size {
        Size::One => {
            let (field, rest) = bytes.split_first_chunk::<1>().ok_or(TypeFault::Truncated)?;
            Ok((u32::from(u8::from_be_bytes(*field)), rest))
        }
        Size::Four => {
            let (field, rest) = bytes.split_first_chunk::<4>().ok_or(TypeFault::Truncated)?;
            Ok((u32::from_be_bytes(*field), rest))
        }
    }
}

/// A size and as many bytes.
#[inline(always)]
#[tactic(auto, unfolding(crate::specs::Reading::sized_at))]
pub fn sized_of(size: Size, bytes: &[u8]) -> Result<(&[u8], &[u8]), TypeFault>
    ensures { Same (λ x. (x.0.now, x.1.now)) result (sized_at size bytes.now) }
{
    let (count, rest) = size_of(size, bytes)?;
    bytes_of(count as usize, rest)
}

/// A constructor.
#[inline(always)]
pub fn code_of(bytes: &[u8]) -> Result<(Code, &[u8]), TypeFault>
    ensures { Same (λ x. (x.0, x.1.now)) result (code_at bytes.now) }
{
    match bytes {
        [] => Err(TypeFault::Truncated),
        [byte, rest @ ..] => match constructor(*byte) {
            None => Err(TypeFault::UnknownCode),
            Some(code) => Ok((code, rest)),
        },
    }
}

#[inline(always)]
fn chunk_of(layout: Layout, bytes: &[u8]) -> Result<(&[u8], &[u8]), TypeFault>
    ensures same { Same (λ x. (x.0.now, x.1.now)) result (chunk_at layout bytes.now) }
    ensures laid { IfOk result (λ x. IsLaid layout x.0.now) }
{
    match layout {
        Layout::Fixed(count) => bytes_of(count, bytes),
        Layout::Sized(size) => sized_of(size, bytes),
    }
}

/// A value without others, after its constructor.
#[inline(always)]
#[tactic(auto, unfolding(crate::specs::Reading::leaf_at))]
pub(crate) fn leaf_of(leaf: Leaf, bytes: &[u8]) -> Result<(Plain<'_>, &[u8]), TypeFault>
    ensures { Same (λ x. (plain_view x.0, x.1.now)) result (leaf_at leaf bytes.now) }
{
    let (chunk, rest) = chunk_of(leaf.layout(), bytes)?;
    Ok((content(leaf, chunk)?, rest))
}

/// All of the bytes, of which there are as many as the type says.
#[inline(always)]
fn array<const N: usize>(bytes: &[u8]) -> [u8; N]
    requires { length bytes.now ≡ N }
    ensures { result ≡ bytes.now }
{
    match bytes.split_first_chunk::<N>() {
        Some((all, _)) => *all,
        None => unreachable!(),
    }
}

#[inline(always)]
fn content(leaf: Leaf, bytes: &[u8]) -> Result<Plain<'_>, TypeFault>
    requires { IsLaid (layout_of leaf) bytes.now }
    ensures { Same plain_view result (content_of leaf bytes.now) }
{
    Ok(match leaf {
        Leaf::Null => Plain::Null,
        Leaf::True => Plain::Boolean(true),
        Leaf::False => Plain::Boolean(false),
        Leaf::Boolean => return boolean(u8::from_be_bytes(array(bytes))),
        Leaf::Ubyte => Plain::Ubyte(u8::from_be_bytes(array(bytes))),
        Leaf::Ushort => Plain::Ushort(u16::from_be_bytes(array(bytes))),
        Leaf::Uint => Plain::Uint(u32::from_be_bytes(array(bytes))),
        Leaf::SmallUint => Plain::Uint(u32::from(u8::from_be_bytes(array(bytes)))),
        Leaf::ZeroUint => Plain::Uint(0),
        Leaf::Ulong => Plain::Ulong(u64::from_be_bytes(array(bytes))),
        Leaf::SmallUlong => Plain::Ulong(u64::from(u8::from_be_bytes(array(bytes)))),
        Leaf::ZeroUlong => Plain::Ulong(0),
        Leaf::Byte => Plain::Byte(i8::from_be_bytes(array(bytes))),
        Leaf::Short => Plain::Short(i16::from_be_bytes(array(bytes))),
        Leaf::Int => Plain::Int(i32::from_be_bytes(array(bytes))),
        Leaf::SmallInt => Plain::Int(i32::from(i8::from_be_bytes(array(bytes)))),
        Leaf::Long => Plain::Long(i64::from_be_bytes(array(bytes))),
        Leaf::SmallLong => Plain::Long(i64::from(i8::from_be_bytes(array(bytes)))),
        Leaf::Float => Plain::Float(array(bytes)),
        Leaf::Double => Plain::Double(array(bytes)),
        Leaf::Decimal32 => Plain::Decimal32(array(bytes)),
        Leaf::Decimal64 => Plain::Decimal64(array(bytes)),
        Leaf::Decimal128 => Plain::Decimal128(array(bytes)),
        Leaf::Char => return char_from(u32::from_be_bytes(array(bytes))),
        Leaf::Timestamp => Plain::Timestamp(i64::from_be_bytes(array(bytes))),
        Leaf::Uuid => Plain::Uuid(array(bytes)),
        Leaf::Binary(_) => Plain::Binary(bytes),
        Leaf::String(_) => return string(bytes),
        Leaf::Symbol(_) => return symbol(bytes),
    })
}

fn boolean<'a>(byte: u8) -> Result<Plain<'a>, TypeFault>
    ensures { Same plain_view result (boolean_of byte) }
{
    match byte {
        0 => Ok(Plain::Boolean(false)),
        1 => Ok(Plain::Boolean(true)),
        _ => Err(TypeFault::BadBool),
    }
}

fn char_from<'a>(number: u32) -> Result<Plain<'a>, TypeFault>
    ensures { Same plain_view result (char_of number) }
{
    match char::from_u32(number) {
        Some(c) => Ok(Plain::Char(c)),
        None => Err(TypeFault::BadChar),
    }
}

fn string(bytes: &[u8]) -> Result<Plain<'_>, TypeFault>
    ensures { Same plain_view result (string_of bytes.now) }
{
    match str::from_utf8(bytes) {
        Ok(text) => Ok(Plain::String(text)),
        Err(_) => Err(TypeFault::BadUtf8),
    }
}

fn symbol(bytes: &[u8]) -> Result<Plain<'_>, TypeFault>
    ensures { Same plain_view result (symbol_of bytes.now) }
{
    if !is_ascii(bytes) {
        return Err(TypeFault::BadSymbol);
    }
    match str::from_utf8(bytes) {
        Ok(name) => Ok(Plain::Symbol(name)),
        Err(_) => unreachable!(),
    }
}

fn is_ascii(bytes: &[u8]) -> bool
    ensures { result ≡ all_ascii bytes.now }
{
    bytes.iter().all(|byte| *byte < 128)
}
