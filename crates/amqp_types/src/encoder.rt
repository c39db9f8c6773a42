//! Encoding values: each in its one canonical encoding.

ghost use Rattle.std.specs.Prelude.{◌≡◌, ◌++◌, ◌∷◌, [], ◌*◌, length, take, OnOk, OnErr, IfOk};
ghost use Rattle.amqp_model.specs.Data as d;
ghost use Rattle.amqp_model.specs.View.{view, items_view, pairs_view, plain_view};
ghost use Rattle.amqp_types.specs.Pieces.{pieces_view};
ghost use Rattle.amqp_model.specs.ValueSpelling.{spelling, spellings, pair_spellings, piece, pieces, join, constructed, sized_piece, compound_piece, list_text};
ghost use Rattle.amqp_model.specs.declared.code.Kind.TheVariants as kind;

use crate::pieces::{Pieces, put_wide_sizes};
use amqp_model::{Kind, Plain, Value};
use std::alloc::{AllocError, Global};

/// Bytes reserved before the contents of a compound are written.
const FIRST_ROOM: usize = 64;

/// Appends the canonical encoding of the value.
///
/// A text or a compound of 2^32 bytes or more has no encoding, and is answered as if memory ran
/// out. Elements of an array that are not of its type are written as what they are, after the
/// constructor of its type.
pub fn encode(alloc: Global, value: &Value, out: &mut Vec<u8>) -> Result<(), AllocError>
    ensures ok { OnOk result (out.new.items ≡ out.old.items ++ spelling (view value.now)) }
    ensures err { OnErr result (out.new.items ≡ out.old.items) }
{
    if out.is_empty() {
        let written = put_value(alloc, out, value);
        if written.is_err() {
            out.clear();
        }
        return written;
    }
    let mut text = Vec::new(alloc);
    put_value(alloc, &mut text, value)?;
    out.extend_from_slice(&text)
}

#[cycle(put)]
#[tactic(auto, using(crate::proofs::Writing::list_is, crate::proofs::Writing::map_is, crate::proofs::Writing::array_is, crate::proofs::Writing::described_is), unfolding(amqp_model::specs::ValueSpelling::spelling))]
fn put_value(alloc: Global, out: &mut Vec<u8>, value: &Value) -> Result<(), AllocError>
    ensures { OnOk result (out.new.items ≡ out.old.items ++ spelling (view value.now)) }
{
    match value {
        Value::Null => put_plain(out, Plain::Null),
        Value::Boolean(b) => put_plain(out, Plain::Boolean(*b)),
        Value::Ubyte(n) => put_plain(out, Plain::Ubyte(*n)),
        Value::Ushort(n) => put_plain(out, Plain::Ushort(*n)),
        Value::Uint(n) => put_plain(out, Plain::Uint(*n)),
        Value::Ulong(n) => put_plain(out, Plain::Ulong(*n)),
        Value::Byte(n) => put_plain(out, Plain::Byte(*n)),
        Value::Short(n) => put_plain(out, Plain::Short(*n)),
        Value::Int(n) => put_plain(out, Plain::Int(*n)),
        Value::Long(n) => put_plain(out, Plain::Long(*n)),
        Value::Float(bytes) => put_plain(out, Plain::Float(*bytes)),
        Value::Double(bytes) => put_plain(out, Plain::Double(*bytes)),
        Value::Decimal32(bytes) => put_plain(out, Plain::Decimal32(*bytes)),
        Value::Decimal64(bytes) => put_plain(out, Plain::Decimal64(*bytes)),
        Value::Decimal128(bytes) => put_plain(out, Plain::Decimal128(*bytes)),
        Value::Char(c) => put_plain(out, Plain::Char(*c)),
        Value::Timestamp(n) => put_plain(out, Plain::Timestamp(*n)),
        Value::Uuid(bytes) => put_plain(out, Plain::Uuid(*bytes)),
        Value::Binary(bytes) => put_plain(out, Plain::Binary(bytes.as_slice())),
        Value::String(text) => put_plain(out, Plain::String(text.as_str())),
        Value::Symbol(name) => put_plain(out, Plain::Symbol(name.as_str())),
        Value::List(items) => {
            let mut inside = Vec::with_capacity(alloc, FIRST_ROOM)?;
            let items = items.as_slice();
            put_items(alloc, &mut inside, items)?;
            put_list(out, items.len(), &inside)
        }
        Value::Map(pairs) => {
            let mut inside = Vec::with_capacity(alloc, FIRST_ROOM)?;
            let pairs = pairs.as_slice();
            put_pairs(alloc, &mut inside, pairs)?;
            put_map(out, pairs.len(), &inside)
        }
        Value::Array(kind, items) => {
            let items = items.as_slice();
            let inside = elements(alloc, *kind, items)?;
            put_array(out, items.len(), &inside)
        }
        Value::Described(descriptor, described) => {
            out.push(0x00)?;
            put_value(alloc, out, descriptor)?;
            put_value(alloc, out, described)
        }
    }
}

#[cycle(put)]
fn put_items(alloc: Global, out: &mut Vec<u8>, items: &[Value]) -> Result<(), AllocError>
    ensures { OnOk result (out.new.items ≡ out.old.items ++ spellings (items_view items.now)) }
{
    for item in items {
        put_value(alloc, out, item)?;
    }
    Ok(())
}

#[cycle(put)]
fn put_pairs(alloc: Global, out: &mut Vec<u8>, pairs: &[(Value, Value)]) -> Result<(), AllocError>
    ensures { OnOk result (out.new.items ≡ out.old.items ++ pair_spellings (pairs_view pairs.now)) }
{
    for (key, value) in pairs {
        put_value(alloc, out, key)?;
        put_value(alloc, out, value)?;
    }
    Ok(())
}

/// The constructor of the elements of an array, and the elements.
#[cycle(put)]
fn elements(alloc: Global, kind: Kind, items: &[Value]) -> Result<Vec<u8>, AllocError>
    ensures { IfOk result (λ v. v.items ≡ constructed kind (pieces (items_view items.now))) }
{
    let mut all = Pieces::new(alloc);
    for item in items {
        put_piece(alloc, &mut all, item)?;
    }
    let mut inside = Vec::new(alloc);
    all.put(kind, &mut inside)?;
    Ok(inside)
}

#[cycle(put)]
#[tactic(auto, using(crate::proofs::Writing::list_piece, crate::proofs::Writing::map_piece, crate::proofs::Writing::array_piece), unfolding(amqp_model::specs::ValueSpelling::piece))]
fn put_piece(alloc: Global, all: &mut Pieces, value: &Value) -> Result<(), AllocError>
    ensures { OnOk result (pieces_view all.new ≡ join (pieces_view all.old) (piece (view value.now))) }
{
    match value {
        Value::Null => all.single(&[]),
        Value::Boolean(b) => all.single(&[u8::from(*b)]),
        Value::Ubyte(n) => all.single(&[*n]),
        Value::Ushort(n) => all.single(&n.to_be_bytes()),
        Value::Uint(n) => all.uint(*n),
        Value::Ulong(n) => all.ulong(*n),
        Value::Byte(n) => all.single(&[n.cast_unsigned()]),
        Value::Short(n) => all.single(&n.to_be_bytes()),
        Value::Int(n) => all.int(*n),
        Value::Long(n) => all.long(*n),
        Value::Float(bytes) => all.single(bytes),
        Value::Double(bytes) => all.single(bytes),
        Value::Decimal32(bytes) => all.single(bytes),
        Value::Decimal64(bytes) => all.single(bytes),
        Value::Decimal128(bytes) => all.single(bytes),
        Value::Char(c) => all.single(&u32::from(*c).to_be_bytes()),
        Value::Timestamp(n) => all.single(&n.to_be_bytes()),
        Value::Uuid(bytes) => all.single(bytes),
        Value::Binary(bytes) => all.sized(bytes),
        Value::String(text) => all.sized(text.as_bytes()),
        Value::Symbol(name) => all.sized(name.as_bytes()),
        Value::List(items) => {
            let mut inside = Vec::new(alloc);
            let items = items.as_slice();
            put_items(alloc, &mut inside, items)?;
            all.compound(items.len(), &inside)
        }
        Value::Map(pairs) => {
            let mut inside = Vec::new(alloc);
            let pairs = pairs.as_slice();
            put_pairs(alloc, &mut inside, pairs)?;
            all.map(pairs.len(), &inside)
        }
        Value::Array(kind, items) => {
            let items = items.as_slice();
            let inside = elements(alloc, *kind, items)?;
            all.compound(items.len(), &inside)
        }
        Value::Described(_, _) => all.single(&[]),
    }
}

/// Appends the canonical encoding of a value that holds no others.
#[inline(always)]
#[tactic(auto, unfolding(amqp_model::specs::ValueSpelling::spelling))]
pub fn put_plain(out: &mut Vec<u8>, plain: Plain<'_>) -> Result<(), AllocError>
    ensures ok { OnOk result (out.new.items ≡ out.old.items ++ spelling (plain_view plain.entry)) }
    ensures kept { OnErr result (take (length out.old.items) out.new.items ≡ out.old.items) }
{
    match plain {
        Plain::Null => put_code(out, 0x40),
        Plain::Boolean(true) => put_code(out, 0x41),
        Plain::Boolean(false) => put_code(out, 0x42),
        Plain::Ubyte(n) => put_bytes(out, 0x50, &[n]),
        Plain::Ushort(n) => put_bytes(out, 0x60, &n.to_be_bytes()),
        Plain::Uint(n) => put_uint(out, n),
        Plain::Ulong(n) => put_ulong(out, n),
        Plain::Byte(n) => put_bytes(out, 0x51, &[n.cast_unsigned()]),
        Plain::Short(n) => put_bytes(out, 0x61, &n.to_be_bytes()),
        Plain::Int(n) => put_int(out, n),
        Plain::Long(n) => put_long(out, n),
        Plain::Float(bytes) => put_bytes(out, 0x72, &bytes),
        Plain::Double(bytes) => put_bytes(out, 0x82, &bytes),
        Plain::Decimal32(bytes) => put_bytes(out, 0x74, &bytes),
        Plain::Decimal64(bytes) => put_bytes(out, 0x84, &bytes),
        Plain::Decimal128(bytes) => put_bytes(out, 0x94, &bytes),
        Plain::Char(c) => put_bytes(out, 0x73, &u32::from(c).to_be_bytes()),
        Plain::Timestamp(n) => put_bytes(out, 0x83, &n.to_be_bytes()),
        Plain::Uuid(bytes) => put_bytes(out, 0x98, &bytes),
        Plain::Binary(bytes) => put_sized(out, Kind::Binary, bytes),
        Plain::String(text) => put_sized(out, Kind::String, text.as_bytes()),
        Plain::Symbol(name) => put_sized(out, Kind::Symbol, name.as_bytes()),
    }
}

#[inline(always)]
fn put_code(out: &mut Vec<u8>, code: u8) -> Result<(), AllocError>
    ensures ok { OnOk result (out.new.items ≡ out.old.items ++ code ∷ []) }
    ensures kept { OnErr result (take (length out.old.items) out.new.items ≡ out.old.items) }
{
    out.push(code)?;
    Ok(())
}

#[inline(always)]
fn put_bytes(out: &mut Vec<u8>, code: u8, bytes: &[u8]) -> Result<(), AllocError>
    ensures ok { OnOk result (out.new.items ≡ out.old.items ++ code ∷ bytes.now) }
    ensures kept { OnErr result (take (length out.old.items) out.new.items ≡ out.old.items) }
{
    out.push(code)?;
    out.extend_from_slice(bytes)
}

#[inline(always)]
#[tactic(auto, unfolding(amqp_model::specs::ValueSpelling::spelling))]
fn put_uint(out: &mut Vec<u8>, number: u32) -> Result<(), AllocError>
    ensures ok { OnOk result (out.new.items ≡ out.old.items ++ spelling (d.uint number)) }
    ensures kept { OnErr result (take (length out.old.items) out.new.items ≡ out.old.items) }
{
    if number == 0 {
        put_code(out, 0x43)
    } else if number < 256 {
        put_bytes(out, 0x52, &[number as u8])
    } else {
        put_bytes(out, 0x70, &number.to_be_bytes())
    }
}

#[inline(always)]
#[tactic(auto, unfolding(amqp_model::specs::ValueSpelling::spelling))]
fn put_ulong(out: &mut Vec<u8>, number: u64) -> Result<(), AllocError>
    ensures ok { OnOk result (out.new.items ≡ out.old.items ++ spelling (d.ulong number)) }
    ensures kept { OnErr result (take (length out.old.items) out.new.items ≡ out.old.items) }
{
    if number == 0 {
        put_code(out, 0x44)
    } else if number < 256 {
        put_bytes(out, 0x53, &[number as u8])
    } else {
        put_bytes(out, 0x80, &number.to_be_bytes())
    }
}

#[inline(always)]
#[tactic(auto, unfolding(amqp_model::specs::ValueSpelling::spelling))]
fn put_int(out: &mut Vec<u8>, number: i32) -> Result<(), AllocError>
    ensures ok { OnOk result (out.new.items ≡ out.old.items ++ spelling (d.int number)) }
    ensures kept { OnErr result (take (length out.old.items) out.new.items ≡ out.old.items) }
{
    if -128 <= number && number <= 127 {
        put_bytes(out, 0x54, &[(number as i8).cast_unsigned()])
    } else {
        put_bytes(out, 0x71, &number.to_be_bytes())
    }
}

#[inline(always)]
#[tactic(auto, unfolding(amqp_model::specs::ValueSpelling::spelling))]
fn put_long(out: &mut Vec<u8>, number: i64) -> Result<(), AllocError>
    ensures ok { OnOk result (out.new.items ≡ out.old.items ++ spelling (d.long number)) }
    ensures kept { OnErr result (take (length out.old.items) out.new.items ≡ out.old.items) }
{
    if -128 <= number && number <= 127 {
        put_bytes(out, 0x55, &[(number as i8).cast_unsigned()])
    } else {
        put_bytes(out, 0x81, &number.to_be_bytes())
    }
}

#[inline(always)]
fn put_sized(out: &mut Vec<u8>, kind: Kind, bytes: &[u8]) -> Result<(), AllocError>
    ensures ok { OnOk result (out.new.items ≡ out.old.items ++ constructed kind (sized_piece bytes.now)) }
    ensures kept { OnErr result (take (length out.old.items) out.new.items ≡ out.old.items) }
{
    let Ok(size) = u32::try_from(bytes.len()) else {
        return Err(AllocError);
    };
    if size < 256 {
        out.push(kind.narrow_code())?;
        out.push(size as u8)?;
    } else {
        out.push(kind.wide_code())?;
        out.extend_from_slice(&size.to_be_bytes())?;
    }
    out.extend_from_slice(bytes)
}

fn put_compound(
    out: &mut Vec<u8>,
    kind: Kind,
    count: usize,
    inside: &[u8],
) -> Result<(), AllocError>
    ensures { OnOk result (out.new.items ≡ out.old.items ++ constructed kind (compound_piece count inside.now)) }
{
    if inside.len() < 255 && count < 256 {
        out.push(kind.narrow_code())?;
        out.push((inside.len() + 1) as u8)?;
        out.push(count as u8)?;
    } else {
        out.push(kind.wide_code())?;
        put_wide_sizes(out, count, inside.len())?;
    }
    out.extend_from_slice(inside)
}

/// Appends a list, by how many values it has and the bytes that encode them.
pub fn put_list(out: &mut Vec<u8>, count: usize, inside: &[u8]) -> Result<(), AllocError>
    ensures { OnOk result (out.new.items ≡ out.old.items ++ list_text count inside.now) }
{
    if count == 0 {
        return put_code(out, 0x45);
    }
    put_compound(out, Kind::List, count, inside)
}

/// Appends a map, by how many keys it has and the bytes that encode them and their values.
pub fn put_map(out: &mut Vec<u8>, count: usize, inside: &[u8]) -> Result<(), AllocError>
    ensures { OnOk result (out.new.items ≡ out.old.items ++ constructed kind.Map (compound_piece (2 * count) inside.now)) }
{
    let Some(count) = count.checked_mul(2) else {
        return Err(AllocError);
    };
    put_compound(out, Kind::Map, count, inside)
}

/// Appends an array, by how many elements it has, and the bytes of their constructor and of them.
pub fn put_array(out: &mut Vec<u8>, count: usize, inside: &[u8]) -> Result<(), AllocError>
    ensures { OnOk result (out.new.items ≡ out.old.items ++ constructed kind.Array (compound_piece count inside.now)) }
{
    put_compound(out, Kind::Array, count, inside)
}
