//! Writing a described list from a slice of its fields, each in its canonical encoding and without the nulls at the end.
ghost use Rattle.std.specs.Prelude.{◌≡◌, ◌+◌, ◌-◌, ◌^◌, ◌<◌, ◌&&◌, ◌++◌, ◌∷◌, nat_lt, ℕ, List, [], length, min, take, is_none, option_map, IfOk, OnOk, OnErr};
ghost use Rattle.amqp_model.specs.Data as d;
ghost use Rattle.amqp_model.specs.Descriptors.{code_of};
ghost use Rattle.amqp_model.specs.View.{items_view};
ghost use Rattle.amqp_model.specs.ValueSpelling.{list_text, wide_sizes};
ghost use Rattle.amqp_model.specs.Texts as texts;
ghost use Rattle.amqp_model.specs.PerfSpelling as spellings;
ghost use Rattle.amqp_perf.specs.NestedViews.{nested_view};
ghost use Rattle.amqp_perf.specs.TextViews.{field_view, fields_view};

use crate::lengths::fields_len;
use crate::read_termini::SESSION_END;
use crate::write_states::Nested;
use amqp_model::{Address, Binary, DeliveryTag, Descriptor, Map, Role, Symbol, Symbols, Text};
use amqp_types::{Kind, Plain, Value, encode, put_plain};
use std::alloc::{AllocError, Global};

/// A field to be written.
#[derive(Clone, Copy)]
pub(crate) enum Field<'a> {
    /// Null: nothing, or the field's default.
    Null,
    /// A value that holds no others.
    Plain(Plain<'a>),
    /// A value that is encoded already.
    Spelt(&'a [u8]),
}

impl<'a> Field<'a> {
    /// A flag that is false where it is absent.
    pub(crate) fn flag(flag: bool) -> Field<'a>
        ensures { field_view result ≡ texts.flag_text flag }
    {
        if flag {
            Field::Plain(Plain::Boolean(true))
        } else {
            Field::Null
        }
    }

    /// A ubyte with a default.
    pub(crate) fn ubyte_unless(default: u8, number: u8) -> Field<'a>
        ensures { field_view result ≡ texts.ubyte_unless default number }
    {
        if number == default {
            Field::Null
        } else {
            Field::Plain(Plain::Ubyte(number))
        }
    }

    /// A ushort with a default.
    pub(crate) fn ushort_unless(default: u16, number: u16) -> Field<'a>
        ensures { field_view result ≡ texts.ushort_unless default number }
    {
        if number == default {
            Field::Null
        } else {
            Field::Plain(Plain::Ushort(number))
        }
    }

    /// A uint with a default.
    pub(crate) fn uint_unless(default: u32, number: u32) -> Field<'a>
        ensures { field_view result ≡ texts.uint_unless default number }
    {
        if number == default {
            Field::Null
        } else {
            Field::Plain(Plain::Uint(number))
        }
    }

    /// A ubyte, or null.
    pub(crate) fn ubyte(number: Option<u8>) -> Field<'a>
        ensures { field_view result ≡ texts.mapped (λ x. d.ubyte x) number }
    {
        match number {
            Some(number) => Field::Plain(Plain::Ubyte(number)),
            None => Field::Null,
        }
    }

    /// A ushort, or null.
    pub(crate) fn ushort(number: Option<u16>) -> Field<'a>
        ensures { field_view result ≡ texts.mapped (λ x. d.ushort x) number }
    {
        match number {
            Some(number) => Field::Plain(Plain::Ushort(number)),
            None => Field::Null,
        }
    }

    /// A uint, or null.
    pub(crate) fn uint(number: Option<u32>) -> Field<'a>
        ensures { field_view result ≡ texts.mapped (λ x. d.uint x) number }
    {
        match number {
            Some(number) => Field::Plain(Plain::Uint(number)),
            None => Field::Null,
        }
    }

    /// A ulong, or null.
    pub(crate) fn ulong(number: Option<u64>) -> Field<'a>
        ensures { field_view result ≡ texts.mapped (λ x. d.ulong x) number }
    {
        match number {
            Some(number) => Field::Plain(Plain::Ulong(number)),
            None => Field::Null,
        }
    }

    /// A string, or null.
    pub(crate) fn text(text: &'a Option<Text>) -> Field<'a>
        ensures { field_view result ≡ texts.mapped d.string text.now }
    {
        match text {
            Some(text) => Field::Plain(Plain::String(text.as_str())),
            None => Field::Null,
        }
    }

    /// A symbol, or null.
    pub(crate) fn symbol(symbol: &'a Option<Symbol>) -> Field<'a>
        ensures { field_view result ≡ texts.mapped d.symbol symbol.now }
    {
        match symbol {
            Some(symbol) => Field::Plain(Plain::Symbol(symbol.as_str())),
            None => Field::Null,
        }
    }

    /// A binary, or null.
    pub(crate) fn binary(octets: &'a Option<Binary>) -> Field<'a>
        ensures { field_view result ≡ texts.mapped d.binary octets.now }
    {
        match octets {
            Some(octets) => Field::Plain(Plain::Binary(octets.as_slice())),
            None => Field::Null,
        }
    }

    /// A map that is carried, or null.
    pub(crate) fn map(map: &'a Option<Map>) -> Field<'a>
        ensures { field_view result ≡ map.now }
    {
        match map {
            Some(map) => Field::Spelt(map.as_slice()),
            None => Field::Null,
        }
    }

    /// What is encoded already, or null.
    pub(crate) fn spelt(bytes: &'a Option<Vec<u8>>) -> Field<'a>
        ensures { field_view result ≡ option_map (λ v. v.items) bytes.now }
    {
        match bytes {
            Some(bytes) => Field::Spelt(bytes.as_slice()),
            None => Field::Null,
        }
    }

    /// The role of an end of a link: false is a sender.
    pub(crate) fn role(role: Role) -> Field<'a>
        ensures { field_view result ≡ spellings.role_text role }
    {
        Field::Plain(Plain::Boolean(role == Role::Receiver))
    }

    /// A delivery tag, or null.
    pub(crate) fn tag(tag: &'a Option<DeliveryTag>) -> Field<'a>
        ensures { field_view result ≡ texts.mapped (λ t. d.binary t.items) tag.now }
    {
        match tag {
            Some(tag) => Field::Plain(Plain::Binary(tag.as_slice())),
            None => Field::Null,
        }
    }

    /// The address of a terminus, or null.
    pub(crate) fn address(address: &'a Option<Address>) -> Field<'a>
        ensures { field_view result ≡ spellings.address_text address.now }
    {
        match address {
            Some(Address::Text(text)) => Field::Plain(Plain::String(text.as_str())),
            Some(Address::Other(value)) => Field::Spelt(value.as_slice()),
            None => Field::Null,
        }
    }

    /// The expiry policy of a terminus: null where it is `session-end`.
    pub(crate) fn policy(policy: &'a Symbol) -> Field<'a>
        ensures { field_view result ≡ spellings.policy_text policy.now }
    {
        if policy.as_str() == SESSION_END {
            Field::Null
        } else {
            Field::Plain(Plain::Symbol(policy.as_str()))
        }
    }

    /// A delivery state that is encoded, or null.
    pub(crate) fn nested(state: &'a Option<Nested>) -> Field<'a>
        ensures { field_view result ≡ option_map nested_view state.now }
    {
        match state {
            Some(Nested::Fixed(bytes)) => Field::Spelt(bytes.as_slice()),
            Some(Nested::Written(bytes)) => Field::Spelt(bytes.as_slice()),
            None => Field::Null,
        }
    }

    /// Whether it is null.
    fn is_null(self) -> bool
        ensures { result ≡ is_none (field_view self.entry) }
    {
        matches!(self, Field::Null)
    }
}

/// The fields without the nulls at their end.
#[tactic(auto, using(crate::proofs::FieldTexts::given_without_null, crate::proofs::FieldTexts::given_with_value))]
pub(crate) fn given_of<'a, 'b>(fields: &'b [Field<'a>]) -> &'b [Field<'a>]
    ensures { fields_view result.now ≡ texts.given (fields_view fields.now) }
{
    match fields.split_last() {
        Some((last, rest)) => {
            if last.is_null() {
                given_of(rest)
            } else {
                fields
            }
        }
        None => fields,
    }
}

fn put_field(out: &mut Vec<u8>, field: Field<'_>) -> Result<(), AllocError>
    ensures ok { OnOk result (out.new.items ≡ out.old.items ++ texts.field_bytes (field_view field.entry)) }
    ensures kept { OnErr result (take (length out.old.items) out.new.items ≡ out.old.items) }
{
    match field {
        Field::Null => out.extend_from_slice(&[0x40]),
        Field::Plain(plain) => put_plain(out, plain),
        Field::Spelt(bytes) => out.extend_from_slice(bytes),
    }
}

fn put_fields(out: &mut Vec<u8>, fields: &[Field<'_>]) -> Result<(), AllocError>
    ensures ok { OnOk result (out.new.items ≡ out.old.items ++ texts.joined (fields_view fields.now)) }
    ensures kept { OnErr result (take (length out.old.items) out.new.items ≡ out.old.items) }
{
    for field in fields {
        put_field(out, *field)?;
    }
    Ok(())
}

/// Whether a list has the shorter constructor: one byte for its size, and one for its count.
fn is_short_list(count: usize, len: usize) -> bool
    ensures { result ≡ (nat_lt len 255 && nat_lt count 256) }
{
    len < 255 && count < 256
}

/// Appends the longer constructor of a list, its size and its count.
fn put_long_head(out: &mut Vec<u8>, count: usize, len: usize) -> Result<(), AllocError>
    ensures head { OnOk result (out.new.items ≡ out.old.items ++ 0xD0 ∷ wide_sizes count len) }
    ensures small { OnOk result (len + 4 < 2 ^ 32) }
    ensures kept { OnErr result (take (length out.old.items) out.new.items ≡ out.old.items) }
{
    let (Some(size), Ok(count)) = (len.checked_add(4), u32::try_from(count)) else {
        return Err(AllocError);
    };
    let Ok(size) = u32::try_from(size) else {
        return Err(AllocError);
    };
    out.push(0xd0)?;
    out.extend_from_slice(&size.to_be_bytes())?;
    out.extend_from_slice(&count.to_be_bytes())
}

/// Appends what stands before the values of a list, of which there are `count` with `len` bytes, or `usize::MAX` if there are more.
fn put_list_head(out: &mut Vec<u8>, count: usize, len: usize) -> Result<(), AllocError>
    ensures ok { OnOk result ((values : List ℕ) → len ≡ min (length values) (2 ^ 64 - 1) → (count ≡ 0 → values ≡ []) → out.new.items ++ values ≡ out.old.items ++ list_text count values) }
    ensures kept { OnErr result (take (length out.old.items) out.new.items ≡ out.old.items) }
    ensures begun { OnOk result (take (length out.old.items) out.new.items ≡ out.old.items) }
{
    if count == 0 {
        return out.push(0x45).map_err(|_| AllocError);
    }
    if is_short_list(count, len) {
        return out.extend_from_slice(&[0xc0, (len + 1) as u8, count as u8]);
    }
    put_long_head(out, count, len)
}

/// Appends the described list of these fields, or leaves `out` as it was. It allocates nothing but room in `out`.
#[tactic(auto, unfolding(amqp_model::specs::Texts::described_text))]
pub(crate) fn put_described(
    out: &mut Vec<u8>,
    descriptor: Descriptor,
    fields: &[Field<'_>],
) -> Result<(), AllocError>
    ensures ok { OnOk result (out.new.items ≡ out.old.items ++ texts.described_text descriptor (fields_view fields.now)) }
    ensures err { OnErr result (out.new.items ≡ out.old.items) }
{
    let start = out.len();
    let put = put_parts(out, descriptor, given_of(fields));
    if put.is_err() {
        out.truncate(start);
    }
    put
}

/// Appends the described list of these fields, all of them, or a beginning of it.
fn put_parts(
    out: &mut Vec<u8>,
    descriptor: Descriptor,
    fields: &[Field<'_>],
) -> Result<(), AllocError>
    ensures ok { OnOk result (out.new.items ≡ out.old.items ++ 0x00 ∷ 0x53 ∷ code_of descriptor ∷ list_text (length (fields_view fields.now)) (texts.joined (fields_view fields.now))) }
    ensures kept { OnErr result (take (length out.old.items) out.new.items ≡ out.old.items) }
{
    out.extend_from_slice(&[0x00, 0x53, descriptor.code()])?;
    put_list_head(out, fields.len(), fields_len(fields))?;
    put_fields(out, fields)
}

/// The encoding of symbols, if there are any: always an array.
pub(crate) fn symbols_text(alloc: Global, symbols: &Symbols) -> Result<Option<Vec<u8>>, AllocError>
    ensures { IfOk result (λ text. option_map (λ v. v.items) text ≡ texts.symbols_text symbols.now) }
{
    let symbols = symbols.as_slice();
    if symbols.is_empty() {
        return Ok(None);
    }
    let elements = elements_of(alloc, symbols)?;
    let mut text = Vec::new(alloc);
    encode(alloc, &Value::Array(Kind::Symbol, elements), &mut text)?;
    Ok(Some(text))
}

/// Symbols as the elements of an array.
fn elements_of(alloc: Global, symbols: &[Symbol]) -> Result<Vec<Value>, AllocError>
    ensures { IfOk result (λ v. items_view v.items ≡ texts.symbol_items symbols.now) }
{
    let mut elements = Vec::with_capacity(alloc, symbols.len())?;
    for symbol in symbols {
        elements.push(Value::Symbol(String::from_str(alloc, symbol.as_str())?))?;
    }
    Ok(elements)
}
