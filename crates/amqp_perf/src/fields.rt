//! Reading fields, front to back over the bytes of a list: one reader for each kind of field. No value is built for the
//! list, and none for a field that holds no other values.
ghost use Rattle.std.specs.Prelude.{◌≡◌, option_map, IfOk};
ghost use Rattle.amqp_model.specs.View.{items_view, plain_view, view};
ghost use Rattle.amqp_model.specs.ValueSpelling.{spelling};
ghost use Rattle.amqp_perf.specs.Contract.{Gives};
ghost use Rattle.amqp_perf.specs.Places.{Took, at_of};
ghost use Rattle.amqp_perf.specs.Fields as fields;

use crate::fault::within_list;
use amqp_model::{Address, AnyValue, Binary, DeliveryTag, Map, PerfFault, Symbol, Symbols, Text};
use amqp_types::{Kind, Plain, TypeFault, Value, encode, front_of, value_of};
use std::alloc::{AllocError, Global};

/// A place among the fields of a list.
#[derive(Clone, Copy)]
pub struct Fields<'a> {
    /// How many levels a field's value may have.
    pub depth: u32,
    /// How many items are left.
    pub left: u32,
    /// The bytes from there on.
    pub rest: &'a [u8],
}

impl<'a> Fields<'a> {
    /// After the last item nothing is left of the list's bytes.
    #[tactic(auto, unfolding(crate::specs::Fields::ended))]
    pub fn ended(&self) -> Result<(), PerfFault>
        ensures { Gives result (fields.ended (at_of self.now)) }
    {
        if self.rest.is_empty() {
            Ok(())
        } else {
            Err(PerfFault::Spelling(TypeFault::SizeMismatch))
        }
    }

    /// A field that holds no other values.
    #[inline(always)]
    #[tactic(auto, unfolding(crate::specs::Fields::plain))]
    pub fn plain(&mut self) -> Result<Option<Plain<'a>>, PerfFault>
        ensures { Took (option_map plain_view) result (at_of self.new) (fields.plain (at_of self.old)) }
    {
        if self.left == 0 {
            self.ended()?;
            return Ok(None);
        }
        let (part, rest) = front_of(self.depth, self.rest).map_err(within_list)?;
        self.left -= 1;
        self.rest = rest;
        match part {
            None => Err(PerfFault::WrongKind),
            Some(Plain::Null) => Ok(None),
            Some(plain) => Ok(Some(plain)),
        }
    }

    /// A boolean that is false where it is absent.
    #[inline(never)]
    #[tactic(auto, unfolding(crate::specs::Fields::flag))]
    pub fn flag(&mut self) -> Result<bool, PerfFault>
        ensures { Took (λ b. b) result (at_of self.new) (fields.flag (at_of self.old)) }
    {
        match self.plain()? {
            None => Ok(false),
            Some(Plain::Boolean(flag)) => Ok(flag),
            Some(_) => Err(PerfFault::WrongKind),
        }
    }

    /// A required boolean.
    #[inline(never)]
    #[tactic(auto, unfolding(crate::specs::Fields::required_flag))]
    pub fn required_flag(&mut self) -> Result<bool, PerfFault>
        ensures { Took (λ b. b) result (at_of self.new) (fields.required_flag (at_of self.old)) }
    {
        match self.plain()? {
            None => Err(PerfFault::MissingField),
            Some(Plain::Boolean(flag)) => Ok(flag),
            Some(_) => Err(PerfFault::WrongKind),
        }
    }

    /// A ubyte.
    #[inline(never)]
    #[tactic(auto, unfolding(crate::specs::Fields::ubyte))]
    pub fn ubyte(&mut self) -> Result<Option<u8>, PerfFault>
        ensures { Took (λ n. n) result (at_of self.new) (fields.ubyte (at_of self.old)) }
    {
        match self.plain()? {
            None => Ok(None),
            Some(Plain::Ubyte(number)) => Ok(Some(number)),
            Some(_) => Err(PerfFault::WrongKind),
        }
    }

    /// A required ubyte.
    #[tactic(auto, unfolding(crate::specs::Fields::required_ubyte))]
    pub fn required_ubyte(&mut self) -> Result<u8, PerfFault>
        ensures { Took (λ n. n) result (at_of self.new) (fields.required_ubyte (at_of self.old)) }
    {
        match self.plain()? {
            None => Err(PerfFault::MissingField),
            Some(Plain::Ubyte(number)) => Ok(number),
            Some(_) => Err(PerfFault::WrongKind),
        }
    }

    /// A ushort.
    #[inline(never)]
    #[tactic(auto, unfolding(crate::specs::Fields::ushort))]
    pub fn ushort(&mut self) -> Result<Option<u16>, PerfFault>
        ensures { Took (λ n. n) result (at_of self.new) (fields.ushort (at_of self.old)) }
    {
        match self.plain()? {
            None => Ok(None),
            Some(Plain::Ushort(number)) => Ok(Some(number)),
            Some(_) => Err(PerfFault::WrongKind),
        }
    }

    /// A uint.
    #[inline(never)]
    #[tactic(auto, unfolding(crate::specs::Fields::uint))]
    pub fn uint(&mut self) -> Result<Option<u32>, PerfFault>
        ensures { Took (λ n. n) result (at_of self.new) (fields.uint (at_of self.old)) }
    {
        match self.plain()? {
            None => Ok(None),
            Some(Plain::Uint(number)) => Ok(Some(number)),
            Some(_) => Err(PerfFault::WrongKind),
        }
    }

    /// A required uint.
    #[inline(never)]
    #[tactic(auto, unfolding(crate::specs::Fields::required_uint))]
    pub fn required_uint(&mut self) -> Result<u32, PerfFault>
        ensures { Took (λ n. n) result (at_of self.new) (fields.required_uint (at_of self.old)) }
    {
        match self.plain()? {
            None => Err(PerfFault::MissingField),
            Some(Plain::Uint(number)) => Ok(number),
            Some(_) => Err(PerfFault::WrongKind),
        }
    }

    /// A ulong.
    #[inline(never)]
    #[tactic(auto, unfolding(crate::specs::Fields::ulong))]
    pub fn ulong(&mut self) -> Result<Option<u64>, PerfFault>
        ensures { Took (λ n. n) result (at_of self.new) (fields.ulong (at_of self.old)) }
    {
        match self.plain()? {
            None => Ok(None),
            Some(Plain::Ulong(number)) => Ok(Some(number)),
            Some(_) => Err(PerfFault::WrongKind),
        }
    }

    /// A required ulong.
    #[tactic(auto, unfolding(crate::specs::Fields::required_ulong))]
    pub fn required_ulong(&mut self) -> Result<u64, PerfFault>
        ensures { Took (λ n. n) result (at_of self.new) (fields.required_ulong (at_of self.old)) }
    {
        match self.plain()? {
            None => Err(PerfFault::MissingField),
            Some(Plain::Ulong(number)) => Ok(number),
            Some(_) => Err(PerfFault::WrongKind),
        }
    }

    /// A string.
    #[tactic(auto, unfolding(crate::specs::Fields::text))]
    pub fn text(&mut self, alloc: Global) -> Result<Option<Text>, PerfFault>
        ensures { Took (λ x. x) result (at_of self.new) (fields.text (at_of self.old)) }
    {
        match self.plain()? {
            None => Ok(None),
            Some(Plain::String(text)) => Ok(Some(Text::new(String::from_str(alloc, text)?))),
            Some(_) => Err(PerfFault::WrongKind),
        }
    }

    /// A required string.
    #[tactic(auto, unfolding(crate::specs::Fields::required_text))]
    pub fn required_text(&mut self, alloc: Global) -> Result<Text, PerfFault>
        ensures { Took (λ x. x) result (at_of self.new) (fields.required_text (at_of self.old)) }
    {
        match self.plain()? {
            None => Err(PerfFault::MissingField),
            Some(Plain::String(text)) => Ok(Text::new(String::from_str(alloc, text)?)),
            Some(_) => Err(PerfFault::WrongKind),
        }
    }

    /// A symbol.
    #[tactic(auto, unfolding(crate::specs::Fields::symbol))]
    pub fn symbol(&mut self, alloc: Global) -> Result<Option<Symbol>, PerfFault>
        ensures { Took (λ x. x) result (at_of self.new) (fields.symbol (at_of self.old)) }
    {
        match self.plain()? {
            None => Ok(None),
            Some(Plain::Symbol(symbol)) => Ok(Some(Symbol::new(String::from_str(alloc, symbol)?))),
            Some(_) => Err(PerfFault::WrongKind),
        }
    }

    /// A required symbol.
    #[tactic(auto, unfolding(crate::specs::Fields::required_symbol))]
    pub fn required_symbol(&mut self, alloc: Global) -> Result<Symbol, PerfFault>
        ensures { Took (λ x. x) result (at_of self.new) (fields.required_symbol (at_of self.old)) }
    {
        match self.plain()? {
            None => Err(PerfFault::MissingField),
            Some(Plain::Symbol(symbol)) => Ok(Symbol::new(String::from_str(alloc, symbol)?)),
            Some(_) => Err(PerfFault::WrongKind),
        }
    }

    /// A binary.
    #[tactic(auto, unfolding(crate::specs::Fields::binary))]
    pub fn binary(&mut self, alloc: Global) -> Result<Option<Binary>, PerfFault>
        ensures { Took (λ x. x) result (at_of self.new) (fields.binary (at_of self.old)) }
    {
        match self.plain()? {
            None => Ok(None),
            Some(Plain::Binary(octets)) => Ok(Some(Binary::new(Vec::from_slice(alloc, octets)?))),
            Some(_) => Err(PerfFault::WrongKind),
        }
    }

    /// A required binary.
    #[tactic(auto, unfolding(crate::specs::Fields::required_binary))]
    pub fn required_binary(&mut self, alloc: Global) -> Result<Binary, PerfFault>
        ensures { Took (λ x. x) result (at_of self.new) (fields.required_binary (at_of self.old)) }
    {
        match self.plain()? {
            None => Err(PerfFault::MissingField),
            Some(Plain::Binary(octets)) => Ok(Binary::new(Vec::from_slice(alloc, octets)?)),
            Some(_) => Err(PerfFault::WrongKind),
        }
    }

    /// A value of any type.
    #[tactic(auto, unfolding(crate::specs::Fields::value))]
    pub fn value(&mut self, alloc: Global) -> Result<Option<Value>, PerfFault>
        ensures { Took (option_map view) result (at_of self.new) (fields.value (at_of self.old)) }
    {
        if self.left == 0 {
            self.ended()?;
            return Ok(None);
        }
        let (value, rest) = value_of(alloc, self.depth, self.rest).map_err(within_list)?;
        self.left -= 1;
        self.rest = rest;
        match value {
            Value::Null => Ok(None),
            value => Ok(Some(value)),
        }
    }

    /// A delivery tag: a binary of 32 bytes at most.
    #[inline(never)]
    #[tactic(auto, unfolding(crate::specs::Fields::tag))]
    pub fn tag(&mut self) -> Result<Option<DeliveryTag>, PerfFault>
        ensures { Took (λ x. x) result (at_of self.new) (fields.tag (at_of self.old)) }
    {
        match self.plain()? {
            None => Ok(None),
            Some(Plain::Binary(octets)) => Ok(Some(tag_of(octets)?)),
            Some(_) => Err(PerfFault::WrongKind),
        }
    }

    /// A map, carried unread.
    #[tactic(auto, unfolding(crate::specs::Fields::map))]
    pub fn map(&mut self, alloc: Global) -> Result<Option<Map>, PerfFault>
        ensures { Took (λ x. x) result (at_of self.new) (fields.map (at_of self.old)) }
    {
        match self.value(alloc)? {
            None => Ok(None),
            Some(Value::Map(pairs)) => Ok(Some(Map::new(spelt(alloc, &Value::Map(pairs))?))),
            Some(_) => Err(PerfFault::WrongKind),
        }
    }

    /// The address of a terminus.
    #[tactic(auto, unfolding(crate::specs::Fields::address_at))]
    pub fn address(&mut self, alloc: Global) -> Result<Option<Address>, PerfFault>
        ensures { Took (λ x. x) result (at_of self.new) (fields.address_at (at_of self.old)) }
    {
        match self.value(alloc)? {
            None => Ok(None),
            Some(Value::String(text)) => Ok(Some(Address::Text(Text::new(text)))),
            Some(value) => Ok(Some(Address::Other(AnyValue::new(spelt(alloc, &value)?)))),
        }
    }

    /// Symbols: none, one, or an array of them.
    #[tactic(auto, unfolding(crate::specs::Fields::symbols))]
    pub fn symbols(&mut self, alloc: Global) -> Result<Symbols, PerfFault>
        ensures { Took (λ x. x) result (at_of self.new) (fields.symbols (at_of self.old)) }
    {
        match self.value(alloc)? {
            None => Ok(Symbols::new(Vec::new(alloc))),
            Some(Value::Symbol(text)) => Ok(Symbols::new(Vec::from_array(
                alloc,
                [Symbol::new(text)],
            )?)),
            Some(Value::Array(Kind::Symbol, elements)) => symbols_of(alloc, elements),
            Some(_) => Err(PerfFault::WrongKind),
        }
    }

    /// Symbols, at least one.
    #[tactic(auto, unfolding(crate::specs::Fields::required_symbols))]
    pub fn required_symbols(&mut self, alloc: Global) -> Result<Symbols, PerfFault>
        ensures { Took (λ x. x) result (at_of self.new) (fields.required_symbols (at_of self.old)) }
    {
        let symbols = self.symbols(alloc)?;
        if symbols.as_slice().is_empty() {
            Err(PerfFault::MissingField)
        } else {
            Ok(symbols)
        }
    }
}

fn tag_of(octets: &[u8]) -> Result<DeliveryTag, PerfFault>
    ensures { Gives result (fields.tag_of octets.now) }
{
    let mut tag = DeliveryTag::new();
    match tag.try_extend_from_slice(octets) {
        Ok(()) => Ok(tag),
        Err(_) => Err(PerfFault::TagTooLong),
    }
}

/// The canonical encoding of a value.
pub(crate) fn spelt(alloc: Global, value: &Value) -> Result<Vec<u8>, AllocError>
    ensures { IfOk result (λ bytes. bytes.items ≡ spelling (view value.now)) }
{
    let mut bytes = Vec::new(alloc);
    encode(alloc, value, &mut bytes)?;
    Ok(bytes)
}

/// The symbols of an array.
fn symbols_of(alloc: Global, elements: Vec<Value>) -> Result<Symbols, PerfFault>
    ensures { Gives result (fields.are_symbols (items_view elements.items)) }
{
    let mut symbols = Vec::with_capacity(alloc, elements.len())?;
    for element in elements {
        match element {
            Value::Symbol(text) => symbols.push(Symbol::new(text))?,
            _ => return Err(PerfFault::WrongKind),
        }
    }
    Ok(Symbols::new(symbols))
}
