//! Values that hold no others, borrowed from the bytes that encode them.

ghost use Rattle.std.specs.Prelude.{◌≡◌, IfOk};
ghost use Rattle.amqp_model.specs.View.{view, plain_view};

use crate::value::Value;
use std::alloc::{AllocError, Global};

/// A value that holds no others. Its texts are those of the bytes that encode it.
#[derive(Clone, Copy, Debug, PartialEq)]
pub enum Plain<'a> {
    Null,
    Boolean(bool),
    Ubyte(u8),
    Ushort(u16),
    Uint(u32),
    Ulong(u64),
    Byte(i8),
    Short(i16),
    Int(i32),
    Long(i64),
    Float([u8; 4]),
    Double([u8; 8]),
    Decimal32([u8; 4]),
    Decimal64([u8; 8]),
    Decimal128([u8; 16]),
    Char(char),
    /// Milliseconds since 1970 began, in UTC.
    Timestamp(i64),
    Uuid([u8; 16]),
    Binary(&'a [u8]),
    String(&'a str),
    /// A name of ASCII characters.
    Symbol(&'a str),
}

impl Plain<'_> {
    /// The same value with texts of its own.
    #[inline(always)]
    pub fn to_value(self, alloc: Global) -> Result<Value, AllocError>
        ensures { IfOk result (λ v. view v ≡ plain_view self.entry) }
    {
        Ok(match self {
            Plain::Null => Value::Null,
            Plain::Boolean(b) => Value::Boolean(b),
            Plain::Ubyte(n) => Value::Ubyte(n),
            Plain::Ushort(n) => Value::Ushort(n),
            Plain::Uint(n) => Value::Uint(n),
            Plain::Ulong(n) => Value::Ulong(n),
            Plain::Byte(n) => Value::Byte(n),
            Plain::Short(n) => Value::Short(n),
            Plain::Int(n) => Value::Int(n),
            Plain::Long(n) => Value::Long(n),
            Plain::Float(bytes) => Value::Float(bytes),
            Plain::Double(bytes) => Value::Double(bytes),
            Plain::Decimal32(bytes) => Value::Decimal32(bytes),
            Plain::Decimal64(bytes) => Value::Decimal64(bytes),
            Plain::Decimal128(bytes) => Value::Decimal128(bytes),
            Plain::Char(c) => Value::Char(c),
            Plain::Timestamp(n) => Value::Timestamp(n),
            Plain::Uuid(bytes) => Value::Uuid(bytes),
            Plain::Binary(bytes) => Value::Binary(Vec::from_slice(alloc, bytes)?),
            Plain::String(text) => Value::String(String::from_str(alloc, text)?),
            Plain::Symbol(name) => Value::Symbol(String::from_str(alloc, name)?),
        })
    }
}
