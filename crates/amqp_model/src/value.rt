//! Values.

use crate::code::Kind;

/// A value of one of the types of AMQP 1.0 (part 1, section 1.6). Numbers with a binary point are
/// kept as their bytes.
#[derive(Debug, Drop, PartialEq)]
pub enum Value {
    Null,
    Boolean(bool),
    Ubyte(u8),
    Ushort(u16),
    Uint(u32),
    Ulong(u64),
    Byte(i8),
    Short(i16),
    Int(i32),
    Long(i64),
    Float([u8; 4]),
    Double([u8; 8]),
    Decimal32([u8; 4]),
    Decimal64([u8; 8]),
    Decimal128([u8; 16]),
    Char(char),
    /// Milliseconds since 1970 began, in UTC.
    Timestamp(i64),
    Uuid([u8; 16]),
    Binary(Vec<u8>),
    String(String),
    /// A name of ASCII characters.
    Symbol(String),
    List(Vec<Value>),
    /// Keys with their values, in order; equal keys are kept.
    Map(Vec<(Value, Value)>),
    /// The type of the elements, and the elements.
    Array(Kind, Vec<Value>),
    /// A descriptor, and the value that it describes.
    Described(Box<Value>, Box<Value>),
}
