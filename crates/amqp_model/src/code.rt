//! The constructor codes: which byte says what follows it (AMQP 1.0 part 1, section 1.6).

ghost use Rattle.std.specs.Prelude.{◌≡◌};
ghost use Rattle.amqp_model.specs.Codes.{code_of, layout_of, leaf_kind, kind_of, is_without_bytes, narrow_code, wide_code};

/// The width of a size and of a count, in bytes.
#[derive(Clone, Copy, Debug, PartialEq, Eq)]
pub enum Size {
    One,
    Four,
}

/// The constructors of values that hold no others.
#[derive(Clone, Copy, Debug, PartialEq, Eq)]
pub enum Leaf {
    Null,
    True,
    False,
    Boolean,
    Ubyte,
    Ushort,
    Uint,
    SmallUint,
    ZeroUint,
    Ulong,
    SmallUlong,
    ZeroUlong,
    Byte,
    Short,
    Int,
    SmallInt,
    Long,
    SmallLong,
    Float,
    Double,
    Decimal32,
    Decimal64,
    Decimal128,
    Char,
    Timestamp,
    Uuid,
    Binary(Size),
    String(Size),
    Symbol(Size),
}

/// A constructor.
#[derive(Clone, Copy, Debug, PartialEq, Eq)]
pub enum Code {
    Leaf(Leaf),
    EmptyList,
    List(Size),
    Map(Size),
    Array(Size),
    Described,
}

/// Where the bytes of a value without others are: a fixed number, or as many as a size before them says.
#[derive(Clone, Copy, Debug, PartialEq, Eq)]
pub enum Layout {
    Fixed(usize),
    Sized(Size),
}

/// The types that the elements of an array can have.
#[derive(Clone, Copy, Debug, PartialEq, Eq)]
pub enum Kind {
    Null,
    Boolean,
    Ubyte,
    Ushort,
    Uint,
    Ulong,
    Byte,
    Short,
    Int,
    Long,
    Float,
    Double,
    Decimal32,
    Decimal64,
    Decimal128,
    Char,
    Timestamp,
    Uuid,
    Binary,
    String,
    Symbol,
    List,
    Map,
    Array,
}

/// The constructor that a byte is.
#[inline(always)]
#[tactic(auto, unfolding(crate::specs::Codes::code_of))]
pub fn constructor(byte: u8) -> Option<Code>
    ensures { result ≡ code_of byte }
{
    match byte {
        0x00 => Some(Code::Described),
        0x40 => Some(Code::Leaf(Leaf::Null)),
        0x41 => Some(Code::Leaf(Leaf::True)),
        0x42 => Some(Code::Leaf(Leaf::False)),
        0x43 => Some(Code::Leaf(Leaf::ZeroUint)),
        0x44 => Some(Code::Leaf(Leaf::ZeroUlong)),
        0x45 => Some(Code::EmptyList),
        0x50 => Some(Code::Leaf(Leaf::Ubyte)),
        0x51 => Some(Code::Leaf(Leaf::Byte)),
        0x52 => Some(Code::Leaf(Leaf::SmallUint)),
        0x53 => Some(Code::Leaf(Leaf::SmallUlong)),
        0x54 => Some(Code::Leaf(Leaf::SmallInt)),
        0x55 => Some(Code::Leaf(Leaf::SmallLong)),
        0x56 => Some(Code::Leaf(Leaf::Boolean)),
        0x60 => Some(Code::Leaf(Leaf::Ushort)),
        0x61 => Some(Code::Leaf(Leaf::Short)),
        0x70 => Some(Code::Leaf(Leaf::Uint)),
        0x71 => Some(Code::Leaf(Leaf::Int)),
        0x72 => Some(Code::Leaf(Leaf::Float)),
        0x73 => Some(Code::Leaf(Leaf::Char)),
        0x74 => Some(Code::Leaf(Leaf::Decimal32)),
        0x80 => Some(Code::Leaf(Leaf::Ulong)),
        0x81 => Some(Code::Leaf(Leaf::Long)),
        0x82 => Some(Code::Leaf(Leaf::Double)),
        0x83 => Some(Code::Leaf(Leaf::Timestamp)),
        0x84 => Some(Code::Leaf(Leaf::Decimal64)),
        0x94 => Some(Code::Leaf(Leaf::Decimal128)),
        0x98 => Some(Code::Leaf(Leaf::Uuid)),
        0xa0 => Some(Code::Leaf(Leaf::Binary(Size::One))),
        0xa1 => Some(Code::Leaf(Leaf::String(Size::One))),
        0xa3 => Some(Code::Leaf(Leaf::Symbol(Size::One))),
        0xb0 => Some(Code::Leaf(Leaf::Binary(Size::Four))),
        0xb1 => Some(Code::Leaf(Leaf::String(Size::Four))),
        0xb3 => Some(Code::Leaf(Leaf::Symbol(Size::Four))),
        0xc0 => Some(Code::List(Size::One)),
        0xc1 => Some(Code::Map(Size::One)),
        0xd0 => Some(Code::List(Size::Four)),
        0xd1 => Some(Code::Map(Size::Four)),
        0xe0 => Some(Code::Array(Size::One)),
        0xf0 => Some(Code::Array(Size::Four)),
        _ => None,
    }
}

impl Leaf {
    /// The type of a value after this constructor.
    pub fn kind(self) -> Kind
        ensures { result ≡ leaf_kind self }
    {
        match self {
            Leaf::Null => Kind::Null,
            Leaf::True | Leaf::False | Leaf::Boolean => Kind::Boolean,
            Leaf::Ubyte => Kind::Ubyte,
            Leaf::Ushort => Kind::Ushort,
            Leaf::Uint | Leaf::SmallUint | Leaf::ZeroUint => Kind::Uint,
            Leaf::Ulong | Leaf::SmallUlong | Leaf::ZeroUlong => Kind::Ulong,
            Leaf::Byte => Kind::Byte,
            Leaf::Short => Kind::Short,
            Leaf::Int | Leaf::SmallInt => Kind::Int,
            Leaf::Long | Leaf::SmallLong => Kind::Long,
            Leaf::Float => Kind::Float,
            Leaf::Double => Kind::Double,
            Leaf::Decimal32 => Kind::Decimal32,
            Leaf::Decimal64 => Kind::Decimal64,
            Leaf::Decimal128 => Kind::Decimal128,
            Leaf::Char => Kind::Char,
            Leaf::Timestamp => Kind::Timestamp,
            Leaf::Uuid => Kind::Uuid,
            Leaf::Binary(_) => Kind::Binary,
            Leaf::String(_) => Kind::String,
            Leaf::Symbol(_) => Kind::Symbol,
        }
    }

    /// Where the bytes after the constructor are.
    #[inline(always)]
    pub fn layout(self) -> Layout
        ensures { result ≡ layout_of self }
    {
        match self {
            Leaf::Null | Leaf::True | Leaf::False | Leaf::ZeroUint | Leaf::ZeroUlong => {
                Layout::Fixed(0)
            }
            Leaf::Boolean
            | Leaf::Ubyte
            | Leaf::Byte
            | Leaf::SmallUint
            | Leaf::SmallUlong
            | Leaf::SmallInt
            | Leaf::SmallLong => Layout::Fixed(1),
            Leaf::Ushort | Leaf::Short => Layout::Fixed(2),
            Leaf::Uint | Leaf::Int | Leaf::Float | Leaf::Decimal32 | Leaf::Char => Layout::Fixed(4),
            Leaf::Ulong | Leaf::Long | Leaf::Double | Leaf::Decimal64 | Leaf::Timestamp => {
                Layout::Fixed(8)
            }
            Leaf::Decimal128 | Leaf::Uuid => Layout::Fixed(16),
            Leaf::Binary(size) | Leaf::String(size) | Leaf::Symbol(size) => Layout::Sized(size),
        }
    }
}

impl Code {
    /// The type of a value after this constructor; none for a described value.
    pub fn kind(self) -> Option<Kind>
        ensures { result ≡ kind_of self }
    {
        match self {
            Code::Leaf(leaf) => Some(leaf.kind()),
            Code::EmptyList | Code::List(_) => Some(Kind::List),
            Code::Map(_) => Some(Kind::Map),
            Code::Array(_) => Some(Kind::Array),
            Code::Described => None,
        }
    }

    /// Whether nothing follows this constructor.
    pub fn is_without_bytes(self) -> bool
        ensures { result ≡ is_without_bytes self }
    {
        match self {
            Code::Leaf(leaf) => leaf.layout() == Layout::Fixed(0),
            Code::EmptyList => true,
            Code::List(_) | Code::Map(_) | Code::Array(_) | Code::Described => false,
        }
    }
}

impl Kind {
    /// The byte of the shorter constructor of this type that has bytes after it.
    #[inline(always)]
    pub fn narrow_code(self) -> u8
        ensures { result ≡ narrow_code self }
    {
        match self {
            Kind::Null => 0x40,
            Kind::Boolean => 0x56,
            Kind::Ubyte => 0x50,
            Kind::Ushort => 0x60,
            Kind::Uint => 0x52,
            Kind::Ulong => 0x53,
            Kind::Byte => 0x51,
            Kind::Short => 0x61,
            Kind::Int => 0x54,
            Kind::Long => 0x55,
            Kind::Float => 0x72,
            Kind::Double => 0x82,
            Kind::Decimal32 => 0x74,
            Kind::Decimal64 => 0x84,
            Kind::Decimal128 => 0x94,
            Kind::Char => 0x73,
            Kind::Timestamp => 0x83,
            Kind::Uuid => 0x98,
            Kind::Binary => 0xa0,
            Kind::String => 0xa1,
            Kind::Symbol => 0xa3,
            Kind::List => 0xc0,
            Kind::Map => 0xc1,
            Kind::Array => 0xe0,
        }
    }

    /// The byte of the longer constructor of this type.
    #[inline(always)]
    pub fn wide_code(self) -> u8
        ensures { result ≡ wide_code self }
    {
        match self {
            Kind::Null => 0x40,
            Kind::Boolean => 0x56,
            Kind::Ubyte => 0x50,
            Kind::Ushort => 0x60,
            Kind::Uint => 0x70,
            Kind::Ulong => 0x80,
            Kind::Byte => 0x51,
            Kind::Short => 0x61,
            Kind::Int => 0x71,
            Kind::Long => 0x81,
            Kind::Float => 0x72,
            Kind::Double => 0x82,
            Kind::Decimal32 => 0x74,
            Kind::Decimal64 => 0x84,
            Kind::Decimal128 => 0x94,
            Kind::Char => 0x73,
            Kind::Timestamp => 0x83,
            Kind::Uuid => 0x98,
            Kind::Binary => 0xb0,
            Kind::String => 0xb1,
            Kind::Symbol => 0xb3,
            Kind::List => 0xd0,
            Kind::Map => 0xd1,
            Kind::Array => 0xf0,
        }
    }
}
