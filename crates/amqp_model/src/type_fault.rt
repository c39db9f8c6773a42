//! Why bytes encode no value.

ghost use Rattle.std.specs.Prelude.{◌≡◌};
ghost use Rattle.amqp_model.specs.TypeFaults.{fault_number, inner};
ghost use Rattle.amqp_model.specs.declared.type_fault.TypeFault.TheVariants.{Memory};

use std::alloc::{AllocError, AllocFailed};
use thiserror::Error;

/// What is wrong with the bytes of a value, at the first place from the front where no value can go on.
#[derive(Clone, Copy, Debug, PartialEq, Eq, Error)]
pub enum TypeFault {
    /// The bytes end within the value, or before the end that a size names.
    #[error("the bytes end within a value")]
    Truncated,
    /// A byte is no constructor.
    #[error("a byte is no constructor")]
    UnknownCode,
    /// The byte of a boolean is neither 0 nor 1.
    #[error("a boolean is neither 0 nor 1")]
    BadBool,
    /// A string isn't UTF-8.
    #[error("a string is not UTF-8")]
    BadUtf8,
    /// A char is no Unicode scalar value.
    #[error("a char is no Unicode scalar value")]
    BadChar,
    /// A symbol isn't ASCII.
    #[error("a symbol is not ASCII")]
    BadSymbol,
    /// What a list, a map or an array holds doesn't fill its size exactly, or an array has more
    /// than 1,024 elements without bytes.
    #[error("a size does not fit what it holds")]
    SizeMismatch,
    /// A map's count is odd.
    #[error("a map has an odd count")]
    OddMap,
    /// A value stands inside 32 others.
    #[error("values are nested too deep")]
    TooDeep,
    /// The elements of an array are described values.
    #[error("an array has described elements")]
    DescribedArray,
    /// Memory ran out.
    #[error("out of memory")]
    Memory,
}

impl TypeFault {
    /// The fault's number, from 1 to 11, in the order of the variants.
    pub fn number(&self) -> u8
        ensures { result ≡ fault_number self.now }
    {
        match self {
            TypeFault::Truncated => 1,
            TypeFault::UnknownCode => 2,
            TypeFault::BadBool => 3,
            TypeFault::BadUtf8 => 4,
            TypeFault::BadChar => 5,
            TypeFault::BadSymbol => 6,
            TypeFault::SizeMismatch => 7,
            TypeFault::OddMap => 8,
            TypeFault::TooDeep => 9,
            TypeFault::DescribedArray => 10,
            TypeFault::Memory => 11,
        }
    }

    /// This fault inside a list, a map or an array, where the end of the bytes is the end of the compound.
    pub fn inside(self) -> TypeFault
        ensures { result ≡ inner self }
    {
        match self {
            TypeFault::Truncated => TypeFault::SizeMismatch,
            fault => fault,
        }
    }
}

impl From<AllocError> for TypeFault {
    ghost from_gives = { λ _ e. e ≡ Memory };

    fn from(_e: AllocError) -> TypeFault {
        TypeFault::Memory
    }
}

impl<T: Drop> From<AllocFailed<T>> for TypeFault {
    ghost from_gives = { λ _ e. e ≡ Memory };

    fn from(_e: AllocFailed<T>) -> TypeFault {
        TypeFault::Memory
    }
}
