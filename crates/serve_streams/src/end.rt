//! Why a connection's threads end.
ghost use Rattle.std.specs.Prelude.{◌≡◌};
ghost use Rattle.serve_streams.specs.Ends.{read_number, write_number};

use core_machine::CoreFault;

/// Why a reader ended; `number` returns its number.
#[derive(Clone, Copy, Debug, PartialEq, Eq)]
pub enum ReadEnd {
    /// The input ended, or an item `Bad`, the last of a stream, was submitted.
    End,
    /// A read failed, or the door was still waiting after 1,024 reads.
    ReadFailed,
    /// Memory was refused.
    Memory,
    /// The router answered with a fault.
    Core(CoreFault),
    /// The door ended the connection.
    Door,
    /// An answer of the door could not be written.
    WriteFailed,
}

impl ReadEnd {
    /// The end's number: 1 to 6, in the order above.
    pub fn number(self) -> u8
        ensures { result ≡ read_number self }
    {
        match self {
            ReadEnd::End => 1,
            ReadEnd::ReadFailed => 2,
            ReadEnd::Memory => 3,
            ReadEnd::Core(_) => 4,
            ReadEnd::Door => 5,
            ReadEnd::WriteFailed => 6,
        }
    }
}

/// Why a writer ended; `number` returns its number.
#[derive(Clone, Copy, Debug, PartialEq, Eq)]
pub enum WriteEnd {
    /// The router ended the connection, and all was written.
    Ended,
    /// A write failed.
    WriteFailed,
    /// Memory was refused; the last batch was not written.
    Memory,
    /// The router answered with a fault.
    Core(CoreFault),
    /// A batch doesn't follow the one before; it was not written.
    Gap,
}

impl WriteEnd {
    /// The end's number: 1 to 5, in the order above.
    pub fn number(self) -> u8
        ensures { result ≡ write_number self }
    {
        match self {
            WriteEnd::Ended => 1,
            WriteEnd::WriteFailed => 2,
            WriteEnd::Memory => 3,
            WriteEnd::Core(_) => 4,
            WriteEnd::Gap => 5,
        }
    }
}
