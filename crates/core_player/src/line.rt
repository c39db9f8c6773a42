//! The lines that a play prints.
use amqp_model::Binary;
use core_machine::CoreFault;
use router_trace::ConnectionId;
use std::fmt::{self, Display, Formatter, Write};

/// A line of a play's output; `{}` prints it, without the LF.
#[derive(Debug, Drop)]
pub enum Line {
    /// An item is sent on a connection: `out N HEX`.
    Out {
        /// The connection.
        conn: ConnectionId,
        /// The item's canonical encoding.
        bytes: Binary,
    },
    /// The router ends a connection: `end N`.
    End {
        /// The connection.
        conn: ConnectionId,
    },
    /// The router answered an event with a fault: `failed C`.
    Failed(CoreFault),
    /// The router was opened again after a stop, for the run of this number, from 2 on: `run K`.
    Run(u64),
    /// The size of the book at the end: `book rows R termini T batches B`.
    Book {
        /// The rows.
        rows: u64,
        /// The termini.
        termini: u64,
        /// The batches of the journal.
        batches: u64,
    },
}

/// Bytes, as pairs of upper-case hexadecimal digits.
#[derive(Clone, Copy)]
struct Hex<'a> {
    bytes: &'a [u8],
}

impl Display for Hex<'_> {
    ghost use Rattle.std.specs.Prelude.{Some};
    ghost use Rattle.core_player.specs.Printing.{hex_text};

    ghost output = { λ hex. Some (hex_text hex.bytes.now) };

    fn fmt<W: Write>(&self, f: &mut Formatter<W>) -> fmt::Result {
        for byte in self.bytes {
            let byte = *byte;
            write!(f, "{byte:02X}")?;
        }
        Ok(())
    }
}

impl Display for Line {
    ghost use Rattle.std.specs.Prelude.{Some};
    ghost use Rattle.core_player.specs.Printing.{line_text};

    ghost output = { λ line. Some (line_text line) };

    fn fmt<W: Write>(&self, f: &mut Formatter<W>) -> fmt::Result {
        match self {
            Line::Out { conn, bytes } => {
                let conn = conn.0;
                let hex = Hex {
                    bytes: bytes.as_slice(),
                };
                write!(f, "out {conn} {hex}")
            }
            Line::End { conn } => {
                let conn = conn.0;
                write!(f, "end {conn}")
            }
            Line::Failed(fault) => {
                let number = fault.number();
                write!(f, "failed {number}")
            }
            Line::Run(number) => write!(f, "run {number}"),
            Line::Book {
                rows,
                termini,
                batches,
            } => write!(f, "book rows {rows} termini {termini} batches {batches}"),
        }
    }
}
