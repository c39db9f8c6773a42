//! Reads a whole input.
ghost use Rattle.std.specs.Prelude.{◌≡◌, ◌≤◌, length, IfOk, IfErr, IfSome};
ghost use Rattle.std.specs.Io.KnownBytes.{Consumes, IsAtEnd};

use std::alloc::Global;
use std::io::{self, Read};
use thiserror::Error;

/// The most bytes that an input may have, and the most reads that it may take.
pub const MOST_BYTES: usize = 67_108_864;

/// The bytes that are asked for at a time.
const PIECE: usize = 16_384;

/// Why an input isn't read.
#[derive(Clone, Copy, Debug, PartialEq, Eq, Error)]
pub enum InputFault {
    /// It can't be read, or has more than the most bytes or takes more than the most reads.
    #[error("the file can't be read")]
    Unread,
    /// Memory was refused.
    #[error("out of memory")]
    Memory,
}

/// All bytes of an input.
///
/// # Errors
///
/// `Unread` where a read fails, or the end doesn't come within the most bytes and as many reads; `Memory` where memory
/// was refused.
pub fn read_whole<I: Read>(alloc: Global, input: &mut I) -> Result<Vec<u8>, InputFault>
    ensures bytes { IfOk result (λ bytes. Consumes (I.remaining input.old) (I.remaining input.new) bytes.items) }
    ensures end { IfOk result (λ bytes. IsAtEnd (I.remaining input.new)) }
    ensures most { IfOk result (λ bytes. length bytes.items ≤ MOST_BYTES) }
{
    let mut bytes = Vec::new(alloc);
    let mut piece = [0u8; PIECE];
    for _turn in 0..MOST_BYTES {
        let read = match input.read(&mut piece) {
            Ok(read) => read,
            Err(fault) if fault.kind() == io::ErrorKind::Interrupted => continue,
            Err(_) => return Err(InputFault::Unread),
        };
        if read == 0 {
            return Ok(bytes);
        }
        if read > MOST_BYTES - bytes.len() {
            return Err(InputFault::Unread);
        }
        if bytes.extend_from_slice(&piece[..read]).is_err() {
            return Err(InputFault::Memory);
        }
    }
    Err(InputFault::Unread)
}
