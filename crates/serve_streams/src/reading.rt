//! Reads bytes, and cuts them into items.
ghost use Rattle.std.specs.Prelude.{◌≡◌, ℕ, List, length, IfOk, IfErr};
ghost use Rattle.std.specs.Io.KnownBytes.{Consumes};
ghost use Rattle.serve_streams.specs.Greeting.{Gives, Stops};

use crate::end::ReadEnd;
use amqp_frames::FrameReader;
use amqp_model::{FrameFault, Item};
use std::alloc::Global;
use std::io::{ErrorKind, Read};

/// Reads a piece, and returns the items that are complete with it. An interrupted read returns none.
///
/// # Errors
///
/// Why the reader ends: `End`, `ReadFailed` or `Memory`.
pub fn read_items<I: Read>(
    alloc: Global,
    frames: &mut FrameReader,
    input: &mut I,
    piece: &mut [u8],
) -> Result<Vec<Item>, ReadEnd>
    ensures ok { IfOk result (λ items. (bytes : List ℕ) × Consumes (I.remaining input.old) (I.remaining input.new) bytes × Gives frames.old bytes items.items frames.new) }
    ensures err { IfErr result (λ e. (bytes : List ℕ) × Consumes (I.remaining input.old) (I.remaining input.new) bytes × Stops e (length piece.old) frames.old bytes frames.new (I.remaining input.new)) }
{
    match input.read(piece) {
        Ok(0) => Err(ReadEnd::End),
        Ok(count) => {
            let (bytes, _) = piece.split_at(count);
            match frames.feed(bytes) {
                Ok(items) => Ok(items),
                Err(FrameFault::Memory) => Err(ReadEnd::Memory),
                Err(_) => Err(ReadEnd::End),
            }
        }
        Err(error) => {
            if error.kind() == ErrorKind::Interrupted {
                return Ok(Vec::new(alloc));
            }
            Err(ReadEnd::ReadFailed)
        }
    }
}
