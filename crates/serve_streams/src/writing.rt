//! Spells items, and writes bytes.
ghost use Rattle.std.specs.Prelude.{◌≡◌, ◌<◌, ◌≤◌, true, false, length, take, OnOk};
ghost use Rattle.std.specs.Io.KnownBytes.{Appends};
ghost use Rattle.serve_streams.specs.Spelled.{spelled};

use amqp_frames::write_item;
use amqp_model::Item;
use std::alloc::{AllocError, Global};
use std::io::{ErrorKind, Write};

/// Writes these bytes, and returns how many were written and whether that was all. A failed write ends it, unless it was only
/// interrupted.
pub fn write_beginning<W: Write>(output: &mut W, bytes: &[u8]) -> (usize, bool)
    ensures bound { result.0 ≤ length bytes.now }
    ensures begun { Appends (W.contents output.old) (W.contents output.new) (take result.0 bytes.now) }
    ensures whole { result.1 ≡ true → Appends (W.contents output.old) (W.contents output.new) bytes.now }
    ensures short { result.1 ≡ false → result.0 < length bytes.now }
{
    let mut done = 0;
    for _turn in 0..u64::MAX {
        if done == bytes.len() {
            return (done, true);
        }
        let (_, rest) = bytes.split_at(done);
        match output.write(rest) {
            Ok(0) => return (done, false),
            Ok(count) => done += count,
            Err(error) => {
                if error.kind() != ErrorKind::Interrupted {
                    return (done, false);
                }
            }
        }
    }
    (done, done == bytes.len())
}

/// Encodes items into a buffer, which is emptied first.
///
/// # Errors
///
/// `AllocError` if memory was refused; the buffer's contents are unspecified then.
pub fn spell(alloc: Global, items: &[Item], buffer: &mut Vec<u8>) -> Result<(), AllocError>
    ensures { OnOk result (buffer.new.items ≡ spelled items.now) }
{
    buffer.clear();
    for item in items {
        write_item(alloc, item, buffer)?;
    }
    Ok(())
}
