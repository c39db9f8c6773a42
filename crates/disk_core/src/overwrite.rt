//! Bytes in memory, written and read at a place.
ghost use Rattle.std.specs.Prelude.{◌≡◌, ◌≤◌, ◌+◌, ◌++◌, length, take, drop, replicate, ◌-◌, vec_len, vec_capacity, [], OnOk, OnErr};
ghost use Rattle.disk_core.specs.Disk.{part, overwritten};

use std::alloc::AllocError;

/// Reserves memory for a write. The bytes stay.
pub(crate) fn reserve_for(bytes: &mut Vec<u8>, at: usize, count: usize) -> Result<(), AllocError>
    ensures same { bytes.new.items ≡ bytes.old.items }
    ensures room { OnOk result (at + count ≤ vec_capacity bytes.new) }
{
    let Some(end) = at.checked_add(count) else {
        return Err(AllocError);
    };
    if end > bytes.len() {
        bytes.reserve(end - bytes.len())?;
    }
    Ok(())
}

/// Writes over what is there and past the end, with zeros in a gap.
pub(crate) fn overwrite(bytes: &mut Vec<u8>, at: usize, written: &[u8])
    requires { at + length written.now ≤ vec_capacity bytes.old }
    ensures { bytes.new.items ≡ overwritten at written.now bytes.old.items }
{
    if written.is_empty() {
        return;
    }
    if at + written.len() <= bytes.len() {
        overwrite_within(bytes, at, written);
    } else {
        overwrite_to_end(bytes, at, written);
    }
}

fn overwrite_within(bytes: &mut Vec<u8>, at: usize, written: &[u8])
    requires { at + length written.now ≤ vec_len bytes.old }
    ensures { bytes.new.items ≡ take at bytes.old.items ++ written.now ++ drop (at + length written.now) bytes.old.items }
{
    bytes[at..at + written.len()].copy_from_slice(written);
}

fn overwrite_to_end(bytes: &mut Vec<u8>, at: usize, written: &[u8])
    requires room { at + length written.now ≤ vec_capacity bytes.old }
    ensures { bytes.new.items ≡ take at bytes.old.items ++ replicate (at - vec_len bytes.old) 0 ++ written.now }
{
    bytes.resize(at, 0).unwrap();
    bytes.extend_from_slice(written).unwrap();
}

/// At most this many bytes from a place on.
pub(crate) fn part_of(bytes: &[u8], at: usize, most: usize) -> &[u8]
    ensures { result.now ≡ part at most bytes.now }
{
    let rest = if at < bytes.len() { &bytes[at..] } else { &[] };
    if most < rest.len() {
        &rest[..most]
    } else {
        rest
    }
}

/// Copies what there is from a place on, as far as it fits into the buffer.
pub(crate) fn copy_part(bytes: &[u8], at: usize, buffer: &mut [u8]) -> usize
    ensures count { result ≡ length (part at (length buffer.old) bytes.now) }
    ensures copied { buffer.new ≡ part at (length buffer.old) bytes.now ++ drop result buffer.old }
{
    let there = part_of(bytes, at, buffer.len());
    buffer[..there.len()].copy_from_slice(there);
    there.len()
}
