//! Writes items.
ghost use Rattle.std.specs.Prelude.{◌≡◌, ◌≤◌, ◌++◌, length, take, IfOk, OnOk, OnErr};
ghost use Rattle.amqp_model.specs.PerfSpelling.{spelling};
ghost use Rattle.amqp_model.specs.ItemSpelling.{frame_spelling, head_spelling, item_spelling};
ghost use Rattle.amqp_frames.specs.ShortLists.{short_list};

use crate::extent::MIN_SIZE;
use crate::short_write::{ShortList, put_short};
use amqp_model::{Item, Perf};
use amqp_perf::write_perf;
use std::alloc::{AllocError, Global};

/// Appends the canonical encoding of an item: a frame without an extended header, on channel 0 if it is a SASL frame, and
/// nothing for a `Bad`. A payload after another performative than a transfer, or a frame beyond the sizes that a
/// reader accepts, is still written.
///
/// # Errors
///
/// An error leaves the vector as it was. It comes where memory was refused, and for a frame whose size doesn't fit its
/// four bytes.
pub fn write_item(alloc: Global, item: &Item, out: &mut Vec<u8>) -> Result<(), AllocError>
    ensures ok { OnOk result (out.new.items ≡ out.old.items ++ item_spelling item.now) }
    ensures err { OnErr result (out.new.items ≡ out.old.items) }
{
    let start = out.len();
    let written = put_item(alloc, item, out);
    if written.is_err() {
        out.truncate(start);
    }
    written
}

/// Appends the encoding of an item, or a beginning of it.
#[tactic(auto, unfolding(amqp_model::specs::ItemSpelling::item_spelling))]
fn put_item(alloc: Global, item: &Item, out: &mut Vec<u8>) -> Result<(), AllocError>
    ensures ok { OnOk result (out.new.items ≡ out.old.items ++ item_spelling item.now) }
    ensures kept { OnErr result (take (length out.old.items) out.new.items ≡ out.old.items) }
{
    match item {
        Item::Header {
            id,
            major,
            minor,
            revision,
        } => out.extend_from_slice(&[b'A', b'M', b'Q', b'P', *id, *major, *minor, *revision]),
        Item::Frame {
            sasl,
            channel,
            perf,
            payload,
        } => put_frame(alloc, out, *sasl, *channel, perf, payload.as_slice()),
        Item::Beat { channel } => out.extend_from_slice(&head(false, *channel, 0)?),
        Item::Bad(_) => Ok(()),
    }
}

/// Appends a frame with this body, or a beginning of it.
fn put_frame(
    alloc: Global,
    out: &mut Vec<u8>,
    sasl: bool,
    channel: u16,
    perf: &Perf,
    payload: &[u8],
) -> Result<(), AllocError>
    ensures ok { OnOk result (out.new.items ≡ out.old.items ++ frame_spelling sasl channel (spelling perf.now ++ payload.now)) }
    ensures kept { OnErr result (take (length out.old.items) out.new.items ≡ out.old.items) }
{
    let mut fields = ShortList::new();
    match put_short(&mut fields, perf) {
        Some(list) => put_list(out, sasl, channel, list, fields.as_slice(), payload),
        None => put_any(alloc, out, sasl, channel, perf, payload),
    }
}

/// Appends a frame whose performative is a list with the number of its descriptor, its count and these fields, or a beginning of it.
fn put_list(
    out: &mut Vec<u8>,
    sasl: bool,
    channel: u16,
    list: (u8, u8),
    fields: &[u8],
    payload: &[u8],
) -> Result<(), AllocError>
    requires { length fields.now ≤ 64 }
    ensures ok { OnOk result (out.new.items ≡ out.old.items ++ frame_spelling sasl channel (short_list list.0 list.1 fields.now ++ payload.now)) }
    ensures kept { OnErr result (take (length out.old.items) out.new.items ≡ out.old.items) }
{
    let (code, count) = list;
    let size = fields.len() as u8 + 1;
    let begins = [0x00, 0x53, code, 0xc0, size, count];
    let Some(len) = payload.len().checked_add(begins.len() + fields.len()) else {
        return Err(AllocError);
    };
    let head = head(sasl, channel, len)?;
    out.extend_from_slice(&head)?;
    out.extend_from_slice(&begins)?;
    out.extend_from_slice(fields)?;
    out.extend_from_slice(payload)?;
    Ok(())
}

/// Appends a frame with any body, or a beginning of it. Room for its head is left before the body, and filled in once
/// the body's length is known, so that nothing is written twice.
fn put_any(
    alloc: Global,
    out: &mut Vec<u8>,
    sasl: bool,
    channel: u16,
    perf: &Perf,
    payload: &[u8],
) -> Result<(), AllocError>
    ensures ok { OnOk result (out.new.items ≡ out.old.items ++ frame_spelling sasl channel (spelling perf.now ++ payload.now)) }
    ensures kept { OnErr result (take (length out.old.items) out.new.items ≡ out.old.items) }
{
    let start = out.len();
    out.extend_from_slice(&[0; MIN_SIZE])?;
    write_perf(alloc, perf, out)?;
    out.extend_from_slice(payload)?;
    let body = start + MIN_SIZE;
    let head = head(sasl, channel, out.len() - body)?;
    out[start..body].copy_from_slice(&head);
    Ok(())
}

/// What stands before a body of this length.
fn head(sasl: bool, channel: u16, len: usize) -> Result<[u8; MIN_SIZE], AllocError>
    ensures { IfOk result (λ head. head ≡ head_spelling sasl channel len) }
{
    let Ok(size) = u32::try_from(len.saturating_add(MIN_SIZE)) else {
        return Err(AllocError);
    };
    let channel = if sasl { 0 } else { channel };
    let [a, b, c, d] = size.to_be_bytes();
    let [high, low] = channel.to_be_bytes();
    Ok([a, b, c, d, 2, u8::from(sasl), high, low])
}
