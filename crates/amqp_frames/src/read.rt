//! What the bytes of one item mean.
ghost use Rattle.std.specs.Prelude.{◌≡◌, ◌+◌, ◌*◌, ◌≤◌, IsTrue, ◌↔◌, length, drop, IfOk};
ghost use Rattle.amqp_perf.specs.Contract.{Gives};
ghost use Rattle.amqp_perf.specs.Performative.{performative};
ghost use Rattle.amqp_frames.specs.Contract.{Reads, loaded};
ghost use Rattle.amqp_frames.specs.Frames.{frame, item_of, may_carry};

use crate::short_read::read_short;
use amqp_model::{FrameFault, Item, Perf, PerfFault};
use amqp_perf::read_perf;
use bytes::Bytes;
use std::alloc::Global;

/// Reads the item that these bytes are, without its payload, and gives the place where that begins.
#[tactic(auto, using(crate::proofs::Items::item_short, crate::proofs::Items::item_header, crate::proofs::Items::item_sasl, crate::proofs::Items::item_frame))]
pub(crate) fn read_item(alloc: Global, text: &[u8]) -> Result<(Item, usize), FrameFault>
    ensures item { Reads result text.now (item_of text.now) }
    ensures within { IfOk result (λ read. read.1 ≤ length text.now) }
{
    let [a, b, c, d, offset, kind, high, low, ..] = text else {
        return Err(FrameFault::TooSmall);
    };
    if [*a, *b, *c, *d] == *b"AMQP" {
        let header = Item::Header {
            id: *offset,
            major: *kind,
            minor: *high,
            revision: *low,
        };
        return Ok((header, text.len()));
    }
    let body_at = 4 * (*offset as usize);
    if *kind == 1 {
        return read_frame(alloc, true, 0, text, body_at);
    }
    read_frame(
        alloc,
        false,
        u16::from_be_bytes([*high, *low]),
        text,
        body_at,
    )
}

/// Reads a frame whose body begins at this place.
fn read_frame(
    alloc: Global,
    sasl: bool,
    channel: u16,
    text: &[u8],
    body_at: usize,
) -> Result<(Item, usize), FrameFault>
    ensures item { Reads result text.now (frame sasl channel (drop body_at text.now)) }
    ensures within { IfOk result (λ read. read.1 ≤ length text.now) }
{
    let body = from_place(text, body_at);
    if body.is_empty() && !sasl {
        return Ok((Item::Beat { channel }, text.len()));
    }
    let (perf, behind) = read_body(alloc, body)?;
    let payload = from_place(body, behind);
    if !payload.is_empty() && !carries_payload(&perf) {
        drop(perf);
        return Err(FrameFault::Perf(PerfFault::NotPerformative));
    }
    let payload_at = text.len() - payload.len();
    let item = Item::Frame {
        sasl,
        channel,
        perf,
        payload: Bytes::new(),
    };
    Ok((item, payload_at))
}

/// Reads the performative at the front of a body: at once where it stands there in its usual spelling.
fn read_body(alloc: Global, body: &[u8]) -> Result<(Perf, usize), PerfFault>
    ensures exact { Gives result (performative body.now) }
    ensures within { IfOk result (λ read. read.1 ≤ length body.now) }
{
    match read_short(body) {
        Some(read) => Ok(read),
        None => read_perf(alloc, body),
    }
}

/// Only a transfer has a payload.
fn carries_payload(perf: &Perf) -> bool
    ensures { result ≡ may_carry perf.now }
{
    matches!(perf, Perf::Transfer(_))
}

/// The bytes from a place on: none where it is past the end.
fn from_place(bytes: &[u8], at: usize) -> &[u8]
    ensures { result.now ≡ drop at bytes.now }
{
    bytes.get(at..).unwrap_or(&[])
}

/// The item with this payload, if it can have one.
pub(crate) fn load(item: Item, payload: Bytes) -> Item
    ensures { result ≡ loaded item payload }
{
    match item {
        Item::Frame {
            sasl,
            channel,
            perf,
            payload: _,
        } => Item::Frame {
            sasl,
            channel,
            perf,
            payload,
        },
        other => other,
    }
}
