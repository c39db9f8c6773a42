//! The listing of a stream of bytes: a line for each item, and one for the rest.
ghost use Rattle.std.specs.Prelude.{◌≡◌, ◌++◌, ◌+◌, ◌∷◌, [], length, IfOk, OnOk};
ghost use Rattle.std.specs.List.{list_any};
ghost use Rattle.amqr_files.specs.Listing.{IsListing, Lists, is_bad, line_of, lines_of_items, descriptor_of};

use crate::print::{print_lines, refuse};
use crate::status::{Refusal, Status};
use amqp_frames::FrameReader;
use amqp_model::{Descriptor, FrameFault, Item, Perf};
use std::alloc::{AllocError, Global};
use std::fmt::{self, Display, Formatter};
use std::io::{self, Write};

/// The bytes that are read at a time.
const PIECE: usize = 16_384;

/// A line of a listing; `{}` prints it, without the LF.
#[derive(Clone, Copy, Debug, PartialEq, Eq)]
pub enum ListingLine {
    /// A protocol header: `header ID`.
    Header {
        /// 0 for AMQP, 2 for TLS, 3 for SASL.
        id: u8,
    },
    /// An empty frame: `beat C`.
    Beat {
        /// Its channel.
        channel: u16,
    },
    /// A frame: `frame C DD P`.
    Frame {
        /// Its channel.
        channel: u16,
        /// The descriptor of its performative.
        descriptor: Descriptor,
        /// The length of its payload, in bytes.
        payload: usize,
    },
    /// A SASL frame: `sasl DD`.
    Sasl {
        /// The descriptor of its body.
        descriptor: Descriptor,
    },
    /// Bytes that begin no item: `bad F`.
    Bad {
        /// The number of the fault.
        fault: u8,
    },
    /// The bytes after the items: `rest N`.
    Rest {
        /// Their number.
        bytes: usize,
    },
}

impl Display for ListingLine {
    ghost use Rattle.std.specs.Prelude.{Some};
    ghost use Rattle.amqr_files.specs.Listing.{text_of};

    ghost output = { λ line. Some (text_of line) };

    fn fmt<W: fmt::Write>(&self, f: &mut Formatter<W>) -> fmt::Result {
        match self {
            ListingLine::Header { id } => write!(f, "header {id}"),
            ListingLine::Beat { channel } => write!(f, "beat {channel}"),
            ListingLine::Frame {
                channel,
                descriptor,
                payload,
            } => {
                let code = descriptor.code();
                write!(f, "frame {channel} {code:X} {payload}")
            }
            ListingLine::Sasl { descriptor } => {
                let code = descriptor.code();
                write!(f, "sasl {code:X}")
            }
            ListingLine::Bad { fault } => write!(f, "bad {fault}"),
            ListingLine::Rest { bytes } => write!(f, "rest {bytes}"),
        }
    }
}

/// Writes the listing of a stream.
///
/// # Errors
///
/// An error of the output, which could not be written.
pub fn list<O: Write>(alloc: Global, stream: &[u8], output: &mut O) -> io::Result<Status>
    ensures { IfOk result (λ status. Lists stream.now status (O.contents output.old) (O.contents output.new)) }
{
    let Ok(lines) = list_stream(alloc, stream) else {
        return refuse(output, Refusal::Memory);
    };
    print_lines(output, lines.as_slice())?;
    if has_bad(lines.as_slice()) {
        return Ok(Status::BadInput);
    }
    Ok(Status::Done)
}

/// Whether a listing reports bytes that begin no item.
fn has_bad(lines: &[ListingLine]) -> bool
    ensures { result ≡ list_any is_bad lines.now }
{
    lines
        .iter()
        .any(|line| matches!(line, ListingLine::Bad { .. }))
}

/// The listing of a stream: its items, the last of which may say that what follows begins none, and the number of
/// bytes after them.
fn list_stream(alloc: Global, stream: &[u8]) -> Result<Vec<ListingLine>, AllocError>
    ensures { IfOk result (λ lines. IsListing stream.now lines.items) }
{
    let mut reader = FrameReader::new(alloc);
    let mut lines = Vec::new(alloc);
    let mut behind = stream;
    while !behind.is_empty() {
        let (piece, others) = behind.split_at(behind.len().min(PIECE));
        match reader.feed(piece) {
            Ok(items) => list_items(&mut lines, items.as_slice())?,
            Err(FrameFault::Failed) => return finish(lines, &reader, behind),
            Err(_) => return Err(AllocError),
        }
        behind = others;
    }
    finish(lines, &reader, behind)
}

/// Adds the line of the bytes after the items: those that the reader keeps, and those that it did not take.
fn finish(
    mut lines: Vec<ListingLine>,
    reader: &FrameReader,
    behind: &[u8],
) -> Result<Vec<ListingLine>, AllocError>
    ensures { IfOk result (λ all. all.items ≡ lines.items ++ ListingLine.Rest (length reader.now.rest + length behind.now) ∷ []) }
{
    lines.push(ListingLine::Rest {
        bytes: reader.rest().len() + behind.len(),
    })?;
    Ok(lines)
}

/// Adds the lines of these items.
fn list_items(lines: &mut Vec<ListingLine>, items: &[Item]) -> Result<(), AllocError>
    ensures { OnOk result (lines.new.items ≡ lines.old.items ++ lines_of_items items.now) }
{
    for item in items {
        lines.push(line_of(item))?;
    }
    Ok(())
}

/// The line of an item.
fn line_of(item: &Item) -> ListingLine
    ensures { result ≡ line_of item.now }
{
    match item {
        Item::Header { id, .. } => ListingLine::Header { id: *id },
        Item::Beat { channel } => ListingLine::Beat { channel: *channel },
        Item::Frame {
            sasl,
            channel,
            perf,
            payload,
        } => {
            let descriptor = descriptor_of(perf);
            if *sasl {
                return ListingLine::Sasl { descriptor };
            }
            ListingLine::Frame {
                channel: *channel,
                descriptor,
                payload: payload.len(),
            }
        }
        Item::Bad(fault) => ListingLine::Bad {
            fault: fault.number(),
        },
    }
}

/// The descriptor of a performative or a SASL body.
fn descriptor_of(perf: &Perf) -> Descriptor
    ensures { result ≡ descriptor_of perf.now }
{
    match perf {
        Perf::Open(_) => Descriptor::Open,
        Perf::Begin(_) => Descriptor::Begin,
        Perf::Attach(_) => Descriptor::Attach,
        Perf::Flow(_) => Descriptor::Flow,
        Perf::Transfer(_) => Descriptor::Transfer,
        Perf::Disposition(_) => Descriptor::Disposition,
        Perf::Detach(_) => Descriptor::Detach,
        Perf::End(_) => Descriptor::End,
        Perf::Close(_) => Descriptor::Close,
        Perf::SaslMechanisms(_) => Descriptor::SaslMechanisms,
        Perf::SaslInit(_) => Descriptor::SaslInit,
        Perf::SaslChallenge(_) => Descriptor::SaslChallenge,
        Perf::SaslResponse(_) => Descriptor::SaslResponse,
        Perf::SaslOutcome(_) => Descriptor::SaslOutcome,
    }
}
