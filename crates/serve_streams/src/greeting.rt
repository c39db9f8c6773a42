//! Headers and logins, before a connection has its threads.
ghost use Rattle.std.specs.Prelude.{◌≡◌, ◌≢◌, ◌<◌, ◌++◌, length, drop, IfOk, IfErr, OnOk};
ghost use Rattle.std.specs.Io.KnownBytes.{Appends};
ghost use Rattle.serve_streams.specs.Spelled.{spelled};
ghost use Rattle.serve_streams.specs.Greeting.{Greets, IsTold, Breaks, door_says, door_past, fate, fate_of, waits, passed};

use crate::end::ReadEnd;
use crate::reading::read_items;
use crate::writing::{spell, write_beginning};
use amqp_frames::FrameReader;
use amqp_model::{Item, Text};
use core_door::{Door, DoorAnswer};
use std::alloc::{AllocError, Global};
use std::io::{Read, Write};

/// The most reads before the door is passed.
pub const READS: usize = 1_024;

/// The number of bytes read at once.
const PIECE: usize = 4_096;

/// The result of the door.
#[derive(Drop)]
pub enum Greeted {
    /// The connection is up, with this user; these items go on to the router, beginning with the one that passed.
    Up(Text, Vec<Item>),
    /// The connection is over.
    Ended(ReadEnd),
}

/// The door's answer to some items.
#[derive(Drop)]
enum Passing {
    /// The next item is awaited.
    Waits,
    /// The connection is up, with this user; this many items come before the one that passed.
    Up(Text, usize),
    /// The connection is over.
    Ended,
}

/// Runs a connection's door on what its peer sends, and writes its answers, until it lets the peer in or ends the connection.
/// After 1,024 reads the connection is over, as it is after a failed read. What is written is a beginning of the door's answers,
/// in order, and all of them unless a write fails. Where the peer is let in, the items that go on are all from the one that
/// passed, and the frame reader keeps the bytes after them.
pub fn greet<I: Read, W: Write>(
    alloc: Global,
    input: &mut I,
    output: &mut W,
    frames: &mut FrameReader,
    door: &mut Door,
) -> Greeted
    ensures { Greets door.old frames.old frames.new (I.remaining input.old) (I.remaining input.new) (W.contents output.old) (W.contents output.new) result }
{
    let Ok(mut piece) = vec![in alloc; 0u8; PIECE] else {
        return Greeted::Ended(ReadEnd::Memory);
    };
    greet_in(alloc, input, output, frames, door, piece.as_mut_slice())
}

/// Runs a connection's door, with room for a piece of what its peer sends.
fn greet_in<I: Read, W: Write>(
    alloc: Global,
    input: &mut I,
    output: &mut W,
    frames: &mut FrameReader,
    door: &mut Door,
    piece: &mut [u8],
) -> Greeted
    requires { 0 < length piece.old }
    ensures { Greets door.old frames.old frames.new (I.remaining input.old) (I.remaining input.new) (W.contents output.old) (W.contents output.new) result }
{
    for _turn in 0..READS {
        let items = match read_items(alloc, frames, input, piece) {
            Ok(items) => items,
            Err(end) => return Greeted::Ended(end),
        };
        let passing = match answer(alloc, items.as_slice(), output, door) {
            Ok(passing) => passing,
            Err(end) => return Greeted::Ended(end),
        };
        match passing {
            Passing::Waits => {}
            Passing::Up(user, at) => return hand_on(user, items, at),
            Passing::Ended => return Greeted::Ended(ReadEnd::Door),
        }
    }
    Greeted::Ended(ReadEnd::ReadFailed)
}

/// Hands items to the door, and writes its answers.
///
/// # Errors
///
/// Why the connection is over: `Memory`, with nothing written, or `WriteFailed`.
fn answer<W: Write>(
    alloc: Global,
    items: &[Item],
    output: &mut W,
    door: &mut Door,
) -> Result<Passing, ReadEnd>
    ensures written { IfOk result (λ p. Appends (W.contents output.old) (W.contents output.new) (spelled (door_says door.old items.now))) }
    ensures answered { IfOk result (λ p. fate_of p items.now ≡ fate door.old items.now) }
    ensures stage { IfOk result (λ p. fate door.old items.now ≡ waits → door.new ≡ door_past door.old items.now) }
    ensures err { IfErr result (λ e. Breaks e (W.contents output.old) (W.contents output.new) (spelled (door_says door.old items.now))) }
{
    let mut said = Vec::new(alloc);
    let passing = match pass(alloc, door, items, &mut said) {
        Ok(passing) => passing,
        Err(AllocError) => return Err(ReadEnd::Memory),
    };
    let mut bytes = Vec::new(alloc);
    match spell(alloc, said.as_slice(), &mut bytes) {
        Ok(()) => {}
        Err(AllocError) => return Err(ReadEnd::Memory),
    }
    let (_, whole) = write_beginning(output, bytes.as_slice());
    if !whole {
        return Err(ReadEnd::WriteFailed);
    }
    Ok(passing)
}

/// The connection is up: the items from an index on go to the router.
fn hand_on(user: Text, items: Vec<Item>, at: usize) -> Greeted
    ensures told { IsTold result (passed user (drop at items.items)) }
    ensures written { result ≢ Greeted.Ended ReadEnd.WriteFailed }
{
    match behind(items, at) {
        Ok(left) => Greeted::Up(user, left),
        Err(AllocError) => Greeted::Ended(ReadEnd::Memory),
    }
}

/// The items from an index on.
fn behind(items: Vec<Item>, at: usize) -> Result<Vec<Item>, AllocError>
    ensures { IfOk result (λ left. left.items ≡ drop at items.items) }
{
    let mut items = items;
    if at <= items.len() {
        return items.split_off(at);
    }
    Err(AllocError)
}

/// Hands items to the door until it lets the peer in or ends the connection, and appends its answers to those before.
fn pass(
    alloc: Global,
    door: &mut Door,
    items: &[Item],
    said: &mut Vec<Item>,
) -> Result<Passing, AllocError>
    ensures answers { IfOk result (λ p. said.new.items ≡ said.old.items ++ door_says door.old items.now) }
    ensures answered { IfOk result (λ p. fate_of p items.now ≡ fate door.old items.now) }
    ensures stage { IfOk result (λ p. fate door.old items.now ≡ waits → door.new ≡ door_past door.old items.now) }
{
    let mut at = 0;
    for item in items {
        let told = door.step(alloc, item)?;
        match told {
            DoorAnswer::Say(more) => add(said, more)?,
            DoorAnswer::Pass(user) => return Ok(Passing::Up(user, at)),
            DoorAnswer::End(last) => {
                add(said, last)?;
                return Ok(Passing::Ended);
            }
        }
        at += 1;
    }
    Ok(Passing::Waits)
}

/// Appends items.
fn add(said: &mut Vec<Item>, more: Vec<Item>) -> Result<(), AllocError>
    ensures { OnOk result (said.new.items ≡ said.old.items ++ more.items) }
{
    let mut more = more;
    said.append(&mut more)
}
