//! The thread that reads what a peer sends and submits it to the router.
ghost use Rattle.std.specs.Prelude.{◌≡◌, [], false, length, Result, IsOk, OnOk, OnErr, IfErr};
ghost use Rattle.core_machine.specs.declared.fault.CoreFault.{CoreFault};
ghost use Rattle.serve_lock.specs.Adding.{with_items};
ghost use Rattle.router_serve.specs.Submitting.{CountsGone, CountsSome, ends_badly, HandsIn, Hinders, IsCore};
ghost use Rattle.router_serve.specs.Submitting.{losses, needs_down, Submitted, with_downs};

use amqp_frames::FrameReader;
use amqp_model::Item;
use core_machine::{CoreFault, Machine};
use router_trace::{ConnectionId, Event};
use serve_lock::{Ledgers, Log, Receipt, Seat, Shared};
use serve_streams::{Gate, ReadEnd, Side, read_items};
use std::alloc::Global;
use std::collections::VecDeque;
use std::io::Read;
use std::sync::Wait;

/// The number of bytes read at once.
pub const PIECE: usize = 65_536;

/// Submits what a peer sends: the items left over from the door, then those of the input, and at the end one loss of the
/// connection, unless the router answered `Failed` or `NoConnection`. It returns the seat, the receipts if any, and
/// why it ended. The seat counts as many items as came, unless memory is refused or the router answers a fault.
pub fn serve_reader<M: Machine, L: Log, G: Ledgers, R: Wait, I: Read, P: Gate>(
    rt: &R,
    alloc: Global,
    shared: &Shared<M, L, G>,
    seat: Seat<G>,
    conn: ConnectionId,
    left: Vec<Item>,
    frames: &mut FrameReader,
    input: &mut I,
    gate: &P,
) -> (Seat<G>, Vec<Receipt>, ReadEnd)
    ensures { (loss : Result (Unit {0}) CoreFault) × Submitted seat result.0 left.items frames.old frames.new
        (I.remaining input.old) (I.remaining input.new) result.2 loss }
{
    let mut seat = seat;
    let (end, _) = submit_stream(
        rt, alloc, shared, &mut seat, conn, left, frames, input, gate,
    );
    (seat, Vec::new(alloc), end)
}

/// Submits what a peer sends, and then the loss of its connection. It returns why the stream ended, and the router's
/// answer to the loss; Ok too if the router has no need to be told of it.
fn submit_stream<M: Machine, L: Log, G: Ledgers, R: Wait, I: Read, P: Gate>(
    rt: &R,
    alloc: Global,
    shared: &Shared<M, L, G>,
    seat: &mut Seat<G>,
    conn: ConnectionId,
    left: Vec<Item>,
    frames: &mut FrameReader,
    input: &mut I,
    gate: &P,
) -> (ReadEnd, Result<(), CoreFault>)
    ensures { Submitted seat.old seat.new left.items frames.old frames.new
        (I.remaining input.old) (I.remaining input.new) result.0 result.1 }
{
    let end = hand_in_all(rt, alloc, shared, seat, conn, left, frames, input, gate);
    let loss = report_loss(rt, shared, seat, conn, end);
    (end, loss)
}

/// Reports the loss of a connection whose reader ended, if the router has yet to be told of it.
///
/// # Errors
///
/// The router's fault.
fn report_loss<M: Machine, L: Log, G: Ledgers, R: Wait>(
    rt: &R,
    shared: &Shared<M, L, G>,
    seat: &mut Seat<G>,
    conn: ConnectionId,
    end: ReadEnd,
) -> Result<(), CoreFault>
    ensures told { OnOk result (seat.new ≡ with_downs (losses end result) seat.old) }
    ensures refused { OnErr result (seat.new ≡ seat.old) }
    ensures not_again { needs_down end ≡ false → IsOk result }
{
    if needs_down(end) {
        shared.submit(rt, seat, Event::Down(conn))?;
    }
    Ok(())
}

/// Whether the router has yet to be told that the connection is lost.
fn needs_down(end: ReadEnd) -> bool
    ensures { result ≡ needs_down end }
{
    match end {
        ReadEnd::Core(CoreFault::Failed) | ReadEnd::Core(CoreFault::NoConnection) => false,
        _ => true,
    }
}

/// Submits the items left over and those of the input, until one of them is refused or the input ends.
fn hand_in_all<M: Machine, L: Log, G: Ledgers, R: Wait, I: Read, P: Gate>(
    rt: &R,
    alloc: Global,
    shared: &Shared<M, L, G>,
    seat: &mut Seat<G>,
    conn: ConnectionId,
    left: Vec<Item>,
    frames: &mut FrameReader,
    input: &mut I,
    gate: &P,
) -> ReadEnd
    ensures { HandsIn seat.old seat.new left.items frames.old frames.new (I.remaining input.old) (I.remaining input.new) result }
{
    let Ok(mut piece) = vec![in alloc; 0u8; PIECE] else {
        drop(left);
        return ReadEnd::Memory;
    };
    let mut number = 0u64;
    if let Err(end) = hand_in(rt, alloc, shared, seat, conn, left, &mut number, gate) {
        return end;
    }
    for _turn in 0..u64::MAX {
        let items = match read_items(alloc, frames, input, piece.as_mut_slice()) {
            Ok(items) => items,
            Err(end) => return end,
        };
        if let Err(end) = hand_in(rt, alloc, shared, seat, conn, items, &mut number, gate) {
            return end;
        }
    }
    ReadEnd::ReadFailed
}

/// Submits items, each after it passes the gate: several at once where the gate holds nothing. Where it answers Ok, all of them were handled.
///
/// # Errors
///
/// Why the reader ends: the router's fault, `Memory`, or `End` after an item `Bad`.
fn hand_in<M: Machine, L: Log, G: Ledgers, R: Wait, P: Gate>(
    rt: &R,
    alloc: Global,
    shared: &Shared<M, L, G>,
    seat: &mut Seat<G>,
    conn: ConnectionId,
    items: Vec<Item>,
    number: &mut u64,
    gate: &P,
) -> Result<(), ReadEnd>
    ensures all { OnOk result (seat.new ≡ with_items (length items.items) seat.old) }
    ensures goes_on { OnOk result (ends_badly items.items ≡ false) }
    ensures err { IfErr result (λ e. Hinders e seat.old seat.new items.items) }
{
    let last = ends_badly(items.as_slice());
    let mut passed = VecDeque::new(alloc);
    for item in items {
        if let Err(end) = make_way(rt, shared, seat, conn, &mut passed, gate) {
            drop(item);
            return Err(end);
        }
        gate.pass(rt, conn, Side::Reader, *number);
        gate.see(rt, conn, Side::Reader, &item);
        *number = number.saturating_add(1);
        if let Err(left) = passed.push_back(item) {
            drop(left);
            return Err(ReadEnd::Memory);
        }
    }
    if let Err(end) = submit_all(rt, shared, seat, conn, &mut passed) {
        return Err(end);
    }
    if last { Err(ReadEnd::End) } else { Ok(()) }
}

/// Submits the items that passed the gate, if it may hold the next one. What is left of them is not counted yet.
///
/// # Errors
///
/// The router's fault.
fn make_way<M: Machine, L: Log, G: Ledgers, R: Wait, P: Gate>(
    rt: &R,
    shared: &Shared<M, L, G>,
    seat: &mut Seat<G>,
    conn: ConnectionId,
    passed: &mut VecDeque<Item>,
    gate: &P,
) -> Result<(), ReadEnd>
    ensures all { OnOk result (CountsGone seat.old seat.new passed.old.items passed.new.items) }
    ensures some { OnErr result (CountsSome seat.old seat.new (length passed.old.items)) }
    ensures core { IfErr result IsCore }
{
    if gate.holds(Side::Reader) {
        return submit_all(rt, shared, seat, conn, passed);
    }
    Ok(())
}

/// Submits all of the items that passed the gate, up to 64 at once.
///
/// # Errors
///
/// The router's fault.
fn submit_all<M: Machine, L: Log, G: Ledgers, R: Wait>(
    rt: &R,
    shared: &Shared<M, L, G>,
    seat: &mut Seat<G>,
    conn: ConnectionId,
    items: &mut VecDeque<Item>,
) -> Result<(), ReadEnd>
    ensures none_left { OnOk result (items.new.items ≡ []) }
    ensures all { OnOk result (CountsGone seat.old seat.new items.old.items items.new.items) }
    ensures some { OnErr result (CountsSome seat.old seat.new (length items.old.items)) }
    ensures core { IfErr result IsCore }
{
    while !items.is_empty() {
        match shared.submit_items(rt, seat, conn, items) {
            Ok(()) => {}
            Err(fault) => return Err(ReadEnd::Core(fault)),
        }
    }
    Ok(())
}

/// Whether the last of these items is the last of their stream.
fn ends_badly(items: &[Item]) -> bool
    ensures { result ≡ ends_badly items.now }
{
    match items.last() {
        Some(Item::Bad(_)) => true,
        _ => false,
    }
}
