//! The thread that writes a connection's outgoing items.
ghost use Rattle.std.specs.Prelude.{◌≡◌, true, false, OnErr, IfOk, IfErr};
ghost use Rattle.std.specs.Io.KnownBytes.{Appends};
ghost use Rattle.serve_streams.specs.Spelled.{spelled};
ghost use Rattle.core_machine.specs.History.{IsGiven};
ghost use Rattle.router_serve.specs.Wrote.{EndsAt, GoesOn, IsPartOf, Wrote};

use core_machine::{Batch, CoreFault, Machine};
use router_trace::ConnectionId;
use serve_lock::{Ledgers, Log, Seat, Shared};
use serve_streams::{Gate, Side, WriteEnd, spell, write_beginning};
use std::alloc::{AllocError, Global};
use std::io::Write;
use std::sync::Wait;

/// Writes a connection's outgoing items, batch by batch, each in one write if the output takes it whole, until
/// the router ends the connection or something fails. It returns the seat, and why it ended: `Ended` exactly after the
/// connection's last batch, `Gap` exactly at a batch that doesn't begin with the number after the items before,
/// `WriteFailed` exactly if some of a batch wasn't written, `Core` with the fault that the router answered.
pub fn serve_writer<M: Machine, L: Log, G: Ledgers, R: Wait, W: Write, P: Gate>(
    rt: &R,
    alloc: Global,
    shared: &Shared<M, L, G>,
    seat: Seat<G>,
    conn: ConnectionId,
    output: &mut W,
    gate: &P,
) -> (Seat<G>, WriteEnd)
    ensures { Wrote (λ b. ∥ IsGiven M.meaning G.opening conn b ∥₁) conn
        (W.contents output.old) (W.contents output.new) seat result.0 result.1 }
{
    let mut seat = seat;
    let mut buffer = Vec::new(alloc);
    let mut next = 0u128;
    let mut number = 0u64;
    let mut quiet = None;
    for _turn in rt.forever() {
        let answer = shared.wait_batch(rt, &mut seat, conn, &mut quiet);
        match write_answer(rt, alloc, answer, next, number, output, gate, &mut buffer) {
            Ok(behind) => next = behind,
            Err(end) => return (seat, end),
        }
        number = number.saturating_add(1);
    }
    unreachable!()
}

/// Writes the batch that the router answered, if it begins with the number `next`, and returns the number with which the
/// one after it begins: one above that of its last item, which may be 2^64.
///
/// # Errors
///
/// Why the writer ends.
fn write_answer<R: Wait, W: Write, P: Gate>(
    rt: &R,
    alloc: Global,
    answer: Result<Batch, CoreFault>,
    next: u128,
    number: u64,
    output: &mut W,
    gate: &P,
    buffer: &mut Vec<u8>,
) -> Result<u128, WriteEnd>
    ensures goes_on { IfOk result (λ behind.
        GoesOn answer next behind (W.contents output.old) (W.contents output.new)) }
    ensures ends { IfErr result (λ e. EndsAt answer e next (W.contents output.old) (W.contents output.new)) }
{
    let batch = match answer {
        Ok(batch) => batch,
        Err(fault) => return Err(WriteEnd::Core(fault)),
    };
    if u128::from(batch.first()) != next {
        return Err(WriteEnd::Gap);
    }
    let whole = match write_batch(rt, alloc, &batch, number, output, gate, buffer) {
        Ok(whole) => whole,
        Err(AllocError) => return Err(WriteEnd::Memory),
    };
    if !whole {
        return Err(WriteEnd::WriteFailed);
    }
    if batch.is_last() {
        return Err(WriteEnd::Ended);
    }
    Ok(u128::from(batch.first()) + batch.items().len() as u128)
}

/// Writes a batch, and returns whether all of it was written. If memory is refused, nothing is written.
fn write_batch<R: Wait, W: Write, P: Gate>(
    rt: &R,
    alloc: Global,
    batch: &Batch,
    number: u64,
    output: &mut W,
    gate: &P,
    buffer: &mut Vec<u8>,
) -> Result<bool, AllocError>
    ensures short { IfOk result (λ whole. whole ≡ false →
        IsPartOf (spelled batch.now.items.items) (W.contents output.old) (W.contents output.new)) }
    ensures whole { IfOk result (λ whole. whole ≡ true → Appends (W.contents output.old) (W.contents output.new) (spelled batch.now.items.items)) }
    ensures err { OnErr result (output.new ≡ output.old) }
{
    match spell(alloc, batch.items(), buffer) {
        Ok(()) => {}
        Err(AllocError) => return Err(AllocError),
    }
    announce(rt, gate, batch, number);
    let (_, whole) = write_beginning(output, buffer);
    Ok(whole)
}

/// Passes a batch and its items at the gate.
fn announce<R: Wait, P: Gate>(rt: &R, gate: &P, batch: &Batch, number: u64) {
    gate.pass(rt, batch.conn(), Side::Writer, number);
    for item in batch.items() {
        gate.see(rt, batch.conn(), Side::Writer, item);
    }
}
