//! The router as the threads of a program use it.
use crate::end::{ReadEnd, WriteEnd};
use crate::gate::Gate;
use amqp_frames::FrameReader;
use amqp_model::Item;
use core_machine::CoreFault;
use router_trace::{ConnectionId, Peer};
use std::io::{Read, Write};
use std::sync::Wait;

/// What the threads of a program ask of the router that they share. The `Server` of `router_serve` does it; threads that are written over this trait
/// know nothing of the router's tables, and are proved without them.
pub trait Service: Send + Sync {
    /// What a thread counts in while it works with the router. It is put back in the end.
    type Seat: Drop + Send;

    /// A seat that no thread uses, or else a new one; none if no part of a ledger is left.
    fn seat<R: Wait>(&self, rt: &R) -> Option<Self::Seat>;

    /// Puts a seat back. If memory is refused the seat is lost, and its counts with it.
    fn put_back<R: Wait>(&self, rt: &R, seat: Self::Seat);

    /// Starts the router.
    ///
    /// # Errors
    ///
    /// The router's fault; `Memory` if no seat is left.
    fn start<R: Wait>(&self, rt: &R) -> Result<(), CoreFault>;

    /// Gives the router the time, in milliseconds.
    ///
    /// # Errors
    ///
    /// The router's fault.
    fn tick<R: Wait>(&self, rt: &R, seat: &mut Self::Seat, moment: u64) -> Result<(), CoreFault>;

    /// How many events found the router's journal full since it was opened, up to 2^64 - 1: each released a delivery, or refused a durable link.
    fn full_events<R: Wait>(&self, rt: &R) -> u64;

    /// A connection comes up, with the number after that of the last one.
    ///
    /// # Errors
    ///
    /// The router's fault, and the number stays free; `Memory` if there is no higher number.
    fn connect<R: Wait>(
        &self,
        rt: &R,
        seat: &mut Self::Seat,
        peer: Peer,
    ) -> Result<ConnectionId, CoreFault>;

    /// Submits what a peer sends, until it ends, as `serve_reader` of `router_serve` does. It returns the seat, and why it ended.
    fn read<R: Wait, I: Read, P: Gate>(
        &self,
        rt: &R,
        seat: Self::Seat,
        conn: ConnectionId,
        left: Vec<Item>,
        frames: &mut FrameReader,
        input: &mut I,
        gate: &P,
    ) -> (Self::Seat, ReadEnd);

    /// Writes what the router sends to a connection, until that ends, as `serve_writer` of `router_serve` does. It returns the seat, and why it ended.
    fn write<R: Wait, W: Write, P: Gate>(
        &self,
        rt: &R,
        seat: Self::Seat,
        conn: ConnectionId,
        output: &mut W,
        gate: &P,
    ) -> (Self::Seat, WriteEnd);

    /// The threads of a connection submit nothing more: if it is still live, it is lost, so that its writer ends.
    fn lose<R: Wait>(&self, rt: &R, seat: &mut Self::Seat, conn: ConnectionId);

    /// Takes what is still waiting for a connection that is over, and lets it go.
    ///
    /// # Errors
    ///
    /// The router's fault.
    fn drain<R: Wait>(
        &self,
        rt: &R,
        seat: &mut Self::Seat,
        conn: ConnectionId,
    ) -> Result<(), CoreFault>;
}
