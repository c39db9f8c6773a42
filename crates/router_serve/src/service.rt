//! The server as a service.
use crate::reader::serve_reader;
use crate::server::Server;
use crate::writer::serve_writer;
use amqp_frames::FrameReader;
use amqp_model::Item;
use core_machine::{CoreFault, Machine};
use router_trace::{ConnectionId, Event, Peer};
use serve_lock::{Names, Seat};
use serve_streams::{Gate, ReadEnd, Service, WriteEnd};
use std::io::{Read, Write};
use std::sync::Wait;

impl<M: Machine + Send, N: Names> Service for Server<M, N> {
    type Seat = Seat<N>;

    fn seat<R: Wait>(&self, rt: &R) -> Option<Seat<N>> {
        let free = self.idle.lock(rt).pop();
        match free {
            Some(seat) => Some(seat),
            None => self.shared.seat(rt),
        }
    }

    fn put_back<R: Wait>(&self, rt: &R, seat: Seat<N>) {
        let _ = self.idle.lock(rt).push(seat);
    }

    fn start<R: Wait>(&self, rt: &R) -> Result<(), CoreFault> {
        let Some(mut seat) = self.seat(rt) else {
            return Err(CoreFault::Memory);
        };
        let started = self.shared.submit(rt, &mut seat, Event::Start);
        self.put_back(rt, seat);
        started?;
        Ok(())
    }

    fn tick<R: Wait>(&self, rt: &R, seat: &mut Seat<N>, moment: u64) -> Result<(), CoreFault> {
        self.shared.submit(rt, seat, Event::Tick(moment))?;
        Ok(())
    }

    fn full_events<R: Wait>(&self, rt: &R) -> u64 {
        self.shared.full_events(rt)
    }

    fn connect<R: Wait>(
        &self,
        rt: &R,
        seat: &mut Seat<N>,
        peer: Peer,
    ) -> Result<ConnectionId, CoreFault> {
        self.up(rt, seat, peer)
    }

    fn read<R: Wait, I: Read, P: Gate>(
        &self,
        rt: &R,
        seat: Seat<N>,
        conn: ConnectionId,
        left: Vec<Item>,
        frames: &mut FrameReader,
        input: &mut I,
        gate: &P,
    ) -> (Seat<N>, ReadEnd) {
        let (alloc, shared) = (self.alloc, &self.shared);
        let (seat, _, end) = serve_reader(rt, alloc, shared, seat, conn, left, frames, input, gate);
        (seat, end)
    }

    fn write<R: Wait, W: Write, P: Gate>(
        &self,
        rt: &R,
        seat: Seat<N>,
        conn: ConnectionId,
        output: &mut W,
        gate: &P,
    ) -> (Seat<N>, WriteEnd) {
        serve_writer(rt, self.alloc, &self.shared, seat, conn, output, gate)
    }

    fn lose<R: Wait>(&self, rt: &R, seat: &mut Seat<N>, conn: ConnectionId) {
        if self.shared.is_live(rt, conn) {
            let _ = self.shared.submit(rt, seat, Event::Down(conn));
        }
    }

    fn drain<R: Wait>(
        &self,
        rt: &R,
        seat: &mut Seat<N>,
        conn: ConnectionId,
    ) -> Result<(), CoreFault> {
        let mut quiet = None;
        for _turn in 0..u64::MAX {
            let batch = self.shared.wait_batch(rt, seat, conn, &mut quiet)?;
            if batch.is_last() {
                return Ok(());
            }
        }
        Ok(())
    }
}
