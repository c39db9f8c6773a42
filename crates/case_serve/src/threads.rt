//! The threads of a row: for each connection one that greets and reads, and one that writes.
use crate::gate::InOrder;
use crate::row::Row;
use crate::wire::{Ends, Input, Output, Wire};
use amqp_frames::FrameReader;
use amqp_model::Item;
use core_door::Door;
use route_table::{Config, Listener, Role};
use router_serve::{Greeted, Service, WriteEnd, greet};
use router_trace::{ConnectionId, Peer};
use std::alloc::{AllocError, Global};
use std::sync::Wait;
use std::thread;
use std::thread::Threads;

/// Serves all connections of a row at once, until they have ended.
pub fn serve_all<S: Service, R: Threads + Wait + Sync>(rt: &R, router: &S, row: &Row) {
    let _ = router.start(rt);
    thread::scope(thread::scope_env(), rt, |scope| {
        for wire in &row.wires {
            let _ = scope.spawn(move || connection(rt, router, row, wire));
        }
    });
}

/// The door of a connection at the standard listener.
fn door(alloc: Global) -> Result<Door, AllocError> {
    let config = Config::standard(alloc)?;
    let listener = Listener::standard(alloc, Role::Normal);
    let made = match &listener {
        Ok(listener) => Door::new(alloc, &config, listener),
        Err(AllocError) => Err(AllocError),
    };
    drop(config);
    drop(listener);
    made
}

/// Serves a connection until it ends.
fn connection<S: Service, R: Threads + Wait + Sync>(rt: &R, router: &S, row: &Row, wire: &Wire) {
    let Ok(mut door) = door(row.alloc) else {
        return;
    };
    let role = door.role();
    let mut frames = FrameReader::new(row.alloc);
    let mut input = wire.reader();
    let mut output = Output { rt, wire };
    match greet(row.alloc, &mut input, &mut output, &mut frames, &mut door) {
        Greeted::Up(user, items) => {
            let who = Peer { user, role };
            enter(rt, router, row, wire, who, items, &mut frames, &mut input);
        }
        Greeted::Ended(read) => {
            *wire.ends.lock(rt) = Some(Ends {
                read,
                written: None,
            });
        }
    }
}

/// Serves a connection after its door.
fn enter<S: Service, R: Threads + Wait + Sync>(
    rt: &R,
    router: &S,
    row: &Row,
    wire: &Wire,
    who: Peer,
    items: Vec<Item>,
    frames: &mut FrameReader,
    input: &mut Input<'_>,
) {
    let Some(mut seat) = router.seat(rt) else {
        drop(who);
        drop(items);
        return;
    };
    match router.connect(rt, &mut seat, who) {
        Ok(conn) => {
            let seat = both(rt, router, row, wire, conn, seat, items, frames, input);
            router.put_back(rt, seat);
        }
        Err(_) => {
            drop(items);
            router.put_back(rt, seat);
        }
    }
}

/// Reads in this thread and writes in another, until both have ended.
fn both<S: Service, R: Threads + Wait + Sync>(
    rt: &R,
    router: &S,
    row: &Row,
    wire: &Wire,
    conn: ConnectionId,
    seat: S::Seat,
    items: Vec<Item>,
    frames: &mut FrameReader,
    input: &mut Input<'_>,
) -> S::Seat {
    thread::scope(thread::scope_env(), rt, |scope| -> S::Seat {
        let writer = scope.spawn(move || write(rt, router, row, wire, conn));
        let gate = InOrder { row, wire };
        let (mut seat, read) = router.read(rt, seat, conn, items, frames, input, &gate);
        router.lose(rt, &mut seat, conn);
        let written = match writer {
            Ok(writer) => writer.join(rt),
            Err(_) => None,
        };
        *wire.ends.lock(rt) = Some(Ends { read, written });
        seat
    })
}

/// Writes the router's output.
fn write<S: Service, R: Wait>(
    rt: &R,
    router: &S,
    row: &Row,
    wire: &Wire,
    conn: ConnectionId,
) -> Option<WriteEnd> {
    let seat = router.seat(rt)?;
    let gate = InOrder { row, wire };
    let mut output = Output { rt, wire };
    let (seat, end) = router.write(rt, seat, conn, &mut output, &gate);
    router.put_back(rt, seat);
    Some(end)
}
