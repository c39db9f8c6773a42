//! The threads of one connection.
use crate::links::Links;
use crate::program::Program;
use crate::socket::{LINGER, PATIENCE, swallow};
use crate::spoken::Spoken;
use crate::state::ProgramState;
use crate::streams::DOOR;
use crate::watch::{Watch, reader_words, writer_words};
use amqp_frames::FrameReader;
use amqp_model::Item;
use core_door::Door;
use route_table::Listener;
use router_trace::{ConnectionId, Peer};
use serve_streams::{Greeted, ReadEnd, Service, WriteEnd, greet};
use std::alloc::Global;
use std::net::{Shutdown, SocketAddr, TcpStream};
use std::sync::{Condvar, Mutex, Wait};
use std::thread;
use std::thread::Threads;
use std::time::{Clock, Duration};

/// Serves a connection until it ends. Its socket is the one with this number.
pub fn connection<S: Service, R: Threads + Wait + Clock + Sync>(
    rt: &R,
    program: &Program<S>,
    listener: &Listener,
    peer: SocketAddr,
    number: u64,
    stream: &TcpStream,
) {
    let _ = stream.set_nodelay(true);
    let _ = stream.set_write_timeout(Some(Duration::from_millis(PATIENCE)));
    let mut frames = FrameReader::new(program.state.alloc);
    let Ok(door) = Door::new(program.state.alloc, &program.state.config, listener) else {
        drop(frames);
        return;
    };
    let role = door.role();
    let spoken = first_spoken(stream);
    match at_door(program.state.alloc, stream, &mut frames, door) {
        Greeted::Up(user, items) => {
            if program.state.streams.lock(rt).pass(number) {
                let who = Peer { user, role };
                enter(rt, program, stream, peer, who, items, &mut frames);
            } else {
                drop(user);
                drop(items);
                late(rt, &program.state, peer);
            }
        }
        Greeted::Ended(end) => {
            if program.state.streams.lock(rt).is_late(number) {
                late(rt, &program.state, peer);
            } else {
                refused(rt, &program.state, stream, peer, end, spoken);
            }
        }
    }
    drop(frames);
}

/// What a peer speaks. It waits for its first bytes, and leaves them to be read.
fn first_spoken(stream: &TcpStream) -> Spoken {
    let mut first = [0u8; 8];
    match stream.peek(&mut first) {
        Ok(came) if came <= first.len() => Spoken::of(&first[..came]),
        _ => Spoken::Amqp,
    }
}

/// Reports that a connection was at its door for too long.
fn late<R: Wait + Clock>(rt: &R, state: &ProgramState, peer: SocketAddr) {
    let seconds = DOOR / 1_000;
    if let Ok(line) = format!(in state.alloc;
        "{peer} ended at the door: it hadn't come up after {seconds} seconds"
    ) {
        state.lines.say(rt, &line);
    }
}

/// Greets a peer at a door.
fn at_door(alloc: Global, stream: &TcpStream, frames: &mut FrameReader, door: Door) -> Greeted {
    let mut door = door;
    let greeted = greet(alloc, &mut &*stream, &mut &*stream, frames, &mut door);
    drop(door);
    greeted
}

/// Reports that a connection ended at its door, and gives the peer time to read why.
fn refused<R: Wait + Clock>(
    rt: &R,
    state: &ProgramState,
    stream: &TcpStream,
    peer: SocketAddr,
    end: ReadEnd,
    spoken: Spoken,
) {
    let words = match end {
        ReadEnd::Door => spoken.words(),
        _ => reader_words(end),
    };
    if let Ok(line) = format!(in state.alloc; "{peer} ended at the door: {words}") {
        state.lines.say(rt, &line);
    }
    if end == ReadEnd::Door {
        let _ = stream.shutdown(Shutdown::Write);
        let _ = stream.set_read_timeout(Some(Duration::from_millis(LINGER)));
        swallow(rt, stream);
    }
}

/// Serves a connection after its door.
fn enter<S: Service, R: Threads + Wait + Clock + Sync>(
    rt: &R,
    program: &Program<S>,
    stream: &TcpStream,
    peer: SocketAddr,
    who: Peer,
    items: Vec<Item>,
    frames: &mut FrameReader,
) {
    let Ok(user) = who.user.clone() else {
        drop(who);
        drop(items);
        return;
    };
    let watch = Watch {
        rt,
        alloc: program.state.alloc,
        lines: &program.state.lines,
        peer,
        user: user.as_str(),
        links: Mutex::new(Links::new(program.state.alloc)),
    };
    come_up(rt, program, stream, who, items, frames, &watch);
    drop(watch);
    drop(user);
}

/// Brings a connection up, and serves it.
fn come_up<S: Service, R: Threads + Wait + Clock + Sync>(
    rt: &R,
    program: &Program<S>,
    stream: &TcpStream,
    who: Peer,
    items: Vec<Item>,
    frames: &mut FrameReader,
    watch: &Watch<'_, R>,
) {
    let Some(mut seat) = program.router.seat(rt) else {
        drop(who);
        drop(items);
        return;
    };
    match program.router.connect(rt, &mut seat, who) {
        Ok(conn) => {
            let mut seat = both(rt, program, stream, conn, seat, items, frames, watch);
            if let Err(fault) = program.router.drain(rt, &mut seat, conn) {
                program.state.failed(rt, fault);
            }
            program.router.put_back(rt, seat);
        }
        Err(fault) => {
            drop(items);
            program.router.put_back(rt, seat);
            program.state.failed(rt, fault);
        }
    }
}

/// Reads in this thread and writes in another, until both have ended.
fn both<S: Service, R: Threads + Wait + Clock + Sync>(
    rt: &R,
    program: &Program<S>,
    stream: &TcpStream,
    conn: ConnectionId,
    seat: S::Seat,
    items: Vec<Item>,
    frames: &mut FrameReader,
    watch: &Watch<'_, R>,
) -> S::Seat {
    let read = Mutex::new(false);
    let rung = Condvar::new();
    let read = &read;
    let rung = &rung;
    thread::scope(thread::scope_env(), rt, |scope| -> S::Seat {
        let writer = scope.spawn(move || output(rt, program, stream, conn, watch, read, rung));
        let (seat, end) = program
            .router
            .read(rt, seat, conn, items, frames, &mut &*stream, watch);
        if let ReadEnd::Core(fault) = end {
            program.state.failed(rt, fault);
        }
        swallow(rt, stream);
        *read.lock(rt) = true;
        rung.notify_all();
        let written = match writer {
            Ok(writer) => writer.join(rt),
            Err(_) => None,
        };
        tell_end(rt, &program.state, conn, end, written);
        seat
    })
}

/// Writes the router's output, then waits for the peer's end.
fn output<S: Service, R: Wait + Clock>(
    rt: &R,
    program: &Program<S>,
    stream: &TcpStream,
    conn: ConnectionId,
    watch: &Watch<'_, R>,
    read: &Mutex<bool>,
    rung: &Condvar,
) -> Option<WriteEnd> {
    let Some(seat) = program.router.seat(rt) else {
        let _ = stream.shutdown(Shutdown::Both);
        return None;
    };
    let (seat, end) = program.router.write(rt, seat, conn, &mut &*stream, watch);
    program.router.put_back(rt, seat);
    if let WriteEnd::Core(fault) = end {
        program.state.failed(rt, fault);
    }
    if end == WriteEnd::Ended {
        let _ = stream.shutdown(Shutdown::Write);
        let most = Duration::from_millis(LINGER);
        let (guard, _) = rung.wait_timeout_while(rt, read.lock(rt), most, |read| !*read);
        drop(guard);
    }
    let _ = stream.shutdown(Shutdown::Both);
    Some(end)
}

/// Reports why a connection ended.
fn tell_end<R: Wait + Clock>(
    rt: &R,
    state: &ProgramState,
    conn: ConnectionId,
    end: ReadEnd,
    written: Option<WriteEnd>,
) {
    let number = conn.0;
    let reader = reader_words(end);
    let writer = match written {
        Some(end) => writer_words(end),
        None => "no thread could be made",
    };
    if let Ok(line) = format!(in state.alloc; "connection {number} ended: {reader}; {writer}") {
        state.lines.say(rt, &line);
    }
}
