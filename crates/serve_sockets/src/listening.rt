//! Accepts connections, and gives the router the time.
use crate::connection::connection;
use crate::program::Program;
use crate::state::{ProgramState, THREADS, Taken};
use crate::telling::LastTold;
use route_table::Listener;
use serve_streams::Service;
use std::io::{Error, ErrorKind};
use std::net::{Net, SocketAddr, TcpListener, TcpStream};
use std::sync::{Arc, Condvar, Mutex, Wait};
use std::thread;
use std::thread::Threads;
use std::time::{Clock, Duration, Instant};

/// The time between two ticks, in milliseconds.
const TICK: u64 = 500;

/// The pause after no connection could be accepted, in milliseconds.
const PAUSE: u64 = 20;

/// How often a listener is connected to, to wake it.
const TRIES: u64 = 500;

/// Accepts connections at all listeners, each of which has its socket, until no more are accepted and all have ended.
pub fn listen<
    S: Service,
    R: Net<Listener = TcpListener, Stream = TcpStream> + Threads + Wait + Sync + Clock,
>(rt: &R, program: &Program<S>, listeners: &[Listener], sockets: &[TcpListener]) {
    let done = Mutex::new(false);
    let rung = Condvar::new();
    let done = &done;
    let rung = &rung;
    thread::scope(thread::scope_env(), rt, |outer| {
        let _ = outer.spawn(move || tick(rt, program, done, rung));
        thread::scope(thread::scope_env(), rt, |scope| {
            for (listener, socket) in listeners.iter().zip(sockets.iter()) {
                if scope
                    .spawn(move || accept_all(rt, program, listener, socket))
                    .is_err()
                {
                    program.state.stop(rt);
                }
            }
            program.state.wait_over(rt);
            wake(rt, sockets);
        });
        *done.lock(rt) = true;
        rung.notify_all();
    });
}

/// Accepts the connections of one listener.
fn accept_all<S: Service, R: Threads + Wait + Sync + Clock>(
    rt: &R,
    program: &Program<S>,
    listener: &Listener,
    socket: &TcpListener,
) {
    thread::scope(thread::scope_env(), rt, |scope| {
        let mut failing = false;
        for accepted in socket.incoming() {
            match accepted {
                Ok(stream) => {
                    failing = false;
                    if is_served(rt, &program.state, &stream) {
                        let made = scope.spawn(move || run_one(rt, program, listener, stream));
                        if made.is_err() {
                            no_thread(rt, &program.state);
                        }
                    } else {
                        drop(stream);
                    }
                }
                Err(error) => {
                    not_accepted(rt, &program.state, error, failing);
                    failing = true;
                }
            }
            if program.state.is_over(rt) {
                break;
            }
        }
    });
}

/// Whether a connection that was accepted gets threads.
fn is_served<R: Wait + Clock>(rt: &R, state: &ProgramState, stream: &TcpStream) -> bool {
    match state.take(rt) {
        Taken::Over => false,
        Taken::TooMany => {
            too_many(rt, state, stream);
            false
        }
        Taken::Served | Taken::Last => true,
    }
}

/// Reports a connection that gets no threads.
fn too_many<R: Wait + Clock>(rt: &R, state: &ProgramState, stream: &TcpStream) {
    if let Ok(peer) = stream.peer_addr() {
        if let Ok(line) = format!(in state.alloc;
            "{peer} is turned away: {THREADS} connections have threads"
        ) {
            state.lines.say(rt, &line);
        }
    }
}

/// A connection that was to get threads gets none.
fn no_thread<R: Wait + Clock>(rt: &R, state: &ProgramState) {
    state.leave(rt);
    state
        .lines
        .say(rt, "a connection is closed: no thread can be made");
}

/// No connection could be accepted: it is reported once, until one is accepted, and the listener pauses.
fn not_accepted<R: Wait + Clock>(rt: &R, state: &ProgramState, error: Error, reported: bool) {
    if !reported {
        if let Ok(line) = format!(in state.alloc; "no connection can be taken: {error}") {
            state.lines.say(rt, &line);
        }
    }
    drop(error);
    thread::sleep(rt, Duration::from_millis(PAUSE));
}

/// Serves one connection.
fn run_one<S: Service, R: Threads + Wait + Sync + Clock>(
    rt: &R,
    program: &Program<S>,
    listener: &Listener,
    stream: TcpStream,
) {
    if let Ok(peer) = stream.peer_addr() {
        if let Ok(stream) = Arc::new(program.state.alloc, stream) {
            let number = program.state.streams.lock(rt).add(rt, &stream);
            if let Some(number) = number {
                connection(rt, program, listener, peer, number, &stream);
                program.state.streams.lock(rt).remove(number);
            }
        }
    }
    program.state.leave(rt);
}

/// Wakes the threads that wait at listeners: each accepts a connection that asks for nothing, and finds that no more are accepted.
fn wake<R: Net<Listener = TcpListener, Stream = TcpStream> + Clock>(
    rt: &R,
    sockets: &[TcpListener],
) {
    for socket in sockets {
        if let Ok(at) = socket.local_addr() {
            wake_one(rt, &at);
        }
    }
}

/// Connects to a listener. Where none can be made, as while no descriptor is left, it is tried again for about ten seconds; one that isn't
/// taken in time has others before it, which wake the listener too.
fn wake_one<R: Net<Listener = TcpListener, Stream = TcpStream> + Clock>(rt: &R, at: &SocketAddr) {
    for _turn in 0..TRIES {
        match TcpStream::connect_timeout(rt, at, Duration::from_millis(TICK)) {
            Ok(_) => return,
            Err(error) => {
                if error.kind() == ErrorKind::TimedOut {
                    return;
                }
                thread::sleep(rt, Duration::from_millis(PAUSE));
            }
        }
    }
}

/// Gives the router the time every half second, until it is done; where the router failed, serving ends.
fn tick<S: Service, R: Wait + Clock>(
    rt: &R,
    program: &Program<S>,
    done: &Mutex<bool>,
    rung: &Condvar,
) {
    let Some(mut seat) = program.router.seat(rt) else {
        return;
    };
    tell_time(rt, program, &mut seat, done, rung);
    program.router.put_back(rt, seat);
}

/// Submits a tick every half second, until serving is done, and tells if the journal is full. Those that are at their doors for too long lose their
/// sockets.
fn tell_time<S: Service, R: Wait + Clock>(
    rt: &R,
    program: &Program<S>,
    seat: &mut S::Seat,
    done: &Mutex<bool>,
    rung: &Condvar,
) {
    let Ok(start) = Instant::now(rt) else {
        return;
    };
    let mut told = LastTold::nothing();
    for _turn in rt.forever() {
        if is_done(rt, done, rung) {
            return;
        }
        program.state.streams.lock(rt).end_late(rt);
        if let Ok(passed) = start.elapsed(rt) {
            let moment = u64::try_from(passed.as_millis()).unwrap_or(u64::MAX);
            if let Err(fault) = program.router.tick(rt, seat, moment) {
                program.state.failed(rt, fault);
            }
            tell_full(rt, program, &mut told, moment);
        }
    }
}

/// Tells how many events found the journal full since that was last told, if a line is due at this moment. Each released a delivery, or refused a
/// durable link.
fn tell_full<S: Service, R: Wait + Clock>(
    rt: &R,
    program: &Program<S>,
    told: &mut LastTold,
    moment: u64,
) {
    if program.state.lines.is_quiet() {
        return;
    }
    let events = program.router.full_events(rt);
    let Some(count) = told.due(events, moment) else {
        return;
    };
    *told = LastTold::at(events, moment);
    if let Ok(line) = format!(in program.state.alloc;
        "the journal is full: deliveries released or durable links refused: {count}"
    ) {
        program.state.lines.say(rt, &line);
    }
}

/// Waits for half a second, or until serving is done; whether it is.
fn is_done<R: Wait + Clock>(rt: &R, done: &Mutex<bool>, rung: &Condvar) -> bool {
    let (guard, _) = rung.wait_timeout(rt, done.lock(rt), Duration::from_millis(TICK));
    let done = *guard;
    drop(guard);
    done
}
