//! The sockets of the connections that have threads.
use std::alloc::Global;
use std::collections::BTreeMap;
use std::net::{Shutdown, TcpStream};
use std::sync::Arc;
use std::time::{Clock, Duration, Instant};

/// How long a connection may take to come up, in milliseconds.
pub const DOOR: u64 = 10_000;

/// How far a connection has come.
#[derive(Clone, Copy, PartialEq, Eq)]
enum Stage {
    /// It is at its door.
    Door,
    /// It was at its door for too long, and has lost its socket.
    Late,
    /// It came up.
    Up,
}

/// The socket of a connection.
#[derive(Drop)]
struct Held {
    stream: Arc<TcpStream>,
    /// When it was accepted, where the clock could be read.
    since: Option<Instant>,
    stage: Stage,
}

/// The sockets of the connections that have threads, by number in the order in which they were accepted.
#[derive(Drop)]
pub struct Streams {
    last: u64,
    open: BTreeMap<u64, Held>,
    shut: bool,
}

impl Streams {
    /// No sockets.
    pub fn new(alloc: Global) -> Streams {
        Streams {
            last: 0,
            open: BTreeMap::new(alloc),
            shut: false,
        }
    }

    /// Keeps the socket of a connection at its door, and gives its number; none where all were shut down, or where memory was refused.
    pub fn add<R: Clock>(&mut self, rt: &R, stream: &Arc<TcpStream>) -> Option<u64> {
        if self.shut {
            return None;
        }
        let number = self.last.checked_add(1)?;
        let Ok(copy) = Arc::try_clone(stream) else {
            return None;
        };
        let held = Held {
            stream: copy,
            since: Instant::now(rt).ok(),
            stage: Stage::Door,
        };
        if self.open.insert(number, held).is_err() {
            return None;
        }
        self.last = number;
        Some(number)
    }

    /// A connection passed its door. It tells whether it was in time.
    pub fn pass(&mut self, number: u64) -> bool {
        match self.open.get_mut(&number) {
            Some(held) if held.stage == Stage::Door => {
                held.stage = Stage::Up;
                true
            }
            _ => false,
        }
    }

    /// Shuts down the sockets of connections that are at their doors for too long.
    pub fn end_late<R: Clock>(&mut self, rt: &R) {
        let most = Duration::from_millis(DOOR);
        for held in self.open.values_mut() {
            if held.stage == Stage::Door && held.is_older(rt, most) {
                held.stage = Stage::Late;
                let _ = held.stream.shutdown(Shutdown::Both);
            }
        }
    }

    /// Whether a connection was at its door for too long.
    pub fn is_late(&self, number: u64) -> bool {
        match self.open.get(&number) {
            Some(held) => held.stage == Stage::Late,
            None => false,
        }
    }

    /// Forgets a socket.
    pub fn remove(&mut self, number: u64) {
        drop(self.open.remove(&number));
    }

    /// Shuts down all sockets, and keeps none from now on. It tells whether this was the first time.
    pub fn shut(&mut self) -> bool {
        let first = !self.shut;
        self.shut = true;
        for held in self.open.values() {
            let _ = held.stream.shutdown(Shutdown::Both);
        }
        first
    }
}

impl Held {
    /// Whether it was accepted at least so long ago.
    fn is_older<R: Clock>(&self, rt: &R, most: Duration) -> bool {
        match self.since {
            Some(since) => match since.elapsed(rt) {
                Ok(passed) => passed >= most,
                Err(_) => false,
            },
            None => false,
        }
    }
}
