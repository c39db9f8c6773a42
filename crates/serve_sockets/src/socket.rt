//! The end of a socket.
use std::io::Read;
use std::net::TcpStream;
use std::time::{Clock, Duration, Instant};

/// How long a write that moves nothing waits for the peer, in milliseconds.
pub const PATIENCE: u64 = 10_000;

/// How long bytes that a peer sends after the end of its connection are read and dropped, in milliseconds.
pub const LINGER: u64 = 2_000;

/// Reads and drops what a peer still sends, for at most two seconds, or as long as one read takes.
pub fn swallow<R: Clock>(rt: &R, stream: &TcpStream) {
    let mut stream = stream;
    let mut piece = [0u8; 4096];
    let Ok(start) = Instant::now(rt) else {
        return;
    };
    for _turn in 0..u64::MAX {
        match stream.read(&mut piece) {
            Ok(0) | Err(_) => return,
            Ok(_) => {}
        }
        match start.elapsed(rt) {
            Ok(passed) if passed < Duration::from_millis(LINGER) => {}
            _ => return,
        }
    }
}
