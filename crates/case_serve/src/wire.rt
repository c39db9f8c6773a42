//! A connection over memory.
use crate::row::Way;
use router_serve::{ReadEnd, WriteEnd};
use std::alloc::{AllocError, Global};
use std::io;
use std::io::{Read, Write};
use std::sync::{Mutex, Wait};

/// How many bytes a write moves at most, and a read of all connections but the first, whose bytes come at once: a frame takes several.
const PIECE: usize = 7;

/// Why the threads of a connection ended.
#[derive(Clone, Copy)]
pub struct Ends {
    /// Why its reader ended, or its greeting.
    pub read: ReadEnd,
    /// Why its writer ended, if there was one.
    pub written: Option<WriteEnd>,
}

/// A connection of a row.
#[derive(Drop)]
pub struct Wire {
    /// Its place in the row, from 0.
    pub at: usize,
    /// What comes in.
    pub input: Vec<u8>,
    /// What is to go out.
    pub wanted: Vec<u8>,
    /// What was written.
    pub written: Mutex<Vec<u8>>,
    /// Whether its writer came to its gate.
    pub held: Mutex<bool>,
    /// Why its threads ended; none before.
    pub ends: Mutex<Option<Ends>>,
}

impl Wire {
    /// The connection at a place, without any bytes.
    pub fn new(alloc: Global, at: usize) -> Wire {
        Wire {
            at,
            input: Vec::new(alloc),
            wanted: Vec::new(alloc),
            written: Mutex::new(Vec::new(alloc)),
            held: Mutex::new(false),
            ends: Mutex::new(None),
        }
    }

    /// Adds bytes that go this way.
    pub fn add(&mut self, way: Way, bytes: &[u8]) -> Result<(), AllocError> {
        match way {
            Way::In => self.input.extend_from_slice(bytes),
            Way::Out => self.wanted.extend_from_slice(bytes),
            Way::Held => Ok(()),
        }
    }

    /// Reads what comes in.
    pub fn reader(&self) -> Input<'_> {
        Input {
            left: self.input.as_slice(),
            most: if self.at == 0 { usize::MAX } else { PIECE },
        }
    }
}

/// Reads what comes in.
#[derive(Drop)]
pub struct Input<'a> {
    // what was not read yet
    left: &'a [u8],
    // how many bytes a read moves at most
    most: usize,
}

impl<'a> Read for Input<'a> {
    fn read(&mut self, buf: &mut [u8]) -> io::Result<usize> {
        let most = buf.len().min(self.most);
        self.left.read(&mut buf[..most])
    }
}

/// Writes what goes out.
#[derive(Drop)]
pub struct Output<'a, R> {
    /// For the lock.
    pub rt: &'a R,
    /// The connection.
    pub wire: &'a Wire,
}

impl<'a, R: Wait> Write for Output<'a, R> {
    fn write(&mut self, buf: &[u8]) -> io::Result<usize> {
        let count = buf.len().min(PIECE);
        let mut written = self.wire.written.lock(self.rt);
        written.extend_from_slice(&buf[..count])?;
        Ok(count)
    }

    fn flush(&mut self) -> io::Result<()> {
        Ok(())
    }

    fn write_all(&mut self, buf: &[u8]) -> io::Result<()> {
        self.wire.written.lock(self.rt).extend_from_slice(buf)?;
        Ok(())
    }
}
