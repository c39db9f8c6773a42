//! A worked row: what comes in and goes out on its connections, in one order.
use crate::wire::Wire;
use case_files::{CaseFault, bytes_of, size_of};
use std::alloc::Global;
use std::sync::{Mutex, Wait};
use std::thread;

/// How often a thread looks whether it may go on.
const TURNS: u32 = 1_000_000;

/// What a line of a row tells.
#[derive(Clone, Copy, PartialEq, Eq)]
pub enum Way {
    /// Bytes of the peer: one header or frame.
    In,
    /// Bytes of the router: one header or frame.
    Out,
    /// No bytes: the writer stands at its gate.
    Held,
}

/// A line of a row.
#[derive(Clone, Copy)]
struct Line {
    way: Way,
    // the place of its connection, from 0
    at: usize,
    // how many bytes it has
    len: usize,
}

/// What has to have happened on a connection.
#[derive(Clone, Copy)]
struct Due {
    // so many bytes were written
    bytes: usize,
    // its writer came to its gate
    held: bool,
}

/// A row, and its connections. What comes in is held back until all above it that goes out was written, and so is what goes out.
#[derive(Drop)]
pub struct Row {
    /// For everything that grows while it is served.
    pub alloc: Global,
    lines: Vec<Line>,
    /// Its connections.
    pub wires: Vec<Wire>,
    /// What serving it has to leave, in lines.
    pub wanted: String,
    // whether a thread gave up waiting; then no other waits
    stuck: Mutex<bool>,
}

impl Row {
    /// The row that lines tell, before anything came in.
    ///
    /// # Errors
    ///
    /// `Word` and `Bytes` where a line isn't in the form of `docs/cases.md`; `Memory`.
    pub fn of(alloc: Global, text: &str) -> Result<Row, CaseFault> {
        let mut row = Row {
            alloc,
            lines: Vec::new(alloc),
            wires: Vec::new(alloc),
            wanted: String::new(alloc),
            stuck: Mutex::new(false),
        };
        match row.add_all(alloc, text) {
            Ok(()) => Ok(row),
            Err(fault) => {
                drop(row);
                Err(fault)
            }
        }
    }

    /// Adds lines.
    fn add_all(&mut self, alloc: Global, text: &str) -> Result<(), CaseFault> {
        for line in text.lines() {
            match line.split_once(' ') {
                Some(("in", rest)) => self.add(alloc, Way::In, rest)?,
                Some(("out", rest)) => self.add(alloc, Way::Out, rest)?,
                Some(("held", rest)) => self.add(alloc, Way::Held, rest)?,
                Some(("|", rest)) => {
                    self.wanted.push_str(rest)?;
                    self.wanted.push('\n')?;
                }
                Some(("#", _)) | None => {}
                Some(_) => return Err(CaseFault::Word),
            }
        }
        Ok(())
    }

    /// Adds a line, `CONNECTION BYTES`. Connections come one after another.
    fn add(&mut self, alloc: Global, way: Way, rest: &str) -> Result<(), CaseFault> {
        let (number, digits) = rest.split_once(' ').unwrap_or((rest, ""));
        let at = size_of(Some(number))?.wrapping_sub(1);
        let bytes = bytes_of(alloc, digits)?;
        self.lines.push(Line {
            way,
            at,
            len: bytes.len(),
        })?;
        if at == self.wires.len() {
            self.wires.push(Wire::new(alloc, at))?;
        }
        match self.wires.get_mut(at) {
            Some(wire) => Ok(wire.add(way, bytes.as_slice())?),
            None => Err(CaseFault::Word),
        }
    }

    /// The place of the next line of a connection that tells this, after so much: lines that came in, or bytes that went out. It is
    /// behind all lines where there is none.
    pub fn next(&self, way: Way, at: usize, done: usize) -> usize {
        let mut left = done;
        for (place, line) in self.lines.iter().enumerate() {
            if line.way == way && line.at == at {
                let size = if way == Way::In { 1 } else { line.len };
                if left < size {
                    return place;
                }
                left -= size;
            }
        }
        self.lines.len()
    }

    /// Waits until all that goes out above a line was written, and each writer that is held above it stands at its gate; or gives up.
    pub fn wait_for<R: Wait>(&self, rt: &R, place: usize) {
        for _turn in 0..TURNS {
            if *self.stuck.lock(rt) || self.has(rt, place) {
                return;
            }
            thread::yield_now();
        }
        *self.stuck.lock(rt) = true;
    }

    /// Whether all that is above a line has happened.
    fn has<R: Wait>(&self, rt: &R, place: usize) -> bool {
        for wire in &self.wires {
            let due = self.due(place, wire.at);
            if wire.written.lock(rt).len() < due.bytes {
                return false;
            }
            if due.held && !*wire.held.lock(rt) {
                return false;
            }
        }
        true
    }

    /// What has to have happened on a connection above a line.
    fn due(&self, place: usize, at: usize) -> Due {
        let mut bytes = 0usize;
        let mut held = false;
        for line in self.lines.iter().take(place) {
            if line.at == at {
                match line.way {
                    Way::In => {}
                    Way::Out => bytes = bytes.saturating_add(line.len),
                    Way::Held => held = true,
                }
            }
        }
        Due { bytes, held }
    }

    /// Whether a thread gave up waiting.
    pub fn is_stuck<R: Wait>(&self, rt: &R) -> bool {
        *self.stuck.lock(rt)
    }
}
