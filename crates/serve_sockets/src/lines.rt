//! Lines on standard error, which a thread of their own writes.
ghost use Rattle.std.specs.Prelude.{◌≡◌, ◌+◌, ◌-◌, ◌^◌, ◌++◌, ◌∷◌, ◌⊎◌, [], min};

use crate::moment::Moment;
use std::alloc::{AllocError, Global};
use std::collections::VecDeque;
use std::sync::{Arc, Condvar, Mutex, Wait};
use std::thread::{self, Threads};
use std::time::{Clock, Duration};

/// The most lines that wait to be written.
const MOST: usize = 1_024;

/// How long the end of the program waits for lines to be written, in milliseconds.
const LAST: u64 = 2_000;

/// Lines that wait to be written, and the number of those that were left out.
#[derive(Drop)]
struct Waiting {
    /// The lines, in the order in which they came.
    lines: VecDeque<String>,
    /// How many lines were left out since that was last told.
    left_out: u64,
    /// No more lines come.
    closed: bool,
    /// All is written, and nobody writes any more.
    written: bool,
}

/// What is to be written next.
#[derive(Drop)]
enum Next {
    /// A line.
    Line(String),
    /// That so many lines were left out.
    LeftOut(u64),
    /// Nothing: no more lines come.
    End,
}

impl Waiting {
    /// One more line, behind those that wait; it is left out, and counted, where so many wait that there is no room, or memory is refused.
    fn put(&mut self, line: String)
        ensures { ((self.new.lines.items ≡ self.old.lines.items ++ line ∷ []) × (self.new.left_out ≡ self.old.left_out))
            ⊎ ((self.new.lines.items ≡ self.old.lines.items) × (self.new.left_out ≡ min (self.old.left_out + 1) (2 ^ 64 - 1))) }
    {
        if self.lines.len() < MOST && self.lines.push_back(line).is_ok() {
            return;
        }
        self.leave_out();
    }

    /// One more line is left out.
    fn leave_out(&mut self)
        ensures lines { self.new.lines.items ≡ self.old.lines.items }
        ensures count { self.new.left_out ≡ min (self.old.left_out + 1) (2 ^ 64 - 1) }
    {
        self.left_out = self.left_out.saturating_add(1);
    }

    /// Takes what is to be written next: the line that came first, or else how many were left out.
    fn next(&mut self) -> Next {
        if let Some(line) = self.lines.pop_front() {
            return Next::Line(line);
        }
        if self.left_out > 0 {
            let count = self.left_out;
            self.left_out = 0;
            return Next::LeftOut(count);
        }
        Next::End
    }

    /// Whether there is nothing to do yet: nothing to be written, and more may come.
    fn is_idle(&self) -> bool {
        self.lines.is_empty() && self.left_out == 0 && !self.closed
    }
}

/// Lines on standard error, each with its time; none where nothing is to be reported. Whoever reports something hands it over and goes on: one thread
/// writes the lines, so that a standard error that nobody reads holds up no other. Up to 1,024 lines wait for it; others are left out, and how many is told
/// once it writes again.
#[derive(Drop)]
pub struct Lines {
    alloc: Global,
    quiet: bool,
    waiting: Mutex<Waiting>,
    rung: Condvar,
    written: Condvar,
}

impl Lines {
    /// No lines yet; or none ever.
    pub fn new(alloc: Global, quiet: bool) -> Lines {
        Lines {
            alloc,
            quiet,
            waiting: Mutex::new(Waiting {
                lines: VecDeque::new(alloc),
                left_out: 0,
                closed: false,
                written: false,
            }),
            rung: Condvar::new(),
            written: Condvar::new(),
        }
    }

    /// Whether nothing is to be reported.
    pub fn is_quiet(&self) -> bool {
        self.quiet
    }

    /// Hands over a line. It never waits for standard error.
    pub fn say<R: Wait + Clock>(&self, rt: &R, line: &str) {
        if self.quiet {
            return;
        }
        let stamped = stamped(rt, self.alloc, line);
        let mut waiting = self.waiting.lock(rt);
        match stamped {
            Ok(line) => waiting.put(line),
            Err(AllocError) => waiting.leave_out(),
        }
        drop(waiting);
        self.rung.notify_one();
    }

    /// No more lines come. It waits until those that there are have been written, for two seconds at most.
    pub fn close<R: Wait + Clock>(&self, rt: &R) {
        if self.quiet {
            return;
        }
        let mut waiting = self.waiting.lock(rt);
        waiting.closed = true;
        self.rung.notify_one();
        let most = Duration::from_millis(LAST);
        let (guard, _) = self
            .written
            .wait_timeout_while(rt, waiting, most, |waiting| !waiting.written);
        drop(guard);
    }

    /// Writes the lines as they come, until no more do. One that can't be written is lost.
    fn write_all<R: Wait + Clock + Eprint>(&self, rt: &R) {
        for _turn in rt.forever() {
            match self.next(rt) {
                Next::Line(line) => {
                    let _ = eprintln!(rt; "{line}");
                }
                Next::LeftOut(count) => self.tell_left_out(rt, count),
                Next::End => break,
            }
        }
        self.waiting.lock(rt).written = true;
        self.written.notify_one();
    }

    /// Waits for something to be written, and takes it.
    fn next<R: Wait>(&self, rt: &R) -> Next {
        let mut waiting = self
            .rung
            .wait_while(rt, self.waiting.lock(rt), |waiting| waiting.is_idle());
        waiting.next()
    }

    /// Writes how many lines were left out.
    fn tell_left_out<R: Clock + Eprint>(&self, rt: &R, count: u64) {
        let words = "lines were left out: standard error took them too slowly";
        let _ = match Moment::now(rt) {
            Some(moment) => eprintln!(rt; "{moment} {count} {words}"),
            None => eprintln!(rt; "{count} {words}"),
        };
    }
}

/// A line with its time, if that is known.
fn stamped<R: Clock>(rt: &R, alloc: Global, line: &str) -> Result<String, AllocError> {
    match Moment::now(rt) {
        Some(moment) => format!(in alloc; "{moment} {line}"),
        None => format!(in alloc; "{line}"),
    }
}

/// Starts the thread that writes lines. Nobody joins it, since a standard error that nobody reads may hold it for ever.
///
/// # Errors
///
/// There is no memory for it, or no thread can be made.
pub fn write_lines<R: Threads + Wait + Clock + Eprint + Copy + Send + 'static>(
    rt: &R,
    lines: &Arc<Lines>,
) -> Result<(), AllocError> {
    if lines.is_quiet() {
        return Ok(());
    }
    let lines = Arc::try_clone(lines)?;
    let own = *rt;
    match thread::spawn(rt, move || lines.write_all(&own)) {
        Ok(_) => Ok(()),
        Err(_) => Err(AllocError),
    }
}
