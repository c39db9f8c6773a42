//! What the threads of a serving program share beside the router.
use crate::lines::Lines;
use crate::streams::Streams;
use core_machine::CoreFault;
use route_table::Config;
use std::alloc::Global;
use std::sync::{Arc, Condvar, Mutex, Wait};
use std::time::Clock;

/// The most connections that have threads at once.
pub const THREADS: usize = 256;

/// How many connections there were and are, and whether more are accepted.
#[derive(Clone, Copy)]
struct Taking {
    /// How many are still to be accepted; any number where no limit is given.
    left: Option<u64>,
    /// How many have threads.
    running: usize,
    /// No more are accepted.
    over: bool,
}

/// What happens to a connection that was accepted.
#[derive(Clone, Copy)]
pub enum Taken {
    /// It gets threads.
    Served,
    /// It gets threads, and is the last.
    Last,
    /// There are too many: it is closed.
    TooMany,
    /// No more are accepted.
    Over,
}

/// Everything that the threads share but the router.
#[derive(Drop)]
pub struct ProgramState {
    /// For everything that grows.
    pub alloc: Global,
    /// The configuration.
    pub config: Config,
    /// The lines on standard error.
    pub lines: Arc<Lines>,
    /// The sockets of the connections.
    pub streams: Mutex<Streams>,
    taking: Mutex<Taking>,
    over: Condvar,
}

impl ProgramState {
    /// What the threads share, before there are any: up to so many connections are accepted, or any number, and lines are handed over here.
    pub fn new(
        alloc: Global,
        config: Config,
        connections: Option<u64>,
        lines: Arc<Lines>,
    ) -> ProgramState {
        ProgramState {
            alloc,
            config,
            lines,
            streams: Mutex::new(Streams::new(alloc)),
            taking: Mutex::new(Taking {
                left: connections,
                running: 0,
                over: false,
            }),
            over: Condvar::new(),
        }
    }

    /// A connection was accepted: what happens to it.
    pub fn take<R: Wait>(&self, rt: &R) -> Taken {
        let mut taking = self.taking.lock(rt);
        if taking.over {
            return Taken::Over;
        }
        let room = taking.running < THREADS;
        if room {
            taking.running += 1;
        }
        if let Some(left) = taking.left {
            taking.left = Some(left.saturating_sub(1));
            taking.over = left <= 1;
            self.over.notify_all();
        }
        match (room, taking.over) {
            (false, _) => Taken::TooMany,
            (true, false) => Taken::Served,
            (true, true) => Taken::Last,
        }
    }

    /// The threads of a connection ended.
    pub fn leave<R: Wait>(&self, rt: &R) {
        let mut taking = self.taking.lock(rt);
        taking.running = taking.running.saturating_sub(1);
    }

    /// No more connections are to be accepted.
    pub fn stop<R: Wait>(&self, rt: &R) {
        self.taking.lock(rt).over = true;
        self.over.notify_all();
    }

    /// Waits until no more connections are accepted.
    pub fn wait_over<R: Wait>(&self, rt: &R) {
        let taking = self
            .over
            .wait_while(rt, self.taking.lock(rt), |taking| !taking.over);
        drop(taking);
    }

    /// Whether no more connections are accepted.
    pub fn is_over<R: Wait>(&self, rt: &R) -> bool {
        self.taking.lock(rt).over
    }

    /// The router answered a fault. Where it failed, no more connections are accepted, and those that have threads lose their sockets,
    /// also at their doors, so that none is waited for.
    pub fn failed<R: Wait + Clock>(&self, rt: &R, fault: CoreFault) {
        match fault {
            CoreFault::NoConnection => return,
            CoreFault::Disk => self.lines.say(rt, "the router's disk failed"),
            CoreFault::Memory => self.lines.say(rt, "memory was refused to the router"),
            CoreFault::Failed => {}
        }
        self.stop(rt);
        let first = self.streams.lock(rt).shut();
        if first {
            self.lines.say(rt, "the router failed: all connections end");
        }
    }
}
