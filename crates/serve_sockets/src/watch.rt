//! What is reported of connections.
use crate::lines::Lines;
use crate::links::{Link, Links, Lost};
use crate::sentence::sentence;
use amqp_model::{Boxed, Detach, Fault, Item, Perf};
use core_machine::CoreFault;
use router_trace::ConnectionId;
use serve_streams::{Gate, ReadEnd, Side, WriteEnd};
use std::alloc::Global;
use std::net::SocketAddr;
use std::sync::{Mutex, Wait};
use std::time::Clock;

/// Reports what a connection's threads see: who opened it, and what it is refused.
#[derive(Drop)]
pub struct Watch<'a, R> {
    /// The runtime.
    pub rt: &'a R,
    /// For the lines.
    pub alloc: Global,
    /// Where they are written.
    pub lines: &'a Lines,
    /// The peer's address.
    pub peer: SocketAddr,
    /// The user.
    pub user: &'a str,
    /// The links that the peer asked for.
    pub links: Mutex<Links>,
}

impl<'a, R: Wait + Clock> Watch<'a, R> {
    /// The peer's open.
    fn opened(&self, conn: ConnectionId, container: &str) {
        let (number, peer, user) = (conn.0, self.peer, self.user);
        if let Ok(line) = format!(in self.alloc;
            "connection {number} opened from {peer} as {user:?}: container {container:?}"
        ) {
            self.lines.say(self.rt, &line);
        }
    }

    /// An error by which the router ends a session or the connection, or a link of which nothing is known.
    fn refused(&self, conn: ConnectionId, error: &Fault) {
        let number = conn.0;
        let condition = error.condition.as_str();
        let words = sentence(condition);
        if let Ok(line) = format!(in self.alloc;
            "connection {number} is told {condition}: {words}"
        ) {
            self.lines.say(self.rt, &line);
        }
    }

    /// An error by which the router refuses or detaches a link.
    fn lost(&self, conn: ConnectionId, link: &Link, lost: Lost, error: &Fault) {
        let (number, peer, user) = (conn.0, self.peer, self.user);
        let condition = error.condition.as_str();
        let (word, words) = (lost.word(), sentence(condition));
        if let Ok(line) = format!(in self.alloc;
            "connection {number} ({peer}, {user:?}): link {link} {word}: {condition}: {words}"
        ) {
            self.lines.say(self.rt, &line);
        }
    }

    /// A detach of the router.
    fn detached(&self, conn: ConnectionId, channel: u16, detach: &Detach) {
        let known = self.links.lock(self.rt).detach(channel, detach.handle);
        let Some(error) = &detach.error else {
            drop(known);
            return;
        };
        match known {
            Some((link, lost)) => self.lost(conn, &link, lost, error.as_ref()),
            None => self.refused(conn, error.as_ref()),
        }
    }

    /// A performative of the peer.
    fn heard(&self, conn: ConnectionId, perf: &Perf) {
        match perf {
            Perf::Open(open) => self.opened(conn, open.as_ref().container_id.as_str()),
            Perf::Attach(attach) => self.links.lock(self.rt).ask(attach.as_ref()),
            _ => {}
        }
    }

    /// A performative of the router.
    fn told(&self, conn: ConnectionId, channel: u16, perf: &Perf) {
        match perf {
            Perf::Attach(attach) => self.links.lock(self.rt).answer(channel, attach.as_ref()),
            Perf::Detach(detach) => self.detached(conn, channel, detach),
            Perf::End(end) => {
                self.links.lock(self.rt).end(channel);
                self.told_error(conn, &end.error);
            }
            Perf::Close(close) => self.told_error(conn, &close.error),
            _ => {}
        }
    }

    /// The error with which the router ends a session or the connection, if there is one.
    fn told_error(&self, conn: ConnectionId, error: &Option<Boxed<Fault>>) {
        if let Some(error) = error {
            self.refused(conn, error.as_ref());
        }
    }
}

impl<'a, R: Wait + Clock> Gate for Watch<'a, R> {
    fn holds(&self, _side: Side) -> bool {
        false
    }

    fn pass<T: Wait>(&self, _rt: &T, _conn: ConnectionId, _side: Side, _number: u64) {}

    fn see<T: Wait>(&self, _rt: &T, conn: ConnectionId, side: Side, item: &Item) {
        if self.lines.is_quiet() {
            return;
        }
        match (side, item) {
            (Side::Reader, Item::Frame { perf, .. }) => self.heard(conn, perf),
            (Side::Writer, Item::Frame { channel, perf, .. }) => self.told(conn, *channel, perf),
            _ => {}
        }
    }
}

/// Why a reader ended, in words.
pub fn reader_words(end: ReadEnd) -> &'static str {
    match end {
        ReadEnd::End => "the peer's stream ended",
        ReadEnd::ReadFailed => "a read failed",
        ReadEnd::Memory => "out of memory",
        ReadEnd::Core(CoreFault::NoConnection) => "the router ended it",
        ReadEnd::Core(_) => "the router failed",
        ReadEnd::Door => "its login was refused",
        ReadEnd::WriteFailed => "a write failed",
    }
}

/// Why a writer ended, in words.
pub fn writer_words(end: WriteEnd) -> &'static str {
    match end {
        WriteEnd::Ended => "all was written",
        WriteEnd::WriteFailed => "a write failed",
        WriteEnd::Memory => "out of memory",
        WriteEnd::Core(CoreFault::NoConnection) => "nothing more was to be written",
        WriteEnd::Core(_) => "the router failed",
        WriteEnd::Gap => "items were missing",
    }
}
