//! One connection: its phase and its outbox.
ghost use Rattle.std.specs.Prelude.{◌≡◌, ◌≤◌, is_none, length, take, drop, slice_get, OnOk, IfOk, None, Some, if◌then◌else◌};
ghost use Rattle.std.specs.Option.{option_copied};
ghost use Rattle.router_trace.specs.Connection.{phase_after, after_perf, with_item, ended, fresh, standing, is_full, is_ready, unless_gone, took, Batched};
ghost use Rattle.std.specs.VecDeque.{deque_len};
ghost use Rattle.state_connections.specs.Emptied.{emptied};

use amqp_conn::Conn;
use amqp_model::{Item, Perf};
use state_collections::Empties;
use std::alloc::{AllocError, Global};
use std::collections::VecDeque;
use std::marker::Model;

/// The number of live connections that are served at once.
pub const CONNECTIONS: usize = 64;

/// The number of items at which an outbox is full.
pub const OUTBOX: usize = 4096;

/// One connection: its phase, the items waiting in its outbox, and how many have left it.
#[derive(Drop)]
pub struct Row {
    phase: Conn,
    waiting: VecDeque<Item>,
    taken: u64,
}

impl Model for Row {
    ghost use Rattle.router_trace.specs.Connection.{Connection};

    ghost Value = { Connection };

    ghost view = { λ r. record { phase = r.phase; waiting = r.waiting.items; taken = r.taken } };
}

/// The phase after a performative that the router wrote.
fn after_perf(perf: &Perf, phase: Conn) -> Conn
    ensures { result ≡ after_perf perf.now phase }
{
    match perf {
        Perf::Open(_) => phase.with_open(),
        Perf::Close(_) => phase.over(),
        _ => phase,
    }
}

/// The phase after an item that the router wrote.
fn phase_after(item: &Item, phase: Conn) -> Conn
    ensures { result ≡ phase_after item.now phase }
{
    match item {
        Item::Header { .. } => phase.with_header(),
        Item::Frame { perf, .. } => after_perf(perf, phase),
        _ => phase,
    }
}

impl Row {
    /// A connection that comes up while `live` others are live. Beyond 64 it is over at once.
    pub fn new(alloc: Global, live: usize) -> Row
        ensures { result ≡ fresh live }
    {
        Row {
            phase: Conn {
                closed: !(live < CONNECTIONS),
                ..Conn::new()
            },
            waiting: VecDeque::new(alloc),
            taken: 0,
        }
    }

    /// The phase, whether the connection is live or over.
    pub fn phase(&self) -> Conn
        ensures { result ≡ self.now.phase }
    {
        self.phase
    }

    /// The phase, while the connection is live.
    pub fn standing(&self) -> Option<Conn>
        ensures { result ≡ standing (Some self.now) }
    {
        if self.phase.closed {
            None
        } else {
            Some(self.phase)
        }
    }

    /// Whether the connection is live and its outbox is full.
    pub fn is_full(&self) -> bool
        ensures { result ≡ is_full (Some self.now) }
    {
        if self.phase.closed {
            false
        } else {
            OUTBOX <= self.waiting.len()
        }
    }

    /// Whether it is ready: an item is waiting in its outbox, or it is over.
    pub fn is_ready(&self) -> bool
        ensures { result ≡ is_ready (Some self.now) }
    {
        if self.phase.closed {
            true
        } else {
            !self.waiting.is_empty()
        }
    }

    /// How many items wait in its outbox.
    pub fn waits(&self) -> usize
        ensures { result ≡ length self.now.waiting }
    {
        self.waiting.len()
    }

    /// The item at this place of its outbox, counted from 0 at the front.
    pub fn waiting(&self, place: usize) -> Option<&Item>
        ensures { option_copied result ≡ slice_get self.now.waiting place }
    {
        self.waiting.get(place)
    }

    /// Ends the connection; the items in its outbox stay.
    pub fn end(&mut self)
        ensures { self.new ≡ ended self.old }
    {
        self.phase = self.phase.over();
    }

    /// Puts an item into the outbox. If memory is refused, the row's contents are unspecified.
    pub fn put(&mut self, item: Item) -> Result<(), AllocError>
        ensures { OnOk result (self.new ≡ with_item item self.old) }
    {
        let phase = phase_after(&item, self.phase);
        match self.waiting.push_back(item) {
            Ok(()) => {
                self.phase = phase;
                Ok(())
            }
            Err(left) => {
                drop(left);
                Err(AllocError)
            }
        }
    }

    /// Moves up to `most` items out of the outbox, in order. If memory is refused, the row's contents are
    /// unspecified.
    pub fn take(&mut self, alloc: Global, most: usize) -> Result<Taken, AllocError>
        ensures batched { IfOk result (λ taken. Batched self.old most taken.first taken.items.items taken.ended) }
        ensures rest { IfOk result (λ taken. took (length taken.items.items) self.old ≡ (if taken.ended then None else Some self.new)) }
        ensures most { IfOk result (λ taken. length taken.items.items ≤ most) }
    {
        let count = self.waiting.len().min(most);
        let first = self.taken;
        let Some(next) = first.checked_add(count as u64) else {
            return Err(AllocError);
        };
        let items = front(alloc, &mut self.waiting, count)?;
        self.taken = next;
        let ended = self.is_gone();
        Ok(Taken {
            first,
            items,
            ended,
        })
    }

    /// Whether the connection is over and its outbox is empty.
    fn is_gone(&self) -> bool
        ensures gone { result ≡ is_none (unless_gone self.now) }
        ensures rest { unless_gone self.now ≡ (if result then None else Some self.now) }
    {
        self.phase.closed && self.waiting.is_empty()
    }
}

impl Empties for Row {
    ghost rest = { emptied };

    /// Forgets the items in the outbox.
    fn empty(&mut self) {
        self.waiting.clear();
    }
}

/// Items taken from an outbox.
#[derive(Drop)]
pub struct Taken {
    /// The number of the first of them: how many items left the outbox before.
    pub first: u64,
    /// The items, in order.
    pub items: Vec<Item>,
    /// Whether the connection is over and these were its last items.
    pub ended: bool,
}

/// Moves `count` items out of the front of a queue.
fn front(alloc: Global, queue: &mut VecDeque<Item>, count: usize) -> Result<Vec<Item>, AllocError>
    requires { count ≤ deque_len queue.old }
    ensures items { IfOk result (λ front. front.items ≡ take count queue.old.items) }
    ensures rest { OnOk result (queue.new.items ≡ drop count queue.old.items) }
    ensures len { IfOk result (λ front. length front.items ≡ count) }
{
    let mut items = Vec::with_capacity(alloc, count)?;
    for turn in 0..count {
        match queue.pop_front() {
            None => return Err(AllocError),
            Some(item) => match items.push(item) {
                Ok(()) => {}
                Err(left) => {
                    drop(left);
                    return Err(AllocError);
                }
            },
        }
    }
    Ok(items)
}
