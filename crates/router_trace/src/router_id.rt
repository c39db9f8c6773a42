//! The items that the router writes.
ghost use Rattle.std.specs.Prelude.{◌≡◌, IfOk, option_map};
ghost use Rattle.router_trace.specs.Frames.{header_item, beat_item, frame_on, frame_of, open_item, close_item, error_of, begin_item, end_item, flow_item};

use crate::condition::Condition;
use amqp_model::{Begin, Boxed, Close, End, Fault, Flow, Item, Open, Perf, Symbol, Symbols, Text};
use amqp_session::{FlowState, Serial};
use bytes::Bytes;
use std::alloc::{AllocError, Global};
use std::marker::Model;

/// The largest frame that the router accepts, in bytes: the max-frame-size of its open.
pub const MAX_FRAME_SIZE: u32 = 16_384;

/// The session window, in transfers: the incoming-window and the outgoing-window of the router's begins and flows.
pub const SESSION_WINDOW: u32 = 2_048;

/// The highest handle that the router accepts: the handle-max of its begin.
pub const HANDLE_MAX: u32 = 63;

/// The router's container-id, which its open has.
#[derive(Debug, Drop)]
pub struct RouterId {
    alloc: Global,
    text: Text,
}

impl Model for RouterId {
    ghost use Rattle.std.specs.Prelude.{List, ℕ};

    ghost Value = { List ℕ };

    ghost view = { λ r. r.text };
}

/// The protocol header (AMQP 1.0 part 2, section 2.2).
pub fn header_item() -> Item
    ensures { result ≡ header_item }
{
    Item::Header {
        id: 0,
        major: 1,
        minor: 0,
        revision: 0,
    }
}

/// A heartbeat (AMQP 1.0 part 2, section 2.4.5).
pub fn beat_item() -> Item
    ensures { result ≡ beat_item }
{
    Item::Beat { channel: 0 }
}

/// A session's flow (without a handle), on the router's channel `own` (AMQP 1.0 part 2, section 2.7.4).
pub fn flow_item(own: u16, told: FlowState) -> Item
    ensures { result ≡ flow_item own told }
{
    frame_on(
        own,
        Perf::Flow(Flow {
            next_incoming_id: told.next_incoming.map(Serial::number),
            incoming_window: told.incoming_window,
            next_outgoing_id: told.next_outgoing.number(),
            outgoing_window: SESSION_WINDOW,
            handle: None,
            delivery_count: None,
            link_credit: None,
            available: None,
            drain: false,
            echo: false,
            properties: None,
        }),
    )
}

/// A frame with a performative, on a channel.
pub(crate) fn frame_on(channel: u16, perf: Perf) -> Item
    ensures { result ≡ frame_on channel perf }
{
    Item::Frame {
        sasl: false,
        channel,
        perf,
        payload: Bytes::new(),
    }
}

/// A frame with a performative, on channel 0.
fn frame_of(perf: Perf) -> Item
    ensures { result ≡ frame_of perf }
{
    frame_on(0, perf)
}

impl RouterId {
    /// The container-id with these characters.
    pub fn new(alloc: Global, id: &str) -> Result<RouterId, AllocError>
        ensures { IfOk result (λ r. r ≡ id.now) }
    {
        Ok(RouterId {
            alloc,
            text: Text::new(String::from_str(alloc, id)?),
        })
    }

    /// The allocator for the items that the router writes.
    pub fn alloc(&self) -> Global {
        self.alloc
    }

    /// The router's open (AMQP 1.0 part 2, section 2.7.1).
    pub fn open_item(&self) -> Result<Item, AllocError>
        ensures { IfOk result (λ item. item ≡ open_item self.now) }
    {
        let container_id = self.text.clone()?;
        let open = Open {
            container_id,
            hostname: None,
            max_frame_size: MAX_FRAME_SIZE,
            channel_max: amqp_conn::conn::CHANNEL_MAX,
            idle_time_out: None,
            outgoing_locales: Symbols::new(Vec::new(self.alloc)),
            incoming_locales: Symbols::new(Vec::new(self.alloc)),
            offered_capabilities: Symbols::new(Vec::new(self.alloc)),
            desired_capabilities: Symbols::new(Vec::new(self.alloc)),
            properties: None,
        };
        Ok(frame_of(Perf::Open(Boxed::new(self.alloc, open)?)))
    }

    /// The router's close (AMQP 1.0 part 2, section 2.7.9), with or without an error.
    pub fn close_item(&self, condition: Option<Condition>) -> Result<Item, AllocError>
        ensures { IfOk result (λ item. item ≡ close_item condition) }
    {
        let error = match condition {
            None => None,
            Some(condition) => Some(self.error_of(condition)?),
        };
        Ok(frame_of(Perf::Close(Close { error })))
    }

    /// The router's begin on its channel `own` (AMQP 1.0 part 2, section 2.7.2): it answers the peer's begin on the channel `answers`, or
    /// asks the peer for a begin. Fails if memory is refused.
    pub fn begin_item(&self, own: u16, answers: Option<u16>) -> Result<Item, AllocError>
        ensures { IfOk result (λ item. item ≡ begin_item own answers) }
    {
        let begin = Begin {
            remote_channel: answers,
            next_outgoing_id: 0,
            incoming_window: SESSION_WINDOW,
            outgoing_window: SESSION_WINDOW,
            handle_max: HANDLE_MAX,
            offered_capabilities: Symbols::new(Vec::new(self.alloc)),
            desired_capabilities: Symbols::new(Vec::new(self.alloc)),
            properties: None,
        };
        Ok(frame_on(own, Perf::Begin(Boxed::new(self.alloc, begin)?)))
    }

    /// The router's end on its channel `own`, with or without an error (AMQP 1.0 part 2, section 2.7.8).
    pub fn end_item(&self, own: u16, condition: Option<Condition>) -> Result<Item, AllocError>
        ensures { IfOk result (λ item. item ≡ end_item own condition) }
    {
        let error = match condition {
            None => None,
            Some(condition) => Some(self.error_of(condition)?),
        };
        Ok(frame_on(own, Perf::End(End { error })))
    }

    /// An error with nothing but its condition.
    pub(crate) fn error_of(&self, condition: Condition) -> Result<Boxed<Fault>, AllocError>
        ensures { IfOk result (λ error. error ≡ error_of condition) }
    {
        let error = Fault {
            condition: Symbol::new(String::from_str(self.alloc, condition.text())?),
            description: None,
            info: None,
        };
        Boxed::new(self.alloc, error)
    }
}
