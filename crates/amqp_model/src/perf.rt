//! The performatives of the transport (AMQP 1.0 part 2, section 2.7) and the bodies of SASL frames (part 5, section
//! 5.3.3), each with the fields of the standard, in its order and under its names.
ghost use Rattle.std.specs.Prelude.{◌≡◌};
ghost use Rattle.amqp_model.specs.Parts.{attach_of};

use crate::boxed::Boxed;
use crate::leaf::{Binary, Map, Symbol, Symbols, Text};
use crate::state::{DeliveryState, DeliveryTag, Fault, Unsettled};
use crate::terminus::{SourceTerminus, TargetTerminus};
use std::fmt;

/// One performative or SASL body. Those that come once for a connection, a session or a link stand in a box, so that the others are small.
#[derive(Debug)]
pub enum Perf {
    /// Negotiates a connection.
    Open(Boxed<Open>),
    /// Begins a session.
    Begin(Boxed<Begin>),
    /// Attaches a link.
    Attach(Boxed<Attach>),
    /// Announces windows and credit.
    Flow(Flow),
    /// Carries a message, or a part of one.
    Transfer(Transfer),
    /// Gives the states of deliveries.
    Disposition(Disposition),
    /// Detaches a link.
    Detach(Detach),
    /// Ends a session.
    End(End),
    /// Closes a connection.
    Close(Close),
    /// The server's mechanisms.
    SaslMechanisms(SaslMechanisms),
    /// The client's choice.
    SaslInit(SaslInit),
    /// A challenge.
    SaslChallenge(SaslChallenge),
    /// The response to it.
    SaslResponse(SaslResponse),
    /// How the exchange ended.
    SaslOutcome(SaslOutcome),
}

impl Drop for Perf {
    /// Drops what it holds by one call, where a derived drop is its steps at each exit of a function that holds one.
    fn drop(self) {
        match self {
            Perf::Open(_open) => {}
            Perf::Begin(_begin) => {}
            Perf::Attach(_attach) => {}
            Perf::Flow(_flow) => {}
            Perf::Transfer(_transfer) => {}
            Perf::Disposition(_disposition) => {}
            Perf::Detach(_detach) => {}
            Perf::End(_end) => {}
            Perf::Close(_close) => {}
            Perf::SaslMechanisms(_mechanisms) => {}
            Perf::SaslInit(_init) => {}
            Perf::SaslChallenge(_challenge) => {}
            Perf::SaslResponse(_response) => {}
            Perf::SaslOutcome(_outcome) => {}
        }
    }
}

impl Perf {
    /// The attach that it is, taken out of its box; none of any other performative, which is dropped.
    pub fn into_attach(self) -> Option<Attach>
        ensures { result ≡ attach_of self }
    {
        match self {
            Perf::Attach(attach) => Some(attach.into_inner()),
            other => {
                drop(other);
                None
            }
        }
    }
}

/// Whether an end of a link sends or receives (AMQP 1.0 part 2, section 2.8.1).
#[derive(Clone, Copy, Debug, PartialEq, Eq)]
pub enum Role {
    /// It sends.
    Sender,
    /// It receives.
    Receiver,
}

/// Negotiates a connection (AMQP 1.0 part 2, section 2.7.1).
#[derive(Debug, Drop)]
pub struct Open {
    /// The name of the peer's container.
    pub container_id: Text,
    /// The host that the peer means to reach.
    pub hostname: Option<Text>,
    /// The largest frame that the peer accepts, in bytes.
    pub max_frame_size: u32,
    /// The highest channel that the peer accepts.
    pub channel_max: u16,
    /// Milliseconds of silence after which the peer may close.
    pub idle_time_out: Option<u32>,
    /// Locales of the texts that the peer sends.
    pub outgoing_locales: Symbols,
    /// Locales of the texts that the peer wants.
    pub incoming_locales: Symbols,
    /// What the peer can do.
    pub offered_capabilities: Symbols,
    /// What the peer would like.
    pub desired_capabilities: Symbols,
    /// Its other properties.
    pub properties: Option<Map>,
}

/// Begins a session (AMQP 1.0 part 2, section 2.7.2).
#[derive(Debug, Drop)]
pub struct Begin {
    /// The channel of the begin that this one answers.
    pub remote_channel: Option<u16>,
    /// The transfer-id of the first transfer that will be sent.
    pub next_outgoing_id: u32,
    /// How many transfers can be received.
    pub incoming_window: u32,
    /// How many transfers can be sent.
    pub outgoing_window: u32,
    /// The highest handle that the peer accepts.
    pub handle_max: u32,
    /// What the session can do.
    pub offered_capabilities: Symbols,
    /// What the peer would like.
    pub desired_capabilities: Symbols,
    /// Its other properties.
    pub properties: Option<Map>,
}

/// Attaches a link (AMQP 1.0 part 2, section 2.7.3).
#[derive(Debug, Drop)]
pub struct Attach {
    /// The link's name.
    pub name: Text,
    /// The handle by which the peer names the link.
    pub handle: u32,
    /// What the peer's end does.
    pub role: Role,
    /// 0 unsettled, 1 settled, 2 mixed.
    pub snd_settle_mode: u8,
    /// 0 first, 1 second.
    pub rcv_settle_mode: u8,
    /// Where its messages come from.
    pub source: Option<SourceTerminus>,
    /// Where they go to.
    pub target: Option<TargetTerminus>,
    /// The deliveries that the peer holds as unsettled.
    pub unsettled: Option<Unsettled>,
    /// Whether the peer holds more of them than are in the map.
    pub incomplete_unsettled: bool,
    /// The sender's first delivery-count; from a sender, absent means 0.
    pub initial_delivery_count: Option<u32>,
    /// The largest message that the peer accepts, in bytes.
    pub max_message_size: Option<u64>,
    /// What the link can do.
    pub offered_capabilities: Symbols,
    /// What the peer would like.
    pub desired_capabilities: Symbols,
    /// Its other properties.
    pub properties: Option<Map>,
}

/// Announces windows and credit (AMQP 1.0 part 2, section 2.7.4).
#[derive(Debug, Drop)]
pub struct Flow {
    /// The transfer-id of the transfer that the peer expects next.
    pub next_incoming_id: Option<u32>,
    /// How many transfers it can receive.
    pub incoming_window: u32,
    /// The transfer-id of the transfer that it sends next.
    pub next_outgoing_id: u32,
    /// How many transfers it can send.
    pub outgoing_window: u32,
    /// The handle of the link, where the flow is for a link.
    pub handle: Option<u32>,
    /// The delivery-count: deliveries that the link's sender has started.
    pub delivery_count: Option<u32>,
    /// Deliveries that its receiver can accept.
    pub link_credit: Option<u32>,
    /// Deliveries that its sender has available.
    pub available: Option<u32>,
    /// Whether credit is to be used up.
    pub drain: bool,
    /// Whether a flow is wanted in return.
    pub echo: bool,
    /// Its other properties.
    pub properties: Option<Map>,
}

/// Carries a message, or a part of one (AMQP 1.0 part 2, section 2.7.5).
#[derive(Debug, Drop)]
pub struct Transfer {
    /// The link.
    pub handle: u32,
    /// The delivery's number in its session.
    pub delivery_id: Option<u32>,
    /// The delivery's tag on its link.
    pub delivery_tag: Option<DeliveryTag>,
    /// The format of the message; absent means 0.
    pub message_format: Option<u32>,
    /// Whether the sender has settled the delivery.
    pub settled: bool,
    /// Whether more of the message is to come.
    pub more: bool,
    /// The settlement that the sender asks for; absent means the link's.
    pub rcv_settle_mode: Option<u8>,
    /// The state of the delivery.
    pub state: Option<Boxed<DeliveryState>>,
    /// Whether the delivery is resumed.
    pub resume: bool,
    /// Whether the delivery is aborted.
    pub aborted: bool,
    /// Whether the answer may wait for others.
    pub batchable: bool,
}

/// Gives the states of deliveries (AMQP 1.0 part 2, section 2.7.6).
#[derive(Debug, Drop)]
pub struct Disposition {
    /// Whether the peer sends or receives on the links of these deliveries.
    pub role: Role,
    /// The first delivery-id.
    pub first: u32,
    /// The last one; absent means the first.
    pub last: Option<u32>,
    /// Whether they are settled.
    pub settled: bool,
    /// Their state.
    pub state: Option<DeliveryState>,
    /// Whether the answer may wait for others.
    pub batchable: bool,
}

/// Detaches a link (AMQP 1.0 part 2, section 2.7.7).
#[derive(Debug, Drop)]
pub struct Detach {
    /// The link.
    pub handle: u32,
    /// Whether it is closed for good.
    pub closed: bool,
    /// The error, if there is one.
    pub error: Option<Boxed<Fault>>,
}

/// Ends a session (AMQP 1.0 part 2, section 2.7.8).
#[derive(Debug, Drop)]
pub struct End {
    /// The error, if there is one.
    pub error: Option<Boxed<Fault>>,
}

/// Closes a connection (AMQP 1.0 part 2, section 2.7.9).
#[derive(Debug, Drop)]
pub struct Close {
    /// The error, if there is one.
    pub error: Option<Boxed<Fault>>,
}

/// The mechanisms that a server offers (AMQP 1.0 part 5, section 5.3.3.1).
#[derive(Debug, Drop)]
pub struct SaslMechanisms {
    /// Their names, at least one.
    pub mechanisms: Symbols,
}

/// The mechanism that the client chooses (AMQP 1.0 part 5, section 5.3.3.2). Its `Debug` shows nothing of it, since the
/// initial response may hold a password.
#[derive(Drop)]
pub struct SaslInit {
    /// Its name.
    pub mechanism: Symbol,
    /// The initial response.
    pub initial_response: Option<Binary>,
    /// The host that the client means to reach.
    pub hostname: Option<Text>,
}

impl fmt::Debug for SaslInit {
    ghost use Rattle.std.specs.Prelude.{Some, codes};

    ghost debug_output = { λ _. Some (codes "SaslInit(..)") };

    fn fmt<W: fmt::Write>(&self, f: &mut fmt::Formatter<W>) -> fmt::Result {
        f.write_str("SaslInit(..)")
    }
}

/// A challenge of the server (AMQP 1.0 part 5, section 5.3.3.3).
#[derive(Debug, Drop)]
pub struct SaslChallenge {
    /// The challenge's octets.
    pub challenge: Binary,
}

/// The client's response to a challenge (AMQP 1.0 part 5, section 5.3.3.4).
#[derive(Debug, Drop)]
pub struct SaslResponse {
    /// The response's octets.
    pub response: Binary,
}

/// How the exchange ended (AMQP 1.0 part 5, section 5.3.3.5).
#[derive(Debug, Drop)]
pub struct SaslOutcome {
    /// 0 ok, 1 auth, 2 sys, 3 sys-perm, 4 sys-temp.
    pub code: u8,
    /// Additional data.
    pub additional_data: Option<Binary>,
}
