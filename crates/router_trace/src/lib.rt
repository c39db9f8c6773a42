//! The router's input and output: events, and the items that it writes.
#![tactic(auto)]

mod binding;
mod channel;
mod condition;
mod durable;
mod event;
mod frames;
mod handle;
mod outgoing;
mod router_id;
mod tags;
mod terms;

pub use binding::{
    Binding, BindingKind, DeliveryName, Holding, JoinedTo, Origin, Rank, Resumed, TakenUp,
};
pub use channel::PeerChannel;
pub use condition::Condition;
pub use durable::is_durable;
pub use event::{ConnectionId, Event, Peer, PeerRole};
pub use frames::{LinkState, MAX_MESSAGE_SIZE, attach_item, link_flow_item};
pub use handle::{Asked, Attachment, LinkAt, PeerHandle};
pub use outgoing::Outgoing;
pub use router_id::{
    HANDLE_MAX, MAX_FRAME_SIZE, RouterId, SESSION_WINDOW, beat_item, flow_item, header_item,
};
pub use tags::Tags;
pub use terms::Terms;
