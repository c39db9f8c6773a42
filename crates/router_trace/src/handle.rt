//! The state of a peer's handle, and what a peer's attach asks for.
ghost use Rattle.std.specs.Prelude.{◌≡◌, IfOk};
ghost use Rattle.std.specs.Option.{option_copied};
ghost use Rattle.router_trace.specs.Links.{asked_of, tags_by};

use crate::event::ConnectionId;
use crate::tags::Tags;
use amqp_link::SendEnd;
use amqp_model::{Attach, Role, Unsettled};
use amqp_session::Serial;
use std::alloc::{AllocError, Global};

/// What a peer's handle stands for (AMQP 1.0 part 2, section 2.6.2).
#[derive(Clone, Copy, Debug, PartialEq, Eq)]
pub enum PeerHandle {
    /// A link; this is the router's handle of it.
    Mapped(u32),
    /// The router has detached the link and is waiting for the peer's detach; other frames on the handle are dropped.
    Detaching,
}

/// The fields of a peer's attach that the link depends on (AMQP 1.0 part 2, section 2.7.3).
#[derive(Debug, Drop)]
pub struct Asked {
    /// The peer's handle.
    pub handle: u32,
    /// The peer's initial delivery-count; 0 if it has none.
    pub initial: u32,
    /// If the peer is the sender, the tags in its unsettled map.
    pub tags: Tags,
    /// Whether it says that its unsettled map is incomplete.
    pub incomplete: bool,
}

/// What a peer's handle stands for, with the link's credit state.
#[derive(Clone, Copy, Debug, PartialEq, Eq)]
pub enum LinkAt {
    /// Nothing.
    Nowhere,
    /// The router has detached the link and is waiting for the peer's detach.
    Detaching,
    /// A link on which the router is the sender.
    Sends {
        /// The router's handle.
        handle: u32,
        /// The router's sending end of it.
        end: SendEnd,
    },
    /// A link on which the peer is the sender.
    Receives {
        /// The router's handle.
        handle: u32,
        /// The peer's delivery-count.
        count: Serial,
        /// The link credit that was granted to the peer and that it hasn't used.
        unused: u32,
        /// Whether it is durable.
        durable: bool,
    },
}

/// An attachment: a link that the router took, from its attach on.
#[derive(Clone, Copy, Debug, PartialEq, Eq)]
pub struct Attachment {
    /// Its number: one more than that of the attachment before it, over all connections. It is never reused.
    pub number: u64,
    /// The connection.
    pub conn: ConnectionId,
    /// The router's channel of the session.
    pub channel: u16,
    /// The router's handle of the link.
    pub handle: u32,
}

impl Asked {
    /// The fields of an attach.
    pub fn of(alloc: Global, attach: &Attach) -> Result<Asked, AllocError>
        ensures { IfOk result (λ asked. asked ≡ asked_of attach.now) }
    {
        Ok(Asked {
            handle: attach.handle,
            initial: attach.initial_delivery_count.unwrap_or(0),
            tags: tags_by(alloc, attach.role, attach.unsettled.as_ref())?,
            incomplete: attach.incomplete_unsettled,
        })
    }
}

/// The tags in the map of an attach, if it is a sender's.
fn tags_by(alloc: Global, role: Role, map: Option<&Unsettled>) -> Result<Tags, AllocError>
    ensures { IfOk result (λ tags. tags ≡ tags_by role (option_copied map.entry)) }
{
    match role {
        Role::Sender => Tags::of(alloc, map),
        Role::Receiver => Ok(Tags::none(alloc)),
    }
}
