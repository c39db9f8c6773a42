//! The answers of the reply table's rows.
use amqp_session::FlowState;
use router_trace::{Condition, LinkState};

/// A row's answer to an item.
#[derive(Clone, Copy)]
pub enum Answer {
    /// Nothing.
    Nothing,
    /// The router's header.
    Header,
    /// The router's open.
    Open,
    /// The router's close, without an error.
    Close,
    /// A close with an error; the router's open comes before it if it isn't written yet.
    CloseWith(Condition),
    /// The router's begin.
    Begin {
        /// The router's channel of the session.
        own: u16,
        /// The peer's channel of the session.
        theirs: u16,
    },
    /// The router's end, with or without an error.
    End {
        /// The router's channel of the session.
        own: u16,
        /// The error.
        error: Option<Condition>,
    },
    /// A flow without a handle.
    Flow {
        /// The router's channel of the session.
        own: u16,
        /// The session state that it carries.
        told: FlowState,
    },
    /// The answer to an attach that is taken; an older link with its key is detached first.
    Attach {
        /// The router's channel of the session.
        own: u16,
    },
    /// The answer to an attach that is refused, then a detach.
    Refuse {
        /// The router's channel of the session.
        own: u16,
        /// The router's handle of the link.
        handle: u32,
        /// The error.
        error: Condition,
    },
    /// The router's detach, with or without an error.
    Detach {
        /// The router's channel of the session.
        own: u16,
        /// The router's handle of the link.
        handle: u32,
        /// Whether the link is closed for good.
        closed: bool,
        /// The error.
        error: Option<Condition>,
    },
    /// A link's flow.
    LinkFlow {
        /// The router's channel of the session.
        own: u16,
        /// The session state that it carries.
        told: FlowState,
        /// The link state that it carries.
        at: LinkState,
    },
    /// A transfer is taken, with its payload.
    Taken {
        /// The router's channel of the session.
        own: u16,
        /// The router's handle of the link.
        handle: u32,
    },
    /// Deliveries that a disposition decides without settling are answered, each settled.
    Settle {
        /// The router's channel of the session.
        own: u16,
    },
}
