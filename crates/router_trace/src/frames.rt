//! The link frames that the router writes.
ghost use Rattle.std.specs.Prelude.{◌≡◌, codes, IfOk};
ghost use Rattle.router_trace.specs.LinkFrames.{detach_item, kept, source_answer, target_answer, other, sender_mode, receiver_mode, first_count, largest_message, plain_answer, lasting_source, lasting_target, lasting_by, lasting, answer_to, refusal_of, attach_item, link_flow_item};

use crate::condition::Condition;
use crate::durable::is_durable;
use crate::router_id::{RouterId, SESSION_WINDOW, frame_on};
use amqp_model::{
    Attach, Boxed, Detach, Flow, Item, Perf, Role, SourceTerminus, Symbol, Symbols, TargetTerminus,
    Unsettled,
};
use amqp_session::{FlowState, Serial};
use std::alloc::{AllocError, Global};

/// The largest message that the router accepts, in bytes.
pub const MAX_MESSAGE_SIZE: u64 = 65_536;

/// The link's fields of a flow (AMQP 1.0 part 2, section 2.7.4).
#[derive(Clone, Copy, Debug, PartialEq, Eq)]
pub struct LinkState {
    /// The router's handle of the link.
    pub handle: u32,
    /// The sender's delivery-count.
    pub count: Serial,
    /// The link credit, counted from that delivery-count.
    pub credit: u32,
    /// The drain flag: the sender has used up its credit without deliveries.
    pub drain: bool,
}

/// A link's flow on the router's channel `own`.
pub fn link_flow_item(own: u16, told: FlowState, at: LinkState) -> Item
    ensures { result ≡ link_flow_item own told at }
{
    frame_on(
        own,
        Perf::Flow(Flow {
            next_incoming_id: told.next_incoming.map(Serial::number),
            incoming_window: told.incoming_window,
            next_outgoing_id: told.next_outgoing.number(),
            outgoing_window: SESSION_WINDOW,
            handle: Some(at.handle),
            delivery_count: Some(at.count.number()),
            link_credit: Some(at.credit),
            available: None,
            drain: at.drain,
            echo: false,
            properties: None,
        }),
    )
}

/// The router's attach on its channel `own`. Fails if memory is refused.
pub fn attach_item(alloc: Global, own: u16, attach: Attach) -> Result<Item, AllocError>
    ensures { IfOk result (λ item. item ≡ attach_item own attach) }
{
    Ok(frame_on(own, Perf::Attach(Boxed::new(alloc, attach)?)))
}

impl RouterId {
    /// The router's detach on its channel and handle, with or without an error (AMQP 1.0 part 2, section 2.7.7).
    pub fn detach_item(
        &self,
        own: u16,
        handle: u32,
        closed: bool,
        condition: Option<Condition>,
    ) -> Result<Item, AllocError>
        ensures { IfOk result (λ item. item ≡ detach_item own handle closed condition) }
    {
        let error = match condition {
            None => None,
            Some(condition) => Some(self.error_of(condition)?),
        };
        Ok(frame_on(
            own,
            Perf::Detach(Detach {
                handle,
                closed,
                error,
            }),
        ))
    }
}

/// The terminus durability that the router answers with: it keeps no configuration.
fn kept(durable: u32) -> u32
    ensures { result ≡ kept durable }
{
    if durable == 1 { 0 } else { durable }
}

/// The source of an answer: as received, without a filter.
fn source_answer(source: Option<SourceTerminus>) -> Option<SourceTerminus>
    ensures { result ≡ source_answer source }
{
    match source {
        Some(SourceTerminus::Source(mut source)) => {
            source.durable = kept(source.durable);
            source.filter = None;
            Some(SourceTerminus::Source(source))
        }
        source => source,
    }
}

/// The target of an answer: as received.
fn target_answer(target: Option<TargetTerminus>) -> Option<TargetTerminus>
    ensures { result ≡ target_answer target }
{
    match target {
        Some(TargetTerminus::Target(mut target)) => {
            target.durable = kept(target.durable);
            Some(TargetTerminus::Target(target))
        }
        target => target,
    }
}

/// The opposite role.
fn other(role: Role) -> Role
    ensures { result ≡ other role }
{
    match role {
        Role::Sender => Role::Receiver,
        Role::Receiver => Role::Sender,
    }
}

/// The router's answer to an attach, but for what a durable link's has beyond it.
fn plain_answer(alloc: Global, attach: Attach, handle: u32) -> Attach
    ensures { result ≡ plain_answer attach handle }
{
    let receives = attach.role == Role::Sender;
    Attach {
        name: attach.name,
        handle,
        role: other(attach.role),
        snd_settle_mode: if receives { attach.snd_settle_mode } else { 2 },
        rcv_settle_mode: if receives { 0 } else { attach.rcv_settle_mode },
        source: source_answer(attach.source),
        target: target_answer(attach.target),
        unsettled: None,
        incomplete_unsettled: false,
        initial_delivery_count: if receives { None } else { Some(0) },
        max_message_size: if receives {
            Some(MAX_MESSAGE_SIZE)
        } else {
            None
        },
        offered_capabilities: Symbols::new(Vec::new(alloc)),
        desired_capabilities: Symbols::new(Vec::new(alloc)),
        properties: None,
    }
}

/// The source of a durable link: it never expires.
fn lasting_source(source: Option<SourceTerminus>, never: Symbol) -> Option<SourceTerminus>
    ensures { never ≡ codes "never" → result ≡ lasting_source source }
{
    match source {
        Some(SourceTerminus::Source(mut source)) => {
            source.expiry_policy = never;
            source.timeout = 0;
            Some(SourceTerminus::Source(source))
        }
        source => source,
    }
}

/// The target of a durable link: it never expires.
fn lasting_target(target: Option<TargetTerminus>, never: Symbol) -> Option<TargetTerminus>
    ensures { never ≡ codes "never" → result ≡ lasting_target target }
{
    match target {
        Some(TargetTerminus::Target(mut target)) => {
            target.expiry_policy = never;
            target.timeout = 0;
            Some(TargetTerminus::Target(target))
        }
        target => target,
    }
}

impl RouterId {
    /// The router's answer to an attach, on the router's handle (AMQP 1.0 part 2, section 2.7.3). It has the same name, the opposite role and
    /// both termini as received, except that no filter is in place and no terminus configuration is kept. On a durable link the router's
    /// terminus never expires, the answer tells that no delivery is unsettled, and as a receiver the router settles second.
    pub fn answer_to(&self, attach: Attach, handle: u32) -> Result<Attach, AllocError>
        ensures { IfOk result (λ answer. answer ≡ answer_to attach handle) }
    {
        let answer = plain_answer(self.alloc(), attach, handle);
        if !is_durable(answer.role, &answer) {
            return Ok(answer);
        }
        match self.never() {
            Ok(never) => Ok(lasting(self.alloc(), answer, never)),
            Err(error) => {
                drop(answer);
                Err(error)
            }
        }
    }

    /// The expiry policy of a terminus that never expires (AMQP 1.0 part 3, section 3.5.6).
    fn never(&self) -> Result<Symbol, AllocError>
        ensures { IfOk result (λ never. never ≡ codes "never") }
    {
        Ok(Symbol::new(String::from_str(self.alloc(), "never")?))
    }

    /// The answer that refuses a link: that of a link which isn't durable, without the terminus at the router's side.
    pub fn refusal_of(&self, attach: Attach, handle: u32) -> Attach
        ensures { result ≡ refusal_of attach handle }
    {
        let receives = attach.role == Role::Sender;
        let mut answer = plain_answer(self.alloc(), attach, handle);
        if receives {
            answer.target = None;
        } else {
            answer.source = None;
        }
        answer
    }
}

/// The answer for a durable link.
fn lasting(alloc: Global, answer: Attach, never: Symbol) -> Attach
    ensures { never ≡ codes "never" → result ≡ lasting_by answer.role answer }
{
    let mut answer = answer;
    answer.unsettled = Some(Unsettled::new(Vec::new(alloc)));
    match answer.role {
        Role::Sender => answer.source = lasting_source(answer.source, never),
        Role::Receiver => {
            answer.target = lasting_target(answer.target, never);
            answer.rcv_settle_mode = 1;
        }
    }
    answer
}
