//! Links as the table keeps them.
ghost use Rattle.std.specs.Prelude.{◌≡◌, List, ℕ, Some, if◌then◌else◌, IfOk, OnOk};
ghost use Rattle.std.specs.Option.{option_copied, option_map};
ghost use Rattle.router_trace.specs.Links.{address_by, source_address, target_address, text_of, due_in, initial_of, is_incomplete};
ghost use Rattle.amqp_link.specs.Figures.{after_start};
ghost use Rattle.state_links.specs.declared.link.Side.TheVariants.{Peer, Router};
ghost use Rattle.state_links.specs.Ends.{link_of, begun, begun_end, due_at, after_their_flow, after_their_transfer, after_our_flow, after_our_transfer, noted, with_grant, with_count, with_our_count, with_our_grant};
ghost use Rattle.state_links.specs.Fits.{found_end};
ghost use Rattle.state_links.specs.Giving.{given_at, part_noted};
ghost use Rattle.state_links.specs.Looking.{credit_on, credit_at, unused_on, unused_end, count_on, count_at, sends_at, middle_at, is_new, is_in_middle, durable_at};
ghost use Rattle.router_trace.specs.Links.{Link as View};
ghost use Rattle.router_trace.specs.Following.{is_sending};

use amqp_link::{Delivery, Grant, Part, RecvEnd, SendEnd};
use amqp_model::{
    Address, Attach, Flow, Perf, Role, SourceTerminus, TargetTerminus, Text, Transfer, Unsettled,
};
use amqp_session::Serial;
use book_model::LinkKey;
use bytes::Bytes;
use router_trace::{Asked, LinkAt, Tags, is_durable};
use std::alloc::{AllocError, Global};

/// The router's end of a link.
#[derive(Drop)]
pub enum LinkEnd {
    /// The router is the sender.
    Sends(SendEnd),
    /// The peer is the sender.
    Receives(RecvEnd),
}

/// The sender of a frame.
#[derive(Clone, Copy, Debug, PartialEq, Eq)]
pub enum Side {
    /// The peer.
    Peer,
    /// The router.
    Router,
}

/// A link that the router took (AMQP 1.0 part 2, section 2.6).
#[derive(Drop)]
pub struct Link {
    /// The number of its attachment, which is never reused.
    pub number: u64,
    /// What identifies it, whichever connection it is attached on.
    pub key: LinkKey,
    /// The address at the router's own terminus.
    pub address: Text,
    /// Whether the router's terminus outlives its connections.
    pub durable: bool,
    /// The router's end.
    pub end: LinkEnd,
    /// Whether the router has begun a delivery of which more frames remain to be sent.
    pub going_on: bool,
    /// Whether the peer's last flow asks for a drain.
    pub drains: bool,
    /// Whether a drain was asked for and is not yet answered.
    pub owes_drain: bool,
    /// If the peer is the sender, the tags of its deliveries that it may resume and has not resumed yet.
    pub due: Tags,
    /// How many credits the peer is still to be granted for these.
    pub owes_due: u32,
    /// Whether the peer's attach says that its unsettled map is incomplete.
    pub incomplete: bool,
}

/// The address of the terminus at the router's side of an attach, in this role of the router; none if there is no such terminus.
pub fn address_by(router: Role, attach: &Attach) -> Option<&Text>
    ensures { option_map (λ a. a.now) result ≡ address_by router attach.now }
{
    match router {
        Role::Sender => source_address(&attach.source),
        Role::Receiver => target_address(&attach.target),
    }
}

fn source_address(source: &Option<SourceTerminus>) -> Option<&Text>
    ensures { option_map (λ a. a.now) result ≡ source_address source.now }
{
    match source {
        Some(SourceTerminus::Source(source)) => text_of(&source.address),
        _ => None,
    }
}

fn target_address(target: &Option<TargetTerminus>) -> Option<&Text>
    ensures { option_map (λ a. a.now) result ≡ target_address target.now }
{
    match target {
        Some(TargetTerminus::Target(target)) => text_of(&target.address),
        _ => None,
    }
}

fn text_of(address: &Option<Address>) -> Option<&Text>
    ensures { option_map (λ a. a.now) result ≡ text_of address.now }
{
    match address {
        Some(Address::Text(text)) => Some(text),
        _ => None,
    }
}

impl LinkEnd {
    /// The router's end of a link that was just attached; `theirs` is the peer's initial delivery-count if the peer is the sender.
    fn begun(alloc: Global, attach: &Attach, theirs: u32) -> LinkEnd
        ensures { result ≡ begun_end attach.now.role attach.now.initial_delivery_count theirs }
    {
        match attach.role {
            Role::Sender => {
                let initial = attach.initial_delivery_count.unwrap_or(0);
                LinkEnd::Sends(SendEnd::new(Serial::new(initial)))
            }
            Role::Receiver => LinkEnd::Receives(RecvEnd::new(alloc, Serial::new(theirs))),
        }
    }

    /// The link credit left, if the router is the sender.
    fn credit(&self) -> u32
        ensures { result ≡ credit_at self.now }
    {
        match self {
            LinkEnd::Sends(end) => end.left(),
            LinkEnd::Receives(_) => 0,
        }
    }

    /// The link credit that the peer was granted and hasn't used, if the peer is the sender.
    fn unused(&self) -> u32
        ensures { result ≡ unused_end self.now }
    {
        match self {
            LinkEnd::Sends(_) => 0,
            LinkEnd::Receives(end) => end.unused(),
        }
    }

    /// The sender's delivery-count.
    fn count(&self) -> Serial
        ensures { result ≡ count_at self.now }
    {
        match self {
            LinkEnd::Sends(end) => end.count(),
            LinkEnd::Receives(end) => end.count(),
        }
    }

    /// Whether the router is the sender.
    pub(crate) fn sends(&self) -> bool
        ensures { result ≡ sends_at self.now }
    {
        matches!(self, LinkEnd::Sends(_))
    }

    /// The delivery in the middle, if the peer is the sender and there is one.
    fn middle(&self) -> Option<&Delivery>
        ensures { option_map (λ d. d.now) result ≡ middle_at self.now }
    {
        match self {
            LinkEnd::Sends(_) => None,
            LinkEnd::Receives(end) => end.in_middle(),
        }
    }
}

impl Link {
    /// The link that the router's attach begins, to answer what the peer's last one asks for.
    pub(crate) fn begun(
        alloc: Global,
        number: u64,
        key: LinkKey,
        attach: &Attach,
        last: Option<&Asked>,
        address: &Text,
    ) -> Result<Link, AllocError>
        ensures { IfOk result (λ link. link ≡ begun number key attach.now (option_map (λ a. a.now) last.entry) address.now) }
    {
        let address = address.clone()?;
        let due = due_in(alloc, last, attach.unsettled.as_ref())?;
        let owes_due = small(due.len())?;
        Ok(Link {
            number,
            key,
            address,
            durable: is_durable(attach.role, attach),
            end: LinkEnd::begun(alloc, attach, initial_of(last)),
            going_on: false,
            drains: false,
            owes_drain: false,
            due,
            owes_due,
            incomplete: is_incomplete(last),
        })
    }

    /// The link credit left, if the router is the sender; else 0.
    #[tactic(auto, using(crate::proofs::Looks::credit_follows))]
    pub fn credit(&self) -> u32
        ensures { (l : View) → self.now ≡ link_of l → result ≡ credit_on l.happened }
    {
        self.end.credit()
    }

    /// The link credit that the peer was granted and hasn't used, if the peer is the sender; else 0.
    #[tactic(auto, using(crate::proofs::Looks::unused_follows))]
    pub fn unused(&self) -> u32
        ensures { (l : View) → self.now ≡ link_of l → result ≡ unused_on l.happened }
    {
        self.end.unused()
    }

    /// The sender's delivery-count.
    #[tactic(auto, using(crate::proofs::Looks::count_follows))]
    pub fn count(&self) -> Serial
        ensures { (l : View) → self.now ≡ link_of l → result ≡ count_on l.happened }
    {
        self.end.count()
    }

    /// Whether the router is the sender.
    #[tactic(auto, using(crate::proofs::Looks::sends_follows))]
    pub fn is_consumer(&self) -> bool
        ensures { (l : View) → self.now ≡ link_of l → result ≡ is_sending l.happened }
    {
        self.end.sends()
    }

    /// Whether a delivery of the peer is in the middle and isn't resumed.
    #[tactic(auto, using(crate::proofs::Looks::in_middle_follows))]
    pub fn is_in_middle(&self) -> bool
        ensures { (l : View) → self.now ≡ link_of l → result ≡ is_in_middle l }
    {
        is_new(self.middle())
    }

    /// The delivery in the middle, if the peer is the sender and there is one.
    pub(crate) fn middle(&self) -> Option<&Delivery>
        ensures { option_map (λ d. d.now) result ≡ middle_at self.now.end }
    {
        self.end.middle()
    }

    /// What the link's handle stands for.
    pub(crate) fn place(&self, handle: u32) -> LinkAt
        ensures { result ≡ found_end handle self.now.durable self.now.end }
    {
        match &self.end {
            LinkEnd::Sends(end) => LinkAt::Sends { handle, end: *end },
            LinkEnd::Receives(end) => LinkAt::Receives {
                handle,
                count: end.count(),
                unused: end.unused(),
                durable: self.durable,
            },
        }
    }

    /// The link's key, if it is durable.
    pub(crate) fn durable_key(&self) -> Option<&LinkKey>
        ensures { option_map (λ k. k.now) result ≡ durable_at (Some self.now) }
    {
        if self.durable { Some(&self.key) } else { None }
    }

    /// Applies a flow or a transfer of one side, and returns what a transfer of the peer makes of its delivery; other performatives
    /// change nothing. If memory is refused, the link's state is unspecified.
    pub(crate) fn note(
        &mut self,
        side: Side,
        perf: &Perf,
        payload: &Bytes,
    ) -> Result<Option<Part>, AllocError>
        ensures link { OnOk result (self.new ≡ noted side perf.now payload.now self.old) }
        ensures part { IfOk result (λ p. p ≡ part_noted side perf.now payload.now self.old) }
    {
        match side {
            Side::Peer => self.note_theirs(perf, payload),
            Side::Router => {
                self.note_ours(perf);
                Ok(None)
            }
        }
    }

    /// Applies a performative of the peer.
    fn note_theirs(&mut self, perf: &Perf, payload: &Bytes) -> Result<Option<Part>, AllocError>
        ensures link { OnOk result (self.new ≡ noted Peer perf.now payload.now self.old) }
        ensures part { IfOk result (λ p. p ≡ part_noted Peer perf.now payload.now self.old) }
    {
        match perf {
            Perf::Flow(flow) => {
                self.on_their_flow(flow);
                Ok(None)
            }
            Perf::Transfer(transfer) => self.on_their_transfer(transfer, payload),
            _ => Ok(None),
        }
    }

    /// Applies a performative of the router.
    fn note_ours(&mut self, perf: &Perf)
        ensures { (payload : List ℕ) → self.new ≡ noted Router perf.now payload self.old }
    {
        match perf {
            Perf::Flow(flow) => self.on_our_flow(flow),
            Perf::Transfer(transfer) => self.on_our_transfer(transfer),
            _ => {}
        }
    }

    /// Applies a flow of the peer: the credit that it grants or the delivery-count that it has, and its drain flag.
    pub fn on_their_flow(&mut self, flow: &Flow)
        ensures { self.new ≡ after_their_flow flow.now self.old }
    {
        match &mut self.end {
            LinkEnd::Sends(end) => take_grant(end, flow.delivery_count, flow.link_credit),
            LinkEnd::Receives(end) => take_count(end, flow.delivery_count),
        }
        self.drains = flow.drain;
        self.owes_drain = flow.drain;
    }

    /// Applies a transfer of the peer with its payload. Returns what it makes of its delivery, if the peer is the sender. If
    /// memory is refused, the link's state is unspecified.
    pub fn on_their_transfer(
        &mut self,
        transfer: &Transfer,
        payload: &Bytes,
    ) -> Result<Option<Part>, AllocError>
        ensures link { OnOk result (self.new ≡ after_their_transfer transfer.now payload.now self.old) }
        ensures part { IfOk result (λ p. p ≡ given_at transfer.now payload.now self.old.end) }
    {
        match &mut self.end {
            LinkEnd::Sends(_) => Ok(None),
            LinkEnd::Receives(end) => {
                take_due(&mut self.due, transfer, end);
                Ok(Some(end.on_transfer(transfer, payload.clone()?)?))
            }
        }
    }

    /// Applies a flow of the router: its delivery-count or the credit that it grants, with that for what is due, and a drain that it answers.
    pub fn on_our_flow(&mut self, flow: &Flow)
        ensures { self.new ≡ after_our_flow flow.now self.old }
    {
        match &mut self.end {
            LinkEnd::Sends(end) => note_count(end, flow.delivery_count),
            LinkEnd::Receives(end) => note_grant(end, flow.delivery_count, flow.link_credit),
        }
        self.owes_drain = self.owes_drain && !flow.drain;
        self.owes_due = 0;
    }

    /// Applies a transfer of the router: it starts a delivery unless one is going on.
    pub fn on_our_transfer(&mut self, transfer: &Transfer)
        ensures { self.new ≡ after_our_transfer transfer.now self.old }
    {
        if let LinkEnd::Sends(end) = &mut self.end {
            note_start(end, self.going_on);
        }
        self.going_on = transfer.more && !transfer.aborted;
    }
}

/// The tags that a sender may resume: those in the map of its attach that the router's map has too.
fn due_in(alloc: Global, last: Option<&Asked>, ours: Option<&Unsettled>) -> Result<Tags, AllocError>
    ensures { IfOk result (λ due. due ≡ due_in (option_map (λ a. a.now) last.entry) (option_copied ours.entry)) }
{
    match last {
        None => Ok(Tags::none(alloc)),
        Some(asked) => asked.tags.common(alloc, ours),
    }
}

/// The number in 32 bits.
fn small(count: usize) -> Result<u32, AllocError>
    ensures { IfOk result (λ small. small ≡ count) }
{
    match u32::try_from(count) {
        Ok(small) => Ok(small),
        Err(_) => Err(AllocError),
    }
}

/// The peer's initial delivery-count.
fn initial_of(last: Option<&Asked>) -> u32
    ensures { result ≡ initial_of (option_map (λ a. a.now) last.entry) }
{
    match last {
        None => 0,
        Some(asked) => asked.initial,
    }
}

/// Whether the peer's map is incomplete.
fn is_incomplete(last: Option<&Asked>) -> bool
    ensures { result ≡ is_incomplete (option_map (λ a. a.now) last.entry) }
{
    match last {
        None => false,
        Some(asked) => asked.incomplete,
    }
}

/// Takes the tag of a transfer away from those that are due, if it is the first frame of a resumed delivery.
fn take_due(due: &mut Tags, transfer: &Transfer, end: &RecvEnd)
    ensures { due.new ≡ due_at transfer.now end.now due.old }
{
    if end.in_middle().is_some() || !transfer.resume {
        return;
    }
    if let Some(tag) = &transfer.delivery_tag {
        due.remove(tag);
    }
}

/// Whether there is a delivery and it isn't resumed.
fn is_new(delivery: Option<&Delivery>) -> bool
    ensures { result ≡ is_new (option_map (λ d. d.now) delivery.entry) }
{
    match delivery {
        None => false,
        Some(delivery) => !delivery.resume,
    }
}

/// Applies the credit that a flow of the peer grants, if it grants any.
fn take_grant(end: &mut SendEnd, count: Option<u32>, credit: Option<u32>)
    ensures { end.new ≡ with_grant count credit end.old }
{
    if let Some(credit) = credit {
        end.on_flow(count.map(Serial::new), credit);
    }
}

/// Applies the delivery-count of a peer's flow, unless it is out of reach.
fn take_count(end: &mut RecvEnd, count: Option<u32>)
    ensures { end.new ≡ with_count count end.old }
{
    if let Some(count) = count {
        let _ = end.count_forward(Serial::new(count));
    }
}

/// Notes the delivery-count of a router's flow, if it has one.
fn note_count(end: &mut SendEnd, count: Option<u32>)
    ensures { end.new ≡ with_our_count count end.old }
{
    if let Some(count) = count {
        end.note_count(Serial::new(count));
    }
}

/// Notes the credit that a flow of the router grants, if it grants any.
fn note_grant(end: &mut RecvEnd, count: Option<u32>, credit: Option<u32>)
    ensures { end.new ≡ with_our_grant count credit end.old }
{
    if let (Some(count), Some(credit)) = (count, credit) {
        end.note_grant(Grant {
            count: Serial::new(count),
            credit,
        });
    }
}

/// Notes the start of a delivery, unless one is going on.
fn note_start(end: &mut SendEnd, going_on: bool)
    ensures { end.new ≡ (if going_on then end.old else after_start end.old) }
{
    if !going_on {
        end.note_started();
    }
}
