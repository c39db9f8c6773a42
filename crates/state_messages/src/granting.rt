//! The choice of the consumer for a message, and the credit that producers are granted.
ghost use Rattle.std.specs.Prelude.{◌≡◌, ◌++◌, ◌∷◌, ◌+◌, ℕ, List, Option, Some, None, IfOk, IfNone, OnOk, is_some, option_and_then, option_copied, option_map};
ghost use Rattle.router_trace.specs.Trace.{Bound, Entry};
ghost use Rattle.router_trace.specs.Deliveries.{joined_by};
ghost use Rattle.route_table.specs.declared.sections.Distribution.{Distribution};
ghost use Rattle.router_trace.specs.Configuration.{distribution};
ghost use Rattle.router_trace.specs.Following.{link_of};
ghost use Rattle.router_trace.specs.Links.{Link as View, attachments, link, numbered};
ghost use Rattle.state_links.specs.Ends.{link_of as link_of_view};
ghost use Rattle.state_links.specs.Fits.{LinksFit};
ghost use Rattle.state_pools.specs.Fits.{NoneTouched, PoolsFit};
ghost use Rattle.state_pools.specs.Sharing.{address_in, Figure};
ghost use Rattle.route_credit.specs.Pool.{by_id};
ghost use Rattle.state_messages.specs.Figures.{figure, owed_credit};
ghost use Rattle.state_messages.specs.Fits.{NotedFit, MessagesFit, ShareAs, Untouched};
ghost use Rattle.state_messages.specs.Messages.{IsChosen, choice_of, consumer_of, binding_for, binding_to, grant_at, grant_by, grants, grants_on, last_after, last_chosen, payload_as, taken_up_by, with_bound, with_newest};
ghost use Rattle.state_messages.specs.Turns.{in_turn, whose_turn};

use crate::due::owed;
use crate::durable::lasts;
use crate::figures::tell;
use crate::grant::LinkGrant;
use crate::messages::Messages;
use crate::turns::{is_among, whose_turn};
use amqp_model::DeliveryState;
use book_model::RowNumber;
use bytes::Bytes;
use route_credit::{ConsumerId, ProducerId};
use router_trace::{
    Attachment, Binding, BindingKind, ConnectionId, DeliveryName, Holding, LinkState, Origin,
    Resumed, TakenUp,
};
use state_links::{Link, Links};
use state_pools::Pools;
use std::alloc::{AllocError, Global};
use std::cmp::Ordering;

impl Messages {
    /// A link that may have changed since the pools were last told.
    fn touched(&self) -> Option<u64>
        ensures { IfNone result (Untouched self.now) }
    {
        match self.pools.touched() {
            Some(number) => Some(number),
            None => match self.links.touched() {
                Some(number) => Some(number),
                None => self.deliveries.touched(),
            },
        }
    }

    /// Tells the pools what a link has now.
    fn tell(&mut self, number: u64) -> Result<(), AllocError>
        ensures { OnOk result ((t : List Entry) → MessagesFit self.old t → MessagesFit self.new t) }
    {
        tell(&mut self.pools, &self.links, &self.deliveries, number)?;
        self.links.forget_touched(number);
        self.deliveries.forget_touched(number);
        Ok(())
    }

    /// Tells the pools what all links have now.
    pub(crate) fn tell_all(&mut self) -> Result<(), AllocError>
        ensures fits { OnOk result ((t : List Entry) → MessagesFit self.old t → MessagesFit self.new t) }
        ensures exact { OnOk result (Untouched self.new) }
    {
        for _turn in 0..u64::MAX {
            match self.touched() {
                None => return Ok(()),
                Some(number) => self.tell(number)?,
            }
        }
        Err(AllocError)
    }

    /// Binds a message of a producer's link to the chosen consumer of its address; returns whether there is one. If [`Messages::consumer_for`]
    /// was asked for this message, `known` is what it answered, and none is chosen again. A durable message comes with the number of its row.
    /// Fails if memory is refused, and if no binding number is left.
    pub fn pass(
        &mut self,
        from: Attachment,
        known: Option<Attachment>,
        origin: Option<Origin>,
        row: Option<RowNumber>,
        format: u32,
        payload: Bytes,
    ) -> Result<bool, AllocError>
        ensures chosen { IfOk result (λ chosen. (t : List Entry) → IsChosen t (link_of t from) known → MessagesFit self.old t → chosen ≡ is_some (consumer_of t (link_of t from))) }
        ensures fits { OnOk result ((t : List Entry) → IsChosen t (link_of t from) known → MessagesFit self.old t → MessagesFit self.new (with_bound (binding_for t from origin row format payload) t)) }
    {
        self.tell_all()?;
        match self.choose(from, known) {
            None => {
                drop(payload);
                Ok(false)
            }
            Some(consumer) => {
                self.bind(consumer, origin, row, format, payload)?;
                Ok(true)
            }
        }
    }

    /// Binds a message to this consumer, which is noted as the last one chosen. Fails if memory is refused, and if no
    /// binding number is left.
    pub(crate) fn bind(
        &mut self,
        consumer: Attachment,
        origin: Option<Origin>,
        row: Option<RowNumber>,
        format: u32,
        payload: Bytes,
    ) -> Result<(), AllocError>
        ensures { OnOk result ((t : List Entry) → NotedFit self.old t (last_after t (Some consumer)) → MessagesFit self.new (Bound (binding_to t origin row format payload consumer) ∷ t)) }
    {
        let lasting = lasts(&self.links, consumer);
        self.deliveries.bind(Binding {
            consumer,
            row,
            lasting,
            format,
            payload,
            kind: BindingKind::Message(origin),
        })?;
        self.incoming.bind(origin)?;
        Ok(())
    }

    /// Binds a row to the consumer's link that takes it up again, to be sent as `how` says; its producer's delivery is
    /// that of the delivery which it had until now. Fails if memory is refused, and if no binding number is left.
    pub fn take_up(
        &mut self,
        consumer: Attachment,
        row: RowNumber,
        how: Resumed,
        format: u32,
        payload: Bytes,
    ) -> Result<(), AllocError>
        ensures { OnOk result ((t : List Entry) → MessagesFit self.old t → MessagesFit self.new (Bound (taken_up_by t row how format payload consumer) ∷ t)) }
    {
        let producers = self.deliveries.producers_of(DeliveryName::Row(row));
        let origin = producers.origin;
        let lasting = lasts(&self.links, consumer);
        let payload = payload_as(&how, payload);
        self.deliveries.bind(Binding {
            consumer,
            row: Some(row),
            lasting,
            format,
            payload,
            kind: BindingKind::TakenUp(TakenUp {
                how,
                origin,
                told: producers.told,
                early: producers.early,
                owned: producers.owned,
            }),
        })?;
        self.incoming.bind(origin)?;
        Ok(())
    }

    /// A producer's link has a row like this from now on, which has this outcome if it is decided. If its producer resumed it, the row's outcome is
    /// reported to the producer's delivery. Fails if memory is refused, and if no binding number is left.
    pub fn join(
        &mut self,
        holding: Holding,
        row: RowNumber,
        outcome: Option<&DeliveryState>,
    ) -> Result<(), AllocError>
        ensures { OnOk result ((t : List Entry) → MessagesFit self.old t → MessagesFit self.new (Bound (joined_by t holding row (option_copied outcome.entry)) ∷ t)) }
    {
        self.deliveries.join(holding, row, outcome)?;
        self.incoming.bind(holding.resumed())?;
        Ok(())
    }

    /// The consumer that [`Messages::pass`] would choose now for a message of the producer's link on a handle of the router; nothing is noted, so
    /// asked again it answers the same.
    pub fn consumer_for(
        &mut self,
        conn: u64,
        own: u16,
        handle: u32,
    ) -> Result<Option<Attachment>, AllocError>
        ensures consumer { IfOk result (λ at. (t : List Entry) → MessagesFit self.old t → at ≡ consumer_of t (link t conn own handle)) }
        ensures fits { OnOk result ((t : List Entry) → MessagesFit self.old t → MessagesFit self.new t) }
    {
        self.tell_all()?;
        Ok(self.peek(conn, own, handle))
    }

    /// The same after the pools were told of all links.
    fn peek(&self, conn: u64, own: u16, handle: u32) -> Option<Attachment>
        ensures { (t : List Entry) → Untouched self.now → MessagesFit self.now t → result ≡ consumer_of t (link t conn own handle) }
    {
        let place = Attachment {
            number: 0,
            conn: ConnectionId(conn),
            channel: own,
            handle,
        };
        match self.links.link(place) {
            None => None,
            Some(link) => peek_of(&self.pools, &self.links, link.number),
        }
    }

    /// The consumer chosen for a message of a producer's link, after the pools were told of all links: `known`, if it was chosen before. It is
    /// noted as the last one.
    fn choose(&mut self, from: Attachment, known: Option<Attachment>) -> Option<Attachment>
        ensures chosen { (t : List Entry) → IsChosen t (link_of t from) known → Untouched self.old → MessagesFit self.old t → result ≡ consumer_of t (link_of t from) }
        ensures fits { (t : List Entry) → IsChosen t (link_of t from) known → Untouched self.old → MessagesFit self.old t → NotedFit self.new t (last_after t result) }
    {
        let Some(link) = self.links.link(from) else {
            return None;
        };
        match known {
            None => choose_of(&mut self.pools, &self.links, link.number),
            Some(consumer) => {
                self.pools.note(link.number, ConsumerId(consumer.number));
                Some(consumer)
            }
        }
    }

    /// The grants that producers are due, with what the newest link is owed for what its producer may resume: those of
    /// one address, the first in the order of bytes, in order of attach. Empty if no producer is due any.
    pub fn grants(&mut self) -> Result<Vec<LinkGrant>, AllocError>
        ensures due { IfOk result (λ due. (t : List Entry) → MessagesFit self.old t → due.items ≡ grants t) }
        ensures fits { OnOk result ((t : List Entry) → MessagesFit self.old t → MessagesFit self.new t) }
    {
        self.tell_all()?;
        let due = grants_due(self.alloc, &mut self.pools, &self.links)?;
        Ok(due)
    }
}

/// What a row is sent with: its message, or nothing if it is only settled.
fn payload_as(how: &Resumed, payload: Bytes) -> Bytes
    ensures { result ≡ payload_as how.now payload }
{
    match how {
        Resumed::Settled(_) => Bytes::new(),
        _ => payload,
    }
}

/// The consumer chosen for the address of a link, after the pools were told of all links; it is noted as the last one.
fn choose_of(pools: &mut Pools, links: &Links, number: u64) -> Option<Attachment>
    ensures chosen { (t : List Entry) (address : List ℕ) → LinksFit links.now t → address_in (figure t number) ≡ Some address → NoneTouched pools.old → PoolsFit pools.old (distribution t) (figure t) (figure t) (last_chosen t)
        → result ≡ option_and_then (numbered t) (choice_of t address) }
    ensures fits { (t : List Entry) (address : List ℕ) → LinksFit links.now t → address_in (figure t number) ≡ Some address → NoneTouched pools.old → PoolsFit pools.old (distribution t) (figure t) (figure t) (last_chosen t)
        → PoolsFit pools.new (distribution t) (figure t) (figure t) (last_after t result) }
{
    match pools.choose(number) {
        None => None,
        Some(chosen) => links.place_of(chosen.0),
    }
}

/// The consumer that would be chosen for the address of a link, after the pools were told of all links.
fn peek_of(pools: &Pools, links: &Links, number: u64) -> Option<Attachment>
    ensures { (t : List Entry) (address : List ℕ) → LinksFit links.now t → address_in (figure t number) ≡ Some address → NoneTouched pools.now → PoolsFit pools.now (distribution t) (figure t) (figure t) (last_chosen t)
        → result ≡ option_and_then (numbered t) (choice_of t address) }
{
    match pools.peek(number) {
        None => None,
        Some(number) => links.place_of(number),
    }
}

/// The grants that producers are due, after the pools were told of all links.
fn grants_due(alloc: Global, pools: &mut Pools, links: &Links) -> Result<Vec<LinkGrant>, AllocError>
    ensures due { IfOk result (λ due. (t : List Entry) → LinksFit links.now t → NoneTouched pools.old → PoolsFit pools.old (distribution t) (figure t) (figure t) (last_chosen t) → due.items ≡ grants t) }
    ensures fits { OnOk result ((share : List ℕ → Distribution) (known actual : ℕ → Option Figure) (last : List ℕ → ℕ) → PoolsFit pools.old share known actual last → PoolsFit pools.new share known actual last) }
{
    match pools.grants()? {
        None => first_grants(alloc, pools, links, &[]),
        Some(sums) => {
            let due = first_grants(alloc, pools, links, sums.as_slice())?;
            Ok(due)
        }
    }
}

/// The grants of these sums, which are those of an address, or what the newest link is owed, whichever comes first;
/// both if it is at that address.
fn first_grants(
    alloc: Global,
    pools: &Pools,
    links: &Links,
    sums: &[(ProducerId, u32)],
) -> Result<Vec<LinkGrant>, AllocError>
    ensures { IfOk result (λ due. (t : List Entry) → LinksFit links.now t → ShareAs pools.now (distribution t)
        → due.items ≡ grants_on t (in_turn (whose_turn t (attachments t) (by_id sums.now)) (attachments t) (by_id sums.now))) }
{
    let newest = links.attachments();
    match whose_turn(links, newest, sums) {
        Ordering::Less => told(alloc, pools, links, sums),
        Ordering::Equal => told_with(alloc, pools, links, sums, newest),
        Ordering::Greater => told(alloc, pools, links, &[(ProducerId(newest), 0)]),
    }
}

/// These grants, and after them what the newest link is owed, if it isn't among them.
fn told_with(
    alloc: Global,
    pools: &Pools,
    links: &Links,
    sums: &[(ProducerId, u32)],
    newest: u64,
) -> Result<Vec<LinkGrant>, AllocError>
    ensures { IfOk result (λ told. (t : List Entry) → LinksFit links.now t → ShareAs pools.now (distribution t) → told.items ≡ grants_on t (with_newest newest (by_id sums.now))) }
{
    let mut told = told(alloc, pools, links, sums)?;
    if is_among(sums, newest) {
        return Ok(told);
    }
    add_grant(&mut told, pools, links, newest, 0)?;
    Ok(told)
}

/// These grants, with the state of each link.
fn told(
    alloc: Global,
    pools: &Pools,
    links: &Links,
    sums: &[(ProducerId, u32)],
) -> Result<Vec<LinkGrant>, AllocError>
    ensures { IfOk result (λ told. (t : List Entry) → LinksFit links.now t → ShareAs pools.now (distribution t) → told.items ≡ grants_on t (by_id sums.now)) }
{
    let mut told = Vec::new(alloc);
    for sum in sums {
        add_grant(&mut told, pools, links, sum.0.0, sum.1)?;
    }
    Ok(told)
}

/// Adds the grant of this credit to a producer.
fn add_grant(
    told: &mut Vec<LinkGrant>,
    pools: &Pools,
    links: &Links,
    number: u64,
    amount: u32,
) -> Result<(), AllocError>
    ensures { OnOk result ((t : List Entry) → LinksFit links.now t → ShareAs pools.now (distribution t) → told.new.items ≡ told.old.items ++ grant_at t number amount (numbered t number)) }
{
    match links.place_of(number) {
        None => {}
        Some(at) => match links.link(at) {
            None => {}
            Some(link) => add_grant_on(told, pools, at, link, amount)?,
        },
    }
    Ok(())
}

/// Adds the grant of this credit, and of what is owed, to the producer of a link; nothing if the router is the sender
/// on it.
fn add_grant_on(
    told: &mut Vec<LinkGrant>,
    pools: &Pools,
    at: Attachment,
    link: &Link,
    amount: u32,
) -> Result<(), AllocError>
    ensures { OnOk result ((t : List Entry) (l : View) → ShareAs pools.now (distribution t) → link.now ≡ link_of_view l → told.new.items ≡ told.old.items ++ grant_by at (owed_credit t l + amount) l.happened) }
{
    if link.is_consumer() {
        return Ok(());
    }
    let state = LinkState {
        handle: at.handle,
        count: link.count(),
        credit: sum(link.unused(), sum(owed(pools, link), amount)?)?,
        drain: false,
    };
    told.push(LinkGrant { at, state })?;
    Ok(())
}

/// The sum of two credits.
fn sum(one: u32, other: u32) -> Result<u32, AllocError>
    ensures { IfOk result (λ sum. sum ≡ one + other) }
{
    match one.checked_add(other) {
        Some(sum) => Ok(sum),
        None => Err(AllocError),
    }
}
