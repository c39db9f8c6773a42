//! The table of deliveries.
ghost use Rattle.std.specs.Prelude.{◌≡◌, ◌==◌, ◌-◌, ◌&&◌, ◌∷◌, List, ℕ, Bool, OnOk, IfOk, true, false, if◌then◌else◌};
ghost use Rattle.std.specs.Option.{option_copied, option_map, is_none, is_some};
ghost use Rattle.state_collections.specs.NumberMap.{at_number};
ghost use Rattle.router_trace.specs.Trace.{Beginning, Trace};
ghost use Rattle.router_trace.specs.Configuration.{opened};
ghost use Rattle.router_trace.specs.Trace.{Entry, Out, Bound, did};
ghost use Rattle.router_trace.specs.declared.binding.JoinedTo.TheVariants.{New};
ghost use Rattle.router_trace.specs.declared.event.Event.TheVariants as event;
ghost use Rattle.amqp_model.specs.declared.item.Item.TheVariants as item;
ghost use Rattle.amqp_model.specs.declared.perf.Perf.TheVariants as perf;
ghost use Rattle.router_trace.specs.Deliveries.{called, rank_at, last_with, row_or, joined_by, joining, holds_standing, origin_in, told_in, early_in, owned_in, delivery, acts_found, channels_found, giving, name_of, next_id, sending, named, waits_on, undecided_on, held_from, is_to_tell};
ghost use Rattle.router_trace.specs.Sessions.{maps, is_channel};
ghost use Rattle.router_trace.specs.Following.{first_delivery, is_unsent_on, is_used};
ghost use Rattle.router_trace.specs.Settling.{open_ids};
ghost use Rattle.state_deliveries.specs.Calling.{Knows};
ghost use Rattle.state_deliveries.specs.Deciding.{decided_rows};
ghost use Rattle.router_trace.specs.Counting.{IsCount};
ghost use Rattle.state_deliveries.specs.Hearing.{heard_change};
ghost use Rattle.state_deliveries.specs.Finding.{IsFirst, IsFirstBy, count_deliveries, is_above, is_beyond};
ghost use Rattle.state_deliveries.specs.Naming.{Remembers};
ghost use Rattle.router_trace.specs.Channels.{channel_of};
ghost use Rattle.state_deliveries.specs.Fits.{DeliveriesFit, AreSending};
ghost use Rattle.state_deliveries.specs.Touching.{is_touched, Touches};

use crate::change::{Change, after_disposition};
use crate::deciding::decided_rows;
use crate::delivery::{Delivery, Producers};
use crate::giving::give;
use crate::hearing::hear;
use crate::names::Names;
use crate::next_ids::NextIds;
use crate::sending::Sending;
use crate::store::Store;
use amqp_model::{DeliveryState, Disposition, Item, Transfer, copy_state};
use book_model::{Act, Decision, RowNumber};
use bytes::Bytes;
use router_trace::{Binding, BindingKind, ConnectionId, DeliveryName, Holding, JoinedTo};
use std::alloc::{AllocError, Global};

/// The deliveries that the router passes on. After an error the table's contents are unspecified.
#[derive(Drop)]
pub struct Deliveries {
    alloc: Global,
    // how many messages were bound, and how many of them have no row
    bindings: u64,
    counters: u64,
    // the last row that was admitted
    last_row: u64,
    store: Store,
    sending: Sending,
    names: Names,
    next_ids: NextIds,
}

impl Deliveries {
    /// An empty table; `last_row` is the last row that was admitted before.
    pub fn new(alloc: Global, last_row: u64) -> Deliveries
        ensures { (g : Beginning) (below : Trace) → last_row ≡ g.book.next_row - 1 → DeliveriesFit result (opened g below) }
    {
        Deliveries {
            alloc,
            bindings: 0,
            counters: 0,
            last_row,
            store: Store::new(alloc),
            sending: Sending::new(alloc),
            names: Names::new(alloc),
            next_ids: NextIds::new(alloc),
        }
    }

    /// The delivery with a number; none before it is bound, and once it is over.
    pub fn delivery(&self, number: u64) -> Option<&Delivery>
        ensures { (t : List Entry) → DeliveriesFit self.now t → option_map (λ d. d.now) result ≡ delivery t number }
    {
        self.store.get(number)
    }

    /// The next delivery-id that the router gives on a session: 0 after its begin, then one more than the last that it gave.
    pub fn next_id(&self, conn: u64, own: u16) -> u32
        ensures { (t : List Entry) → DeliveriesFit self.now t → result ≡ next_id t conn own }
    {
        self.next_ids.get(conn, own)
    }

    /// The delivery of which more frames remain to be sent on a handle of the router; it may be missing if the delivery is gone.
    pub fn sending(&self, conn: u64, own: u16, handle: u32) -> Option<u64>
        ensures { (t : List Entry) → DeliveriesFit self.now t → Knows (delivery t) result (sending t conn own handle) }
    {
        self.sending.on(conn, own, handle)
    }

    /// How many deliveries wait to start on the link with this number.
    pub fn waiting(&self, link: u64) -> usize
        ensures found { (t : List Entry) → DeliveriesFit self.now t → IsCount (λ n. waits_on link (delivery t n)) result }
        ensures count { (t : List Entry) → DeliveriesFit self.now t → result ≡ count_deliveries t (waits_on link) }
    {
        self.store.waiting(link)
    }

    /// Whether frames of any delivery remain to be sent on the link with this number.
    pub fn has_unsent(&self, link: u64) -> bool
        ensures { (t : List Entry) → DeliveriesFit self.now t → result ≡ is_some (first_delivery t (is_unsent_on link)) }
    {
        self.store.first_unsent(link).is_some()
    }

    /// The first delivery, in the order of binding, behind that with a number or of all, of which frames remain to be sent on the link with this
    /// number.
    pub fn unsent_after(&self, link: u64, number: Option<u64>) -> Option<u64>
        ensures { (t : List Entry) → DeliveriesFit self.now t → IsFirstBy (rank_at t) (λ n. is_beyond (rank_at t) number n && is_unsent_on link (delivery t n)) result }
    {
        self.store.unsent_after(link, number)
    }

    /// The lowest number of a link, above this one or of all, on which frames of a delivery remain to be sent.
    pub fn unsent_link_after(&self, link: Option<u64>) -> Option<u64>
        ensures { (t : List Entry) → DeliveriesFit self.now t → IsFirst (λ k. is_above link k && is_some (first_delivery t (is_unsent_on k))) result }
    {
        self.store.unsent_link_after(link)
    }

    /// The lowest number of a link whose waiting, undecided or held deliveries may have changed since it was last forgotten.
    pub fn touched(&self) -> Option<u64>
        ensures { IsFirst (is_touched self.now) result }
    {
        self.store.touched()
    }

    /// Forgets that the deliveries of the link with this number may have changed.
    pub fn forget_touched(&mut self, link: u64)
        ensures fits { (t : List Entry) → DeliveriesFit self.old t → DeliveriesFit self.new t }
        ensures touched { (k : ℕ) → is_touched self.new k ≡ (if link == k then false else is_touched self.old k) }
        ensures deliveries { (n : ℕ) → at_number self.new.store.deliveries n ≡ at_number self.old.store.deliveries n }
    {
        self.store.forget_touched(link);
    }

    /// How many deliveries are undecided on the consumer's link with this number.
    pub fn undecided(&self, link: u64) -> usize
        ensures found { (t : List Entry) → DeliveriesFit self.now t → IsCount (λ n. undecided_on link (delivery t n)) result }
        ensures count { (t : List Entry) → DeliveriesFit self.now t → result ≡ count_deliveries t (undecided_on link) }
    {
        self.store.undecided(link)
    }

    /// How many deliveries are held, undecided, from the producer's link with this number.
    pub fn held(&self, link: u64) -> usize
        ensures found { (t : List Entry) → DeliveriesFit self.now t → IsCount (λ n. held_from link (delivery t n)) result }
        ensures count { (t : List Entry) → DeliveriesFit self.now t → result ≡ count_deliveries t (held_from link) }
    {
        self.store.held(link)
    }

    /// The first delivery, in the order of binding, behind that with a number or of all, whose outcome must be reported to its producer.
    pub fn to_tell_after(&self, number: Option<u64>) -> Option<u64>
        ensures { (t : List Entry) → DeliveriesFit self.now t → IsFirstBy (rank_at t) (λ n. is_beyond (rank_at t) number n && is_to_tell (delivery t n)) result }
    {
        self.store.to_tell_after(number)
    }

    /// The number of the delivery that an id of a router's session names; it may be missing if the delivery isn't undecided.
    pub fn named(&self, conn: u64, own: u16, id: u32) -> Option<u64>
        ensures { (t : List Entry) → DeliveriesFit self.now t → Remembers t result (named t conn own id) }
    {
        self.names.get(conn, own, id)
    }

    /// Whether an id of a router's session names an undecided delivery.
    pub fn is_used(&self, conn: u64, own: u16, id: u32) -> bool
        ensures { (t : List Entry) → DeliveriesFit self.now t → result ≡ is_used t (named t conn own id) }
    {
        self.names.is_used(&self.store, conn, own, id)
    }

    /// The ids in a disposition's range that name undecided deliveries of a router's session, in the range's order. It looks only at
    /// deliveries that exist, never at each id of the range.
    pub fn open_ids(
        &self,
        conn: u64,
        own: u16,
        first: u32,
        last: u32,
    ) -> Result<Vec<u32>, AllocError>
        ensures { IfOk result (λ ids. (t : List Entry) → DeliveriesFit self.now t → ids.items ≡ open_ids t conn own first last) }
    {
        Ok(self.names.open_ids(&self.store, conn, own, first, last)?)
    }

    /// The numbers of the deliveries of which more frames remain to be sent on a router's session, in order of the handles; those that are gone may
    /// be missing.
    pub fn sending_on(&self, conn: u64, own: u16) -> Result<Vec<u64>, AllocError>
        ensures { IfOk result (λ numbers. (t : List Entry) → DeliveriesFit self.now t → AreSending t conn own numbers.items) }
    {
        Ok(self.sending.all_on(self.alloc, conn, own)?)
    }

    /// The rows that these changes would decide, one after another, each with its outcome, in order of the deliveries' numbers.
    pub fn decided_rows(&self, changes: &[Change]) -> Result<Vec<Decision>, AllocError>
        ensures { IfOk result (λ rows. (t : List Entry) → DeliveriesFit self.now t → rows.items ≡ decided_rows t changes.now) }
    {
        Ok(decided_rows(&self.store, self.alloc, changes)?)
    }

    /// The producer's delivery of the delivery that has a name now, in whichever place it is.
    pub fn producers_of(&self, name: DeliveryName) -> Producers
        ensures origin { (t : List Entry) → DeliveriesFit self.now t → result.origin ≡ origin_in (called t name) }
        ensures told { (t : List Entry) → DeliveriesFit self.now t → result.told ≡ told_in (called t name) }
        ensures early { (t : List Entry) → DeliveriesFit self.now t → result.early ≡ early_in (called t name) }
        ensures owned { (t : List Entry) → DeliveriesFit self.now t → result.owned ≡ owned_in (called t name) }
    {
        Producers::of(self.store.called(name))
    }

    /// Binds a message under a new number: one that came, a row that is taken up again, or one that no delivery has. Fails if memory is
    /// refused, and if no binding number is left.
    pub fn bind(&mut self, binding: Binding) -> Result<(), AllocError>
        ensures fits { OnOk result ((t : List Entry) → is_none (holds_standing binding.kind) ≡ true → DeliveriesFit self.old t → DeliveriesFit self.new (Bound binding ∷ t)) }
        ensures touches { OnOk result (Touches self.old self.new) }
    {
        let Some(number) = self.bindings.checked_add(1) else {
            return Err(AllocError);
        };
        let Some(counter) = self.counters.checked_add(1) else {
            return Err(AllocError);
        };
        self.counters = counted(binding.row, self.counters, counter);
        let name = name_of(binding.row, counter);
        let rank = name.rank(self.last_row);
        self.last_row = last_with(&binding, self.last_row);
        self.store.bind(number, name, rank, binding)?;
        self.bindings = number;
        Ok(())
    }

    /// A producer's link has a row like this from now on, which has this outcome if it is decided: the delivery that has the row, in its place, or
    /// else a new one. Fails if memory is refused, and if no binding number is left.
    pub fn join(
        &mut self,
        holding: Holding,
        row: RowNumber,
        outcome: Option<&DeliveryState>,
    ) -> Result<(), AllocError>
        ensures fits { OnOk result ((t : List Entry) → DeliveriesFit self.old t → DeliveriesFit self.new (Bound (joined_by t holding row (option_copied outcome.entry)) ∷ t)) }
        ensures touches { OnOk result (Touches self.old self.new) }
    {
        let stands = self.store.join(DeliveryName::Row(row), holding)?;
        if stands {
            return Ok(());
        }
        let outcome = copied(outcome)?;
        self.bind(joining(holding, row, outcome))
    }

    /// A connection is lost.
    pub fn down(&mut self, conn: ConnectionId) -> Result<(), AllocError>
        ensures fits { OnOk result ((t : List Entry) → DeliveriesFit self.old t → DeliveriesFit self.new (did (event.Down conn) ∷ t)) }
        ensures touches { OnOk result (Touches self.old self.new) }
    {
        self.store.down(conn)?;
        self.sending.down(conn);
        self.names.down(conn);
        self.next_ids.down(conn);
        Ok(())
    }

    /// An item was received on a connection; `own` is the router's channel of its session, if its channel has one and the
    /// event didn't end the connection first, and `change` is what the item changes at once (`Change::of_item`). `acts`
    /// are those of the event: if the item is an attach, its deliveries get the outcomes that they give their rows.
    pub fn hear(
        &mut self,
        conn: ConnectionId,
        own: Option<u16>,
        change: Option<Change>,
        item: &Item,
        acts: &[Act],
    ) -> Result<(), AllocError>
        ensures fits { OnOk result ((t : List Entry) → ((o : ℕ) → is_channel own o ≡ maps (channels_found t conn.0 (channel_of item.now)) o)
            → change ≡ heard_change conn.0 own item.now
            → giving item.now acts.now ≡ giving item.now (acts_found t)
            → DeliveriesFit self.old t → DeliveriesFit self.new (did (event.Item conn item.now) ∷ t)) }
        ensures touches { OnOk result (Touches self.old self.new) }
    {
        hear(&mut self.store, &mut self.names, change)?;
        let mut given = Vec::new(self.alloc);
        give(&mut self.store, item, acts, &mut given)?;
        self.names.settle_at(&self.store, given.as_slice())?;
        Ok(())
    }

    /// An item is put into the outbox of a connection. Fails if memory is refused, and if the sent bytes of a delivery overflow their
    /// counter.
    pub fn put(&mut self, conn: u64, item: &Item) -> Result<(), AllocError>
        ensures fits { OnOk result ((t : List Entry) → DeliveriesFit self.old t → DeliveriesFit self.new (Out conn item.now ∷ t)) }
        ensures touches { OnOk result (Touches self.old self.new) }
    {
        let number = self.sending.carried_by(conn, item, &self.store.by_name);
        let ids = self.store.detached_ids(conn, item)?;
        self.store.put(conn, item, number)?;
        self.names.put(conn, item, &self.store)?;
        self.names
            .settle_put(&self.store, conn, item, ids.as_slice())?;
        self.sending.put(conn, item, &self.store.by_name)?;
        self.next_ids.put(conn, item)?;
        Ok(())
    }

    /// The router's transfer with this payload is put into the outbox of a connection, on its channel `own`. Fails if
    /// memory is refused, and if the sent bytes of the delivery overflow their counter.
    pub fn put_transfer(
        &mut self,
        conn: u64,
        own: u16,
        transfer: &Transfer,
        payload: &Bytes,
    ) -> Result<(), AllocError>
        ensures fits { OnOk result ((t : List Entry) (sasl : Bool) → DeliveriesFit self.old t
            → DeliveriesFit self.new (Out conn (item.Frame sasl own (perf.Transfer transfer.now) payload.now) ∷ t)) }
        ensures touches { OnOk result (Touches self.old self.new) }
    {
        let begun = self.store.by_name.begun(transfer);
        let number = self.sending.carried(conn, own, transfer, begun);
        self.store.note_carried(number, transfer, payload)?;
        self.names.begin(conn, own, transfer, begun, &self.store)?;
        self.sending.put_transfer(conn, own, transfer, number)?;
        self.next_ids.count(conn, own, transfer)?;
        Ok(())
    }

    /// The router's disposition is put into the outbox of a connection, on its channel `own`. Fails if memory is
    /// refused.
    pub fn put_disposition(
        &mut self,
        conn: u64,
        own: u16,
        disposition: &Disposition,
    ) -> Result<(), AllocError>
        ensures fits { OnOk result ((t : List Entry) (sasl : Bool) (payload : List ℕ) → DeliveriesFit self.old t
            → DeliveriesFit self.new (Out conn (item.Frame sasl own (perf.Disposition disposition.now) payload) ∷ t)) }
        ensures touches { OnOk result (Touches self.old self.new) }
    {
        self.store
            .apply_any(after_disposition(conn, own, disposition))?;
        Ok(())
    }
}

/// A copy of an outcome, if there is one.
fn copied(outcome: Option<&DeliveryState>) -> Result<Option<DeliveryState>, AllocError>
    ensures { IfOk result (λ copy. copy ≡ option_copied outcome.entry) }
{
    match outcome {
        None => Ok(None),
        Some(outcome) => Ok(Some(copy_state(outcome)?)),
    }
}

/// What is bound if a producer's link has a row like this that no delivery has.
fn joining(holding: Holding, row: RowNumber, outcome: Option<DeliveryState>) -> Binding
    ensures { result ≡ joining holding row (New outcome) }
{
    Binding {
        consumer: holding.link(),
        row: Some(row),
        lasting: true,
        format: 0,
        payload: Bytes::new(),
        kind: BindingKind::Joined(holding, JoinedTo::New(outcome)),
    }
}

/// The name of a delivery: its row's number, or this counter.
fn name_of(row: Option<RowNumber>, counter: u64) -> DeliveryName
    ensures { result ≡ name_of row counter }
{
    match row {
        None => DeliveryName::Counter(counter),
        Some(row) => DeliveryName::Row(row),
    }
}

/// How many messages without a row were bound: `next`, if this one has none.
fn counted(row: Option<RowNumber>, before: u64, next: u64) -> u64
    ensures { result ≡ (if is_none row then next else before) }
{
    if row.is_none() { next } else { before }
}

/// The last row that was admitted, after a binding: the binding's, if it is a message that came with a row.
fn last_with(binding: &Binding, last: u64) -> u64
    ensures { result ≡ last_with binding.now last }
{
    match binding.kind {
        BindingKind::Message(_) => row_or(binding.row, last),
        _ => last,
    }
}

/// The number of a row, or else this one.
fn row_or(row: Option<RowNumber>, last: u64) -> u64
    ensures { result ≡ row_or row last }
{
    match row {
        None => last,
        Some(row) => row.0,
    }
}
