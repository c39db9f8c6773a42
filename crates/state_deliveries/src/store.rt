//! Deliveries by number.
ghost use Rattle.std.specs.Prelude.{◌≡◌, ◌==◌, ℕ, Some, None, true, if◌then◌else◌, OnOk, IfOk, length, ◌||◌, ◌&&◌, nat_lt, ◌∷◌, [], List, Bool, false};
ghost use Rattle.std.specs.Option.{option_map, option_and_then, is_some};
ghost use Rattle.std.specs.Ordering.{nat_cmp};
ghost use Rattle.std.specs.Map.{keys_of};
ghost use Rattle.state_collections.specs.NumberMap.{at_number};
ghost use Rattle.amqp_session.specs.Ranges.{has};
ghost use Rattle.router_trace.specs.declared.binding.DeliveryName.{DeliveryName as Name};
ghost use Rattle.router_trace.specs.declared.binding.DeliveryName.TheVariants.{Row};
ghost use Rattle.router_trace.specs.Deliveries.{ranked, unless_over, unless_called, same_name, bound, joined, held_by, after_frame, is_number, is_id, delivery, number_named, sending};
ghost use Rattle.router_trace.specs.Settling.{is_open_as};
ghost use Rattle.router_trace.specs.Trace.{Entry, Out, did};
ghost use Rattle.amqp_model.specs.declared.item.Item.TheVariants as item;
ghost use Rattle.router_trace.specs.declared.event.Event.TheVariants as event;
ghost use Rattle.state_deliveries.specs.Calling.{at_name, is_called, Knows};
ghost use Rattle.state_deliveries.specs.Deciding.{decide};
ghost use Rattle.state_deliveries.specs.Fits.{Indexed, StoreFit, carried_in, carried_by};
ghost use Rattle.state_deliveries.specs.Indexing.{is_left_over, is_left_name, standing, is_by_place, are_by_place, concerns};
ghost use Rattle.state_deliveries.specs.Placing.{is_id_there};
ghost use Rattle.std.specs.BTreeSet.{contains};
ghost use Rattle.state_deliveries.specs.Finding.{IsFirst};
ghost use Rattle.state_deliveries.specs.Ranking.{IsFirstIn, IsFirstGroup, in_group, is_past};
ghost use Rattle.state_deliveries.specs.Touching.{is_touched_in, StoreTouches};
ghost use Rattle.book_model.specs.declared.act.Act.TheVariants.{Decide};
ghost use Rattle.state_deliveries.specs.Giving.{after_acts, with_outcome};
ghost use Rattle.state_deliveries.specs.Hearing.{id_of};
ghost use Rattle.state_deliveries.specs.Naming.{is_open, is_detached, is_detached_in};
ghost use Rattle.state_deliveries.specs.Stepping.{after_change, after_any, changed, IsKept};
ghost use Rattle.state_deliveries.specs.Tallying.{tally, waiting_at, undecided_at};

use crate::by_name::ByName;
use crate::change::{Change, Gone, after_put};
use crate::delivery::Delivery;
use crate::in_place::{change_in, give_to, join_in, note_in};
use crate::index::Index;
use crate::spots::Spot;
use crate::standing::{AtConsumer, Left, Seat};
use crate::touched::Touched;
use amqp_model::{Item, Perf, Transfer};
use book_model::Decision;
use bytes::Bytes;
use router_trace::{Binding, ConnectionId, DeliveryName, Holding, Rank};
use state_collections::{Boxed, NumberMap};
use std::alloc::{AllocError, Global};
use std::collections::BTreeSet;

/// So many deliveries with neighbouring numbers are found without an ordered map.
const PLACES: usize = 1024;

/// Deliveries by number; one that is over is removed. If an operation fails to allocate, the contents are unspecified.
///
/// Each stands in a box of its own: it has over 200 bytes, which an insertion or a removal beside it would move.
#[derive(Drop)]
pub(crate) struct Store {
    alloc: Global,
    deliveries: NumberMap<Boxed<Delivery>>,
    pub(crate) by_name: ByName,
    index: Index,
    touched: Touched,
}

impl Store {
    /// An empty store.
    pub(crate) fn new(alloc: Global) -> Store
        ensures deliveries { (n : ℕ) → at_number result.deliveries n ≡ None }
        ensures indexed { Indexed result }
    {
        Store {
            alloc,
            deliveries: NumberMap::new(alloc, PLACES),
            by_name: ByName::new(alloc),
            index: Index::new(alloc),
            touched: Touched::new(alloc),
        }
    }

    /// The delivery with a number.
    pub(crate) fn get(&self, number: u64) -> Option<&Delivery>
        ensures { option_map (λ d. d.now) result ≡ at_number self.now.deliveries number }
    {
        match self.deliveries.get(number) {
            None => None,
            Some(delivery) => Some(delivery.as_ref()),
        }
    }

    /// The delivery with a name.
    pub(crate) fn called(&self, name: DeliveryName) -> Option<&Delivery>
        ensures { option_map (λ d. d.now) result ≡ option_and_then (at_number self.now.deliveries) (at_name self.now.by_name name) }
    {
        let number = self.by_name.get(name)?;
        self.get(number)
    }

    /// How many deliveries of a link are undecided.
    pub(crate) fn undecided(&self, link: u64) -> usize
        ensures { result ≡ undecided_at self.now.index.consumers link }
    {
        self.index.consumers.undecided(link)
    }

    /// How many deliveries of a producer's link are undecided.
    pub(crate) fn held(&self, link: u64) -> usize
        ensures { result ≡ tally self.now.index.held link }
    {
        self.index.held.count(link)
    }

    /// How many deliveries wait to start on a link.
    pub(crate) fn waiting(&self, link: u64) -> usize
        ensures { result ≡ waiting_at self.now.index.consumers link }
    {
        self.index.consumers.waiting(link)
    }

    /// The place of the delivery with a number in the order of binding.
    pub(crate) fn rank(&self, number: u64) -> Rank
        ensures { result ≡ ranked (at_number self.now.deliveries number) }
    {
        match self.get(number) {
            None => Rank { row: 0, counter: 0 },
            Some(delivery) => delivery.rank,
        }
    }

    /// The first delivery of a link of which frames remain to be sent.
    pub(crate) fn first_unsent(&self, link: u64) -> Option<u64>
        ensures { IsFirstIn (in_group self.now.index.unsent link) result }
    {
        self.index.unsent.first(link)
    }

    /// The first of them behind the one with a number, or of all.
    pub(crate) fn unsent_after(&self, link: u64, number: Option<u64>) -> Option<u64>
        ensures { IsFirstIn (λ r n. is_past (at_number self.now.deliveries) number r n && in_group self.now.index.unsent link r n) result }
    {
        match number {
            None => self.index.unsent.first(link),
            Some(number) => {
                self.index
                    .unsent
                    .first_after(link, self.rank(number), number)
            }
        }
    }

    /// The lowest link, above this one or of all, that has such deliveries.
    pub(crate) fn unsent_link_after(&self, link: Option<u64>) -> Option<u64>
        ensures { IsFirstGroup (in_group self.now.index.unsent) link result }
    {
        self.index.unsent.link_after(link)
    }

    /// The lowest link that was touched.
    pub(crate) fn touched(&self) -> Option<u64>
        ensures { IsFirst (is_touched_in self.now.touched) result }
    {
        self.touched.first()
    }

    /// Forgets that a link was touched.
    pub(crate) fn forget_touched(&mut self, link: u64)
        ensures deliveries { self.new.deliveries ≡ self.old.deliveries }
        ensures by_name { self.new.by_name ≡ self.old.by_name }
        ensures index { self.new.index ≡ self.old.index }
        ensures touched { (k : ℕ) → is_touched_in self.new.touched k ≡ (if link == k then false else is_touched_in self.old.touched k) }
    {
        self.touched.forget(link);
    }

    /// The first delivery, behind the one with a number or of all, whose outcome must be reported to its producer.
    pub(crate) fn to_tell_after(&self, number: Option<u64>) -> Option<u64>
        ensures { IsFirstIn (λ r n. is_past (at_number self.now.deliveries) number r n && in_group self.now.index.to_tell 0 r n) result }
    {
        match number {
            None => self.index.to_tell.first(0),
            Some(number) => { self.index.to_tell.first_after(0, self.rank(number), number) }
        }
    }

    /// Whether the delivery with a number is undecided.
    pub(crate) fn is_open(&self, number: u64) -> bool
        ensures { result ≡ is_open (at_number self.now.deliveries number) }
    {
        match self.get(number) {
            None => false,
            Some(delivery) => delivery.is_undecided(),
        }
    }

    /// Whether the delivery with a number has this id.
    pub(crate) fn has_id(&self, number: u64, id: u32) -> bool
        ensures { result ≡ is_id (id_of (at_number self.now.deliveries number)) id }
    {
        match self.get(number) {
            None => false,
            Some(delivery) => delivery.id == Some(id),
        }
    }

    /// Whether the delivery with a number is undecided, belongs to a session, and has this id.
    pub(crate) fn is_open_as(&self, number: u64, conn: u64, own: u16, id: u32) -> bool
        ensures { result ≡ is_open_as conn own id (at_number self.now.deliveries number) }
    {
        match self.get(number) {
            None => false,
            Some(delivery) => delivery.is_open_as(conn, own, id),
        }
    }

    /// Takes out the delivery with a number.
    fn take(&mut self, number: u64) -> Option<Boxed<Delivery>>
        ensures gives { result ≡ at_number self.old.deliveries number }
        ensures gone { (n : ℕ) → at_number self.new.deliveries n ≡ (if number == n then None else at_number self.old.deliveries n) }
        ensures by_name { self.new.by_name ≡ self.old.by_name }
        ensures index { self.new.index ≡ self.old.index }
        ensures touched { self.new.touched ≡ self.old.touched }
    {
        self.deliveries.remove(number)
    }

    /// Removes the delivery with a number, if it was changed in its place and is over.
    fn settle(&mut self, number: u64, left: Option<Left>)
        ensures deliveries { (n : ℕ) → at_number self.new.deliveries n
            ≡ (if is_left_over left then (if number == n then None else at_number self.old.deliveries n)
            else at_number self.old.deliveries n) }
        ensures called { (m : Name) → at_name self.new.by_name m
            ≡ (if is_left_name left m then None else at_name self.old.by_name m) }
        ensures index { self.new.index ≡ self.old.index }
        ensures touched { self.new.touched ≡ self.old.touched }
    {
        let Some(left) = left else {
            return;
        };
        if left.over {
            let _ = self.deliveries.remove(number);
            self.by_name.forget(left.name);
        }
    }

    /// Adds a message that was bound, under its number and its name, at its place in the order of binding. An earlier
    /// delivery of this name, or of this number, is removed.
    pub(crate) fn bind(
        &mut self,
        number: u64,
        name: DeliveryName,
        rank: Rank,
        binding: Binding,
    ) -> Result<(), AllocError>
        ensures deliveries { OnOk result (Indexed self.old
            → (n : ℕ) → at_number self.new.deliveries n ≡ (if number == n then Some (bound name rank binding) else unless_called name (at_number self.old.deliveries n))) }
        ensures indexed { OnOk result (at_number self.old.deliveries number ≡ None → Indexed self.old → Indexed self.new) }
        ensures touches { OnOk result (StoreTouches self.old self.new) }
    {
        self.remove_called(name)?;
        self.remove(number)?;
        self.add(number, name, rank, binding)?;
        Ok(())
    }

    /// Adds a message that was bound, under its number and its name, at its place in the order of binding.
    fn add(
        &mut self,
        number: u64,
        name: DeliveryName,
        rank: Rank,
        binding: Binding,
    ) -> Result<(), AllocError>
        ensures deliveries { OnOk result ((n : ℕ) → at_number self.new.deliveries n ≡ (if number == n then Some (bound name rank binding) else at_number self.old.deliveries n)) }
        ensures indexed { OnOk result (at_number self.old.deliveries number ≡ None → ((n : ℕ) → is_called name (at_number self.old.deliveries n) ≡ false)
            → Indexed self.old → Indexed self.new) }
        ensures touches { OnOk result (at_number self.old.deliveries number ≡ None → StoreTouches self.old self.new) }
    {
        self.by_name.set(name, number)?;
        let delivery = Delivery::bound(name, rank, binding);
        self.index.enter(&mut self.touched, number, &delivery)?;
        let delivery = Boxed::new(self.alloc, delivery)?;
        let _ = self.deliveries.insert(number, delivery)?;
        Ok(())
    }

    /// Removes the delivery with a name.
    #[tactic(auto, using(crate::proofs::Touching::touches_self))]
    fn remove_called(&mut self, name: DeliveryName) -> Result<(), AllocError>
        ensures deliveries { OnOk result (Indexed self.old → (n : ℕ) → at_number self.new.deliveries n ≡ unless_called name (at_number self.old.deliveries n)) }
        ensures indexed { OnOk result (Indexed self.old → Indexed self.new) }
        ensures touches { OnOk result (StoreTouches self.old self.new) }
    {
        match self.by_name.get(name) {
            None => Ok(()),
            Some(number) => self.remove(number),
        }
    }

    /// Removes the delivery with a number.
    fn remove(&mut self, number: u64) -> Result<(), AllocError>
        ensures deliveries { OnOk result ((n : ℕ) → at_number self.new.deliveries n ≡ (if number == n then None else at_number self.old.deliveries n)) }
        ensures indexed { OnOk result (Indexed self.old → Indexed self.new) }
        ensures touches { OnOk result (StoreTouches self.old self.new) }
    {
        let Some(taken) = self.take(number) else {
            return Ok(());
        };
        let delivery = taken.as_ref();
        self.by_name.forget(delivery.name);
        self.index.withdraw(&mut self.touched, number, delivery)?;
        Ok(())
    }

    /// Notes a transfer that carries `count` bytes of the delivery with a number.
    pub(crate) fn note_frame(
        &mut self,
        number: u64,
        transfer: &Transfer,
        count: u64,
    ) -> Result<(), AllocError>
        ensures deliveries { OnOk result ((n : ℕ) → at_number self.new.deliveries n
            ≡ (if number == n then option_and_then (λ d. unless_over (after_frame transfer.now count d)) (at_number self.old.deliveries n) else at_number self.old.deliveries n)) }
        ensures indexed { OnOk result (Indexed self.old → Indexed self.new) }
        ensures touches { OnOk result (StoreTouches self.old self.new) }
    {
        let left = note_in(
            &mut self.deliveries,
            &mut self.index,
            &mut self.touched,
            number,
            transfer,
            count,
        )?;
        self.settle(number, left);
        Ok(())
    }

    /// Gives the delivery of a row the outcome that was decided, if it has none. Returns the place of its id, if it was undecided and had one.
    pub(crate) fn give(&mut self, decision: &Decision) -> Result<Option<Spot>, AllocError>
        ensures place { IfOk result (λ place. place
            ≡ (standing (option_and_then (at_number self.old.deliveries)
            (at_name self.old.by_name (Row decision.now.row)))).consumer.durable) }
        ensures deliveries { OnOk result (((n : ℕ) → IsKept (at_number self.old.deliveries n)) → Indexed self.old
            → (n : ℕ) → at_number self.new.deliveries n ≡ after_acts (Decide decision.now ∷ []) (at_number self.old.deliveries n)) }
        ensures indexed { OnOk result (Indexed self.old → Indexed self.new) }
        ensures touches { OnOk result (StoreTouches self.old self.new) }
    {
        let Some(number) = self.by_name.get(DeliveryName::Row(decision.row)) else {
            return Ok(None);
        };
        let place = self.durable_place(number);
        let left = give_to(
            &mut self.deliveries,
            &mut self.index,
            &mut self.touched,
            number,
            &decision.outcome,
        )?;
        self.settle(number, left);
        Ok(place)
    }

    /// The place of the id that the router gave to the delivery with a number, if that is undecided and has a row.
    fn durable_place(&self, number: u64) -> Option<Spot>
        ensures { result ≡ (standing (at_number self.now.deliveries number)).consumer.durable }
    {
        match self.get(number) {
            None => None,
            Some(delivery) => Seat::of(delivery).id_spot(AtConsumer::of(delivery).durable),
        }
    }

    /// A producer's link has the delivery with a name like this from now on; whether there is one. One that is over by this is removed.
    pub(crate) fn join(&mut self, name: DeliveryName, holding: Holding) -> Result<bool, AllocError>
        ensures found { IfOk result (λ found. found ≡ is_some (option_and_then (at_number self.old.deliveries) (at_name self.old.by_name name))) }
        ensures deliveries { OnOk result (Indexed self.old → (n : ℕ) → at_number self.new.deliveries n ≡ joined name holding (at_number self.old.deliveries n)) }
        ensures indexed { OnOk result (Indexed self.old → Indexed self.new) }
        ensures touches { OnOk result (StoreTouches self.old self.new) }
    {
        let Some(number) = self.by_name.get(name) else {
            return Ok(false);
        };
        let left = join_in(
            &mut self.deliveries,
            &mut self.index,
            &mut self.touched,
            number,
            holding,
        )?;
        self.settle(number, left);
        Ok(left.is_some())
    }

    /// Changes the delivery with a number.
    pub(crate) fn change(&mut self, number: u64, change: &Change) -> Result<(), AllocError>
        ensures deliveries { OnOk result ((n : ℕ) → at_number self.new.deliveries n
            ≡ (if number == n then after_change change.now (at_number self.old.deliveries n) else at_number self.old.deliveries n)) }
        ensures indexed { OnOk result (Indexed self.old → Indexed self.new) }
        ensures touches { OnOk result (StoreTouches self.old self.new) }
    {
        let left = change_in(
            &mut self.deliveries,
            &mut self.index,
            &mut self.touched,
            number,
            change,
        )?;
        self.settle(number, left);
        Ok(())
    }

    /// Changes the deliveries with these numbers.
    #[tactic(auto, using(crate::proofs::Touching::touches_self))]
    pub(crate) fn change_all(&mut self, numbers: &[u64], change: &Change) -> Result<(), AllocError>
        ensures deliveries { OnOk result ((n : ℕ) → at_number self.new.deliveries n
            ≡ (if has n numbers.now then after_change change.now (at_number self.old.deliveries n) else at_number self.old.deliveries n)) }
        ensures indexed { OnOk result (Indexed self.old → Indexed self.new) }
        ensures touches { OnOk result (StoreTouches self.old self.new) }
    {
        for number in numbers {
            self.change(*number, change)?;
        }
        Ok(())
    }

    /// Applies a change that isn't a consumer's disposition to all deliveries. It looks only at those that the indexes give for the change.
    pub(crate) fn apply(&mut self, change: &Change) -> Result<(), AllocError>
        ensures deliveries { OnOk result (is_by_place change.now ≡ true → ((n : ℕ) → IsKept (at_number self.old.deliveries n)) → Indexed self.old
            → (n : ℕ) → at_number self.new.deliveries n ≡ after_change change.now (at_number self.old.deliveries n)) }
        ensures indexed { OnOk result (Indexed self.old → Indexed self.new) }
        ensures touches { OnOk result (StoreTouches self.old self.new) }
    {
        self.change_concerned(change)?;
        self.leave(change)?;
        Ok(())
    }

    /// Changes the deliveries that the indexes give for a change. No list is made for one that is found by its id
    /// alone.
    fn change_concerned(&mut self, change: &Change) -> Result<(), AllocError>
        ensures deliveries { OnOk result (is_by_place change.now ≡ true → ((n : ℕ) → IsKept (at_number self.old.deliveries n)) → Indexed self.old
            → (n : ℕ) → at_number self.new.deliveries n ≡ after_change change.now (at_number self.old.deliveries n)) }
        ensures indexed { OnOk result (Indexed self.old → Indexed self.new) }
        ensures touches { OnOk result (StoreTouches self.old self.new) }
    {
        if let Some(number) = self.index.sole(change) {
            self.change(number, change)?;
            return Ok(());
        }
        let numbers = self.index.concerned(self.alloc, change)?;
        self.change_all(numbers.as_slice(), change)?;
        Ok(())
    }

    /// Lets go of what the indexes keep for sessions that a change ends.
    fn leave(&mut self, change: &Change) -> Result<(), AllocError>
        ensures deliveries { self.new.deliveries ≡ self.old.deliveries }
        ensures touched { self.new.touched ≡ self.old.touched }
        ensures indexed { OnOk result (Indexed self.old → Indexed self.new) }
    {
        if let Change::Ends { gone, .. } = change {
            self.index.end(*gone)?;
        }
        Ok(())
    }

    /// Applies a change that isn't a consumer's disposition to all deliveries, if there is one.
    #[tactic(auto, using(crate::proofs::Touching::touches_self))]
    pub(crate) fn apply_any(&mut self, change: Option<Change>) -> Result<(), AllocError>
        ensures deliveries { OnOk result (are_by_place change ≡ true → ((n : ℕ) → IsKept (at_number self.old.deliveries n)) → Indexed self.old
            → (n : ℕ) → at_number self.new.deliveries n ≡ after_any change (at_number self.old.deliveries n)) }
        ensures indexed { OnOk result (Indexed self.old → Indexed self.new) }
        ensures touches { OnOk result (StoreTouches self.old self.new) }
    {
        match change {
            None => Ok(()),
            Some(change) => self.apply(&change),
        }
    }

    /// Notes a transfer with this payload of the delivery with a number, if there is one.
    #[tactic(auto, using(crate::proofs::Touching::touches_self))]
    pub(crate) fn note_carried(
        &mut self,
        number: Option<u64>,
        transfer: &Transfer,
        payload: &Bytes,
    ) -> Result<(), AllocError>
        ensures deliveries { OnOk result ((n : ℕ) → at_number self.new.deliveries n
            ≡ (if is_number number n then option_and_then (λ d. unless_over (after_frame transfer.now (length payload.now) d)) (at_number self.old.deliveries n) else at_number self.old.deliveries n)) }
        ensures indexed { OnOk result (Indexed self.old → Indexed self.new) }
        ensures touches { OnOk result (StoreTouches self.old self.new) }
    {
        match number {
            None => Ok(()),
            Some(number) => {
                let count = payload.len() as u64;
                self.note_frame(number, transfer, count)
            }
        }
    }

    /// A connection is lost.
    pub(crate) fn down(&mut self, conn: ConnectionId) -> Result<(), AllocError>
        ensures fits { OnOk result ((t : List Entry) → StoreFit self.old t → StoreFit self.new (did (event.Down conn) ∷ t)) }
        ensures touches { OnOk result (StoreTouches self.old self.new) }
    {
        self.apply(&Change::Ends {
            gone: Gone::Connection(conn.0),
            closed: false,
        })
    }

    /// The ids of the deliveries on the link that an item of the router detaches.
    pub(crate) fn detached_ids(&self, conn: u64, item: &Item) -> Result<Vec<u32>, AllocError>
        ensures { IfOk result (λ ids. Indexed self.now → (n id : ℕ) → is_detached item.now conn (standing (at_number self.now.deliveries n)) ≡ true
            → is_id (id_of (at_number self.now.deliveries n)) id ≡ true → has id ids.items ≡ true) }
    {
        match item {
            Item::Frame { channel, perf, .. } => Ok(self.ids_detached_in(conn, *channel, perf)?),
            _ => Ok(Vec::new(self.alloc)),
        }
    }

    /// The ids of the deliveries on the link that a performative of the router detaches.
    fn ids_detached_in(&self, conn: u64, own: u16, perf: &Perf) -> Result<Vec<u32>, AllocError>
        ensures { IfOk result (λ ids. Indexed self.now → (n id : ℕ) → is_detached_in perf.now conn own (standing (at_number self.now.deliveries n)) ≡ true
            → is_id (id_of (at_number self.now.deliveries n)) id ≡ true → has id ids.items ≡ true) }
    {
        match perf {
            Perf::Detach(detach) => {
                let handle = detach.handle;
                let gone = Gone::Link { conn, own, handle };
                Ok(self.ids_on(&Change::Ends {
                    gone,
                    closed: false,
                })?)
            }
            _ => Ok(Vec::new(self.alloc)),
        }
    }

    /// The ids of the deliveries that a change may change, if it isn't a consumer's disposition.
    fn ids_on(&self, change: &Change) -> Result<Vec<u32>, AllocError>
        ensures { IfOk result (λ ids. Indexed self.now → (n id : ℕ) → concerns change.now (standing (at_number self.now.deliveries n)) ≡ true
            → is_id (id_of (at_number self.now.deliveries n)) id ≡ true → has id ids.items ≡ true) }
    {
        let numbers = self.index.concerned(self.alloc, change)?;
        let mut ids = Vec::new(self.alloc);
        for number in &numbers {
            add_id(&mut ids, self.get(*number))?;
        }
        Ok(ids)
    }

    /// The numbers of the deliveries whose rows one of these changes may decide.
    pub(crate) fn deciding_by(&self, changes: &[Change]) -> Result<BTreeSet<u64>, AllocError>
        ensures { IfOk result (λ numbers. Indexed self.now → (n : ℕ) → decide changes.now (standing (at_number self.now.deliveries n)) ≡ true
            → contains nat_cmp numbers n ≡ true) }
    {
        Ok(self.index.deciding_by(self.alloc, changes)?)
    }

    /// An item is put into the outbox of a connection; `number` is the delivery that its transfer carries.
    #[tactic(auto, using(crate::proofs::Touching::touches_self))]
    pub(crate) fn put(
        &mut self,
        conn: u64,
        item: &Item,
        number: Option<u64>,
    ) -> Result<(), AllocError>
        ensures fits { OnOk result ((t : List Entry) → Knows (delivery t) number (carried_by (number_named t) item.now (sending t conn)) → StoreFit self.old t → StoreFit self.new (Out conn item.now ∷ t)) }
        ensures touches { OnOk result (StoreTouches self.old self.new) }
    {
        match item {
            Item::Frame {
                channel,
                perf,
                payload,
                ..
            } => self.put_perf(conn, *channel, perf, payload, number)?,
            _ => {}
        }
        Ok(())
    }

    /// A performative is put into the outbox of a connection, on a channel of the router.
    fn put_perf(
        &mut self,
        conn: u64,
        own: u16,
        perf: &Perf,
        payload: &Bytes,
        number: Option<u64>,
    ) -> Result<(), AllocError>
        ensures fits { OnOk result ((t : List Entry) (sasl : Bool) → Knows (delivery t) number (carried_in (number_named t) perf.now (sending t conn own)) → StoreFit self.old t
            → StoreFit self.new (Out conn (item.Frame sasl own perf.now payload.now) ∷ t)) }
        ensures touches { OnOk result (StoreTouches self.old self.new) }
    {
        match perf {
            Perf::Transfer(transfer) => self.note_carried(number, transfer, payload),
            _ => self.apply_any(after_put(conn, own, perf)),
        }
    }
}

/// Appends the id of a delivery, if it has one.
fn add_id(ids: &mut Vec<u32>, delivery: Option<&Delivery>) -> Result<(), AllocError>
    ensures { OnOk result ((id : ℕ) → has id ids.new.items ≡ (has id ids.old.items || is_id (id_of (option_map (λ d. d.now) delivery.entry)) id)) }
{
    if let Some(delivery) = delivery {
        if let Some(id) = delivery.id {
            ids.push(id)?;
        }
    }
    Ok(())
}
