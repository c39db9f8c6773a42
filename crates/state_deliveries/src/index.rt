//! Indexes of deliveries.
ghost use Rattle.std.specs.Prelude.{◌≡◌, ◌==◌, [], ◌∷◌, ℕ, Bool, Option, None, true, false, if◌then◌else◌, IfSome, OnOk, IfOk, ◌||◌};
ghost use Rattle.std.specs.Ordering.{nat_cmp};
ghost use Rattle.std.specs.BTreeSet.{contains};
ghost use Rattle.state_deliveries.specs.Deciding.{decides, decide};
ghost use Rattle.state_deliveries.specs.Indexing.{Keys, ConsumerKeys, Indexes, Begins, ConsumerBegins, ProducerBegins, followed, consumer_after, producer_after, left_of, keys, nowhere, consumer_keys, turn_on, at_consumer_moved, by_producer_moved, concerns};
ghost use Rattle.router_trace.specs.declared.binding.Rank.{Rank as TheRank};
ghost use Rattle.state_deliveries.specs.declared.spots.Spot.{Spot as TheSpot};
ghost use Rattle.state_deliveries.specs.Placing.{HandlesFit, SpotsFit, is_gone_there, on_spot, own_spot, spot_of};
ghost use Rattle.state_deliveries.specs.Ranking.{in_group, is_turn};
ghost use Rattle.state_deliveries.specs.Touching.{is_touched_in, SameAtConsumer, StandsSame};
ghost use Rattle.state_deliveries.specs.declared.standing.AtProducer.{AtProducer as ProducerKeys};
ghost use Rattle.router_trace.specs.Deliveries.{is_number, is_over};
ghost use Rattle.amqp_session.specs.Ranges.{has};

use crate::by_id::ById;
use crate::by_rank::ByRank;
use crate::change::{Change, Gone};
use crate::consumers::Consumers;
use crate::delivery::Delivery;
use crate::handles::Handles;
use crate::sets::add;
use crate::spots::Spots;
use crate::standing::{AtConsumer, AtProducer, Left, Seat};
use crate::tallies::Tallies;
use crate::touched::Touched;
use std::alloc::{AllocError, Global};
use std::collections::BTreeSet;

/// Indexes of deliveries.
#[derive(Drop)]
pub(crate) struct Index {
    // how many wait to start on a link, and how many of it are undecided
    pub(crate) consumers: Consumers,
    // those of a link of which frames remain to be sent
    pub(crate) unsent: ByRank,
    // how many are held from a producer's link
    pub(crate) held: Tallies,
    // those whose outcome must be reported to their producer, under the link 0
    pub(crate) to_tell: ByRank,
    // those changed by the end of a consumer's link, those by the end of a producer's link, and those by a producer's delivery-id
    on: Handles,
    from: Handles,
    by_id: ById,
    // those whose row a consumer's disposition may decide, by the router's delivery-id; a suspended one stays when its session ends
    durable: Spots,
}

impl Index {
    /// Empty indexes.
    pub(crate) fn new(alloc: Global) -> Index
        ensures { Indexes result (λ n. nowhere) }
    {
        Index {
            consumers: Consumers::new(alloc),
            unsent: ByRank::new(alloc),
            held: Tallies::new(alloc),
            to_tell: ByRank::new(alloc),
            on: Handles::new(alloc),
            from: Handles::new(alloc),
            by_id: ById::new(alloc),
            durable: Spots::new(alloc),
        }
    }

    /// Gives a delivery that has no entries yet its entries. Notes the links on which they are.
    pub(crate) fn enter(
        &mut self,
        touched: &mut Touched,
        number: u64,
        delivery: &Delivery,
    ) -> Result<(), AllocError>
        ensures indexed { OnOk result ((known : ℕ → Keys) → known number ≡ nowhere → Indexes self.old known
            → Indexes self.new (λ n. if number == n then keys delivery.now else known n)) }
        ensures touched { OnOk result ((k : ℕ) → is_touched_in touched.new k ≡ false
            → (is_touched_in touched.old k ≡ false) × StandsSame k nowhere (keys delivery.now)) }
    {
        self.shift_consumer(
            touched,
            number,
            Seat::of(delivery),
            AtConsumer::nowhere(),
            AtConsumer::of(delivery),
        )?;
        self.shift_producer(
            touched,
            number,
            &AtProducer::nowhere(),
            &AtProducer::of(delivery),
        )?;
        Ok(())
    }

    /// Takes its entries from a delivery. Notes the links on which they were.
    pub(crate) fn withdraw(
        &mut self,
        touched: &mut Touched,
        number: u64,
        delivery: &Delivery,
    ) -> Result<(), AllocError>
        ensures indexed { OnOk result ((known : ℕ → Keys) → known number ≡ keys delivery.now → Indexes self.old known
            → Indexes self.new (λ n. if number == n then nowhere else known n)) }
        ensures touched { OnOk result ((k : ℕ) → is_touched_in touched.new k ≡ false
            → (is_touched_in touched.old k ≡ false) × StandsSame k (keys delivery.now) nowhere) }
    {
        self.shift_consumer(
            touched,
            number,
            Seat::of(delivery),
            AtConsumer::of(delivery),
            AtConsumer::nowhere(),
        )?;
        self.shift_producer(
            touched,
            number,
            &AtProducer::of(delivery),
            &AtProducer::nowhere(),
        )?;
        Ok(())
    }

    /// Moves the entries of a delivery that was changed in its place, from those that it had before, if the change may
    /// have moved them. Notes the links
    /// on which they have changed. What is left to do is in the result.
    pub(crate) fn follow(
        &mut self,
        touched: &mut Touched,
        number: u64,
        consumer: Option<AtConsumer>,
        producer: &Option<AtProducer>,
        delivery: &Delivery,
    ) -> Result<Left, AllocError>
        ensures left { IfOk result (λ left. left ≡ left_of delivery.now) }
        ensures indexed { OnOk result ((known : ℕ → Keys)
            → Begins consumer producer.now delivery.now (known number) → Indexes self.old known
            → Indexes self.new (λ n. if number == n then followed consumer producer.now delivery.now (known number) else known n)) }
        ensures touched { OnOk result ((q : Keys) (k : ℕ) → Begins consumer producer.now delivery.now q
            → is_touched_in touched.new k ≡ false
            → (is_touched_in touched.old k ≡ false) × StandsSame k q (followed consumer producer.now delivery.now q)) }
    {
        let over = delivery.is_over();
        self.follow_at_consumer(touched, number, consumer, delivery)?;
        self.follow_by_producer(touched, number, producer, delivery, over)?;
        Ok(Left {
            name: delivery.name,
            over,
        })
    }

    /// Moves the entries of a delivery at its consumer's link, if a change may have moved it there.
    fn follow_at_consumer(
        &mut self,
        touched: &mut Touched,
        number: u64,
        before: Option<AtConsumer>,
        delivery: &Delivery,
    ) -> Result<(), AllocError>
        ensures indexed { OnOk result ((known : ℕ → Keys)
            → ConsumerBegins before delivery.now (known number).consumer → Indexes self.old known
            → Indexes self.new (at_consumer_moved number
            (consumer_after before delivery.now (known number).consumer) known)) }
        ensures touched { OnOk result ((q : ConsumerKeys) (k : ℕ) → ConsumerBegins before delivery.now q
            → is_touched_in touched.new k ≡ false
            → (is_touched_in touched.old k ≡ false) × SameAtConsumer k q (consumer_after before delivery.now q)) }
    {
        match before {
            None => {}
            Some(before) => self.shift_consumer(
                touched,
                number,
                Seat::of(delivery),
                before,
                AtConsumer::of(delivery),
            )?,
        }
        Ok(())
    }

    /// Moves the entries of a delivery by its producer, if a change may have moved them.
    fn follow_by_producer(
        &mut self,
        touched: &mut Touched,
        number: u64,
        before: &Option<AtProducer>,
        delivery: &Delivery,
        over: bool,
    ) -> Result<(), AllocError>
        ensures indexed { OnOk result (over ≡ is_over delivery.now → (known : ℕ → Keys)
            → ProducerBegins before.now (known number).producer → Indexes self.old known
            → Indexes self.new (by_producer_moved number
            (producer_after before.now delivery.now (known number).producer) known)) }
        ensures touched { OnOk result (over ≡ is_over delivery.now → (q : ProducerKeys) (k : ℕ)
            → ProducerBegins before.now q → is_touched_in touched.new k ≡ false
            → (is_touched_in touched.old k ≡ false) × (is_number q.held k ≡ is_number
            (producer_after before.now delivery.now q).held k)) }
    {
        match before {
            None => {}
            Some(before) => self.shift_producer(
                touched,
                number,
                before,
                &AtProducer::of_kept(delivery, over),
            )?,
        }
        Ok(())
    }

    /// Moves the entries of a delivery at its consumer's link. Notes that link, if what is counted there has changed.
    fn shift_consumer(
        &mut self,
        touched: &mut Touched,
        number: u64,
        seat: Seat,
        before: AtConsumer,
        after: AtConsumer,
    ) -> Result<(), AllocError>
        ensures indexed { OnOk result ((known : ℕ → Keys) → (known number).consumer ≡ consumer_keys seat before
            → Indexes self.old known
            → Indexes self.new (at_consumer_moved number (consumer_keys seat after) known)) }
        ensures touched { OnOk result ((k : ℕ) → is_touched_in touched.new k ≡ false
            → (is_touched_in touched.old k ≡ false)
            × SameAtConsumer k (consumer_keys seat before) (consumer_keys seat after)) }
    {
        touched.note_consumer(seat.link.number, before, after)?;
        self.consumers.shift(seat.link.number, before, after)?;
        shift_unsent(
            &mut self.unsent,
            number,
            seat,
            before.goes_on,
            after.goes_on,
        )?;
        shift_on(&mut self.on, number, seat, before.is_on(), after.is_on())?;
        shift_durable(
            &mut self.durable,
            number,
            seat,
            before.durable,
            after.durable,
        )?;
        Ok(())
    }

    /// Moves the entries of a delivery by its producer. Notes the producers' links from which it was held and is held
    /// now, if they differ.
    fn shift_producer(
        &mut self,
        touched: &mut Touched,
        number: u64,
        before: &AtProducer,
        after: &AtProducer,
    ) -> Result<(), AllocError>
        ensures indexed { OnOk result ((known : ℕ → Keys) → (known number).producer ≡ before.now
            → Indexes self.old known
            → Indexes self.new (by_producer_moved number after.now known)) }
        ensures touched { OnOk result ((k : ℕ) → is_touched_in touched.new k ≡ false
            → (is_touched_in touched.old k ≡ false) × (is_number before.now.held k ≡ is_number after.now.held k)) }
    {
        touched.note_moved(before.held, after.held)?;
        self.held.shift(before.held, after.held)?;
        self.to_tell.shift(number, before.to_tell, after.to_tell)?;
        self.from.shift(number, before.from, after.from)?;
        self.by_id.shift(number, before.by_id, after.by_id)?;
        Ok(())
    }

    /// The numbers of the deliveries that a change may change, if it isn't a consumer's disposition; some may occur more than once.
    pub(crate) fn concerned(&self, alloc: Global, change: &Change) -> Result<Vec<u64>, AllocError>
        ensures { IfOk result (λ numbers. (known : ℕ → Keys) → Indexes self.now known → (n : ℕ)
            → concerns change.now (known n) ≡ true → has n numbers.items ≡ true) }
    {
        let mut numbers = Vec::new(alloc);
        self.append_concerned(change, &mut numbers)?;
        Ok(numbers)
    }

    /// The number of the only delivery that a change may change, if it is found without a list: by one id from its
    /// producer.
    pub(crate) fn sole(&self, change: &Change) -> Option<u64>
        ensures { IfSome result (λ k. (known : ℕ → Keys) → Indexes self.now known → (n : ℕ)
            → concerns change.now (known n) ≡ true → has n (k ∷ []) ≡ true) }
    {
        match change {
            Change::Untold {
                conn,
                own,
                first,
                last,
            } => self.by_id.sole(*conn, *own, *first, *last),
            Change::Told {
                conn,
                own,
                first,
                last,
            } => self.by_id.sole(*conn, *own, *first, *last),
            _ => None,
        }
    }

    /// The numbers of the deliveries whose rows one of these changes may decide.
    pub(crate) fn deciding_by(
        &self,
        alloc: Global,
        changes: &[Change],
    ) -> Result<BTreeSet<u64>, AllocError>
        ensures { IfOk result (λ numbers. (known : ℕ → Keys) → Indexes self.now known → (n : ℕ)
            → decide changes.now (known n) ≡ true → contains nat_cmp numbers n ≡ true) }
    {
        let mut numbers = BTreeSet::new(alloc);
        for change in changes {
            self.add_deciding(alloc, change, &mut numbers)?;
        }
        Ok(numbers)
    }

    /// Adds the numbers of the deliveries whose rows a change may decide.
    fn add_deciding(
        &self,
        alloc: Global,
        change: &Change,
        numbers: &mut BTreeSet<u64>,
    ) -> Result<(), AllocError>
        ensures more { OnOk result ((n : ℕ) → contains nat_cmp numbers.old n ≡ true → contains nat_cmp numbers.new n ≡ true) }
        ensures found { OnOk result ((known : ℕ → Keys) → Indexes self.now known → (n : ℕ)
            → decides change.now (known n) ≡ true → contains nat_cmp numbers.new n ≡ true) }
    {
        let mut found = Vec::new(alloc);
        self.append_deciding(change, &mut found)?;
        add_all(numbers, found.as_slice())?;
        Ok(())
    }

    /// Appends the numbers of the deliveries whose rows a change may decide: a disposition only those with ids in its range.
    fn append_deciding(&self, change: &Change, numbers: &mut Vec<u64>) -> Result<(), AllocError>
        ensures { OnOk result ((known : ℕ → Keys) → Indexes self.now known → (n : ℕ) → decides change.now (known n)
            ≡ true → has n numbers.new.items ≡ true) }
    {
        match change {
            Change::Decided {
                conn,
                own,
                first,
                last,
                ..
            } => {
                self.durable
                    .append_ids(*conn, *own, *first, *last, numbers)?
            }
            _ => self.append_concerned(change, numbers)?,
        }
        Ok(())
    }

    /// Appends these numbers.
    fn append_concerned(&self, change: &Change, numbers: &mut Vec<u64>) -> Result<(), AllocError>
        ensures { OnOk result ((known : ℕ → Keys) → Indexes self.now known → (n : ℕ)
            → concerns change.now (known n) ≡ true → has n numbers.new.items ≡ true) }
    {
        match change {
            Change::Ends { gone, .. } => self.append_ended(*gone, numbers)?,
            Change::Untold {
                conn,
                own,
                first,
                last,
            } => self.by_id.append_ids(*conn, *own, *first, *last, numbers)?,
            Change::Told {
                conn,
                own,
                first,
                last,
            } => self.by_id.append_ids(*conn, *own, *first, *last, numbers)?,
            Change::Decided { .. } => {}
        }
        Ok(())
    }

    /// Appends the numbers of the deliveries whose link ends, or whose producer's link ends.
    fn append_ended(&self, gone: Gone, numbers: &mut Vec<u64>) -> Result<(), AllocError>
        ensures { OnOk result ((known : ℕ → Keys) → Indexes self.now known → (n : ℕ)
            → (is_gone_there gone (known n).consumer.on || is_gone_there gone (known n).producer.from) ≡ true
            → has n numbers.new.items ≡ true) }
    {
        self.on.append_gone(gone, numbers)?;
        self.from.append_gone(gone, numbers)?;
        Ok(())
    }

    /// Lets go of the rows of sessions that end, where they have no deliveries.
    pub(crate) fn end(&mut self, gone: Gone) -> Result<(), AllocError>
        ensures { OnOk result ((known : ℕ → Keys) → Indexes self.old known → Indexes self.new known) }
    {
        self.on.end(gone)?;
        self.from.end(gone)?;
        self.by_id.end(gone)?;
        Ok(())
    }
}

/// Moves a number to its turn on its link or away from it, if that changes.
fn shift_unsent(
    unsent: &mut ByRank,
    number: u64,
    seat: Seat,
    before: bool,
    after: bool,
) -> Result<(), AllocError>
    ensures { OnOk result (
        ((k : ℕ) (r : TheRank) → in_group unsent.old k r number
        ≡ is_turn (turn_on seat.link.number seat.rank before) k r)
        → (k : ℕ) (r : TheRank) (n : ℕ) → in_group unsent.new k r n
        ≡ (if number == n then is_turn (turn_on seat.link.number seat.rank after) k r else in_group unsent.old k r n)) }
{
    if before == after {
        return Ok(());
    }
    unsent.shift(number, seat.turn(before), seat.turn(after))?;
    Ok(())
}

/// Moves a number to the place of its link or away from it, if that changes.
fn shift_on(
    on: &mut Handles,
    number: u64,
    seat: Seat,
    before: bool,
    after: bool,
) -> Result<(), AllocError>
    ensures { OnOk result ((known : ℕ → Option TheSpot) → known number ≡ on_spot (spot_of seat.link) before
        → HandlesFit on.old known → HandlesFit on.new
        (λ n. if number == n then on_spot (spot_of seat.link) after else known n)) }
{
    if before == after {
        return Ok(());
    }
    on.shift(number, seat.spot(before), seat.spot(after))?;
    Ok(())
}

/// Moves a number from the place of one id that the router gave to that of another, if they differ.
fn shift_durable(
    durable: &mut Spots,
    number: u64,
    seat: Seat,
    before: Option<u32>,
    after: Option<u32>,
) -> Result<(), AllocError>
    ensures { OnOk result ((known : ℕ → Option TheSpot) → known number ≡ own_spot seat.link before
        → SpotsFit durable.old known → SpotsFit durable.new (λ n. if number == n then own_spot seat.link after
        else known n)) }
{
    if before == after {
        return Ok(());
    }
    durable.shift(number, seat.id_spot(before), seat.id_spot(after))?;
    Ok(())
}

/// Puts numbers into a set.
fn add_all(numbers: &mut BTreeSet<u64>, more: &[u64]) -> Result<(), AllocError>
    ensures { OnOk result ((n : ℕ) → contains nat_cmp numbers.new n ≡ (contains nat_cmp numbers.old n || has n more.now)) }
{
    for number in more {
        add(numbers, *number)?;
    }
    Ok(())
}
