//! The pool of an address.
ghost use Rattle.std.specs.Prelude.{◌≡◌, ◌+◌, ◌⊎◌, ℕ, List, [], map, false, None, Some, OnOk, OnErr, IfOk, option_map, nat_lt, ◌==◌, if◌then◌else◌};
ghost use Rattle.std.specs.List.Sorted.{IsStrictlySortedBy};
ghost use Rattle.std.specs.Map.{keys_of};
ghost use Rattle.std.specs.Ordering.{nat_cmp};
ghost use Rattle.route_credit.specs.Granting.{all_granted, choice, grants_of};
ghost use Rattle.route_credit.specs.Links.{amount_at, link_at};
ghost use Rattle.route_credit.specs.Pool.{by_id, chose, copies, copies_by, given, Granted, has_no_links, IsChoice, IsNext, IsTold, free, is_short, lent, no_links, offered, part_of, wanted, without_consumer, without_producer, WithinFree};
ghost use Rattle.route_credit.specs.Ranks.{offer_rank};
ghost use Rattle.route_credit.specs.Side.{IsWhole, links_of};
ghost use Rattle.route_credit.specs.declared.demand.Demand.{Demand};
ghost use Rattle.route_table.specs.declared.sections.Distribution.TheVariants.{Multicast};

use crate::demand::Demand;
use crate::ids::{ConsumerId, ProducerId};
use crate::offer::Offer;
use crate::side::Side;
use crate::tally::Tally;
use route_table::Distribution;
use std::alloc::{AllocError, Global};
use std::marker::Model;

/// The links of one address: who gets the next delivery, and who gets credit.
///
/// Each call costs a logarithm of the number of links; `grants` costs that for each credit that it gives, at most 64 for
/// each producer.
#[derive(Debug, Drop)]
pub struct Pool {
    alloc: Global,
    distribution: Distribution,
    consumers: Side<Offer>,
    producers: Side<Demand>,
    last: u64,
}

impl Model for Pool {
    ghost use Rattle.route_credit.specs.Pool.{lent_of, need_of, Sharing};
    ghost use Rattle.route_credit.specs.Ranks.{offer_rank};
    ghost use Rattle.route_credit.specs.Side.{IsWhole, links_of};

    ghost Value = { Sharing };

    ghost view = { λ p. record { distribution = p.distribution; consumers = links_of p.consumers; producers = links_of p.producers; last = p.last } };

    ghost invariant = { λ p. IsWhole (offer_rank p.distribution) (λ offer. offer.free) p.consumers × IsWhole (need_of p.distribution) lent_of p.producers };
}

impl Pool {
    /// A pool of no links.
    pub fn new(alloc: Global, distribution: Distribution) -> Pool
        ensures { result ≡ no_links distribution }
    {
        Pool {
            alloc,
            distribution,
            consumers: Side::Empty,
            producers: Side::Empty,
            last: 0,
        }
    }

    /// How the address shares its messages.
    #[inline]
    pub fn distribution(&self) -> Distribution
        ensures { result ≡ self.now.distribution }
    {
        self.distribution
    }

    /// Whether it has no links.
    #[inline]
    pub fn is_empty(&self) -> bool
        ensures { result ≡ has_no_links self.now }
    {
        self.consumers.is_empty() && self.producers.is_empty()
    }

    /// Stores what a consumer link has now: its free credit and its undecided deliveries. The first call for a link is
    /// its attach.
    #[inline]
    pub fn offer(
        &mut self,
        consumer: ConsumerId,
        free: u64,
        undecided: u64,
    ) -> Result<(), AllocError>
        ensures offered { OnOk result (self.new ≡ offered self.old consumer.0 free undecided) }
        ensures err { OnErr result (self.new ≡ self.old) }
    {
        let offer = Offer { free, undecided };
        self.consumers
            .set(self.alloc, self.distribution, consumer.0, offer)
    }

    /// Stores what a producer link has now: its unused credit, how much is due to it, and its deliveries that are
    /// undecided or not forgotten. The first call for a link is its attach.
    #[inline]
    pub fn want(
        &mut self,
        producer: ProducerId,
        unused: u32,
        due: u32,
        held: u32,
    ) -> Result<(), AllocError>
        ensures wanted { OnOk result (self.new ≡ wanted self.old producer.0 unused due held) }
        ensures err { OnErr result (self.new ≡ self.old) }
    {
        let demand = Demand { unused, due, held };
        self.producers
            .set(self.alloc, self.distribution, producer.0, demand)
    }

    /// Removes a consumer link. If it was the one last chosen, it is still remembered as that.
    #[inline]
    pub fn drop_consumer(&mut self, consumer: ConsumerId)
        ensures { self.new ≡ without_consumer self.old consumer.0 }
    {
        self.consumers.remove(self.distribution, consumer.0);
    }

    /// Removes a producer link.
    #[inline]
    pub fn drop_producer(&mut self, producer: ProducerId)
        ensures { self.new ≡ without_producer self.old producer.0 }
    {
        self.producers.remove(self.distribution, producer.0);
    }

    /// The consumer that [`Pool::choose`] would choose now. Nothing is noted, so asked again it answers the same.
    #[tactic(auto, using(crate::proofs::Leasts::choice_is))]
    pub fn peek(&self) -> Option<ConsumerId>
        ensures choice { IsChoice self.now (option_map (λ c. c.0) result) }
        ensures chosen { option_map (λ c. c.0) result ≡ choice self.now }
    {
        match self.next_consumer() {
            None => None,
            Some(id) => Some(ConsumerId(id)),
        }
    }

    /// Chooses the consumer of the next delivery and notes that it was chosen; none where no consumer has free credit.
    /// A multicast address chooses nobody. It allocates nothing.
    pub fn choose(&mut self) -> Option<ConsumerId>
        ensures choice { IsChoice self.old (option_map (λ c. c.0) result) }
        ensures chosen { option_map (λ c. c.0) result ≡ choice self.old }
        ensures noted { self.new ≡ chose self.old (option_map (λ c. c.0) result) }
    {
        let chosen = self.peek();
        if let Some(consumer) = chosen {
            self.note(consumer);
        }
        chosen
    }

    /// Notes that this consumer is chosen for the next delivery, as [`Pool::choose`] does with the one that it chooses: for a caller that asked
    /// [`Pool::peek`] before.
    #[inline]
    pub fn note(&mut self, consumer: ConsumerId)
        ensures { self.new ≡ chose self.old (Some consumer.0) }
    {
        self.last = consumer.0;
    }

    /// Gives credit to producers, one credit after another, while there is a producer that is next, and returns each
    /// producer's sum, in order of attach. Where memory was refused, the credit that was given so far is in no answer.
    pub fn grants(&mut self) -> Result<Vec<(ProducerId, u32)>, AllocError>
        ensures granted { Granted self.old self.new }
        ensures done { OnOk result (IsNext self.new None) }
        ensures within { (self.new ≡ self.old) ⊎ WithinFree self.new.distribution (lent self.new) (free self.new) }
        ensures told { IfOk result (λ sums. IsTold self.old self.new sums.items) }
        ensures filled { OnOk result (self.new ≡ all_granted self.old) }
        ensures sums { IfOk result (λ sums. by_id sums.items ≡ grants_of self.old) }
    {
        let mut sums = Tally::new(self.alloc);
        while let Some(id) = self.next_producer() {
            let part = self.give(id)?;
            sums.add(id, part)?;
        }
        sums.told()
    }

    /// The consumers that get a copy of a message of a multicast address, in order of attach: each that has free credit.
    /// Nothing is noted. No others have copies.
    pub fn copies(&self) -> Result<Vec<ConsumerId>, AllocError>
        ensures { IfOk result (λ to. map (λ c. c.0) to.items ≡ copies self.now) }
    {
        match self.distribution {
            Distribution::Balanced | Distribution::Closest => Ok(Vec::new(self.alloc)),
            Distribution::Multicast => each_free(self.alloc, &self.consumers),
        }
    }

    /// The consumer whose turn is first.
    #[inline]
    fn next_consumer(&self) -> Option<u64>
        ensures choice { IsChoice self.now result }
        ensures ordered { IsStrictlySortedBy nat_cmp (keys_of self.now.consumers) }
    {
        let distribution = self.distribution;
        match distribution {
            Distribution::Multicast => None,
            Distribution::Balanced => self.consumers.first(distribution),
            Distribution::Closest => {
                match self.consumers.first_after(distribution, self.last) {
                    None => self.consumers.first(distribution),
                    Some(id) => Some(id),
                }
            }
        }
    }

    /// Whether any credit is to be given. If not, it has no grants.
    #[tactic(auto, using(crate::proofs::Gains::none_where_enough))]
    #[inline]
    pub fn is_short(&self) -> bool
        ensures short { result ≡ is_short self.now }
        ensures quiet { result ≡ false → grants_of self.now ≡ [] }
        ensures ordered { IsStrictlySortedBy nat_cmp (keys_of self.now.producers) }
    {
        match self.distribution {
            Distribution::Balanced | Distribution::Closest => {
                self.producers.total() < self.consumers.total()
            }
            Distribution::Multicast => true,
        }
    }

    /// The producer that is given credit next.
    #[inline]
    fn next_producer(&self) -> Option<u64>
        ensures next { IsNext self.now result }
        ensures ordered { IsStrictlySortedBy nat_cmp (keys_of self.now.producers) }
    {
        if !self.is_short() {
            return None;
        }
        self.producers.first(self.distribution)
    }

    /// Gives a producer its part, and returns how much that is.
    fn give(&mut self, id: u64) -> Result<u32, AllocError>
        ensures given { (demand : Demand) → link_at self.old.producers id ≡ Some demand → OnOk result (self.new ≡ given self.old id demand) }
        ensures part { (demand : Demand) → link_at self.old.producers id ≡ Some demand → IfOk result (λ part. part ≡ part_of self.old.distribution demand) }
        ensures ordered { (demand : Demand) → link_at self.old.producers id ≡ Some demand → OnOk result (IsStrictlySortedBy nat_cmp (keys_of self.old.producers)) }
        ensures err { OnErr result (self.new ≡ self.old) }
    {
        let Some(demand) = self.producers.get(id) else {
            return Ok(0);
        };
        let part = demand.part(self.distribution);
        let Some(unused) = demand.unused.checked_add(part) else {
            return Err(AllocError);
        };
        let more = Demand { unused, ..demand };
        self.producers.set(self.alloc, self.distribution, id, more)?;
        Ok(part)
    }
}

/// The consumers of a multicast address that have free credit, in order of attach.
fn each_free(alloc: Global, consumers: &Side<Offer>) -> Result<Vec<ConsumerId>, AllocError>
    requires { IsWhole (offer_rank Multicast) (λ offer. offer.free) consumers.now }
    ensures { IfOk result (λ to. map (λ c. c.0) to.items ≡ copies_by Multicast (links_of consumers.now)) }
{
    let mut free = Vec::new(alloc);
    let mut next = consumers.first(Distribution::Multicast);
    while let Some(id) = next {
        free.push(ConsumerId(id))?;
        next = consumers.first_after(Distribution::Multicast, id);
    }
    Ok(free)
}
