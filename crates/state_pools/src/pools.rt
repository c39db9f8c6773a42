//! The pools of all addresses.
ghost use Rattle.std.specs.Prelude.{◌≡◌, ◌==◌, ◌||◌, ◌&&◌, ◌<◌, ◌≤◌, not, ℕ, List, [], map, Bool, true, false, Option, None, Some, OnOk, IfOk, IfNone, IfSome, option_map, is_some, length};
ghost use Rattle.std.specs.Str.{bytes_eq};
ghost use Rattle.route_table.specs.declared.sections.Distribution.{Distribution};
ghost use Rattle.route_table.specs.Places.{FindsAs, Routing, distribution_of};
ghost use Rattle.route_credit.specs.Granting.{choice, grants_of};
ghost use Rattle.route_credit.specs.Links.{link_at};
ghost use Rattle.route_credit.specs.Pool.{by_id, copies};
ghost use Rattle.state_collections.specs.NumberSet.{has};
ghost use Rattle.state_pools.specs.Digest.{digest_of};
ghost use Rattle.state_pools.specs.Due.{count, is_in, is_place};
ghost use Rattle.state_pools.specs.Fits.{AgreeBut, AreFirst, chosen_at, is_due, is_touched, is_granted, NoneTouched, offers, place_of, places_of, pool_at, PoolsFit, PoolsFitBut, PoolsFitWithout, touched_count};
ghost use Rattle.state_pools.specs.Sharing.{address_in, AreNumbered, Figure, sharing};
ghost use Rattle.state_pools.specs.Sharing.Figure.{consumer, producer};

use crate::by_address::ByAddress;
use crate::due::Due;
use crate::same::same;
use crate::seat::Seat;
use route_credit::{ConsumerId, ProducerId};
use route_table::{Distribution, Table};
use state_collections::{NumberMap, NumberSet};
use std::alloc::{AllocError, Global};

/// So many places stand for links, each for those of the numbers whose remainder it is.
const SEATS: usize = 1024;

/// The pools of all addresses, with the links that may have changed, and the addresses that may have grants.
///
/// A link is identified by its number, which is its order of attach. Each call takes time logarithmic in the number of links, and
/// `grants` that much for each credit that it gives. The pool of an address is removed with the last of its links: each link that comes
/// later has a number above the consumer chosen last, so the next choice is the same as if there had been none. The table of prefixes
/// determines how an address is shared. If an operation fails to allocate, the contents are unspecified.
#[derive(Drop)]
pub struct Pools {
    alloc: Global,
    table: Table,
    pools: ByAddress,
    seats: NumberMap<Seat>,
    due: Due,
    touched: NumberSet,
}

impl Pools {
    /// Pools without any links; addresses are shared as this table says.
    pub fn new(alloc: Global, table: Table) -> Pools
        ensures { (g : Routing) → FindsAs table g → (known : ℕ → Option Figure) → ((n : ℕ) → known n ≡ None) → PoolsFit result (distribution_of g) known known (λ a. 0) }
    {
        Pools {
            alloc,
            table,
            pools: ByAddress::new(alloc),
            seats: NumberMap::new(alloc, SEATS),
            due: Due::new(alloc),
            touched: NumberSet::new(alloc),
        }
    }

    /// How the links of an address share its messages.
    #[inline]
    pub fn distribution(&self, address: &str) -> Distribution
        ensures { (share : List ℕ → Distribution) (known actual : ℕ → Option Figure) (last : List ℕ → ℕ) → PoolsFit self.now share known actual last → result ≡ share address.now }
    {
        self.table.distribution(address)
    }

    /// Notes that what a link has may have changed.
    #[inline]
    pub fn touch(&mut self, number: u64) -> Result<(), AllocError>
        ensures fits { OnOk result ((share : List ℕ → Distribution) (known other actual : ℕ → Option Figure) (last : List ℕ → ℕ) → PoolsFit self.old share known actual last → AgreeBut number other known → PoolsFit self.new share other actual last) }
        ensures touched { OnOk result ((n : ℕ) → is_touched self.new n ≡ (number == n || is_touched self.old n)) }
    {
        self.touched.insert(number)
    }

    /// The first link that may have changed.
    #[inline]
    pub fn touched(&self) -> Option<u64>
        ensures none { IfNone result (NoneTouched self.now) }
        ensures first { IfSome result (λ first. is_touched self.now first ≡ true) }
        ensures below { IfSome result (λ first. (n : ℕ) → n < first → is_touched self.now n ≡ false) }
    {
        self.touched.first()
    }

    /// Sets what a consumer has: its free credit and its undecided deliveries, at an address.
    pub fn offer(
        &mut self,
        number: u64,
        address: &str,
        free: u64,
        undecided: u64,
    ) -> Result<(), AllocError>
        ensures fits { OnOk result ((share : List ℕ → Distribution) (known other actual : ℕ → Option Figure) (last : List ℕ → ℕ) → PoolsFit self.old share known actual last
            → other number ≡ Some (consumer address.now free undecided) → actual number ≡ other number → AgreeBut number other known → PoolsFit self.new share other actual last) }
        ensures touched { OnOk result ((n : ℕ) → is_touched self.new n ≡ (not (number == n) && is_touched self.old n)) }
        ensures fewer { OnOk result (is_touched self.old number ≡ true → touched_count self.new < touched_count self.old) }
    {
        let place = address.as_bytes();
        let may = match self.digest_at(number, place) {
            Some(digest) => self
                .pools
                .offer_there(digest, place, number, free, undecided)?,
            None => {
                let digest = self.move_to(number, place)?;
                self.pools
                    .offer(&self.table, digest, address, number, free, undecided)?
            }
        };
        note(&mut self.due, &self.seats, number, place, may)?;
        self.touched.remove(number);
        Ok(())
    }

    /// Sets what a producer has: its unused credit, how much is due to it, and its deliveries that the router holds, at an address.
    pub fn want(
        &mut self,
        number: u64,
        address: &str,
        unused: u32,
        due: u32,
        held: u32,
    ) -> Result<(), AllocError>
        ensures fits { OnOk result ((share : List ℕ → Distribution) (known other actual : ℕ → Option Figure) (last : List ℕ → ℕ) → PoolsFit self.old share known actual last
            → other number ≡ Some (producer address.now unused due held) → actual number ≡ other number → AgreeBut number other known → PoolsFit self.new share other actual last) }
        ensures touched { OnOk result ((n : ℕ) → is_touched self.new n ≡ (not (number == n) && is_touched self.old n)) }
        ensures fewer { OnOk result (is_touched self.old number ≡ true → touched_count self.new < touched_count self.old) }
    {
        let place = address.as_bytes();
        let may = match self.digest_at(number, place) {
            Some(digest) => self
                .pools
                .want_there(digest, place, number, unused, due, held)?,
            None => {
                let digest = self.move_to(number, place)?;
                self.pools
                    .want(&self.table, digest, address, number, unused, due, held)?
            }
        };
        note(&mut self.due, &self.seats, number, place, may)?;
        self.touched.remove(number);
        Ok(())
    }

    /// Notes that a link has nothing any more.
    pub fn leave(&mut self, number: u64) -> Result<(), AllocError>
        ensures fits { OnOk result ((share : List ℕ → Distribution) (known other actual : ℕ → Option Figure) (last : List ℕ → ℕ) → PoolsFit self.old share known actual last
            → other number ≡ None → actual number ≡ other number → AgreeBut number other known → PoolsFit self.new share other actual last) }
        ensures touched { OnOk result ((n : ℕ) → is_touched self.new n ≡ (not (number == n) && is_touched self.old n)) }
        ensures fewer { OnOk result (is_touched self.old number ≡ true → touched_count self.new < touched_count self.old) }
    {
        self.take_out(number)?;
        self.touched.remove(number);
        Ok(())
    }

    /// The consumer that [`Pools::choose`] would choose now, by number. Nothing is noted, so asked again it answers the same.
    #[inline]
    pub fn peek(&self, number: u64) -> Option<u64>
        ensures { (share : List ℕ → Distribution) (known actual : ℕ → Option Figure) (last : List ℕ → ℕ) (count : ℕ) (address : List ℕ) → PoolsFit self.now share known actual last → NoneTouched self.now → AreNumbered known count
            → address_in (known number) ≡ Some address → result ≡ choice (sharing (share address) known count (last address) address) }
    {
        let Some(seat) = self.seats.get(number) else {
            return None;
        };
        let place = seat.address.as_slice();
        match self.pools.peek(seat.digest, place) {
            None => None,
            Some(consumer) => Some(consumer.0),
        }
    }

    /// The consumers that get a copy of a message of the address that a link is at, in order of attach: each with free
    /// credit, on a multicast address; else none. Nothing is noted.
    pub fn copies(&self, number: u64) -> Result<Vec<ConsumerId>, AllocError>
        ensures { IfOk result (λ to. (share : List ℕ → Distribution) (known actual : ℕ → Option Figure) (last : List ℕ → ℕ) (count : ℕ) (address : List ℕ) → PoolsFit self.now share known actual last → NoneTouched self.now → AreNumbered known count
            → address_in (known number) ≡ Some address → map (λ c. c.0) to.items ≡ copies (sharing (share address) known count (last address) address)) }
    {
        match self.seats.get(number) {
            None => Ok(Vec::new(self.alloc)),
            Some(seat) => {
                let place = seat.address.as_slice();
                self.pools.copies(seat.digest, place)
            }
        }
    }

    /// Chooses the consumer of the next delivery of the address that a link is at; none if no consumer there has free
    /// credit. It allocates no memory.
    #[inline]
    pub fn choose(&mut self, number: u64) -> Option<ConsumerId>
        ensures chosen { (share : List ℕ → Distribution) (known actual : ℕ → Option Figure) (last : List ℕ → ℕ) (count : ℕ) (address : List ℕ) → PoolsFit self.old share known actual last → NoneTouched self.old → AreNumbered known count
            → address_in (known number) ≡ Some address → option_map (λ c. c.0) result ≡ choice (sharing (share address) known count (last address) address) }
        ensures fits { (share : List ℕ → Distribution) (known : ℕ → Option Figure) (last : List ℕ → ℕ) (address : List ℕ) → PoolsFit self.old share known known last → NoneTouched self.old
            → address_in (known number) ≡ Some address → PoolsFit self.new share known known (chosen_at address (option_map (λ c. c.0) result) last) }
        ensures touched { (n : ℕ) → is_touched self.new n ≡ is_touched self.old n }
    {
        let Some(seat) = self.seats.get(number) else {
            return None;
        };
        let place = seat.address.as_slice();
        self.pools.choose(seat.digest, place)
    }

    /// Notes that this consumer is chosen for the next delivery of the address that a link is at, as [`Pools::choose`] does with the one that it
    /// chooses: for a caller that asked [`Pools::peek`] before.
    #[inline]
    pub fn note(&mut self, number: u64, consumer: ConsumerId)
        ensures fits { (share : List ℕ → Distribution) (known : ℕ → Option Figure) (last : List ℕ → ℕ) (address : List ℕ) → PoolsFit self.old share known known last → NoneTouched self.old
            → address_in (known number) ≡ Some address → PoolsFit self.new share known known (chosen_at address (Some consumer.0) last) }
        ensures touched { (n : ℕ) → is_touched self.new n ≡ is_touched self.old n }
    {
        if let Some(seat) = self.seats.get(number) {
            let place = seat.address.as_slice();
            self.pools.note(seat.digest, place, consumer);
        }
    }

    /// The credit granted to the producers of the first address, in the order of bytes, that has grants, in order of
    /// attach; none if no address has any. The producers count as touched. If memory is refused, credit may be lent
    /// without any producer being told.
    pub fn grants(&mut self) -> Result<Option<Vec<(ProducerId, u32)>>, AllocError>
        ensures none { IfOk result (λ r. IfNone r ((share : List ℕ → Distribution) (known actual : ℕ → Option Figure) (last : List ℕ → ℕ) (count : ℕ) → PoolsFit self.old share known actual last → NoneTouched self.old → AreNumbered known count
            → (a : List ℕ) → grants_of (sharing (share a) known count (last a) a) ≡ [])) }
        ensures first { IfOk result (λ r. IfSome r (λ sums. AreFirst self.old (by_id sums.items))) }
        ensures some { IfOk result (λ r. IfSome r (λ sums. 0 < length sums.items)) }
        ensures fits { OnOk result ((share : List ℕ → Distribution) (known actual : ℕ → Option Figure) (last : List ℕ → ℕ) → PoolsFit self.old share known actual last → PoolsFit self.new share known actual last) }
        ensures touched { IfOk result (λ r. (n : ℕ) → is_touched self.new n ≡ (is_touched self.old n || is_granted (option_map (λ sums. by_id sums.items) r) n)) }
    {
        loop {
            match self.next_grants()? {
                None => return Ok(None),
                Some(sums) => {
                    if !sums.is_empty() {
                        return Ok(Some(sums));
                    }
                }
            }
        }
    }

    /// The grants of the first address that may have any; they may be empty.
    fn next_grants(&mut self) -> Result<Option<Vec<(ProducerId, u32)>>, AllocError>
        ensures none { IfOk result (λ r. IfNone r ((share : List ℕ → Distribution) (known actual : ℕ → Option Figure) (last : List ℕ → ℕ) (count : ℕ) → PoolsFit self.old share known actual last → NoneTouched self.old → AreNumbered known count
            → (a : List ℕ) → grants_of (sharing (share a) known count (last a) a) ≡ [])) }
        ensures first { IfOk result (λ r. IfSome r (λ sums. AreFirst self.old (by_id sums.items))) }
        ensures fits { OnOk result ((share : List ℕ → Distribution) (known actual : ℕ → Option Figure) (last : List ℕ → ℕ) → PoolsFit self.old share known actual last → PoolsFit self.new share known actual last) }
        ensures touched { IfOk result (λ r. (n : ℕ) → is_touched self.new n ≡ (is_touched self.old n || is_granted (option_map (λ sums. by_id sums.items) r) n)) }
        ensures fewer { IfOk result (λ r. IfSome r (λ sums. count self.new.due < count self.old.due)) }
    {
        let Some(number) = self.due.single() else {
            return self.copied_grants();
        };
        let Some(seat) = self.seats.get(number) else {
            return Ok(None);
        };
        let place = seat.address.as_slice();
        let sums = self.pools.grants_there(seat.digest, place)?;
        self.due.forget();
        let granted = sums.as_slice();
        touch_all(&mut self.touched, granted)?;
        Ok(Some(sums))
    }

    /// The grants of the first address that may have any, after each that may have some was copied.
    fn copied_grants(&mut self) -> Result<Option<Vec<(ProducerId, u32)>>, AllocError>
        ensures none { IfOk result (λ r. IfNone r ((share : List ℕ → Distribution) (known actual : ℕ → Option Figure) (last : List ℕ → ℕ) (count : ℕ) → PoolsFit self.old share known actual last → NoneTouched self.old → AreNumbered known count
            → (a : List ℕ) → grants_of (sharing (share a) known count (last a) a) ≡ [])) }
        ensures first { IfOk result (λ r. IfSome r (λ sums. AreFirst self.old (by_id sums.items))) }
        ensures fits { OnOk result ((share : List ℕ → Distribution) (known actual : ℕ → Option Figure) (last : List ℕ → ℕ) → PoolsFit self.old share known actual last → PoolsFit self.new share known actual last) }
        ensures touched { IfOk result (λ r. (n : ℕ) → is_touched self.new n ≡ (is_touched self.old n || is_granted (option_map (λ sums. by_id sums.items) r) n)) }
        ensures fewer { IfOk result (λ r. IfSome r (λ sums. count self.new.due < count self.old.due)) }
    {
        copy_place(&mut self.due, &self.seats)?;
        let Some(address) = self.due.pop() else {
            return Ok(None);
        };
        let place = address.as_slice();
        let sums = self.pools.grants(place)?;
        let granted = sums.as_slice();
        touch_all(&mut self.touched, granted)?;
        Ok(Some(sums))
    }

    /// Removes a link from its pool, which may then have grants, or be removed.
    fn take_out(&mut self, number: u64) -> Result<(), AllocError>
        ensures fits { OnOk result ((share : List ℕ → Distribution) (known actual : ℕ → Option Figure) (last : List ℕ → ℕ) → PoolsFitBut number self.old share known actual last
            → ((a : List ℕ) → is_place (place_of self.old number) a ≡ true → offers (actual number) a ≡ false) → PoolsFitBut number self.new share known actual last) }
        ensures nowhere { OnOk result (place_of self.new number ≡ None) }
        ensures due { OnOk result ((a : List ℕ) → is_due self.new a ≡ false → is_due self.old a ≡ false) }
        ensures touched { OnOk result (self.new.touched ≡ self.old.touched) }
    {
        match self.seats.remove(number) {
            None => Ok(()),
            Some(seat) => {
                let address = seat.address.as_slice();
                self.due.add_left(number, address)?;
                self.pools.leave(seat.digest, address, number);
                self.pools.forget(seat.digest, address);
                Ok(())
            }
        }
    }

    /// Places a link at an address where it isn't yet, and returns the address's digest.
    fn move_to(&mut self, number: u64, address: &[u8]) -> Result<u64, AllocError>
        ensures digest { IfOk result (λ digest. digest ≡ digest_of address.now) }
        ensures fits { OnOk result ((share : List ℕ → Distribution) (known actual : ℕ → Option Figure) (last : List ℕ → ℕ) → PoolsFitBut number self.old share known actual last
            → is_place (place_of self.old number) address.now ≡ false → ((a : List ℕ) → bytes_eq address.now a ≡ false → offers (actual number) a ≡ false)
            → PoolsFitWithout number self.new share known actual last) }
        ensures there { OnOk result (place_of self.new number ≡ Some address.now) }
        ensures due { OnOk result ((a : List ℕ) → is_due self.new a ≡ false → is_due self.old a ≡ false) }
        ensures touched { OnOk result (self.new.touched ≡ self.old.touched) }
    {
        self.take_out(number)?;
        let seat = Seat::new(self.alloc, address)?;
        let digest = seat.digest;
        let _ = self.seats.insert(number, seat)?;
        Ok(digest)
    }

    /// The digest of an address, if a link is there.
    #[inline]
    fn digest_at(&self, number: u64, address: &[u8]) -> Option<u64>
        ensures digest { IfSome result (λ digest. digest ≡ digest_of address.now) }
        ensures there { IfSome result (λ digest. place_of self.now number ≡ Some address.now) }
        ensures elsewhere { IfNone result (is_place (place_of self.now number) address.now ≡ false) }
    {
        match self.seats.get(number) {
            None => None,
            Some(seat) => seat.digest_at(address),
        }
    }
}

/// Notes that the address that a link is at may have grants, if this is so.
#[inline]
fn note(
    due: &mut Due,
    seats: &NumberMap<Seat>,
    number: u64,
    address: &[u8],
    may: bool,
) -> Result<(), AllocError>
    ensures without { OnOk result (places_of seats.now number ≡ Some address.now → is_in due.new (places_of seats.now) address.now ≡ false → may ≡ false) }
    ensures others { OnOk result ((a : List ℕ) → is_in due.new (places_of seats.now) a ≡ false → is_in due.old (places_of seats.now) a ≡ false) }
{
    if !may {
        return Ok(());
    }
    let Some(link) = due.link() else {
        due.set(number);
        return Ok(());
    };
    if link == number || is_at(seats, link, address) {
        return Ok(());
    }
    due.add(address)
}

/// Whether a link is at an address.
#[inline]
fn is_at(seats: &NumberMap<Seat>, number: u64, address: &[u8]) -> bool
    ensures { result ≡ is_place (places_of seats.now number) address.now }
{
    match seats.get(number) {
        None => false,
        Some(seat) => same(seat.address.as_slice(), address),
    }
}

/// Copies the address that a link is at, if the link stands for it.
fn copy_place(due: &mut Due, seats: &NumberMap<Seat>) -> Result<(), AllocError>
    ensures kept { OnOk result ((a : List ℕ) → is_in due.new (places_of seats.now) a ≡ false → is_in due.old (places_of seats.now) a ≡ false) }
    ensures copied { OnOk result (due.new.link ≡ None) }
    ensures fewer { OnOk result (count due.new ≤ count due.old) }
{
    let Some(number) = due.link() else {
        return Ok(());
    };
    if let Some(seat) = seats.get(number) {
        due.add(seat.address.as_slice())?;
    }
    due.forget();
    Ok(())
}

/// Touches each link that was granted credit.
fn touch_all(touched: &mut NumberSet, sums: &[(ProducerId, u32)]) -> Result<(), AllocError>
    ensures { OnOk result ((n : ℕ) → has touched.new n ≡ (has touched.old n || is_some (link_at (by_id sums.now) n))) }
{
    for sum in sums {
        touched.insert(sum.0.0)?;
    }
    Ok(())
}
