//! Delivery numbers by place on a session.
ghost use Rattle.std.specs.Prelude.{◌≡◌, ◌==◌, ◌≤◌, ◌++◌, ℕ, Option, None, Some, true, false, if◌then◌else◌, OnOk};
ghost use Rattle.std.specs.BTreeMap.{is_at};
ghost use Rattle.std.specs.BTreeSet.{contains};
ghost use Rattle.amqp_session.specs.Ranges.{has};
ghost use Rattle.state_deliveries.specs.declared.spots.Spot.{Spot as TheSpot};
ghost use Rattle.state_deliveries.specs.Placing.{Key as TheKey, key_cmp, numbers_of, stands, is_spot, IsSmall, IsSmallKey, SpotsFit, IsWithin, is_id_there};

use amqp_session::Serial;
use std::alloc::{AllocError, Global};
use std::collections::BTreeSet;
use std::collections::btree_set::Range;

/// A place on a session: a handle, or a delivery-id.
#[derive(Clone, Copy, PartialEq, Eq)]
pub(crate) struct Spot {
    /// The connection.
    pub(crate) conn: u64,
    /// The router's channel of the session.
    pub(crate) own: u16,
    /// The handle, or the id.
    pub(crate) at: u32,
}

/// A place, and the number of a delivery there.
type Key = (u64, u16, u32, u64);

/// Delivery numbers by place, each number at one place at most. The numbers of a range of handles or ids of a session are adjacent, and are
/// found without a look at anything else.
#[derive(Drop)]
pub(crate) struct Spots {
    keys: BTreeSet<Key>,
}

impl Spots {
    /// An empty table.
    pub(crate) fn new(alloc: Global) -> Spots
        ensures { SpotsFit result (λ n. None) }
    {
        Spots {
            keys: BTreeSet::new(alloc),
        }
    }

    /// Whether no number is at any place.
    pub(crate) fn is_empty(&self) -> bool
        ensures { result ≡ true → (known : ℕ → Option TheSpot) → SpotsFit self.now known → (n : ℕ) → known n ≡ None }
    {
        self.keys.is_empty()
    }

    /// Moves a number from one place to another.
    pub(crate) fn shift(
        &mut self,
        number: u64,
        before: Option<Spot>,
        after: Option<Spot>,
    ) -> Result<(), AllocError>
        ensures { OnOk result ((known : ℕ → Option TheSpot) → known number ≡ before → SpotsFit self.old known
            → SpotsFit self.new (λ n. if number == n then after else known n)) }
    {
        if before == after {
            return Ok(());
        }
        self.drop_from(number, before);
        self.add_to(number, after)?;
        Ok(())
    }

    /// Removes a number from a place, if there is one.
    pub(crate) fn drop_from(&mut self, number: u64, spot: Option<Spot>)
        ensures { (p : TheSpot) (n : ℕ) → stands self.new p n ≡ (if is_spot spot p then (if number == n then false else stands self.old p n) else stands self.old p n) }
    {
        if let Some(spot) = spot {
            take_out(&mut self.keys, (spot.conn, spot.own, spot.at, number));
        }
    }

    /// Adds a number to a place, if there is one.
    pub(crate) fn add_to(&mut self, number: u64, spot: Option<Spot>) -> Result<(), AllocError>
        ensures stands { OnOk result ((p : TheSpot) (n : ℕ) → stands self.new p n ≡ (if is_spot spot p then (if number == n then true else stands self.old p n) else stands self.old p n)) }
        ensures small { OnOk result ((p : TheSpot) (n : ℕ) → (stands self.old p n ≡ true → IsSmall p n) → stands self.new p n ≡ true → IsSmall p n) }
    {
        if let Some(spot) = spot {
            put_in(&mut self.keys, (spot.conn, spot.own, spot.at, number))?;
        }
        Ok(())
    }

    /// Appends the numbers at the ids of a range, on a session (AMQP 1.0 part 2, section 2.7.6).
    pub(crate) fn append_ids(
        &self,
        conn: u64,
        own: u16,
        first: u32,
        last: u32,
        numbers: &mut Vec<u64>,
    ) -> Result<(), AllocError>
        ensures more { OnOk result ((n : ℕ) → has n numbers.old.items ≡ true → has n numbers.new.items ≡ true) }
        ensures found { OnOk result ((known : ℕ → Option TheSpot) → SpotsFit self.now known → (n : ℕ) → is_id_there conn own first last (known n) ≡ true → has n numbers.new.items ≡ true) }
    {
        if self.keys.is_empty() {
            return Ok(());
        }
        if Serial::new(first).distance_to(Serial::new(last)) >= 0x8000_0000 {
            return Ok(());
        }
        if first <= last {
            self.append_between(conn, own, first, last, numbers)?;
            return Ok(());
        }
        self.append_between(conn, own, first, u32::MAX, numbers)?;
        self.append_between(conn, own, 0, last, numbers)?;
        Ok(())
    }

    /// Appends the numbers at the handles or ids from one to another, on a session.
    fn append_between(
        &self,
        conn: u64,
        own: u16,
        first: u32,
        last: u32,
        numbers: &mut Vec<u64>,
    ) -> Result<(), AllocError>
        requires { first ≤ last }
        ensures more { OnOk result ((n : ℕ) → has n numbers.old.items ≡ true → has n numbers.new.items ≡ true) }
        ensures found { OnOk result ((known : ℕ → Option TheSpot) → SpotsFit self.now known → (p : TheSpot) (n : ℕ) → known n ≡ Some p
            → p.conn ≡ conn → p.own ≡ own → first ≤ p.at → p.at ≤ last → has n numbers.new.items ≡ true) }
    {
        let low = Spot {
            conn,
            own,
            at: first,
        };
        let high = Spot {
            conn,
            own,
            at: last,
        };
        self.append(low, high, numbers)?;
        Ok(())
    }

    /// Appends the numbers at the places from one to another.
    fn append(&self, low: Spot, high: Spot, numbers: &mut Vec<u64>) -> Result<(), AllocError>
        requires conn { low.conn ≤ high.conn }
        requires own { low.own ≤ high.own }
        requires at { low.at ≤ high.at }
        ensures more { OnOk result ((n : ℕ) → has n numbers.old.items ≡ true → has n numbers.new.items ≡ true) }
        ensures found { OnOk result ((known : ℕ → Option TheSpot) → SpotsFit self.now known → (p : TheSpot) (n : ℕ) → known n ≡ Some p
            → IsWithin low high p → has n numbers.new.items ≡ true) }
    {
        let from = (low.conn, low.own, low.at, 0);
        let to = (high.conn, high.own, high.at, u64::MAX);
        append(numbers, self.keys.range(from..=to))?;
        Ok(())
    }
}

/// Puts a number at a place.
fn put_in(keys: &mut BTreeSet<Key>, key: Key) -> Result<(), AllocError>
    ensures put { OnOk result ((q : TheKey) → contains key_cmp keys.new q ≡ (if is_at (key_cmp key) q then true else contains key_cmp keys.old q)) }
    ensures small { IsSmallKey key }
{
    match keys.insert(key) {
        Ok(_) => Ok(()),
        Err(_) => Err(AllocError),
    }
}

/// Removes a number from a place.
fn take_out(keys: &mut BTreeSet<Key>, key: Key)
    ensures { (q : TheKey) → contains key_cmp keys.new q ≡ (if is_at (key_cmp key) q then false else contains key_cmp keys.old q) }
{
    let _ = keys.remove(&key);
}

/// Appends the numbers of these keys.
fn append(numbers: &mut Vec<u64>, keys: Range<'_, Key>) -> Result<(), AllocError>
    ensures { OnOk result (numbers.new.items ≡ numbers.old.items ++ numbers_of keys.entry) }
{
    for key in keys {
        numbers.push(key.3)?;
    }
    Ok(())
}
