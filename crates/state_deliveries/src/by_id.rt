//! Delivery numbers by delivery-id.
ghost use Rattle.std.specs.Prelude.{◌≡◌, ◌==◌, ◌<◌, ◌^◌, ◌||◌, [], ◌∷◌, ℕ, Option, None, Some, true, false, if◌then◌else◌, IfSome, OnOk};
ghost use Rattle.amqp_session.specs.Ranges.{has, in_range};
ghost use Rattle.amqp_session.specs.Serials.{distance};
ghost use Rattle.state_collections.specs.NumberMap.{at_number};
ghost use Rattle.router_trace.specs.Deliveries.{is_number};
ghost use Rattle.state_deliveries.specs.declared.spots.Spot.{Spot as TheSpot};
ghost use Rattle.state_deliveries.specs.Rowing.{in_rows};
ghost use Rattle.state_deliveries.specs.Placing.{IdsFit, is_first, is_at_id, stands, is_spot, same_spot, IsSmall, is_id_there};

use crate::change::Gone;
use crate::rows::Rows;
use crate::spots::{Spot, Spots};
use amqp_session::Serial;
use state_collections::{NumberMap, numbers_in};
use std::alloc::{AllocError, Global};

/// A range of up to so many ids is looked up id by id.
const FEW: u32 = 64;

/// Delivery numbers by the delivery-id on a session, each number at one id at most. The first number at an id stands in a table by session;
/// further ones at the same id, which a peer has no reason to give, stand in an ordered set.
#[derive(Drop)]
pub(crate) struct ById {
    first: Rows<u64>,
    further: Spots,
}

impl ById {
    /// An empty table.
    pub(crate) fn new(alloc: Global) -> ById
        ensures { IdsFit result (λ n. None) }
    {
        ById {
            first: Rows::new(alloc),
            further: Spots::new(alloc),
        }
    }

    /// Moves a number from one id to another.
    pub(crate) fn shift(
        &mut self,
        number: u64,
        before: Option<Spot>,
        after: Option<Spot>,
    ) -> Result<(), AllocError>
        ensures { OnOk result ((known : ℕ → Option TheSpot) → known number ≡ before → IdsFit self.old known
            → IdsFit self.new (λ n. if number == n then after else known n)) }
    {
        if before == after {
            return Ok(());
        }
        self.drop_from(number, before);
        self.add_to(number, after)?;
        Ok(())
    }

    /// Removes a number from an id, if there is one.
    fn drop_from(&mut self, number: u64, spot: Option<Spot>)
        ensures { (p : TheSpot) (n : ℕ) → is_at_id self.new p n ≡ (if is_spot spot p then (if number == n then false else is_at_id self.old p n) else is_at_id self.old p n) }
    {
        if let Some(spot) = spot {
            self.drop_first(number, spot);
            self.further.drop_from(number, Some(spot));
        }
    }

    /// Removes a number from an id, if it is the first there.
    fn drop_first(&mut self, number: u64, spot: Spot)
        ensures first { (p : TheSpot) (n : ℕ) → is_first self.new p n ≡ (if same_spot spot p then (if number == n then false else is_first self.old p n) else is_first self.old p n) }
        ensures further { self.new.further ≡ self.old.further }
    {
        if self.is_first(number, spot) {
            self.first.remove(spot.conn, spot.own, spot.at as u64);
        }
    }

    /// Whether a number is the first at an id.
    fn is_first(&self, number: u64, spot: Spot) -> bool
        ensures { result ≡ is_first self.now spot number }
    {
        match self.first_at(spot) {
            None => false,
            Some(found) => found == number,
        }
    }

    /// The first number at an id.
    fn first_at(&self, spot: Spot) -> Option<u64>
        ensures { result ≡ in_rows self.now.first spot.conn spot.own spot.at }
    {
        self.first.get(spot.conn, spot.own, spot.at as u64).copied()
    }

    /// Adds a number to an id, if there is one.
    fn add_to(&mut self, number: u64, spot: Option<Spot>) -> Result<(), AllocError>
        ensures stands { OnOk result ((p : TheSpot) (n : ℕ) → is_at_id self.new p n ≡ (if is_spot spot p then (if number == n then true else is_at_id self.old p n) else is_at_id self.old p n)) }
        ensures small { OnOk result ((p : TheSpot) (n : ℕ) → (is_at_id self.old p n ≡ true → IsSmall p n) → is_at_id self.new p n ≡ true → IsSmall p n) }
    {
        if let Some(spot) = spot {
            self.put(number, spot)?;
        }
        Ok(())
    }

    /// Adds a number to an id.
    fn put(&mut self, number: u64, spot: Spot) -> Result<(), AllocError>
        ensures stands { OnOk result ((p : TheSpot) (n : ℕ) → is_at_id self.new p n ≡ (if same_spot spot p then (if number == n then true else is_at_id self.old p n) else is_at_id self.old p n)) }
        ensures small { IsSmall spot number }
    {
        if self.first_at(spot).is_some() {
            self.further.add_to(number, Some(spot))?;
            return Ok(());
        }
        self.first
            .insert(spot.conn, spot.own, spot.at as u64, number)?;
        Ok(())
    }

    /// The number at the one id of a range, if the range is one id and no id has two numbers.
    pub(crate) fn sole(&self, conn: u64, own: u16, first: u32, last: u32) -> Option<u64>
        ensures { IfSome result (λ k. (known : ℕ → Option TheSpot) → IdsFit self.now known → (n : ℕ)
            → is_id_there conn own first last (known n) ≡ true → has n (k ∷ []) ≡ true) }
    {
        if first != last || !self.further.is_empty() {
            return None;
        }
        self.first_at(Spot {
            conn,
            own,
            at: first,
        })
    }

    /// Appends the numbers at the ids of a range, on a session (AMQP 1.0 part 2, section 2.7.6). A range of up to 64 ids is
    /// looked up id by id; a longer one costs what it finds, 64 places and a logarithm.
    pub(crate) fn append_ids(
        &self,
        conn: u64,
        own: u16,
        first: u32,
        last: u32,
        numbers: &mut Vec<u64>,
    ) -> Result<(), AllocError>
        ensures more { OnOk result ((n : ℕ) → has n numbers.old.items ≡ true → has n numbers.new.items ≡ true) }
        ensures found { OnOk result ((known : ℕ → Option TheSpot) → IdsFit self.now known → (n : ℕ) → is_id_there conn own first last (known n) ≡ true → has n numbers.new.items ≡ true) }
    {
        self.append_first(conn, own, first, last, numbers)?;
        self.further.append_ids(conn, own, first, last, numbers)?;
        Ok(())
    }

    /// Appends the first numbers at these ids.
    fn append_first(
        &self,
        conn: u64,
        own: u16,
        first: u32,
        last: u32,
        numbers: &mut Vec<u64>,
    ) -> Result<(), AllocError>
        ensures more { OnOk result ((n : ℕ) → has n numbers.old.items ≡ true → has n numbers.new.items ≡ true) }
        ensures found { OnOk result ((id n : ℕ) → id < 2 ^ 32 → in_range first last id ≡ true → in_rows self.now.first conn own id ≡ Some n → has n numbers.new.items ≡ true) }
    {
        let Some(row) = self.first.session(conn, own) else {
            return Ok(());
        };
        let (start, end) = (Serial::new(first), Serial::new(last));
        let span = start.distance_to(end);
        if span < FEW {
            append_span(row, first, span + 1, numbers)?;
            return Ok(());
        }
        append_range(self.first.alloc(), row, start, end, numbers)?;
        Ok(())
    }

    /// Lets go of the rows of sessions that end, where they have no numbers.
    pub(crate) fn end(&mut self, gone: Gone) -> Result<(), AllocError>
        ensures { OnOk result ((known : ℕ → Option TheSpot) → IdsFit self.old known → IdsFit self.new known) }
    {
        self.first.end(gone)?;
        Ok(())
    }
}

/// Appends the numbers at `count` ids, from the first one on.
fn append_span(
    row: &NumberMap<u64>,
    first: u32,
    count: u32,
    numbers: &mut Vec<u64>,
) -> Result<(), AllocError>
    ensures more { OnOk result ((n : ℕ) → has n numbers.old.items ≡ true → has n numbers.new.items ≡ true) }
    ensures found { OnOk result ((id n : ℕ) → id < 2 ^ 32 → distance first id < count → at_number row.now id ≡ Some n → has n numbers.new.items ≡ true) }
{
    for step in 0..count {
        let id = Serial::new(first).plus(step);
        append_at(row, id.number() as u64, numbers)?;
    }
    Ok(())
}

/// Appends the number at an id, if there is one.
fn append_at(row: &NumberMap<u64>, id: u64, numbers: &mut Vec<u64>) -> Result<(), AllocError>
    ensures { OnOk result ((n : ℕ) → has n numbers.new.items ≡ (has n numbers.old.items || is_number (at_number row.now id) n)) }
{
    if let Some(number) = row.get(id) {
        numbers.push(*number)?;
    }
    Ok(())
}

/// Appends the numbers at the ids of a range, and maybe others of the session.
fn append_range(
    alloc: Global,
    row: &NumberMap<u64>,
    first: Serial,
    last: Serial,
    numbers: &mut Vec<u64>,
) -> Result<(), AllocError>
    ensures more { OnOk result ((n : ℕ) → has n numbers.old.items ≡ true → has n numbers.new.items ≡ true) }
    ensures found { OnOk result ((id n : ℕ) → id < 2 ^ 32 → in_range first last id ≡ true → at_number row.now id ≡ Some n → has n numbers.new.items ≡ true) }
{
    let ids = numbers_in(alloc, row, first, last)?;
    for id in &ids {
        append_at(row, *id, numbers)?;
    }
    Ok(())
}
