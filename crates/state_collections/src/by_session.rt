//! Values by connection, session and delivery-id.
ghost use Rattle.std.specs.Prelude.{◌≡◌, ◌==◌, ◌<◌, ◌+◌, ◌^◌, ◌&&◌, ◌||◌, ℕ, true, Some, None, if◌then◌else◌, OnOk, IfOk};
ghost use Rattle.std.specs.Borrow.{sem};
ghost use Rattle.std.specs.Option.{is_some, option_copied, option_copied_mut};
ghost use Rattle.std.specs.Ordering.{nat_cmp};
ghost use Rattle.std.specs.BTreeMap.{get};
ghost use Rattle.amqp_session.specs.Serials.{distance};
ghost use Rattle.amqp_session.specs.Ranges.{in_range, has, IsRising};
ghost use Rattle.state_collections.specs.NumberMap.{at_number};
ghost use Rattle.state_collections.specs.Ids.{in_ids, at_id, IsAsked, LendsId};

use crate::number_map::NumberMap;
use amqp_session::{DeliveryIds, Serial};
use std::alloc::{AllocError, Global};

/// So many neighbouring ids of a session have places of their own.
const PLACES: usize = 64;

/// A range of up to so many ids is asked id by id.
const FEW_IDS: u32 = 64;

/// So many connections with neighbouring numbers have places of their own, and so many sessions of each.
const CONNECTIONS: usize = 64;

const SESSIONS: usize = 16;

/// Values by the router's channel of a session, and the delivery-id on it.
type Sessions<V> = NumberMap<NumberMap<V>>;

/// Values by connection, the router's channel of a session, and the delivery-id on it.
#[derive(Drop)]
pub struct BySession<V> {
    alloc: Global,
    rows: NumberMap<Sessions<V>>,
}

impl<V: Drop> BySession<V> {
    /// An empty table.
    pub fn new(alloc: Global) -> BySession<V>
        ensures { (c o id : ℕ) → at_id result c o id ≡ None }
    {
        BySession {
            alloc,
            rows: NumberMap::new(alloc, CONNECTIONS),
        }
    }

    /// The values of a session.
    fn session(&self, conn: u64, own: u16) -> Option<&NumberMap<V>>
        ensures { option_copied result ≡ in_ids (at_number self.now.rows conn) own }
    {
        self.rows.get(conn)?.get(u64::from(own))
    }

    /// The value of an id.
    pub fn get(&self, conn: u64, own: u16, id: u32) -> Option<&V>
        ensures { option_copied result ≡ at_id self.now conn own id }
    {
        match self.session(conn, own) {
            None => None,
            Some(ids) => ids.get(u64::from(id)),
        }
    }

    /// The value of an id, to change it.
    pub fn get_mut(&mut self, conn: u64, own: u16, id: u32) -> Option<&mut V>
        ensures* lends { sem 𝓛 (LendsId V.row self.entry conn own id result) }
        ensures value { option_copied_mut result ≡ at_id self.old conn own id }
    {
        let sessions = self.rows.get_mut(conn)?;
        let ids = sessions.get_mut(u64::from(own))?;
        ids.get_mut(u64::from(id))
    }

    /// The ids in a disposition's range that have a value, in the range's order (AMQP 1.0 part 2, section 2.7.6). A range of up
    /// to 64 ids is asked id by id; for a longer one those that are there are put in order, so that it costs what it finds, the count of places and a logarithm. Fails if memory is refused.
    pub fn in_range(
        &self,
        conn: u64,
        own: u16,
        first: u32,
        last: u32,
    ) -> Result<Vec<Serial>, AllocError>
        ensures exact { IfOk result (λ ids. (id : ℕ) → id < 2 ^ 32 → has id ids.items ≡ (in_range first last id && is_some (at_id self.now conn own id))) }
        ensures rising { IfOk result (λ ids. IsRising first ids.items) }
    {
        if first == last {
            return self.one(conn, own, first);
        }
        match self.session(conn, own) {
            None => Ok(Vec::new(self.alloc)),
            Some(ids) => range_of(self.alloc, ids, Serial::new(first), Serial::new(last)),
        }
    }

    /// This id, if it has a value.
    fn one(&self, conn: u64, own: u16, id: u32) -> Result<Vec<Serial>, AllocError>
        ensures exact { IfOk result (λ ids. (q : ℕ) → q < 2 ^ 32 → has q ids.items ≡ (in_range id id q && is_some (at_id self.now conn own q))) }
        ensures rising { IfOk result (λ ids. IsRising id ids.items) }
    {
        let mut ids = Vec::new(self.alloc);
        if self.get(conn, own, id).is_none() {
            return Ok(ids);
        }
        ids.push(Serial::new(id))?;
        Ok(ids)
    }

    /// Gives an id this value and replaces the one that it had.
    pub fn insert(&mut self, conn: u64, own: u16, id: u32, value: V) -> Result<(), AllocError>
        ensures { OnOk result ((c o q : ℕ) → at_id self.new c o q
            ≡ (if conn == c then (if own == o then (if id == q then Some value else at_id self.old c o q) else at_id self.old c o q) else at_id self.old c o q)) }
    {
        let alloc = self.alloc;
        if let Some(sessions) = self.rows.get_mut(conn) {
            return insert_in(alloc, sessions, own, id, value);
        }
        let mut sessions = NumberMap::new(alloc, SESSIONS);
        insert_in(alloc, &mut sessions, own, id, value)?;
        self.rows.insert(conn, sessions)?;
        Ok(())
    }

    /// Removes the value of an id.
    pub fn remove(&mut self, conn: u64, own: u16, id: u32)
        ensures { (c o q : ℕ) → at_id self.new c o q
            ≡ (if conn == c then (if own == o then (if id == q then None else at_id self.old c o q) else at_id self.old c o q) else at_id self.old c o q) }
    {
        if let Some(sessions) = self.rows.get_mut(conn) {
            remove_in(sessions, own, id);
        }
    }

    /// Removes all values of a session.
    pub fn end(&mut self, conn: u64, own: u16)
        ensures { (c o q : ℕ) → at_id self.new c o q ≡ (if conn == c then (if own == o then None else at_id self.old c o q) else at_id self.old c o q) }
    {
        if let Some(sessions) = self.rows.get_mut(conn) {
            let _ = sessions.remove(u64::from(own));
        }
    }

    /// Removes all values of a connection.
    pub fn forget(&mut self, conn: u64)
        ensures { (c o q : ℕ) → at_id self.new c o q ≡ (if conn == c then None else at_id self.old c o q) }
    {
        let _ = self.rows.remove(conn);
    }
}

/// Gives an id of a session this value, instead of any that it had.
fn insert_in<V: Drop>(
    alloc: Global,
    sessions: &mut Sessions<V>,
    own: u16,
    id: u32,
    value: V,
) -> Result<(), AllocError>
    ensures { OnOk result ((o q : ℕ) → in_ids (at_number sessions.new o) q
        ≡ (if own == o then (if id == q then Some value else in_ids (at_number sessions.old o) q) else in_ids (at_number sessions.old o) q)) }
{
    if let Some(ids) = sessions.get_mut(u64::from(own)) {
        return put(ids, id, value);
    }
    let mut ids = NumberMap::new(alloc, PLACES);
    put(&mut ids, id, value)?;
    sessions.insert(u64::from(own), ids)?;
    Ok(())
}

/// Gives an id this value, instead of any that it had.
fn put<V: Drop>(ids: &mut NumberMap<V>, id: u32, value: V) -> Result<(), AllocError>
    ensures { OnOk result ((q : ℕ) → at_number ids.new q ≡ (if id == q then Some value else at_number ids.old q)) }
{
    let _ = ids.insert(u64::from(id), value)?;
    Ok(())
}

/// Removes the value of an id of a session.
fn remove_in<V: Drop>(sessions: &mut Sessions<V>, own: u16, id: u32)
    ensures { (o q : ℕ) → in_ids (at_number sessions.new o) q
        ≡ (if own == o then (if id == q then None else in_ids (at_number sessions.old o) q) else in_ids (at_number sessions.old o) q) }
{
    if let Some(ids) = sessions.get_mut(u64::from(own)) {
        let _ = ids.remove(u64::from(id));
    }
}

/// The ids in a range that have a value, in the range's order. Fails if memory is refused.
fn range_of<V: Drop>(
    alloc: Global,
    ids: &NumberMap<V>,
    first: Serial,
    last: Serial,
) -> Result<Vec<Serial>, AllocError>
    ensures exact { IfOk result (λ found. (q : ℕ) → q < 2 ^ 32 → has q found.items ≡ (in_range first last q && is_some (at_number ids.now q))) }
    ensures rising { IfOk result (λ found. IsRising first found.items) }
{
    if first.distance_to(last) < FEW_IDS {
        return short_range(alloc, ids, first, last);
    }
    let there = ordered(alloc, ids, first, last)?;
    let found = there.in_range(alloc, first, last)?;
    Ok(found)
}

/// The ids in a range of few that have a value, in the range's order: each is asked. Fails if memory is refused.
fn short_range<V: Drop>(
    alloc: Global,
    ids: &NumberMap<V>,
    first: Serial,
    last: Serial,
) -> Result<Vec<Serial>, AllocError>
    requires { distance first last < 64 }
    ensures exact { IfOk result (λ found. (q : ℕ) → q < 2 ^ 32 → has q found.items ≡ (in_range first last q && is_some (at_number ids.now q))) }
    ensures rising { IfOk result (λ found. IsRising first found.items) }
{
    let count = first.distance_to(last) + 1;
    let mut found = Vec::new(alloc);
    for step in 0..count {
        ask(ids, &mut found, first, step)?;
    }
    Ok(found)
}

/// Appends the id that is so many steps after the first, if it has a value. Fails if memory is refused.
fn ask<V: Drop>(
    ids: &NumberMap<V>,
    found: &mut Vec<Serial>,
    first: Serial,
    step: u32,
) -> Result<(), AllocError>
    ensures { OnOk result (IsAsked first (λ q. is_some (at_number ids.now q)) step found.old.items → IsAsked first (λ q. is_some (at_number ids.now q)) (step + 1) found.new.items) }
{
    let id = first.plus(step);
    if ids.get(u64::from(id.number())).is_none() {
        return Ok(());
    }
    found.push(id)?;
    Ok(())
}

/// The ids that have a value, in order: those of a range, and maybe others. Fails if memory is refused.
fn ordered<V: Drop>(
    alloc: Global,
    ids: &NumberMap<V>,
    first: Serial,
    last: Serial,
) -> Result<DeliveryIds<()>, AllocError>
    ensures { IfOk result (λ there. (q : ℕ) → q < 2 ^ 32 → in_range first last q ≡ true → is_some (get nat_cmp there.deliveries q) ≡ is_some (at_number ids.now q)) }
{
    let numbers = numbers_in(alloc, ids, first, last)?;
    let mut there = DeliveryIds::new(alloc);
    for number in &numbers {
        add_id(&mut there, *number)?;
    }
    Ok(there)
}

/// The numbers that have a value, in no order: those of a disposition's range (AMQP 1.0 part 2, section 2.7.6), and maybe others. It looks at each place, and in the
/// ordered map only between the range's ends. Fails if memory is refused.
pub fn numbers_in<V: Drop>(
    alloc: Global,
    ids: &NumberMap<V>,
    first: Serial,
    last: Serial,
) -> Result<Vec<u64>, AllocError>
    ensures { IfOk result (λ numbers. (q : ℕ) → q < 2 ^ 32 → in_range first last q ≡ true → has q numbers.items ≡ is_some (at_number ids.now q)) }
{
    let mut numbers = Vec::new(alloc);
    let (low, high) = (u64::from(first.number()), u64::from(last.number()));
    if low <= high {
        ids.append_between(low, high, &mut numbers)?;
        return Ok(numbers);
    }
    ids.append_between(low, u64::from(u32::MAX), &mut numbers)?;
    ids.append_between(0, high, &mut numbers)?;
    Ok(numbers)
}

/// Adds an id, if the number is one. Fails if memory is refused.
fn add_id(there: &mut DeliveryIds<()>, number: u64) -> Result<(), AllocError>
    ensures { OnOk result ((q : ℕ) → q < 2 ^ 32 → is_some (get nat_cmp there.new.deliveries q) ≡ (is_some (get nat_cmp there.old.deliveries q) || q == number)) }
{
    let Ok(id) = u32::try_from(number) else {
        return Ok(());
    };
    let _ = there.insert(Serial::new(id), ())?;
    Ok(())
}
