//! Values by session, and by a number on it.
ghost use Rattle.std.specs.Prelude.{◌≡◌, ◌==◌, ◌||◌, ℕ, true, Some, None, if◌then◌else◌, OnOk};
ghost use Rattle.std.specs.Option.{is_some, option_copied};
ghost use Rattle.std.specs.Ordering.{nat_cmp};
ghost use Rattle.std.specs.BTreeMap.{get};
ghost use Rattle.amqp_session.specs.Ranges.{has};
ghost use Rattle.state_collections.specs.Places.{in_map};
ghost use Rattle.state_collections.specs.NumberMap.{at_number};
ghost use Rattle.state_deliveries.specs.Rowing.{in_row, in_rows, is_in_any};

use crate::change::Gone;
use state_collections::NumberMap;
use std::alloc::{AllocError, Global};
use std::collections::BTreeMap;

/// So many connections with neighbouring numbers are found without an ordered map, and so many neighbouring numbers of a session.
const CONNECTIONS: usize = 64;

const PLACES: usize = 64;

/// The values of a connection, by the router's channel of a session.
type InConnection<V> = BTreeMap<u16, NumberMap<V>>;

/// Values by connection, the router's channel of a session, and a number of 64 bits. If an operation fails to allocate, the contents are
/// unspecified.
///
/// A session's row, once made, stays until `end` is told that the session is over: it holds the places of its numbers, so a session whose
/// numbers come and go takes memory once.
#[derive(Drop)]
pub(crate) struct Rows<V> {
    alloc: Global,
    rows: NumberMap<InConnection<V>>,
}

impl<V: Drop> Rows<V> {
    /// An empty table.
    pub(crate) fn new(alloc: Global) -> Rows<V>
        ensures { (c o n : ℕ) → in_rows result c o n ≡ None }
    {
        Rows {
            alloc,
            rows: NumberMap::new(alloc, CONNECTIONS),
        }
    }

    /// What it takes its memory from.
    pub(crate) fn alloc(&self) -> Global {
        self.alloc
    }

    /// The values of a session.
    pub(crate) fn session(&self, conn: u64, own: u16) -> Option<&NumberMap<V>>
        ensures { option_copied result ≡ in_map (at_number self.now.rows conn) own }
    {
        self.rows.get(conn)?.get(&own)
    }

    /// The value of a number.
    pub(crate) fn get(&self, conn: u64, own: u16, number: u64) -> Option<&V>
        ensures { option_copied result ≡ in_rows self.now conn own number }
    {
        match self.session(conn, own) {
            None => None,
            Some(row) => row.get(number),
        }
    }

    /// Gives a number this value, instead of any that it had.
    pub(crate) fn insert(
        &mut self,
        conn: u64,
        own: u16,
        number: u64,
        value: V,
    ) -> Result<(), AllocError>
        ensures { OnOk result ((c o n : ℕ) → in_rows self.new c o n
            ≡ (if conn == c then (if own == o then (if number == n then Some value else in_rows self.old c o n) else in_rows self.old c o n) else in_rows self.old c o n)) }
    {
        let alloc = self.alloc;
        if let Some(sessions) = self.rows.get_mut(conn) {
            return insert_in(alloc, sessions, own, number, value);
        }
        let mut sessions = BTreeMap::new(alloc);
        insert_in(alloc, &mut sessions, own, number, value)?;
        self.rows.insert(conn, sessions)?;
        Ok(())
    }

    /// Removes the value of a number.
    pub(crate) fn remove(&mut self, conn: u64, own: u16, number: u64)
        ensures { (c o n : ℕ) → in_rows self.new c o n
            ≡ (if conn == c then (if own == o then (if number == n then None else in_rows self.old c o n) else in_rows self.old c o n) else in_rows self.old c o n) }
    {
        if let Some(sessions) = self.rows.get_mut(conn) {
            remove_in(sessions, own, number);
        }
    }

    /// Appends the numbers of a session.
    pub(crate) fn append_session(
        &self,
        conn: u64,
        own: u16,
        numbers: &mut Vec<u64>,
    ) -> Result<(), AllocError>
        ensures { OnOk result ((n : ℕ) → has n numbers.new.items ≡ (has n numbers.old.items || is_some (in_rows self.now conn own n))) }
    {
        match self.session(conn, own) {
            None => Ok(()),
            Some(row) => row.append_numbers(numbers),
        }
    }

    /// Appends the numbers of a connection.
    pub(crate) fn append_connection(
        &self,
        conn: u64,
        numbers: &mut Vec<u64>,
    ) -> Result<(), AllocError>
        ensures more { OnOk result ((n : ℕ) → has n numbers.old.items ≡ true → has n numbers.new.items ≡ true) }
        ensures found { OnOk result ((o n : ℕ) → is_some (in_rows self.now conn o n) ≡ true → has n numbers.new.items ≡ true) }
    {
        let Some(sessions) = self.rows.get(conn) else {
            return Ok(());
        };
        append_all(sessions, numbers)?;
        Ok(())
    }

    /// Lets go of the rows of sessions that end, where they have no value.
    pub(crate) fn end(&mut self, gone: Gone) -> Result<(), AllocError>
        ensures { OnOk result ((c o n : ℕ) → in_rows self.new c o n ≡ in_rows self.old c o n) }
    {
        match gone {
            Gone::Link { .. } => {}
            Gone::Session { conn, own } => self.end_session(conn, own),
            Gone::Connection(conn) => self.end_connection(conn)?,
        }
        Ok(())
    }

    /// Lets go of a session's row, if it has no value.
    fn end_session(&mut self, conn: u64, own: u16)
        ensures { (c o n : ℕ) → in_rows self.new c o n ≡ in_rows self.old c o n }
    {
        if let Some(sessions) = self.rows.get_mut(conn) {
            end_in(sessions, own);
        }
    }

    /// Lets go of a connection's rows, if none has a value.
    fn end_connection(&mut self, conn: u64) -> Result<(), AllocError>
        ensures { OnOk result ((c o n : ℕ) → in_rows self.new c o n ≡ in_rows self.old c o n) }
    {
        let mut left = Vec::new(self.alloc);
        self.append_connection(conn, &mut left)?;
        if left.is_empty() {
            let _ = self.rows.remove(conn);
        }
        Ok(())
    }
}

/// Gives a number of a session this value, instead of any that it had.
fn insert_in<V: Drop>(
    alloc: Global,
    sessions: &mut InConnection<V>,
    own: u16,
    number: u64,
    value: V,
) -> Result<(), AllocError>
    ensures { OnOk result ((o n : ℕ) → in_row (get nat_cmp sessions.new o) n
        ≡ (if own == o then (if number == n then Some value else in_row (get nat_cmp sessions.old o) n) else in_row (get nat_cmp sessions.old o) n)) }
{
    if let Some(row) = sessions.get_mut(&own) {
        return put(row, number, value);
    }
    let mut row = NumberMap::new(alloc, PLACES);
    put(&mut row, number, value)?;
    match sessions.insert(own, row) {
        Ok(_) => Ok(()),
        Err(_) => Err(AllocError),
    }
}

/// Gives a number this value, instead of any that it had.
fn put<V: Drop>(row: &mut NumberMap<V>, number: u64, value: V) -> Result<(), AllocError>
    ensures { OnOk result ((n : ℕ) → at_number row.new n ≡ (if number == n then Some value else at_number row.old n)) }
{
    let _ = row.insert(number, value)?;
    Ok(())
}

/// Removes the value of a number of a session.
fn remove_in<V: Drop>(sessions: &mut InConnection<V>, own: u16, number: u64)
    ensures { (o n : ℕ) → in_row (get nat_cmp sessions.new o) n
        ≡ (if own == o then (if number == n then None else in_row (get nat_cmp sessions.old o) n) else in_row (get nat_cmp sessions.old o) n) }
{
    if let Some(row) = sessions.get_mut(&own) {
        let _ = row.remove(number);
    }
}

/// Lets go of a session's row, if it has no value.
fn end_in<V: Drop>(sessions: &mut InConnection<V>, own: u16)
    ensures { (o n : ℕ) → in_row (get nat_cmp sessions.new o) n ≡ in_row (get nat_cmp sessions.old o) n }
{
    if is_over(sessions, own) {
        let _ = sessions.remove(&own);
    }
}

/// Whether a session has no value.
fn is_over<V: Drop>(sessions: &InConnection<V>, own: u16) -> bool
    ensures { result ≡ true → (n : ℕ) → in_row (get nat_cmp sessions.now own) n ≡ None }
{
    match sessions.get(&own) {
        None => true,
        Some(row) => row.is_empty(),
    }
}

/// Appends the numbers of these sessions.
fn append_all<V: Drop>(sessions: &InConnection<V>, numbers: &mut Vec<u64>) -> Result<(), AllocError>
    ensures { OnOk result ((n : ℕ) → has n numbers.new.items ≡ (is_in_any n sessions.now || has n numbers.old.items)) }
{
    for (_own, row) in sessions {
        append_row(row, numbers)?;
    }
    Ok(())
}

/// Appends the numbers of a session.
fn append_row<V: Drop>(row: &NumberMap<V>, numbers: &mut Vec<u64>) -> Result<(), AllocError>
    ensures { OnOk result ((n : ℕ) → has n numbers.new.items ≡ (is_some (at_number row.now n) || has n numbers.old.items)) }
{
    row.append_numbers(numbers)?;
    Ok(())
}
