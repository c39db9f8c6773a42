//! Values by connection, session and handle.
ghost use Rattle.std.specs.Prelude.{◌≡◌, ◌==◌, ℕ, Some, None, if◌then◌else◌, OnOk};
ghost use Rattle.std.specs.Option.{option_map, option_copied_mut};
ghost use Rattle.std.specs.Ordering.{nat_cmp};
ghost use Rattle.std.specs.BTreeMap.{get};
ghost use Rattle.std.specs.Borrow.{sem};
ghost use Rattle.state_collections.specs.Places.{in_map, at, LendsPlace};
ghost use Rattle.state_collections.specs.NumberMap.{at_number};

use crate::number_map::NumberMap;
use std::alloc::{AllocError, Global};
use std::collections::BTreeMap;

/// So many connections with neighbouring numbers have places of their own.
const PLACES: usize = 64;

/// Values by handle.
pub type InSession<V> = BTreeMap<u32, V>;

/// Values by session and handle.
pub type InConnection<V> = BTreeMap<u16, InSession<V>>;

/// Values by connection, the router's channel of a session, and a handle.
#[derive(Drop)]
pub struct ByHandle<V> {
    alloc: Global,
    rows: NumberMap<InConnection<V>>,
}

impl<V: Drop> ByHandle<V> {
    /// An empty table.
    pub fn new(alloc: Global) -> ByHandle<V>
        ensures { (c o h : ℕ) → at result c o h ≡ None }
    {
        ByHandle {
            alloc,
            rows: NumberMap::new(alloc, PLACES),
        }
    }

    /// The value at a place.
    pub fn get(&self, conn: u64, own: u16, handle: u32) -> Option<&V>
        ensures { option_map (λ v. v.now) result ≡ at self.now conn own handle }
    {
        match self.rows.get(conn) {
            None => None,
            Some(sessions) => match sessions.get(&own) {
                None => None,
                Some(handles) => handles.get(&handle),
            },
        }
    }

    /// The value at a place, to change it.
    pub fn get_mut(&mut self, conn: u64, own: u16, handle: u32) -> Option<&mut V>
        ensures* lends { sem 𝓛 (LendsPlace V.row self.entry conn own handle result) }
        ensures value { option_copied_mut result ≡ at self.old conn own handle }
    {
        let sessions = self.rows.get_mut(conn)?;
        let handles = sessions.get_mut(&own)?;
        handles.get_mut(&handle)
    }

    /// The values of a session.
    pub fn session(&self, conn: u64, own: u16) -> Option<&InSession<V>>
        ensures { option_map (λ m. m.now) result ≡ in_map (at_number self.now.rows conn) own }
    {
        match self.rows.get(conn) {
            None => None,
            Some(sessions) => sessions.get(&own),
        }
    }

    /// The values of a connection.
    pub fn connection(&self, conn: u64) -> Option<&InConnection<V>>
        ensures { option_map (λ m. m.now) result ≡ at_number self.now.rows conn }
    {
        self.rows.get(conn)
    }

    /// Puts a value at a place and replaces the one there.
    pub fn insert(&mut self, conn: u64, own: u16, handle: u32, value: V) -> Result<(), AllocError>
        ensures { OnOk result ((c o h : ℕ) → at self.new c o h
            ≡ (if conn == c then (if own == o then (if handle == h then Some value else at self.old c o h) else at self.old c o h) else at self.old c o h)) }
    {
        let alloc = self.alloc;
        if let Some(sessions) = self.rows.get_mut(conn) {
            return insert_in(alloc, sessions, own, handle, value);
        }
        let mut sessions = BTreeMap::new(alloc);
        insert_in(alloc, &mut sessions, own, handle, value)?;
        self.rows.insert(conn, sessions)?;
        Ok(())
    }

    /// Removes the value at a place.
    pub fn remove(&mut self, conn: u64, own: u16, handle: u32) -> Option<V>
        ensures gives { result ≡ at self.old conn own handle }
        ensures gone { (c o h : ℕ) → at self.new c o h
            ≡ (if conn == c then (if own == o then (if handle == h then None else at self.old c o h) else at self.old c o h) else at self.old c o h) }
    {
        match self.rows.get_mut(conn) {
            None => None,
            Some(sessions) => remove_in(sessions, own, handle),
        }
    }

    /// Removes all values of a session.
    pub fn end(&mut self, conn: u64, own: u16) -> Option<InSession<V>>
        ensures gives { result ≡ in_map (at_number self.old.rows conn) own }
        ensures gone { (c o h : ℕ) → at self.new c o h ≡ (if conn == c then (if own == o then None else at self.old c o h) else at self.old c o h) }
    {
        match self.rows.get_mut(conn) {
            None => None,
            Some(sessions) => sessions.remove(&own),
        }
    }

    /// Removes all values of a connection.
    pub fn forget(&mut self, conn: u64) -> Option<InConnection<V>>
        ensures gives { result ≡ at_number self.old.rows conn }
        ensures gone { (c o h : ℕ) → at self.new c o h ≡ (if conn == c then None else at self.old c o h) }
    {
        self.rows.remove(conn)
    }
}

/// Puts a value at a handle of a session.
fn insert_in<V: Drop>(
    alloc: Global,
    sessions: &mut InConnection<V>,
    own: u16,
    handle: u32,
    value: V,
) -> Result<(), AllocError>
    ensures { OnOk result ((o h : ℕ) → in_map (get nat_cmp sessions.new o) h
        ≡ (if own == o then (if handle == h then Some value else in_map (get nat_cmp sessions.old o) h) else in_map (get nat_cmp sessions.old o) h)) }
{
    if let Some(handles) = sessions.get_mut(&own) {
        return put(handles, handle, value);
    }
    let mut handles = BTreeMap::new(alloc);
    put(&mut handles, handle, value)?;
    match sessions.insert(own, handles) {
        Ok(_) => Ok(()),
        Err(_) => Err(AllocError),
    }
}

/// Puts a value at a handle.
fn put<V: Drop>(handles: &mut InSession<V>, handle: u32, value: V) -> Result<(), AllocError>
    ensures { OnOk result ((h : ℕ) → get nat_cmp handles.new h ≡ (if handle == h then Some value else get nat_cmp handles.old h)) }
{
    match handles.insert(handle, value) {
        Ok(_) => Ok(()),
        Err(_) => Err(AllocError),
    }
}

/// Removes the value at a handle of a session.
fn remove_in<V: Drop>(sessions: &mut InConnection<V>, own: u16, handle: u32) -> Option<V>
    ensures gives { result ≡ in_map (get nat_cmp sessions.old own) handle }
    ensures gone { (o h : ℕ) → in_map (get nat_cmp sessions.new o) h
        ≡ (if own == o then (if handle == h then None else in_map (get nat_cmp sessions.old o) h) else in_map (get nat_cmp sessions.old o) h) }
{
    match sessions.get_mut(&own) {
        None => None,
        Some(handles) => handles.remove(&handle),
    }
}
