//! The claims of each link: their ids, and how many are unbound.
ghost use Rattle.std.specs.Prelude.{◌≡◌, ◌==◌, ◌+◌, ◌-◌, ℕ, Option, Some, true, false, if◌then◌else◌, OnOk};
ghost use Rattle.std.specs.Option.{option_map};
ghost use Rattle.router_trace.specs.Deliveries.{is_number};
ghost use Rattle.state_unsettled.specs.Standing.{count_at, is_marked, link_of, unbound_of, IsCounted};
ghost use Rattle.state_collections.specs.NumberSet.{has};
ghost use Rattle.state_collections.specs.Places.{at};

use state_collections::{ByHandle, NumberSet};
use std::alloc::{AllocError, Global};

/// Where a claim stands.
#[derive(Clone, Copy)]
pub(crate) struct Stand {
    /// The router's handle of its link.
    pub(crate) handle: u32,
    /// Whether it is unbound.
    pub(crate) unbound: bool,
}

/// The claims of a link.
#[derive(Drop)]
pub(crate) struct OfLink {
    /// How many of them are unbound.
    unbound: usize,
    /// The ids of all.
    pub(crate) ids: NumberSet,
}

impl OfLink {
    /// No claim.
    fn new(alloc: Global) -> OfLink
        ensures counted { result.unbound ≡ 0 }
        ensures marked { (id : ℕ) → has result.ids id ≡ false }
    {
        OfLink {
            unbound: 0,
            ids: NumberSet::new(alloc),
        }
    }

    /// An id comes to the link. Fails if memory is refused, and if the count overflows.
    fn come(&mut self, id: u32, unbound: bool) -> Result<(), AllocError>
        ensures counted { OnOk result (self.new.unbound ≡ (if unbound then self.old.unbound + 1 else self.old.unbound)) }
        ensures marked { OnOk result ((q : ℕ) → has self.new.ids q ≡ (if id == q then true else has self.old.ids q)) }
    {
        if unbound {
            let Some(more) = self.unbound.checked_add(1) else {
                return Err(AllocError);
            };
            self.unbound = more;
        }
        self.ids.insert(u64::from(id))
    }

    /// An id leaves the link.
    fn leave(&mut self, id: u32, unbound: bool)
        ensures counted { self.new.unbound ≡ (if unbound then self.old.unbound - 1 else self.old.unbound) }
        ensures marked { (q : ℕ) → has self.new.ids q ≡ (if id == q then false else has self.old.ids q) }
    {
        if unbound {
            self.bind();
        }
        self.ids.remove(u64::from(id));
    }

    /// An id is unbound no more.
    fn bind(&mut self)
        ensures counted { self.new.unbound ≡ self.old.unbound - 1 }
        ensures marked { self.new.ids ≡ self.old.ids }
    {
        self.unbound = self.unbound.saturating_sub(1);
    }
}

/// The claims of all links, by the router's handles. A link's row stays when it has no claim any more, so that the next message makes
/// nothing anew, and goes when the router detaches the link, or with its session or connection: no row is that of a link that once was.
#[derive(Drop)]
pub(crate) struct ByLink {
    alloc: Global,
    rows: ByHandle<OfLink>,
}

impl ByLink {
    /// No link has any.
    pub(crate) fn new(alloc: Global) -> ByLink
        ensures counted { (c o h : ℕ) → count_at result c o h ≡ 0 }
        ensures marked { (c o h id : ℕ) → is_marked result c o h id ≡ false }
    {
        ByLink {
            alloc,
            rows: ByHandle::new(alloc),
        }
    }

    /// The claims of a link, if it has or had any.
    pub(crate) fn row(&self, conn: u64, own: u16, handle: u32) -> Option<&OfLink>
        ensures { option_map (λ r. r.now) result ≡ at self.now.rows conn own handle }
    {
        self.rows.get(conn, own, handle)
    }

    /// How many claims of a link are unbound.
    pub(crate) fn unbound(&self, conn: u64, own: u16, handle: u32) -> usize
        ensures { result ≡ count_at self.now conn own handle }
    {
        match self.row(conn, own, handle) {
            None => 0,
            Some(row) => row.unbound,
        }
    }

    /// An id of a session moves from where it stood, if it did, to another place. Fails if memory is refused, and if the count overflows.
    pub(crate) fn shift(
        &mut self,
        conn: u64,
        own: u16,
        before: Option<Stand>,
        after: Stand,
        id: u32,
    ) -> Result<(), AllocError>
        ensures counted { OnOk result ((known : ℕ → ℕ → ℕ → Option ℕ) → known conn own id ≡ unbound_of before → IsCounted self.old known
            → IsCounted self.new (λ c o q. if conn == c then (if own == o then (if id == q then unbound_of (Some after) else known c o q) else known c o q) else known c o q)) }
        ensures marked { OnOk result (((h : ℕ) → is_marked self.old conn own h id ≡ is_number (link_of before) h) → (c o h q : ℕ) → is_marked self.new c o h q
            ≡ (if conn == c then (if own == o then (if id == q then after.handle == h else is_marked self.old c o h q) else is_marked self.old c o h q) else is_marked self.old c o h q)) }
    {
        self.leave(conn, own, before, id);
        self.come(conn, own, after, id)?;
        Ok(())
    }

    /// An id comes to a link.
    fn come(&mut self, conn: u64, own: u16, after: Stand, id: u32) -> Result<(), AllocError>
        ensures counted { OnOk result ((c o h : ℕ) → count_at self.new c o h
            ≡ (if conn == c then (if own == o then (if is_number (unbound_of (Some after)) h then count_at self.old c o h + 1 else count_at self.old c o h) else count_at self.old c o h) else count_at self.old c o h)) }
        ensures marked { OnOk result ((c o h q : ℕ) → is_marked self.new c o h q
            ≡ (if conn == c then (if own == o then (if after.handle == h then (if id == q then true else is_marked self.old c o h q) else is_marked self.old c o h q) else is_marked self.old c o h q) else is_marked self.old c o h q)) }
    {
        if let Some(row) = self.rows.get_mut(conn, own, after.handle) {
            return row.come(id, after.unbound);
        }
        let mut row = OfLink::new(self.alloc);
        row.come(id, after.unbound)?;
        self.rows.insert(conn, own, after.handle, row)
    }

    /// An id leaves its link, if it is on one.
    pub(crate) fn leave(&mut self, conn: u64, own: u16, before: Option<Stand>, id: u32)
        ensures counted { (c o h : ℕ) → count_at self.new c o h
            ≡ (if conn == c then (if own == o then (if is_number (unbound_of before) h then count_at self.old c o h - 1 else count_at self.old c o h) else count_at self.old c o h) else count_at self.old c o h) }
        ensures marked { (c o h q : ℕ) → is_marked self.new c o h q
            ≡ (if conn == c then (if own == o then (if is_number (link_of before) h then (if id == q then false else is_marked self.old c o h q) else is_marked self.old c o h q) else is_marked self.old c o h q) else is_marked self.old c o h q) }
    {
        let Some(before) = before else {
            return;
        };
        if let Some(row) = self.rows.get_mut(conn, own, before.handle) {
            row.leave(id, before.unbound);
        }
    }

    /// An id on a link is unbound no more, if there is one.
    pub(crate) fn bind(&mut self, conn: u64, own: u16, handle: Option<u32>)
        ensures counted { (c o h : ℕ) → count_at self.new c o h
            ≡ (if conn == c then (if own == o then (if is_number handle h then count_at self.old c o h - 1 else count_at self.old c o h) else count_at self.old c o h) else count_at self.old c o h) }
        ensures marked { (c o h q : ℕ) → is_marked self.new c o h q ≡ is_marked self.old c o h q }
    {
        let Some(handle) = handle else {
            return;
        };
        if let Some(row) = self.rows.get_mut(conn, own, handle) {
            row.bind();
        }
    }

    /// Forgets a link.
    pub(crate) fn detach(&mut self, conn: u64, own: u16, handle: u32)
        ensures counted { (c o h : ℕ) → count_at self.new c o h
            ≡ (if conn == c then (if own == o then (if handle == h then 0 else count_at self.old c o h) else count_at self.old c o h) else count_at self.old c o h) }
        ensures marked { (c o h q : ℕ) → is_marked self.new c o h q
            ≡ (if conn == c then (if own == o then (if handle == h then false else is_marked self.old c o h q) else is_marked self.old c o h q) else is_marked self.old c o h q) }
    {
        let _ = self.rows.remove(conn, own, handle);
    }

    /// Forgets the links of a session.
    pub(crate) fn end(&mut self, conn: u64, own: u16)
        ensures counted { (c o h : ℕ) → count_at self.new c o h ≡ (if conn == c then (if own == o then 0 else count_at self.old c o h) else count_at self.old c o h) }
        ensures marked { (c o h q : ℕ) → is_marked self.new c o h q ≡ (if conn == c then (if own == o then false else is_marked self.old c o h q) else is_marked self.old c o h q) }
    {
        let _ = self.rows.end(conn, own);
    }

    /// Forgets the links of a connection.
    pub(crate) fn forget(&mut self, conn: u64)
        ensures counted { (c o h : ℕ) → count_at self.new c o h ≡ (if conn == c then 0 else count_at self.old c o h) }
        ensures marked { (c o h q : ℕ) → is_marked self.new c o h q ≡ (if conn == c then false else is_marked self.old c o h q) }
    {
        let _ = self.rows.forget(conn);
    }
}
