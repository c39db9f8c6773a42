//! Attachments by key and by number.
ghost use Rattle.std.specs.Prelude.{◌≡◌, ◌==◌, ℕ, Some, None, false, if◌then◌else◌, OnOk};
ghost use Rattle.std.specs.Ordering.{nat_cmp, is_eq};
ghost use Rattle.std.specs.BTreeMap.{get};
ghost use Rattle.book_model.specs.Keys.{key_cmp};
ghost use Rattle.book_model.specs.declared.terminus.LinkKey.{LinkKey as AKey};
ghost use Rattle.state_links.specs.Naming.{on_conn, on_session, on_handle, unless, Thinned};
ghost use Rattle.state_links.specs.Touching.{in_session, in_connection};
ghost use Rattle.state_collections.specs.NumberMap.{at_number};

use crate::link::Link;
use book_model::LinkKey;
use router_trace::Attachment;
use state_collections::{InConnection, InSession, NumberMap};
use std::alloc::{AllocError, Global};
use std::collections::BTreeMap;

/// So many attachments with neighbouring numbers are found without an ordered map.
const PLACES: usize = 1024;

/// Attachments by the name that identifies them.
#[derive(Drop)]
pub(crate) struct Attachments<K: Ord> {
    pub(crate) entries: BTreeMap<K, Attachment>,
}

impl<K: Ord + Drop> Attachments<K> {
    /// An empty table.
    fn new(alloc: Global) -> Attachments<K>
        ensures { (q : K) → get K.cmp result.entries q ≡ None }
    {
        Attachments {
            entries: BTreeMap::new(alloc),
        }
    }

    /// The attachment with a name.
    fn get(&self, key: &K) -> Option<Attachment>
        ensures { result ≡ get K.cmp self.now.entries key.now }
    {
        self.entries.get(key).copied()
    }

    /// Gives a name to an attachment.
    fn insert(&mut self, key: K, attachment: Attachment) -> Result<(), AllocError>
        ensures { OnOk result ((q : K) → get K.cmp self.new.entries q ≡ (if is_eq (K.cmp key q) then Some attachment else get K.cmp self.old.entries q)) }
    {
        match self.entries.insert(key, attachment) {
            Ok(_) => Ok(()),
            Err(_) => Err(AllocError),
        }
    }

    /// Removes a name if its attachment is at this place.
    fn forget(&mut self, key: &K, conn: u64, own: u16, handle: u32)
        ensures { (q : K) → get K.cmp self.new.entries q
            ≡ (if is_eq (K.cmp key.now q) then unless (on_handle conn own handle) (get K.cmp self.old.entries q) else get K.cmp self.old.entries q) }
    {
        let Some(attachment) = self.get(key) else {
            return;
        };
        if is_on(attachment, conn, own, handle) {
            let _ = self.entries.remove(key);
        }
    }
}

/// Attachments by number.
#[derive(Drop)]
pub(crate) struct Numbers {
    pub(crate) entries: NumberMap<Attachment>,
}

impl Numbers {
    /// An empty table.
    fn new(alloc: Global) -> Numbers
        ensures { (n : ℕ) → at_number result.entries n ≡ None }
    {
        Numbers {
            entries: NumberMap::new(alloc, PLACES),
        }
    }

    /// The attachment with a number.
    fn get(&self, number: u64) -> Option<Attachment>
        ensures { result ≡ at_number self.now.entries number }
    {
        self.entries.get(number).copied()
    }

    /// Gives an attachment its number.
    fn insert(&mut self, attachment: Attachment) -> Result<(), AllocError>
        ensures { OnOk result ((n : ℕ) → at_number self.new.entries n ≡ (if attachment.number == n then Some attachment else at_number self.old.entries n)) }
    {
        let _ = self.entries.insert(attachment.number, attachment)?;
        Ok(())
    }

    /// Removes a number if its attachment is at this place.
    fn forget(&mut self, number: u64, conn: u64, own: u16, handle: u32)
        ensures { (n : ℕ) → at_number self.new.entries n
            ≡ (if number == n then unless (on_handle conn own handle) (at_number self.old.entries n) else at_number self.old.entries n) }
    {
        let Some(attachment) = self.get(number) else {
            return;
        };
        if is_on(attachment, conn, own, handle) {
            let _ = self.entries.remove(number);
        }
    }
}

/// Whether an attachment is at this place.
fn is_on(attachment: Attachment, conn: u64, own: u16, handle: u32) -> bool
    ensures { result ≡ on_handle conn own handle attachment }
{
    conn == attachment.conn.0 && own == attachment.channel && handle == attachment.handle
}

/// Attachments by key and by number. Some of those that are no longer attached may still be in it.
#[derive(Drop)]
pub(crate) struct Names {
    pub(crate) keys: Attachments<LinkKey>,
    pub(crate) numbers: Numbers,
}

impl Names {
    /// An empty table.
    pub(crate) fn new(alloc: Global) -> Names
        ensures keys { (k : AKey) → get key_cmp result.keys.entries k ≡ None }
        ensures numbers { (n : ℕ) → at_number result.numbers.entries n ≡ None }
    {
        Names {
            keys: Attachments::new(alloc),
            numbers: Numbers::new(alloc),
        }
    }

    /// The attachment with a key.
    pub(crate) fn of_key(&self, key: &LinkKey) -> Option<Attachment>
        ensures { result ≡ get key_cmp self.now.keys.entries key.now }
    {
        self.keys.get(key)
    }

    /// The attachment with a number.
    pub(crate) fn of_number(&self, number: u64) -> Option<Attachment>
        ensures { result ≡ at_number self.now.numbers.entries number }
    {
        self.numbers.get(number)
    }

    /// Enters an attachment under its key and its number.
    pub(crate) fn take(&mut self, key: LinkKey, attachment: Attachment) -> Result<(), AllocError>
        ensures keys { OnOk result ((k : AKey) → get key_cmp self.new.keys.entries k ≡ (if is_eq (key_cmp key k) then Some attachment else get key_cmp self.old.keys.entries k)) }
        ensures numbers { OnOk result ((n : ℕ) → at_number self.new.numbers.entries n ≡ (if attachment.number == n then Some attachment else at_number self.old.numbers.entries n)) }
    {
        self.keys.insert(key, attachment)?;
        self.numbers.insert(attachment)
    }

    /// Removes the names of a link that ends.
    pub(crate) fn forget(&mut self, conn: u64, own: u16, handle: u32, link: &Link)
        ensures thinned { Thinned (on_handle conn own handle) self.old self.new }
        ensures others { (k : ℕ) → (link.now.number == k) ≡ false → at_number self.old.numbers.entries k ≡ at_number self.new.numbers.entries k }
    {
        self.keys.forget(&link.key, conn, own, handle);
        self.numbers.forget(link.number, conn, own, handle);
    }

    /// Removes the names of the links of a session that ends.
    pub(crate) fn forget_session(&mut self, conn: u64, own: u16, handles: &InSession<Link>)
        ensures thinned { Thinned (on_session conn own) self.old self.new }
        ensures others { (k : ℕ) → in_session k handles.now ≡ false → at_number self.old.numbers.entries k ≡ at_number self.new.numbers.entries k }
    {
        for (handle, link) in handles {
            self.forget(conn, own, *handle, link);
        }
    }

    /// Removes the names of the links of a connection that ends.
    pub(crate) fn forget_connection(&mut self, conn: u64, sessions: &InConnection<Link>)
        ensures thinned { Thinned (on_conn conn) self.old self.new }
        ensures others { (k : ℕ) → in_connection k sessions.now ≡ false → at_number self.old.numbers.entries k ≡ at_number self.new.numbers.entries k }
    {
        for (own, handles) in sessions {
            self.forget_session(conn, *own, handles);
        }
    }
}
