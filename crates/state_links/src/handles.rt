//! What attaches ask for, and what handles stand for.
ghost use Rattle.std.specs.Prelude.{◌≡◌, ◌==◌, ◌∷◌, List, ℕ, Bool, None, Some, true, false, if◌then◌else◌, OnOk};
ghost use Rattle.std.specs.Option.{option_map};
ghost use Rattle.std.specs.Ordering.{nat_cmp};
ghost use Rattle.std.specs.BTreeMap.{get};
ghost use Rattle.router_trace.specs.Trace.{Beginning, Trace};
ghost use Rattle.router_trace.specs.Configuration.{opened};
ghost use Rattle.router_trace.specs.Trace.{Entry, Out, did};
ghost use Rattle.router_trace.specs.Sessions.{answers_begin, awaited, is_channel, maps, theirs};
ghost use Rattle.router_trace.specs.Links.{is_handle, names, handle_asked, detached, first_free_below, is_free_handle, free_handle};
ghost use Rattle.state_links.specs.Fits.{names_in};
ghost use Rattle.state_links.specs.Giving.{handle_of, handle_on};
ghost use Rattle.state_collections.specs.Places.{in_map, at};
ghost use Rattle.state_links.specs.Handled.{HandlesFit};
ghost use Rattle.router_trace.specs.declared.event.Event.TheVariants as event;
ghost use Rattle.router_trace.specs.declared.handle.PeerHandle.TheVariants.{Detaching};
ghost use Rattle.amqp_model.specs.declared.perf.Perf.TheVariants as perf;
ghost use Rattle.amqp_model.specs.declared.perf.End.{End};
ghost use Rattle.amqp_model.specs.declared.item.Item.TheVariants as item;

use amqp_model::{Attach, Begin, Detach, Perf};
use router_trace::{Asked, ConnectionId, PeerHandle};
use state_collections::ByHandle;
use std::alloc::{AllocError, Global};
use std::collections::BTreeMap;

/// The number of handles that the router has on a session.
const HANDLES: u32 = 64;

/// What attaches ask for, and what handles stand for. If an operation fails to allocate, the table's contents are unspecified.
#[derive(Drop)]
pub struct HandleTable {
    alloc: Global,
    // by connection, what the peer's last attach asks for
    asked: BTreeMap<u64, Asked>,
    // by connection, the handle-max of the peer's last begin
    told: BTreeMap<u64, u32>,
    // by connection and session, the highest handle that the peer accepts
    highest: BTreeMap<u64, BTreeMap<u16, u32>>,
    // by the router's handle, the peer's handle whose attach it answered
    answered: ByHandle<u32>,
    // by the peer's handle, what it stands for
    theirs: ByHandle<PeerHandle>,
}

impl HandleTable {
    /// An empty table.
    pub fn new(alloc: Global) -> HandleTable
        ensures { (g : Beginning) (below : Trace) → HandlesFit result (opened g below) }
    {
        HandleTable {
            alloc,
            asked: BTreeMap::new(alloc),
            told: BTreeMap::new(alloc),
            highest: BTreeMap::new(alloc),
            answered: ByHandle::new(alloc),
            theirs: ByHandle::new(alloc),
        }
    }

    /// What the last attach of a peer asks for.
    pub fn asked(&self, conn: u64) -> Option<&Asked>
        ensures { option_map (λ a. a.now) result ≡ get nat_cmp self.now.asked conn }
    {
        self.asked.get(&conn)
    }

    /// What a handle of the peer stands for.
    pub fn theirs(&self, conn: u64, own: u16, handle: u32) -> Option<PeerHandle>
        ensures { result ≡ at self.now.theirs conn own handle }
    {
        self.theirs.get(conn, own, handle).copied()
    }

    /// The router's handle of the link that a flow or a transfer of the peer names, on the session on the router's channel `own`;
    /// none if there is no such session or link.
    pub fn named(&self, conn: u64, own: Option<u16>, perf: &Perf) -> Option<u32>
        ensures names { (o h : ℕ) → is_channel own o ≡ true → is_handle result h ≡ names_in perf.now (at self.now.theirs conn o) h }
        ensures exact { result ≡ handle_on own perf.now (at self.now.theirs conn) }
    {
        let own = own?;
        match perf {
            Perf::Flow(flow) => self.mapped(conn, own, flow.handle?),
            Perf::Transfer(transfer) => self.mapped(conn, own, transfer.handle),
            _ => None,
        }
    }

    /// The router's handle that a handle of the peer stands for.
    pub fn mapped(&self, conn: u64, own: u16, handle: u32) -> Option<u32>
        ensures names { (h : ℕ) → is_handle result h ≡ names (at self.now.theirs conn own handle) h }
        ensures exact { result ≡ handle_of (at self.now.theirs conn own handle) }
    {
        match self.theirs(conn, own, handle) {
            Some(PeerHandle::Mapped(handle)) => Some(handle),
            _ => None,
        }
    }

    /// The router's lowest handle, of 64, that the peer accepts too and on which nothing is attached.
    #[tactic(auto, unfolding(router_trace::specs::Links::free_handle))]
    pub fn free_handle(&self, conn: u64, own: u16) -> Option<u32>
        ensures { (t : List Entry) → HandlesFit self.now t → result ≡ free_handle t conn own }
    {
        self.first_free(conn, own, self.highest(conn, own).unwrap_or(HANDLES - 1))
    }

    /// The router's lowest handle, of 64 and at most `most`, on which nothing is attached.
    fn first_free(&self, conn: u64, own: u16, most: u32) -> Option<u32>
        ensures { result ≡ first_free_below 64 (is_free_handle most (at self.now.answered conn own)) 0 }
    {
        for handle in 0..HANDLES {
            if self.is_free(conn, own, handle, most) {
                return Some(handle);
            }
        }
        None
    }

    /// Whether nothing is attached on a handle of the router, and it is at most `most`.
    fn is_free(&self, conn: u64, own: u16, handle: u32, most: u32) -> bool
        ensures { result ≡ is_free_handle most (at self.now.answered conn own) handle }
    {
        handle <= most && self.answered.get(conn, own, handle).is_none()
    }

    /// The highest handle that the peer accepts.
    fn highest(&self, conn: u64, own: u16) -> Option<u32>
        ensures { result ≡ in_map (get nat_cmp self.now.highest conn) own }
    {
        match self.highest.get(&conn) {
            None => None,
            Some(sessions) => sessions.get(&own).copied(),
        }
    }

    /// A connection is lost.
    pub fn down(&mut self, conn: ConnectionId)
        ensures { (t : List Entry) → HandlesFit self.old t → HandlesFit self.new (did (event.Down conn) ∷ t) }
    {
        self.forget(conn.0);
    }

    /// A performative was received on the peer's channel; `own` is the router's channel of its session, if it has one, and `answered`
    /// the router's channel whose begin it answers, if it does.
    pub fn hear(
        &mut self,
        conn: ConnectionId,
        own: Option<u16>,
        answered: Option<u16>,
        perf: &Perf,
    ) -> Result<(), AllocError>
        ensures { OnOk result ((t : List Entry) (channel : ℕ) (payload : List ℕ) → ((o : ℕ) → is_channel own o ≡ maps (theirs t conn.0 channel) o)
            → ((o : ℕ) → is_channel answered o ≡ answers_begin perf.now o (theirs t conn.0 channel) (awaited t conn.0 o))
            → HandlesFit self.old t → HandlesFit self.new (did (event.Item conn (item.Frame false channel perf.now payload)) ∷ t)) }
    {
        match perf {
            Perf::Begin(begin) => self.hear_begin(conn, answered, begin.as_ref())?,
            Perf::Attach(attach) => self.hear_attach(conn, attach.as_ref())?,
            Perf::Detach(detach) => self.hear_detach(conn, own, detach),
            _ => {}
        }
        Ok(())
    }

    fn hear_begin(
        &mut self,
        conn: ConnectionId,
        answered: Option<u16>,
        begin: &Begin,
    ) -> Result<(), AllocError>
        ensures { OnOk result ((t : List Entry) (channel : ℕ) (payload : List ℕ)
            → ((o : ℕ) → is_channel answered o ≡ answers_begin (perf.Begin begin.now) o (theirs t conn.0 channel) (awaited t conn.0 o))
            → HandlesFit self.old t → HandlesFit self.new (did (event.Item conn (item.Frame false channel (perf.Begin begin.now) payload)) ∷ t)) }
    {
        self.note_answer(conn.0, answered, begin.handle_max)?;
        match self.told.insert(conn.0, begin.handle_max) {
            Ok(_) => Ok(()),
            Err(_) => Err(AllocError),
        }
    }

    /// Notes the highest handle that a peer accepts on the session that its begin makes.
    fn note_answer(&mut self, conn: u64, answered: Option<u16>, most: u32) -> Result<(), AllocError>
        ensures asked { self.new.asked ≡ self.old.asked }
        ensures told { self.new.told ≡ self.old.told }
        ensures highest { OnOk result ((c o : ℕ) → in_map (get nat_cmp self.new.highest c) o
            ≡ (if conn == c then (if is_channel answered o then Some most else in_map (get nat_cmp self.old.highest c) o) else in_map (get nat_cmp self.old.highest c) o)) }
        ensures answered { self.new.answered ≡ self.old.answered }
        ensures theirs { self.new.theirs ≡ self.old.theirs }
    {
        match answered {
            None => Ok(()),
            Some(own) => set_highest(self.alloc, &mut self.highest, conn, own, Some(most)),
        }
    }

    fn hear_attach(&mut self, conn: ConnectionId, attach: &Attach) -> Result<(), AllocError>
        ensures { OnOk result ((t : List Entry) (channel : ℕ) (payload : List ℕ) → HandlesFit self.old t
            → HandlesFit self.new (did (event.Item conn (item.Frame false channel (perf.Attach attach.now) payload)) ∷ t)) }
    {
        let asked = Asked::of(self.alloc, attach)?;
        match self.asked.insert(conn.0, asked) {
            Ok(_) => Ok(()),
            Err(_) => Err(AllocError),
        }
    }

    fn hear_detach(&mut self, conn: ConnectionId, own: Option<u16>, detach: &Detach)
        ensures { (t : List Entry) (channel : ℕ) (payload : List ℕ) → ((o : ℕ) → is_channel own o ≡ maps (theirs t conn.0 channel) o)
            → HandlesFit self.old t → HandlesFit self.new (did (event.Item conn (item.Frame false channel (perf.Detach detach.now) payload)) ∷ t) }
    {
        if let Some(own) = own {
            let _ = self.theirs.remove(conn.0, own, detach.handle);
        }
    }

    /// A performative is put into the outbox of a connection, on a channel of the router.
    pub fn put(&mut self, conn: u64, own: u16, perf: &Perf) -> Result<(), AllocError>
        ensures { OnOk result ((t : List Entry) (sasl : Bool) (payload : List ℕ) → HandlesFit self.old t
            → HandlesFit self.new (Out conn (item.Frame sasl own perf.now payload) ∷ t)) }
    {
        match perf {
            Perf::Begin(begin) => self.put_begin(conn, own, begin.as_ref())?,
            Perf::Attach(attach) => self.put_attach(conn, own, attach.as_ref())?,
            Perf::Detach(detach) => self.put_detach(conn, own, detach)?,
            Perf::End(_) => self.put_end(conn, own),
            Perf::Close(_) => self.forget(conn),
            _ => {}
        }
        Ok(())
    }

    fn put_begin(&mut self, conn: u64, own: u16, begin: &Begin) -> Result<(), AllocError>
        ensures { OnOk result ((t : List Entry) (sasl : Bool) (payload : List ℕ) → HandlesFit self.old t
            → HandlesFit self.new (Out conn (item.Frame sasl own (perf.Begin begin.now) payload) ∷ t)) }
    {
        let most = match begin.remote_channel {
            None => None,
            Some(_) => self.told.get(&conn).copied(),
        };
        set_highest(self.alloc, &mut self.highest, conn, own, most)
    }

    fn put_attach(&mut self, conn: u64, own: u16, attach: &Attach) -> Result<(), AllocError>
        ensures { OnOk result ((t : List Entry) (sasl : Bool) (payload : List ℕ) → HandlesFit self.old t
            → HandlesFit self.new (Out conn (item.Frame sasl own (perf.Attach attach.now) payload) ∷ t)) }
    {
        let Some(theirs) = handle_asked(self.asked(conn)) else {
            let _ = self.answered.remove(conn, own, attach.handle);
            return Ok(());
        };
        self.answered.insert(conn, own, attach.handle, theirs)?;
        self.theirs
            .insert(conn, own, theirs, PeerHandle::Mapped(attach.handle))
    }

    fn put_detach(&mut self, conn: u64, own: u16, detach: &Detach) -> Result<(), AllocError>
        ensures { OnOk result ((t : List Entry) (sasl : Bool) (payload : List ℕ) → HandlesFit self.old t
            → HandlesFit self.new (Out conn (item.Frame sasl own (perf.Detach detach.now) payload) ∷ t)) }
    {
        let answered = self.answered.remove(conn, own, detach.handle);
        let asked = self.asked.get(&conn);
        await_detach(&mut self.theirs, conn, own, answered, asked)
    }

    fn put_end(&mut self, conn: u64, own: u16)
        ensures { (t : List Entry) (sasl : Bool) (payload : List ℕ) (x : End) → HandlesFit self.old t
            → HandlesFit self.new (Out conn (item.Frame sasl own (perf.End x) payload) ∷ t) }
    {
        if let Some(highest) = self.highest.get_mut(&conn) {
            let _ = highest.remove(&own);
        }
        let _ = self.answered.end(conn, own);
        let _ = self.theirs.end(conn, own);
    }

    /// Removes all that is known of a connection.
    fn forget(&mut self, conn: u64)
        ensures asked { (c : ℕ) → get nat_cmp self.new.asked c ≡ (if conn == c then None else get nat_cmp self.old.asked c) }
        ensures told { (c : ℕ) → get nat_cmp self.new.told c ≡ (if conn == c then None else get nat_cmp self.old.told c) }
        ensures highest { (c : ℕ) → get nat_cmp self.new.highest c ≡ (if conn == c then None else get nat_cmp self.old.highest c) }
        ensures answered { (c o h : ℕ) → at self.new.answered c o h ≡ (if conn == c then None else at self.old.answered c o h) }
        ensures theirs { (c o p : ℕ) → at self.new.theirs c o p ≡ (if conn == c then None else at self.old.theirs c o p) }
    {
        let _ = self.asked.remove(&conn);
        let _ = self.told.remove(&conn);
        let _ = self.highest.remove(&conn);
        let _ = self.answered.forget(conn);
        let _ = self.theirs.forget(conn);
    }
}

/// Sets the highest handle that the peer of a session accepts.
fn set_highest(
    alloc: Global,
    highest: &mut BTreeMap<u64, BTreeMap<u16, u32>>,
    conn: u64,
    own: u16,
    most: Option<u32>,
) -> Result<(), AllocError>
    ensures { OnOk result ((c o : ℕ) → in_map (get nat_cmp highest.new c) o
        ≡ (if conn == c then (if own == o then most else in_map (get nat_cmp highest.old c) o) else in_map (get nat_cmp highest.old c) o)) }
{
    if let Some(sessions) = highest.get_mut(&conn) {
        return set(sessions, own, most);
    }
    let mut sessions = BTreeMap::new(alloc);
    set(&mut sessions, own, most)?;
    match highest.insert(conn, sessions) {
        Ok(_) => Ok(()),
        Err(_) => Err(AllocError),
    }
}

/// Gives a key this value, or removes it.
fn set(map: &mut BTreeMap<u16, u32>, key: u16, value: Option<u32>) -> Result<(), AllocError>
    ensures { OnOk result ((k : ℕ) → get nat_cmp map.new k ≡ (if key == k then value else get nat_cmp map.old k)) }
{
    let Some(value) = value else {
        let _ = map.remove(&key);
        return Ok(());
    };
    match map.insert(key, value) {
        Ok(_) => Ok(()),
        Err(_) => Err(AllocError),
    }
}

/// The router now waits for the peer's detach, on the handle whose attach was answered; if none was, on that of the last attach.
fn await_detach(
    theirs: &mut ByHandle<PeerHandle>,
    conn: u64,
    own: u16,
    answered: Option<u32>,
    asked: Option<&Asked>,
) -> Result<(), AllocError>
    ensures { OnOk result ((c o p : ℕ) → at theirs.new c o p
        ≡ (if conn == c then (if own == o then detached answered (option_map (λ a. a.now) asked.entry) p (at theirs.old c o p) else at theirs.old c o p) else at theirs.old c o p)) }
{
    match answered {
        Some(handle) => detach(theirs, conn, own, handle),
        None => match asked {
            None => Ok(()),
            Some(asked) => theirs.insert(conn, own, asked.handle, PeerHandle::Detaching),
        },
    }
}

/// The peer's handle that its last attach names.
fn handle_asked(asked: Option<&Asked>) -> Option<u32>
    ensures { result ≡ handle_asked (option_map (λ a. a.now) asked.entry) }
{
    match asked {
        None => None,
        Some(asked) => Some(asked.handle),
    }
}

/// The router now waits for the peer's detach on a handle that stands for something.
fn detach(
    theirs: &mut ByHandle<PeerHandle>,
    conn: u64,
    own: u16,
    handle: u32,
) -> Result<(), AllocError>
    ensures { OnOk result ((c o p : ℕ) → at theirs.new c o p
        ≡ (if conn == c then (if own == o then (if handle == p then option_map (λ w. Detaching) (at theirs.old c o p) else at theirs.old c o p) else at theirs.old c o p) else at theirs.old c o p)) }
{
    if theirs.get(conn, own, handle).is_none() {
        return Ok(());
    }
    theirs.insert(conn, own, handle, PeerHandle::Detaching)
}
