//! Records what happens in a run.
ghost use Rattle.std.specs.Prelude.{◌≡◌, ◌==◌, ◌-◌, ◌++◌, ◌∷◌, ℕ, List, [], drop, map, if◌then◌else◌, None, Some, unwrap_or, OnOk, IfOk, IfSome, IfNone};
ghost use Rattle.std.specs.Ordering.{nat_cmp};
ghost use Rattle.std.specs.BTreeMap.{get};
ghost use Rattle.router_trace.specs.Trace.{Trace};
ghost use Rattle.router_trace.specs.Connection.{conn as known};
ghost use Rattle.core_machine.specs.Moves.{waiting_of};
ghost use Rattle.core_player.specs.declared.entry.Entry.{Entry as AnEntry};
ghost use Rattle.core_player.specs.declared.entry.Entry.TheVariants as entry;
ghost use Rattle.core_player.specs.Entries.{PutsBehind, out_entry, took_entry, waits};
ghost use Rattle.core_player.specs.Recording.{cut_after, lengths_of};

use crate::entry::{Acts, Came, Entry, bytes_of};
use core_machine::{CoreFault, Done, Machine};
use router_trace::ConnectionId;
use std::alloc::{AllocError, Global};
use std::collections::BTreeMap;

/// An event that met a fault of the disk or of memory.
#[derive(Debug, Drop)]
pub struct Cut {
    /// What came.
    pub came: Came,
    /// The number of the journal's last batch before it.
    pub batches: u64,
}

/// What happened in a run so far.
#[derive(Drop)]
pub struct Recorder {
    alloc: Global,
    entries: Vec<Entry>,
    /// How many items wait in the outbox of each connection on which some do.
    lengths: BTreeMap<u64, usize>,
    /// The event with which the router failed, if it failed with one.
    cut: Option<Cut>,
}

impl Recorder {
    /// Nothing happened yet.
    pub fn new(alloc: Global) -> Recorder
        ensures entries { result.entries.items ≡ [] }
        ensures lengths { (c : ℕ) → lengths_of result c ≡ 0 }
        ensures cut { result.cut ≡ None }
    {
        Recorder {
            alloc,
            entries: Vec::new(alloc),
            lengths: BTreeMap::new(alloc),
            cut: None,
        }
    }

    /// A router handled an event, which did these acts: they are recorded, and then the items that it put out, by connection.
    pub fn handled<M: Machine>(
        &mut self,
        router: &M,
        came: Came,
        acts: Acts,
    ) -> Result<(), AllocError>
        ensures entries { OnOk result ((t : Trace) → M.meaning.fits router.now t → (outs : List AnEntry) × PutsBehind (lengths_of self.old) t outs
            × (self.new.entries.items ≡ self.old.entries.items ++ entry.Event came acts ∷ outs)) }
        ensures lengths { OnOk result ((t : Trace) → M.meaning.fits router.now t → (c : ℕ) → lengths_of self.new c ≡ waits t c) }
        ensures cut { self.new.cut ≡ self.old.cut }
    {
        add(&mut self.entries, Entry::Event { came, acts })?;
        self.lengths = add_outs(self.alloc, router, &self.lengths, &mut self.entries)?;
        Ok(())
    }

    /// So many items left the outbox of a connection.
    pub fn took(&mut self, conn: ConnectionId, count: usize) -> Result<(), AllocError>
        ensures entries { OnOk result (self.new.entries.items ≡ self.old.entries.items ++ took_entry conn count) }
        ensures lengths { OnOk result ((c : ℕ) → lengths_of self.new c ≡ (if conn.0 == c then lengths_of self.old c - count else lengths_of self.old c)) }
        ensures cut { self.new.cut ≡ self.old.cut }
    {
        if count == 0 {
            return Ok(());
        }
        lower(&mut self.lengths, conn.0, count);
        add(&mut self.entries, Entry::Took { conn, count })
    }

    /// A router answered an event with this fault; its journal had so many batches before.
    pub fn failed(&mut self, fault: CoreFault, came: Came, batches: u64)
        ensures entries { self.new.entries ≡ self.old.entries }
        ensures lengths { self.new.lengths ≡ self.old.lengths }
        ensures cut { self.new.cut ≡ cut_after self.old.cut fault came batches }
    {
        match fault {
            CoreFault::Disk | CoreFault::Memory => self.cut = Some(Cut { came, batches }),
            CoreFault::Failed | CoreFault::NoConnection => drop(came),
        }
    }

    /// Adds the entries to these, and gives the event with which the router failed.
    pub fn give(self, entries: &mut Vec<Entry>) -> Result<Option<Cut>, AllocError>
        ensures entries { OnOk result (entries.new.items ≡ entries.old.items ++ self.entries.items) }
        ensures cut { IfOk result (λ cut. cut ≡ self.cut) }
    {
        let Recorder {
            entries: told,
            cut,
            ..
        } = self;
        add_all(entries, told)?;
        Ok(cut)
    }
}

/// The acts of an event that was handled.
pub fn acts_of(alloc: Global, done: Done) -> Acts
    ensures some { IfSome done.journal (λ batch. result ≡ batch.1.items) }
    ensures none { IfNone done.journal (result ≡ []) }
{
    match done.journal {
        None => Acts::new(Vec::new(alloc)),
        Some((_, acts)) => Acts::new(acts),
    }
}

/// Adds the items that wait in the outboxes of a router behind so many of each, by connection, the lowest first; gives how many wait in each.
fn add_outs<M: Machine>(
    alloc: Global,
    router: &M,
    lengths: &BTreeMap<u64, usize>,
    entries: &mut Vec<Entry>,
) -> Result<BTreeMap<u64, usize>, AllocError>
    ensures added { OnOk result ((t : Trace) → M.meaning.fits router.now t → (outs : List AnEntry) × PutsBehind (λ c. unwrap_or (get nat_cmp lengths.now c) 0) t outs
        × (entries.new.items ≡ entries.old.items ++ outs)) }
    ensures lengths { IfOk result (λ now. (t : Trace) → M.meaning.fits router.now t → (c : ℕ) → unwrap_or (get nat_cmp now c) 0 ≡ waits t c) }
{
    let mut now = BTreeMap::new(alloc);
    let mut next = router.ready();
    for _turn in 0..u64::MAX {
        let Some(conn) = next else {
            return Ok(now);
        };
        let length = add_outs_of(alloc, router, conn, length_in(lengths, conn.0), entries)?;
        put(&mut now, conn.0, length)?;
        next = router.ready_after(conn);
    }
    Err(AllocError)
}

/// Adds the items that wait in the outbox of a connection, from a place on; gives how many wait in it.
fn add_outs_of<M: Machine>(
    alloc: Global,
    router: &M,
    conn: ConnectionId,
    from: usize,
    entries: &mut Vec<Entry>,
) -> Result<usize, AllocError>
    ensures added { OnOk result ((t : Trace) → M.meaning.fits router.now t
        → entries.new.items ≡ entries.old.items ++ map (out_entry conn.0) (drop from (waiting_of (known t conn.0)))) }
    ensures length { IfOk result (λ length. (t : Trace) → M.meaning.fits router.now t → length ≡ waits t conn.0) }
{
    let length = router.waits(conn);
    for place in from..length {
        let Some(item) = router.waiting(conn, place) else {
            return Err(AllocError);
        };
        let bytes = bytes_of(alloc, item)?;
        add(entries, Entry::Out { conn, bytes })?;
    }
    Ok(length)
}

/// How many items wait in the outbox of a connection.
fn length_in(lengths: &BTreeMap<u64, usize>, conn: u64) -> usize
    ensures { result ≡ unwrap_or (get nat_cmp lengths.now conn) 0 }
{
    match lengths.get(&conn) {
        None => 0,
        Some(length) => *length,
    }
}

/// Notes how many items wait in the outbox of a connection.
fn put(lengths: &mut BTreeMap<u64, usize>, conn: u64, length: usize) -> Result<(), AllocError>
    ensures { OnOk result ((c : ℕ) → get nat_cmp lengths.new c ≡ (if conn == c then Some length else get nat_cmp lengths.old c)) }
{
    match lengths.insert(conn, length) {
        Ok(_) => Ok(()),
        Err(_) => Err(AllocError),
    }
}

/// Notes that so many items left the outbox of a connection.
fn lower(lengths: &mut BTreeMap<u64, usize>, conn: u64, count: usize)
    ensures { (c : ℕ) → unwrap_or (get nat_cmp lengths.new c) 0
        ≡ (if conn == c then unwrap_or (get nat_cmp lengths.old c) 0 - count else unwrap_or (get nat_cmp lengths.old c) 0) }
{
    if let Some(length) = lengths.get_mut(&conn) {
        *length = length.saturating_sub(count);
    }
}

/// Adds an entry.
fn add(entries: &mut Vec<Entry>, entry: Entry) -> Result<(), AllocError>
    ensures { OnOk result (entries.new.items ≡ entries.old.items ++ entry ∷ []) }
{
    match entries.push(entry) {
        Ok(()) => Ok(()),
        Err(_) => Err(AllocError),
    }
}

/// Adds entries.
fn add_all(entries: &mut Vec<Entry>, told: Vec<Entry>) -> Result<(), AllocError>
    ensures { OnOk result (entries.new.items ≡ entries.old.items ++ told.items) }
{
    for entry in told {
        add(entries, entry)?;
    }
    Ok(())
}
