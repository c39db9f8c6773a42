//! What of a run's last event outlived its stop.
ghost use Rattle.std.specs.Prelude.{◌≡◌, ◌+◌, ◌++◌, ◌∷◌, ℕ, List, [], length, Some, OnOk, IfOk};
ghost use Rattle.disk_core.specs.Twin.{Contents};
ghost use Rattle.book_model.specs.declared.act.Act.{Act as AnAct};
ghost use Rattle.book_model.specs.Book.{BookView};
ghost use Rattle.journal_codec.specs.Batches.{AllApply};
ghost use Rattle.gate_journal.specs.Listing.{entries_from};
ghost use Rattle.twin_journal.specs.Holding.{last_of};
ghost use Rattle.core_player.specs.declared.entry.Entry.{Entry as AnEntry};
ghost use Rattle.core_player.specs.declared.entry.Entry.TheVariants as entry;
ghost use Rattle.router_play.specs.Entries.{Survives};
ghost use Rattle.gate_journal.specs.declared.listing.Entry.{Entry as AListed};
ghost use Rattle.router_play.specs.Grouping.{grouped, is_at};

use book_model::Act;
use core_player::{Acts, Cut, Entry};
use disk_core::Twin;
use gate_journal::Entry as Listed;
use std::alloc::{AllocError, Global};
use twin_journal::{OpenFault, list};

/// The last batch of a journal.
#[derive(Drop)]
struct Last {
    /// Its number; 0 where there is no batch.
    number: u64,
    /// The place of its gate; none where it is in the checkpoint.
    gate: Option<usize>,
    /// Its acts; none where it is in the checkpoint.
    acts: Vec<Act>,
}

/// Adds the end of a run, of which a stop left these two files: the event with which its router failed, if it survived, and the stop.
pub fn add_last<T: Twin>(
    alloc: Global,
    twin: &mut T,
    cut: Option<Cut>,
    entries: &mut Vec<Entry>,
) -> Result<(), OpenFault>
    ensures seen { OnOk result (T.seen twin.new ≡ T.seen twin.old) }
    ensures added { OnOk result ((last : List AnEntry) × Survives cut (T.seen twin.old) last
        × (entries.new.items ≡ entries.old.items ++ last ++ entry.Stop ∷ [])) }
{
    if let Some(cut) = cut {
        add_survivor(alloc, twin, cut, entries)?;
    }
    add(entries, Entry::Stop)?;
    Ok(())
}

/// Adds the event that met a fault of the disk or of memory, if its batch is in the journal that these two files are: then that has one batch more than
/// before it, and the acts of the last one are the event's.
fn add_survivor<T: Twin>(
    alloc: Global,
    twin: &mut T,
    cut: Cut,
    entries: &mut Vec<Entry>,
) -> Result<(), OpenFault>
    ensures seen { OnOk result (T.seen twin.new ≡ T.seen twin.old) }
    ensures added { OnOk result ((last : List AnEntry) × Survives (Some cut) (T.seen twin.old) last × (entries.new.items ≡ entries.old.items ++ last)) }
{
    let listing = list(alloc, twin)?;
    let last = last_of(alloc, listing.checkpoint.base, listing.entries)?;
    let Cut { came, batches } = cut;
    if last.number <= batches {
        return Ok(());
    }
    let acts = Acts::new(last.acts);
    add(entries, Entry::Event { came, acts })?;
    Ok(())
}

/// The last batch of those behind one with this number, of which these are the acts.
fn last_of(alloc: Global, base: u64, listed: Vec<Listed>) -> Result<Last, AllocError>
    ensures { IfOk result (λ last. (place : ℕ) (start : BookView) (bs : List (List AnAct)) → AllApply start bs → listed.items ≡ entries_from place bs
        → (last.number ≡ base + length bs) × (last.acts.items ≡ last_of bs)) }
{
    let mut last = Last {
        number: base,
        gate: None,
        acts: Vec::new(alloc),
    };
    for entry in listed {
        take_act(alloc, &mut last, entry)?;
    }
    Ok(last)
}

/// The last batch after one act more: it is the act's own, or the one before it where the act has that one's gate.
fn take_act(alloc: Global, last: &mut Last, entry: Listed) -> Result<(), AllocError>
    ensures { OnOk result ((others : List AListed) → grouped last.new.number last.new.gate last.new.acts.items others
        ≡ grouped last.old.number last.old.gate last.old.acts.items (entry ∷ others)) }
{
    let Listed { place, act } = entry;
    if is_at(last.gate, place) {
        return add_act(&mut last.acts, act);
    }
    begin_batch(alloc, last, place)?;
    add_act(&mut last.acts, act)
}

/// Whether this is the place of that gate.
fn is_at(gate: Option<usize>, place: usize) -> bool
    ensures { result ≡ is_at gate place }
{
    match gate {
        None => false,
        Some(gate) => gate == place,
    }
}

/// The next batch begins, as yet without acts.
fn begin_batch(alloc: Global, last: &mut Last, place: usize) -> Result<(), AllocError>
    ensures number { OnOk result (last.new.number ≡ last.old.number + 1) }
    ensures gate { OnOk result (last.new.gate ≡ Some place) }
    ensures acts { OnOk result (last.new.acts.items ≡ []) }
{
    let Some(number) = last.number.checked_add(1) else {
        return Err(AllocError);
    };
    last.number = number;
    last.gate = Some(place);
    last.acts = Vec::new(alloc);
    Ok(())
}

/// Adds an act.
fn add_act(acts: &mut Vec<Act>, act: Act) -> Result<(), AllocError>
    ensures { OnOk result (acts.new.items ≡ acts.old.items ++ act ∷ []) }
{
    match acts.push(act) {
        Ok(()) => Ok(()),
        Err(_) => Err(AllocError),
    }
}

/// Adds an entry.
fn add(entries: &mut Vec<Entry>, entry: Entry) -> Result<(), AllocError>
    ensures { OnOk result (entries.new.items ≡ entries.old.items ++ entry ∷ []) }
{
    match entries.push(entry) {
        Ok(()) => Ok(()),
        Err(_) => Err(AllocError),
    }
}
