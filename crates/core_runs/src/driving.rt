//! Running groups of events.
ghost use Rattle.std.specs.Prelude.{◌≡◌, ◌≢◌, ◌≤◌, ◌<◌, ◌⊎◌, ◌+◌, ◌∷◌, ◌++◌, ℕ, List, map, length, true, false, Some, None, vec_len, vec_capacity, OnOk, OnErr, IfErr, IfSome, IsErrOf};
ghost use Rattle.router_trace.specs.Trace.{Entry};
ghost use Rattle.router_trace.specs.Connection.{conn as known, is_ready};
ghost use Rattle.disk_core.specs.Disk.{LeavesOnly};
ghost use Rattle.disk_core.specs.Twin.{Contents};
ghost use Rattle.book_model.specs.Book.{BookView};
ghost use Rattle.journal_store.specs.Store.{OpensTo, Stands, StandsBehind, twin_of};
ghost use Rattle.reply_rows.specs.Acts.{book_in};
ghost use Rattle.router_core.specs.Handling.{Fits, id_of, is_failed, store_of, kept_book};
ghost use Rattle.core_machine.specs.Moves.{Taking, taking, items_of, took_one};
ghost use Rattle.core_runs.specs.Leaving.{IsLeftAfter, LeftBy, LeftWithin};
ghost use Rattle.core_runs.specs.Runs.{Emptied, Steps, Run, MayStep, MaySteps, InTurn, Broken, Stopped, Waits, as_sent, events_of, sent};
ghost use Rattle.core_runs.specs.declared.driving.Sent.{Sent as ASent};

use amqp_model::Item;
use core_machine::CoreFault;
use disk_core::Twin;
use router_core::Core;
use router_trace::{ConnectionId, Event};
use std::alloc::Global;

/// The number of items taken at a time.
const MOST: usize = 64;

/// An item that was taken from an outbox.
#[derive(Debug, Drop)]
pub struct Sent {
    /// The index of the group that it follows, from 0.
    pub group: usize,
    /// The connection.
    pub conn: ConnectionId,
    /// The item.
    pub item: Item,
}

/// The result of running groups of events.
#[derive(Debug, Drop)]
pub struct Driven {
    /// The fault that ended the run, if any.
    pub fault: Option<CoreFault>,
    /// How many groups were handled before it.
    pub handled: usize,
    /// The items taken, in order.
    pub taken: Vec<Sent>,
}

/// Appends items to those taken before; there is room for them.
fn append(taken: &mut Vec<Sent>, group: usize, conn: ConnectionId, items: Vec<Item>)
    requires { vec_len taken.old + length items.items ≤ vec_capacity taken.old }
    ensures { taken.new.items ≡ taken.old.items ++ map (as_sent group conn) items.items }
{
    for item in items {
        taken.push_reserved(Sent { group, conn, item });
    }
}

/// Takes items from one outbox. Room for them is made before they are taken.
fn take_one<T: Twin>(
    core: &mut Core<T>,
    group: usize,
    conn: ConnectionId,
    taken: &mut Vec<Sent>,
) -> Result<(), CoreFault>
    ensures fits { OnOk result ((t : List Entry) → Fits core.old t → Fits core.new (took_one (taking conn) t)) }
    ensures items { OnOk result ((t : List Entry) → Fits core.old t → taken.new.items ≡ taken.old.items ++ map (as_sent group conn) (items_of (taking conn) t)) }
    ensures works { OnOk result (is_failed core.new ≡ false) }
    ensures named { id_of core.new ≡ id_of core.old }

    // What a fault leaves, and when it occurs.
    ensures kept { OnErr result (taken.new.items ≡ taken.old.items) }
    ensures known { IfErr result (λ f. f ≡ CoreFault.NoConnection → (t : List Entry) → Fits core.old t → known t conn.0 ≡ None) }
    ensures failed { IfErr result (λ f. f ≡ CoreFault.Failed → is_failed core.old ≡ true) }
    ensures memory { IfErr result (λ f. f ≡ CoreFault.Memory → (core.new ≡ core.old) ⊎ (is_failed core.new ≡ true)) }
    ensures no_disk { IfErr result (λ f. f ≡ CoreFault.Disk → ⊥) }
    ensures store { store_of core.new ≡ store_of core.old }
{
    if taken.try_reserve(MOST).is_err() {
        return Err(CoreFault::Memory);
    }
    let batch = core.take(conn, MOST)?;
    append(taken, group, conn, batch.into_items());
    Ok(())
}

/// Empties all outboxes, by connection.
fn empty<T: Twin>(core: &mut Core<T>, group: usize, taken: &mut Vec<Sent>) -> Result<(), CoreFault>
    ensures fits { OnOk result ((t : List Entry) → Fits core.old t → (ys : List ASent) × (u : List Entry) × Emptied group t ys u × Fits core.new u × (taken.new.items ≡ taken.old.items ++ ys)) }
    ensures works { OnOk result (is_failed core.new ≡ true → is_failed core.old ≡ true) }
    ensures named { id_of core.new ≡ id_of core.old }

    // What a fault leaves, and when it occurs.
    ensures broken { OnErr result ((t : List Entry) → Fits core.old t → (takes : List Taking) × InTurn takes t × (taken.new.items ≡ taken.old.items ++ sent group takes t)) }
    ensures known { IfErr result (λ f. (t : List Entry) → Fits core.old t → f ≢ CoreFault.NoConnection) }
    ensures failed { IfErr result (λ f. f ≡ CoreFault.Failed → is_failed core.old ≡ true) }
    ensures memory { IfErr result (λ f. f ≡ CoreFault.Memory → ((t : List Entry) → Fits core.new t → Waits t) ⊎ (is_failed core.new ≡ true)) }
    ensures no_disk { IfErr result (λ f. f ≡ CoreFault.Disk → ⊥) }
    ensures store { store_of core.new ≡ store_of core.old }
{
    for _turn in 0..u64::MAX {
        match core.ready() {
            None => return Ok(()),
            Some(conn) => take_one(core, group, conn, taken)?,
        }
    }
    match core.ready() {
        None => Ok(()),
        Some(_) => Err(CoreFault::Memory),
    }
}

/// Handles the events of a group, writes them, and empties all outboxes.
fn step<T: Twin>(
    core: &mut Core<T>,
    place: usize,
    group: Vec<Event>,
    taken: &mut Vec<Sent>,
) -> Result<(), CoreFault>
    ensures fits { OnOk result ((t : List Entry) → Fits core.old t → (ys : List ASent) × (u : List Entry) × Steps (id_of core.old) place t group.items ys u × Fits core.new u × (taken.new.items ≡ taken.old.items ++ ys)) }
    ensures works { OnOk result (is_failed core.new ≡ true → is_failed core.old ≡ true) }
    ensures named { id_of core.new ≡ id_of core.old }

    // What a fault leaves, and when it occurs.
    ensures broken { OnErr result ((t : List Entry) → Fits core.old t → (ys : List ASent) × Broken (id_of core.old) place t group.items ys × (taken.new.items ≡ taken.old.items ++ ys)) }
    ensures known { IfErr result (λ f. (t : List Entry) → Fits core.old t → f ≢ CoreFault.NoConnection) }
    ensures failed { IfErr result (λ f. f ≡ CoreFault.Failed → is_failed core.old ≡ true) }
    ensures memory { IfErr result (λ f. f ≡ CoreFault.Memory → ((t : List Entry) → Fits core.new t → Waits t) ⊎ (is_failed core.new ≡ true)) }
    ensures disk { IfErr result (λ f. f ≡ CoreFault.Disk → is_failed core.new ≡ true) }
    ensures cause { IfErr result (λ f. f ≡ CoreFault.Disk → T.failures (twin_of (store_of core.old)) < T.failures (twin_of (store_of core.new))) }
    ensures no_other { (IsErrOf result CoreFault.Disk → ⊥) → T.failures (twin_of (store_of core.new)) ≡ T.failures (twin_of (store_of core.old)) }

    ensures stands { OnOk result (Stands T.seen T.may_leave (store_of core.old) → Stands T.seen T.may_leave (store_of core.new)) }
    ensures any_moment { (t : List Entry) → Fits core.old t → Stands T.seen T.may_leave (store_of core.old)
        → LeavesOnly T.moment T.left_since (twin_of (store_of core.old)) (twin_of (store_of core.new)) (LeftWithin (id_of core.old) t group.items) }
    // With a fault, if an item was taken, the book after all events of the group is left at the end.
    ensures answered { OnErr result (taken.new.items ≢ taken.old.items → (t : List Entry) → Fits core.old t → Stands T.seen T.may_leave (store_of core.old)
        → (contents : Contents) → T.may_leave (twin_of (store_of core.new)) contents → (u : List Entry) × MaySteps (id_of core.old) t group.items u × OpensTo contents (book_in u)) }
{
    handle_group(core, group)?;
    empty(core, place, taken)
}

/// Handles the events of a group, one after another, each of which may be refused, and writes their batches together.
fn handle_group<T: Twin>(core: &mut Core<T>, group: Vec<Event>) -> Result<(), CoreFault>
    ensures fits { OnOk result ((t : List Entry) → Fits core.old t → (u : List Entry) × MaySteps (id_of core.old) t group.items u × Fits core.new u) }
    ensures works { OnOk result (is_failed core.new ≡ true → is_failed core.old ≡ true) }
    ensures named { id_of core.new ≡ id_of core.old }

    // When a fault occurs.
    ensures known { IfErr result (λ f. f ≢ CoreFault.NoConnection) }
    ensures failed { IfErr result (λ f. f ≡ CoreFault.Failed → is_failed core.old ≡ true) }
    ensures memory { IfErr result (λ f. f ≡ CoreFault.Memory → is_failed core.new ≡ true) }
    ensures disk { IfErr result (λ f. f ≡ CoreFault.Disk → is_failed core.new ≡ true) }
    ensures cause { IfErr result (λ f. f ≡ CoreFault.Disk → T.failures (twin_of (store_of core.old)) < T.failures (twin_of (store_of core.new))) }
    ensures no_other { (IsErrOf result CoreFault.Disk → ⊥) → T.failures (twin_of (store_of core.new)) ≡ T.failures (twin_of (store_of core.old)) }

    ensures stands { OnOk result (Stands T.seen T.may_leave (store_of core.old) → Stands T.seen T.may_leave (store_of core.new)) }
    ensures any_moment { (t : List Entry) → Fits core.old t → Stands T.seen T.may_leave (store_of core.old)
        → LeavesOnly T.moment T.left_since (twin_of (store_of core.old)) (twin_of (store_of core.new)) (LeftWithin (id_of core.old) t group.items) }
{
    for event in group {
        hold(core, event)?;
    }
    core.write_held()
}

/// Handles an event, which may be refused, and holds its batch.
fn hold<T: Twin>(core: &mut Core<T>, event: Event) -> Result<(), CoreFault>
    ensures fits { OnOk result ((t : List Entry) → Fits core.old t → (u : List Entry) × MayStep (id_of core.old) t event u × Fits core.new u) }
    ensures works { OnOk result (is_failed core.new ≡ true → is_failed core.old ≡ true) }
    ensures named { id_of core.new ≡ id_of core.old }

    // The files keep the book that they kept, or the one before the event.
    ensures behind { OnOk result ((kept : BookView) → StandsBehind T.seen T.may_leave (store_of core.old) kept
        → StandsBehind T.seen T.may_leave (store_of core.new) kept ⊎ StandsBehind T.seen T.may_leave (store_of core.new) (kept_book core.old)) }
    ensures any_moment { (kept : BookView) → StandsBehind T.seen T.may_leave (store_of core.old) kept
        → LeavesOnly T.moment T.left_since (twin_of (store_of core.old)) (twin_of (store_of core.new)) (λ c. OpensTo c kept ⊎ OpensTo c (kept_book core.old)) }

    // When a fault occurs.
    ensures known { IfErr result (λ f. f ≢ CoreFault.NoConnection) }
    ensures failed { IfErr result (λ f. f ≡ CoreFault.Failed → is_failed core.old ≡ true) }
    ensures memory { IfErr result (λ f. f ≡ CoreFault.Memory → is_failed core.new ≡ true) }
    ensures disk { IfErr result (λ f. f ≡ CoreFault.Disk → is_failed core.new ≡ true) }
    ensures cause { IfErr result (λ f. f ≡ CoreFault.Disk → T.failures (twin_of (store_of core.old)) < T.failures (twin_of (store_of core.new))) }
    ensures no_other { (IsErrOf result CoreFault.Disk → ⊥) → T.failures (twin_of (store_of core.new)) ≡ T.failures (twin_of (store_of core.old)) }
{
    match core.hold(event) {
        Ok(done) => {
            drop(done);
            Ok(())
        }
        Err(CoreFault::NoConnection) => Ok(()),
        Err(CoreFault::Memory) => Err(CoreFault::Memory),
        Err(CoreFault::Failed) => Err(CoreFault::Failed),
        Err(CoreFault::Disk) => Err(CoreFault::Disk),
    }
}

/// Handles groups of events, one after another: the events of a group are handled in order and their batches written together (`Core::hold`,
/// `Core::write_held`), and then all items that are put out are taken. With groups of one event each, every event is written by itself. It ends
/// at the first answer `Disk`, `Memory` or `Failed`, and with `Memory` if the list of items can't grow, before they are taken: the core is then as
/// its last call left it. A refused event (`NoConnection`) never ends it.
pub fn drive<T: Twin>(alloc: Global, core: &mut Core<T>, groups: Vec<Vec<Event>>) -> Driven
    // Without a fault all groups were handled.
    ensures ran { result.fault ≡ None → (t : List Entry) → Fits core.old t → (u : List Entry) × Run (id_of core.old) 0 t (events_of groups.items) result.taken.items u × Fits core.new u }
    ensures all { result.fault ≡ None → result.handled ≡ length groups.items }

    // With a fault, those before it were, and the items taken are those after them and after the group that met the fault.
    ensures stopped { IfSome result.fault (λ f. (t : List Entry) → Fits core.old t → Stopped (id_of core.old) t (events_of groups.items) result.handled result.taken.items) }
    ensures known { IfSome result.fault (λ f. (t : List Entry) → Fits core.old t → f ≢ CoreFault.NoConnection) }
    ensures failed { IfSome result.fault (λ f. f ≡ CoreFault.Failed → is_failed core.old ≡ true) }
    ensures memory { IfSome result.fault (λ f. f ≡ CoreFault.Memory → ((t : List Entry) → Fits core.new t → Waits t) ⊎ (is_failed core.new ≡ true)) }
    ensures disk { IfSome result.fault (λ f. f ≡ CoreFault.Disk → is_failed core.new ≡ true) }

    // The disk failed meanwhile exactly where the fault is `Disk`.
    ensures cause { IfSome result.fault (λ f. f ≡ CoreFault.Disk → T.failures (twin_of (store_of core.old)) < T.failures (twin_of (store_of core.new))) }
    ensures no_other { result.fault ≢ Some CoreFault.Disk → T.failures (twin_of (store_of core.new)) ≡ T.failures (twin_of (store_of core.old)) }

    // Whatever happens, a crash at any moment of the call leaves the book after some first groups, and some first events of the one that comes
    // next. Without a fault it leaves, at the end, the book after all of them.
    ensures any_moment { (t : List Entry) → Fits core.old t → Stands T.seen T.may_leave (store_of core.old)
        → LeavesOnly T.moment T.left_since (twin_of (store_of core.old)) (twin_of (store_of core.new)) (LeftBy (id_of core.old) t (events_of groups.items)) }
    // With a fault it leaves, at the end, the book after those that were handled, and some first events of the next one: after all of its events, if an
    // item was taken after it.
    ensures left { IfSome result.fault (λ f. (t : List Entry) → Fits core.old t → Stands T.seen T.may_leave (store_of core.old)
        → (contents : Contents) → T.may_leave (twin_of (store_of core.new)) contents → IsLeftAfter (id_of core.old) t (events_of groups.items) result.handled result.taken.items contents) }
    ensures stands { result.fault ≡ None → Stands T.seen T.may_leave (store_of core.old) → Stands T.seen T.may_leave (store_of core.new) }
{
    let mut taken = Vec::new(alloc);
    let mut handled = 0;
    for group in groups {
        match step(core, handled, group, &mut taken) {
            Ok(()) => {}
            Err(fault) => {
                return Driven {
                    fault: Some(fault),
                    handled,
                    taken,
                };
            }
        }
        handled += 1;
    }
    Driven {
        fault: None,
        handled,
        taken,
    }
}
