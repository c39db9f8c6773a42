//! How a peer's disposition changes the deliveries of a table, and which of its ids are forgotten.
ghost use Rattle.std.specs.Prelude.{◌≡◌, if◌then◌else◌, ℕ, OnOk, false};
ghost use Rattle.std.specs.List.{list_any};
ghost use Rattle.state_collections.specs.NumberMap.{at_number};
ghost use Rattle.state_deliveries.specs.Fits.{Indexed};
ghost use Rattle.state_deliveries.specs.Hearing.{heard_by, done_to, picks, id_of};
ghost use Rattle.state_deliveries.specs.Indexing.{is_by_place};
ghost use Rattle.state_deliveries.specs.Naming.{AreSmall, Forgets};
ghost use Rattle.state_collections.specs.Ids.{at_id};
ghost use Rattle.state_deliveries.specs.Stepping.{IsKept, after_change};
ghost use Rattle.state_deliveries.specs.Touching.{StoreTouches};

use crate::change::Change;
use crate::names::Names;
use crate::spots::Spot;
use crate::store::Store;
use amqp_session::Serial;
use std::alloc::AllocError;

/// Applies a change to the deliveries, if there is one. Ids of those that it decides are forgotten.
#[tactic(auto, using(crate::proofs::Touching::touches_self, crate::proofs::Forgotten::stays))]
pub(crate) fn hear(
    store: &mut Store,
    names: &mut Names,
    change: Option<Change>,
) -> Result<(), AllocError>
    ensures deliveries { OnOk result (((n : ℕ) → IsKept (at_number store.old.deliveries n)) → Indexed store.old → AreSmall (at_id names.old.ids)
        → (n : ℕ) → at_number store.new.deliveries n ≡ heard_by change (at_id names.old.ids) n (at_number store.old.deliveries n)) }
    ensures names { OnOk result ((c o id : ℕ) → Forgets (at_number store.new.deliveries) (at_id names.new.ids c o id) (at_id names.old.ids c o id)) }
    ensures indexed { OnOk result (Indexed store.old → Indexed store.new) }
    ensures touches { OnOk result (StoreTouches store.old store.new) }
{
    match change {
        None => Ok(()),
        Some(change) => hear_one(store, names, &change),
    }
}

/// Applies a change to the deliveries. A decision of one id alone looks that id up, and no list is made.
fn hear_one(store: &mut Store, names: &mut Names, change: &Change) -> Result<(), AllocError>
    ensures deliveries { OnOk result (((n : ℕ) → IsKept (at_number store.old.deliveries n)) → Indexed store.old → AreSmall (at_id names.old.ids)
        → (n : ℕ) → at_number store.new.deliveries n ≡ done_to change.now (at_id names.old.ids) n (at_number store.old.deliveries n)) }
    ensures names { OnOk result ((c o id : ℕ) → Forgets (at_number store.new.deliveries) (at_id names.new.ids c o id) (at_id names.old.ids c o id)) }
    ensures indexed { OnOk result (Indexed store.old → Indexed store.new) }
    ensures touches { OnOk result (StoreTouches store.old store.new) }
{
    match change {
        Change::Decided {
            conn,
            own,
            first,
            last,
            ..
        } => {
            if *first == *last {
                let place = Spot {
                    conn: *conn,
                    own: *own,
                    at: *first,
                };
                return decide(store, names, place, change);
            }
            let ids = names.in_range(*conn, *own, *first, *last)?;
            decide_all(store, names, *conn, *own, ids.as_slice(), change)
        }
        _ => store.apply(change),
    }
}

/// Applies a decision to the deliveries that these ids of a session name, one after another.
#[tactic(auto, using(crate::proofs::Touching::touches_self))]
fn decide_all(
    store: &mut Store,
    names: &mut Names,
    conn: u64,
    own: u16,
    ids: &[Serial],
    change: &Change,
) -> Result<(), AllocError>
    ensures deliveries { OnOk result (is_by_place change.now ≡ false → ((n : ℕ) → IsKept (at_number store.old.deliveries n)) → (n : ℕ) → at_number store.new.deliveries n
        ≡ (if list_any (picks (at_id names.old.ids conn own) n (id_of (at_number store.old.deliveries n))) ids.now then after_change change.now (at_number store.old.deliveries n) else at_number store.old.deliveries n)) }
    ensures names { OnOk result ((c o id : ℕ) → Forgets (at_number store.new.deliveries) (at_id names.new.ids c o id) (at_id names.old.ids c o id)) }
    ensures indexed { OnOk result (Indexed store.old → Indexed store.new) }
    ensures touches { OnOk result (StoreTouches store.old store.new) }
{
    for id in ids {
        let at = id.number();
        decide(store, names, Spot { conn, own, at }, change)?;
    }
    Ok(())
}

/// Applies a decision to the delivery that the id at a place names, if there is one, and forgets the id if the delivery
/// isn't undecided after it.
#[tactic(auto, using(crate::proofs::Touching::touches_self))]
fn decide(
    store: &mut Store,
    names: &mut Names,
    place: Spot,
    change: &Change,
) -> Result<(), AllocError>
    ensures deliveries { OnOk result ((n : ℕ) → at_number store.new.deliveries n
        ≡ (if picks (at_id names.old.ids place.conn place.own) n (id_of (at_number store.old.deliveries n)) place.at then after_change change.now (at_number store.old.deliveries n) else at_number store.old.deliveries n)) }
    ensures names { OnOk result ((c o id : ℕ) → Forgets (at_number store.new.deliveries) (at_id names.new.ids c o id) (at_id names.old.ids c o id)) }
    ensures indexed { OnOk result (Indexed store.old → Indexed store.new) }
    ensures touches { OnOk result (StoreTouches store.old store.new) }
{
    let Some(number) = names.picked(store, place) else {
        return Ok(());
    };
    store.change(number, change)?;
    names.forget_closed(store, place, number);
    Ok(())
}
