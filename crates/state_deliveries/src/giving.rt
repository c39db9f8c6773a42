//! How an attach decides deliveries: its acts give their rows outcomes (AMQP 1.0 part 2, section 2.6.13).
ghost use Rattle.std.specs.Prelude.{◌≡◌, ◌∷◌, [], ℕ, OnOk};
ghost use Rattle.std.specs.Option.{option_and_then};
ghost use Rattle.state_collections.specs.NumberMap.{at_number};
ghost use Rattle.router_trace.specs.Deliveries.{giving};
ghost use Rattle.state_deliveries.specs.Fits.{Indexed};
ghost use Rattle.state_deliveries.specs.Giving.{after_acts, attaches, attaches_in, with_place};
ghost use Rattle.state_deliveries.specs.Stepping.{IsKept};
ghost use Rattle.state_deliveries.specs.Touching.{StoreTouches};

use crate::spots::Spot;
use crate::store::Store;
use amqp_model::{Item, Perf};
use book_model::Act;
use std::alloc::AllocError;

/// Gives deliveries the outcomes that these acts give their rows, if the item is an attach. Appends the places of the ids that are no longer needed: of
/// those that were undecided.
#[tactic(auto, using(crate::proofs::Touching::touches_self))]
pub(crate) fn give(
    store: &mut Store,
    item: &Item,
    acts: &[Act],
    places: &mut Vec<Spot>,
) -> Result<(), AllocError>
    ensures deliveries { OnOk result (((n : ℕ) → IsKept (at_number store.old.deliveries n)) → Indexed store.old
        → (n : ℕ) → at_number store.new.deliveries n ≡ after_acts (giving item.now acts.now) (at_number store.old.deliveries n)) }
    ensures indexed { OnOk result (Indexed store.old → Indexed store.new) }
    ensures touches { OnOk result (StoreTouches store.old store.new) }
{
    let attached = attaches(item);
    if !attached {
        return Ok(());
    }
    give_all(store, acts, places)?;
    Ok(())
}

/// Whether an item is an attach.
fn attaches(item: &Item) -> bool
    ensures { result ≡ attaches item.now }
{
    match item {
        Item::Frame { sasl, perf, .. } => !*sasl && attaches_in(perf),
        _ => false,
    }
}

/// Whether a performative is an attach.
fn attaches_in(perf: &Perf) -> bool
    ensures { result ≡ attaches_in perf.now }
{
    match perf {
        Perf::Attach(_) => true,
        _ => false,
    }
}

/// Gives deliveries the outcomes that acts give their rows: of several for one row, the first.
#[tactic(auto, using(crate::proofs::Touching::touches_self))]
fn give_all(store: &mut Store, acts: &[Act], places: &mut Vec<Spot>) -> Result<(), AllocError>
    ensures deliveries { OnOk result (((n : ℕ) → IsKept (at_number store.old.deliveries n)) → Indexed store.old
        → (n : ℕ) → at_number store.new.deliveries n ≡ after_acts acts.now (at_number store.old.deliveries n)) }
    ensures indexed { OnOk result (Indexed store.old → Indexed store.new) }
    ensures touches { OnOk result (StoreTouches store.old store.new) }
{
    for act in acts {
        give_one(store, act, places)?;
    }
    Ok(())
}

/// Gives a delivery the outcome that an act gives its row, if it gives one.
#[tactic(auto, using(crate::proofs::Touching::touches_self))]
fn give_one(store: &mut Store, act: &Act, places: &mut Vec<Spot>) -> Result<(), AllocError>
    ensures deliveries { OnOk result (((n : ℕ) → IsKept (at_number store.old.deliveries n)) → Indexed store.old
        → (n : ℕ) → at_number store.new.deliveries n ≡ after_acts (act.now ∷ []) (at_number store.old.deliveries n)) }
    ensures indexed { OnOk result (Indexed store.old → Indexed store.new) }
    ensures touches { OnOk result (StoreTouches store.old store.new) }
{
    match act {
        Act::Decide(decision) => {
            let place = store.give(decision)?;
            note(places, place)?;
            Ok(())
        }
        _ => Ok(()),
    }
}

/// Appends a place, if there is one.
fn note(places: &mut Vec<Spot>, place: Option<Spot>) -> Result<(), AllocError>
    ensures { OnOk result (places.new.items ≡ with_place places.old.items place) }
{
    if let Some(place) = place {
        places.push(place)?;
    }
    Ok(())
}
