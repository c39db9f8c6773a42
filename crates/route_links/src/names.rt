//! The maps of a link's ids.
ghost use Rattle.std.specs.Prelude.{◌≡◌, ◌==◌, ◌<◌, ◌^◌, ◌++◌, ℕ, None, Some, if◌then◌else◌, true, false, option_map, option_and_then, option_to_list, map, IfOk, OnOk, OnErr};
ghost use Rattle.std.specs.List.{filter_map};
ghost use Rattle.std.specs.Ordering.{nat_cmp};
ghost use Rattle.std.specs.BTreeMap.{get};
ghost use Rattle.route_links.specs.Naming.{unless, unless_over, released, going_under, if_unsettled};
ghost use Rattle.route_links.specs.Named.{ids_of};

use crate::ids::Known;
use crate::passing::StartNumber;
use amqp_session::{DeliveryIds, Serial};
use std::alloc::{AllocError, Global};
use std::collections::BTreeMap;

/// What is known of the deliveries of a link, by number.
pub(crate) type Deliveries = BTreeMap<u64, Known>;

/// Stores what is known of a delivery. An error changes nothing.
pub(crate) fn insert(
    deliveries: &mut Deliveries,
    number: u64,
    known: Known,
) -> Result<(), AllocError>
    ensures ok { OnOk result ((q : ℕ) → get nat_cmp deliveries.new q ≡ (if number == q then Some known else get nat_cmp deliveries.old q)) }
    ensures err { OnErr result ((q : ℕ) → get nat_cmp deliveries.new q ≡ get nat_cmp deliveries.old q) }
{
    match deliveries.insert(number, known) {
        Ok(_before) => Ok(()),
        Err(_) => Err(AllocError),
    }
}

/// Puts this in the place of what is known of a delivery, if anything is.
pub(crate) fn change(deliveries: &mut Deliveries, number: u64, known: Known)
    ensures { (q : ℕ) → get nat_cmp deliveries.new q ≡ (if number == q then option_map (λ _. known) (get nat_cmp deliveries.old q) else get nat_cmp deliveries.old q) }
{
    if let Some(place) = deliveries.get_mut(&number) {
        *place = known;
    }
}

/// Puts this in the place of what is known of a delivery, if anything is; forgets the delivery where that is over.
pub(crate) fn keep(deliveries: &mut Deliveries, number: u64, known: Known)
    ensures { (q : ℕ) → get nat_cmp deliveries.new q ≡ (if number == q then option_and_then (λ _. unless_over known) (get nat_cmp deliveries.old q) else get nat_cmp deliveries.old q) }
{
    if known.is_over() {
        remove(deliveries, number);
        return;
    }
    change(deliveries, number, known);
}

/// Forgets a delivery.
fn remove(deliveries: &mut Deliveries, number: u64)
    ensures { (q : ℕ) → get nat_cmp deliveries.new q ≡ (if number == q then None else get nat_cmp deliveries.old q) }
{
    deliveries.remove(&number);
}

/// Lets an id name this delivery. An error changes nothing.
pub(crate) fn name(numbers: &mut DeliveryIds<u64>, id: u32, number: u64) -> Result<(), AllocError>
    ensures ok { OnOk result ((q : ℕ) → get nat_cmp numbers.new.deliveries q ≡ (if id == q then Some number else get nat_cmp numbers.old.deliveries q)) }
    ensures err { OnErr result ((q : ℕ) → get nat_cmp numbers.new.deliveries q ≡ get nat_cmp numbers.old.deliveries q) }
{
    numbers.insert(Serial::new(id), number)?;
    Ok(())
}

/// Lets an id name nothing.
pub(crate) fn free(numbers: &mut DeliveryIds<u64>, id: u32)
    ensures { (q : ℕ) → get nat_cmp numbers.new.deliveries q ≡ (if id == q then None else get nat_cmp numbers.old.deliveries q) }
{
    numbers.remove(Serial::new(id));
}

/// Lets the id of this delivery, if it has one, name it no longer.
pub(crate) fn release_any(numbers: &mut DeliveryIds<u64>, id: Option<u32>, number: u64)
    ensures { (q : ℕ) → get nat_cmp numbers.new.deliveries q ≡ released id number q (get nat_cmp numbers.old.deliveries q) }
{
    match id {
        None => {}
        Some(id) => release(numbers, id, number),
    }
}

/// Lets an id name nothing, if it names this delivery.
pub(crate) fn release(numbers: &mut DeliveryIds<u64>, id: u32, number: u64)
    ensures { (q : ℕ) → get nat_cmp numbers.new.deliveries q ≡ (if id == q then unless number (get nat_cmp numbers.old.deliveries q) else get nat_cmp numbers.old.deliveries q) }
{
    if names(numbers, id, number) {
        free(numbers, id);
    }
}

/// Whether an id names this delivery.
fn names(numbers: &DeliveryIds<u64>, id: u32, number: u64) -> bool
    ensures yes { result ≡ true → get nat_cmp numbers.now.deliveries id ≡ Some number }
    ensures not { result ≡ false → unless number (get nat_cmp numbers.now.deliveries id) ≡ get nat_cmp numbers.now.deliveries id }
{
    match numbers.get(Serial::new(id)) {
        None => false,
        Some(found) => number == *found,
    }
}

/// Notes a delivery that came, and lets its id name it. An error changes nothing, if nothing was known of it.
pub(crate) fn add(
    deliveries: &mut Deliveries,
    numbers: &mut DeliveryIds<u64>,
    number: u64,
    known: Known,
) -> Result<(), AllocError>
    ensures deliveries { OnOk result ((q : ℕ) → get nat_cmp deliveries.new q ≡ (if number == q then Some known else get nat_cmp deliveries.old q)) }
    ensures numbers { OnOk result ((q : ℕ) → get nat_cmp numbers.new.deliveries q ≡ (if known.id_in == q then Some number else get nat_cmp numbers.old.deliveries q)) }
    ensures deliveries_err { OnErr result (get nat_cmp deliveries.old number ≡ None → (q : ℕ) → get nat_cmp deliveries.new q ≡ get nat_cmp deliveries.old q) }
    ensures numbers_err { OnErr result ((q : ℕ) → get nat_cmp numbers.new.deliveries q ≡ get nat_cmp numbers.old.deliveries q) }
{
    insert(deliveries, number, known)?;
    match name(numbers, known.id_in, number) {
        Ok(()) => Ok(()),
        Err(AllocError) => {
            remove(deliveries, number);
            Err(AllocError)
        }
    }
}

/// Notes that a delivery goes under this id, which names it then, if it is unsettled. An error changes nothing.
pub(crate) fn pass(
    deliveries: &mut Deliveries,
    numbers: &mut DeliveryIds<u64>,
    number: u64,
    id: u32,
) -> Result<(), AllocError>
    ensures deliveries { OnOk result ((q : ℕ) → get nat_cmp deliveries.new q ≡ (if number == q then option_map (going_under id) (get nat_cmp deliveries.old q) else get nat_cmp deliveries.old q)) }
    ensures numbers { OnOk result ((q : ℕ) → get nat_cmp numbers.new.deliveries q ≡ (if id == q then if_unsettled number (get nat_cmp deliveries.old number) else get nat_cmp numbers.old.deliveries q)) }
    ensures deliveries_err { OnErr result ((q : ℕ) → get nat_cmp deliveries.new q ≡ get nat_cmp deliveries.old q) }
    ensures numbers_err { OnErr result ((q : ℕ) → get nat_cmp numbers.new.deliveries q ≡ get nat_cmp numbers.old.deliveries q) }
{
    let Some(known) = deliveries.get(&number).copied() else {
        free(numbers, id);
        return Ok(());
    };
    name_unsettled(numbers, id, number, known)?;
    let going = Known {
        id_out: Some(id),
        ..known
    };
    change(deliveries, number, going);
    Ok(())
}

/// Lets an id name this delivery, if it is unsettled, else nothing. An error changes nothing.
fn name_unsettled(
    numbers: &mut DeliveryIds<u64>,
    id: u32,
    number: u64,
    known: Known,
) -> Result<(), AllocError>
    ensures ok { OnOk result ((q : ℕ) → get nat_cmp numbers.new.deliveries q ≡ (if id == q then if_unsettled number (Some known) else get nat_cmp numbers.old.deliveries q)) }
    ensures err { OnErr result ((q : ℕ) → get nat_cmp numbers.new.deliveries q ≡ get nat_cmp numbers.old.deliveries q) }
{
    if known.is_unsettled {
        return name(numbers, id, number);
    }
    free(numbers, id);
    Ok(())
}

/// The deliveries that the ids of a disposition name, in the order of these.
pub(crate) fn numbers(
    alloc: Global,
    by_id: &DeliveryIds<u64>,
    first: u32,
    last: u32,
) -> Result<Vec<StartNumber>, AllocError>
    ensures { IfOk result (λ ns. map (λ n. n.0) ns.items ≡ filter_map (get nat_cmp by_id.now.deliveries) (ids_of first last)) }
{
    let ids = by_id.in_range(alloc, Serial::new(first), Serial::new(last))?;
    let mut numbers = Vec::new(alloc);
    for id in &ids {
        append(&mut numbers, by_id, *id)?;
    }
    Ok(numbers)
}

/// Appends the delivery that this id names, if it names one.
fn append(
    numbers: &mut Vec<StartNumber>,
    by_id: &DeliveryIds<u64>,
    id: Serial,
) -> Result<(), AllocError>
    ensures small { id < 2 ^ 32 }
    ensures appended { OnOk result (map (λ n. n.0) numbers.new.items ≡ map (λ n. n.0) numbers.old.items ++ option_to_list (get nat_cmp by_id.now.deliveries id)) }
{
    if let Some(number) = by_id.get(id) {
        numbers.push(StartNumber(*number))?;
    }
    Ok(())
}
