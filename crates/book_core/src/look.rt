//! Looking up in the places of a book's tables.
ghost use Rattle.std.specs.Prelude.{◌≡◌};
ghost use Rattle.std.specs.Option.{option_copied};
ghost use Rattle.std.specs.List.{list_any};
ghost use Rattle.book_model.specs.Book.{terminus_at, terminus_of, row_at, row_named, same_role, same_key, is_from, is_for, has_tag, is_wanted};
ghost use Rattle.book_core.specs.Keys.{AllKeyed};
ghost use Rattle.book_core.specs.Named.{AllNamed};
ghost use Rattle.book_core.specs.Rising.{Rises};
ghost use Rattle.book_core.specs.Slots.{rows_in, termini_in};

use crate::numbers::Numbers;
use crate::place::{row_place, terminus_place};
use crate::row_name::RowName;
use crate::slot::{RowSlot, TerminusSlot};
use amqp_model::DeliveryTag;
use book_model::{LinkKey, LinkRole, Row, Terminus, TerminusNumber};

/// The terminus with a number.
pub(crate) fn terminus(slots: &[TerminusSlot], number: TerminusNumber) -> Option<&Terminus>
    ensures { Rises (λ (s : TerminusSlot). s.number) slots.now → option_copied result ≡ terminus_at number.0 (termini_in slots.now) }
{
    match terminus_place(slots, number.0) {
        None => None,
        Some(at) => slots[at].terminus.as_ref(),
    }
}

/// The row with a number.
pub(crate) fn row(slots: &[RowSlot], number: u64) -> Option<&Row>
    ensures { Rises (λ (s : RowSlot). s.number) slots.now → option_copied result ≡ row_at number (rows_in slots.now) }
{
    match row_place(slots, number) {
        None => None,
        Some(at) => slots[at].row.as_ref(),
    }
}

/// The unforgotten row of this producer with this tag.
pub(crate) fn row_named<'a>(
    slots: &'a [RowSlot],
    names: &Numbers<RowName>,
    producer: TerminusNumber,
    tag: &DeliveryTag,
) -> Option<&'a Row>
    ensures { Rises (λ (s : RowSlot). s.number) slots.now → AllNamed names.now (rows_in slots.now) → option_copied result ≡ row_named producer.0 tag.now.items (rows_in slots.now) }
{
    let name = RowName::new(producer, tag);
    match row(slots, names.at(&name)) {
        None => None,
        Some(row) => {
            if is_named(row, producer, tag) {
                Some(row)
            } else {
                None
            }
        }
    }
}

/// Whether an unforgotten row of this producer has this tag.
pub(crate) fn has_named(
    slots: &[RowSlot],
    names: &Numbers<RowName>,
    producer: TerminusNumber,
    tag: &DeliveryTag,
) -> bool
    ensures { Rises (λ (s : RowSlot). s.number) slots.now → AllNamed names.now (rows_in slots.now) → result ≡ list_any (has_tag producer.0 tag.now.items) (rows_in slots.now) }
{
    row_named(slots, names, producer, tag).is_some()
}

/// The terminus of the link with this key.
pub(crate) fn terminus_with<'a>(
    slots: &'a [TerminusSlot],
    keys: &Numbers<LinkKey>,
    key: &LinkKey,
) -> Option<&'a Terminus>
    ensures { Rises (λ (s : TerminusSlot). s.number) slots.now → AllKeyed keys.now (termini_in slots.now) → option_copied result ≡ terminus_of key.now (termini_in slots.now) }
{
    let number = TerminusNumber(keys.at(key));
    match terminus(slots, number) {
        None => None,
        Some(terminus) => {
            if is_key(&terminus.key, key) {
                Some(terminus)
            } else {
                None
            }
        }
    }
}

/// Whether the link with this key has a terminus.
pub(crate) fn has_key(slots: &[TerminusSlot], keys: &Numbers<LinkKey>, key: &LinkKey) -> bool
    ensures { Rises (λ (s : TerminusSlot). s.number) slots.now → AllKeyed keys.now (termini_in slots.now) → result ≡ list_any (λ t. same_key t.key key.now) (termini_in slots.now) }
{
    terminus_with(slots, keys, key).is_some()
}

pub(crate) fn is_role(role: LinkRole, other: LinkRole) -> bool
    ensures { result ≡ same_role role other }
{
    match (role, other) {
        (LinkRole::Producer, LinkRole::Producer) => true,
        (LinkRole::Consumer, LinkRole::Consumer) => true,
        _ => false,
    }
}

pub(crate) fn is_key(key: &LinkKey, other: &LinkKey) -> bool
    ensures { result ≡ same_key key.now other.now }
{
    is_role(key.role, other.role)
        && key.user == other.user
        && key.container == other.container
        && key.name == other.name
}

/// Whether a row came on the link of this terminus.
pub(crate) fn came_from(row: &Row, terminus: TerminusNumber) -> bool
    ensures { result ≡ is_from terminus.0 row.now }
{
    row.producer.0 == terminus.0
}

/// Whether a row is bound to the link of this terminus.
pub(crate) fn is_bound_to(row: &Row, terminus: TerminusNumber) -> bool
    ensures { result ≡ is_for terminus.0 row.now }
{
    match row.consumer {
        None => false,
        Some(consumer) => consumer.0 == terminus.0,
    }
}

pub(crate) fn is_named(row: &Row, producer: TerminusNumber, tag: &DeliveryTag) -> bool
    ensures { result ≡ has_tag producer.0 tag.now.items row.now }
{
    came_from(row, producer) && !row.forgotten && row.tag == *tag
}

/// Whether a row came on the link of this terminus or is bound to it; any row if no terminus is given.
pub(crate) fn is_wanted_row(row: &Row, terminus: Option<TerminusNumber>) -> bool
    ensures { result ≡ is_wanted terminus row.now }
{
    match terminus {
        None => true,
        Some(terminus) => came_from(row, terminus) || is_bound_to(row, terminus),
    }
}
