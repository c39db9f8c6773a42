//! The name of a delivery, as long as it isn't forgotten.
ghost use Rattle.std.specs.Prelude.{◌≡◌, OnOk, if◌then◌else◌};
ghost use Rattle.std.specs.BTreeMap.{get};
ghost use Rattle.std.specs.Ordering.{is_eq};
ghost use Rattle.book_core.specs.Named.{name_cmp};
ghost use Rattle.book_core.specs.Numbers.{number_at, earlier};

use crate::numbers::Numbers;
use amqp_model::DeliveryTag;
use book_model::TerminusNumber;
use std::alloc::AllocError;

/// The terminus of the link on which a delivery came, and its delivery-tag. Names are ordered by these.
#[derive(PartialEq, Eq, PartialOrd, Ord, Drop)]
pub(crate) struct RowName {
    producer: u64,
    tag: DeliveryTag,
}

impl RowName {
    /// It allocates nothing.
    pub(crate) fn new(producer: TerminusNumber, tag: &DeliveryTag) -> RowName
        ensures producer { result.producer ≡ producer.0 }
        ensures tag { result.tag ≡ tag.now }
    {
        RowName {
            producer: producer.0,
            tag: tag.clone().unwrap(),
        }
    }
}

/// Sets the number of the row that has a name: 0 if none has it.
pub(crate) fn set_name(
    names: &mut Numbers<RowName>,
    producer: TerminusNumber,
    tag: &DeliveryTag,
    number: u64,
) -> Result<(), AllocError>
    ensures set { OnOk result ((q : RowName) → number_at name_cmp names.new q ≡ (if is_eq (name_cmp (record { producer = producer.0; tag = tag.now }) q) then number else number_at name_cmp names.old q)) }
    ensures was { earlier name_cmp names.new.log.items (get name_cmp names.new.numbers) ≡ earlier name_cmp names.old.log.items (get name_cmp names.old.numbers) }
{
    let name = RowName::new(producer, tag);
    let copy = RowName::new(producer, tag);
    names.set(name, copy, number)
}
