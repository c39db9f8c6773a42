//! What happens to the rows of a producer's durable link that is attached again.
ghost use Rattle.std.specs.Prelude.{◌≡◌, ◌++◌, ◌∷◌, [], filter, IfOk, OnOk};
ghost use Rattle.std.specs.Option.{option_copied};
ghost use Rattle.book_core.specs.Rows.{rows_left};
ghost use Rattle.book_model.specs.Book.{is_from};
ghost use Rattle.resume_core.specs.Resuming.{entries_of, forgotten_rows, producer_map, due_tags};

use crate::entry::{add, map_entry};
use crate::peer_map::{PeerMap, copy_tag};
use amqp_model::{DeliveryTag, Unsettled, UnsettledDelivery};
use book_core::Rows;
use book_model::{Row, RowNumber, TerminusNumber};
use std::alloc::{AllocError, Global};

/// What an attach does to the rows of a producer's terminus.
#[derive(Debug, Drop)]
pub struct ProducerPlan {
    /// The rows that it forgets, by number: the producer has settled them.
    pub forgotten: Vec<RowNumber>,
    /// The router's map: the deliveries that are unsettled after it, by row number (AMQP 1.0 part 2, section 2.7.3).
    pub map: Vec<UnsettledDelivery>,
    /// Of these the tags that the producer's map has too: the producer may resume them. By row number.
    pub due: Vec<DeliveryTag>,
}

/// What a producer's attach does to the rows that came from its terminus, of these, as they stand before it: by
/// `unsettled`, the map of the attach (None: null), which is `complete` unless the attach sets incomplete-unsettled.
///
/// # Errors
///
/// `AllocError` if memory was refused.
pub fn producer_plan(
    alloc: Global,
    terminus: TerminusNumber,
    rows: Rows<'_>,
    unsettled: Option<&Unsettled>,
    complete: bool,
) -> Result<ProducerPlan, AllocError>
    ensures forgotten { IfOk result (λ plan. plan.forgotten.items ≡ forgotten_rows complete (entries_of (option_copied unsettled.entry)) (filter (is_from terminus.0) (rows_left rows.entry))) }
    ensures mapped { IfOk result (λ plan. plan.map.items ≡ producer_map complete (entries_of (option_copied unsettled.entry)) (filter (is_from terminus.0) (rows_left rows.entry))) }
    ensures due { IfOk result (λ plan. plan.due.items ≡ due_tags complete (entries_of (option_copied unsettled.entry)) (filter (is_from terminus.0) (rows_left rows.entry))) }
{
    let peer = PeerMap::new(alloc, unsettled)?;
    let mut plan = ProducerPlan::new(alloc);
    for row in rows {
        plan.add(terminus, &peer, complete, row)?;
    }
    Ok(plan)
}

impl ProducerPlan {
    /// Without rows.
    fn new(alloc: Global) -> ProducerPlan
        ensures forgotten { result.forgotten.items ≡ [] }
        ensures mapped { result.map.items ≡ [] }
        ensures due { result.due.items ≡ [] }
    {
        ProducerPlan {
            forgotten: Vec::new(alloc),
            map: Vec::new(alloc),
            due: Vec::new(alloc),
        }
    }

    /// Adds what happens to a row, if it came from the terminus.
    fn add(
        &mut self,
        terminus: TerminusNumber,
        peer: &PeerMap<'_>,
        complete: bool,
        row: &Row,
    ) -> Result<(), AllocError>
        ensures forgotten { OnOk result (self.new.forgotten.items ≡ self.old.forgotten.items ++ forgotten_rows complete peer.now (filter (is_from terminus.0) (row.now ∷ []))) }
        ensures mapped { OnOk result (self.new.map.items ≡ self.old.map.items ++ producer_map complete peer.now (filter (is_from terminus.0) (row.now ∷ []))) }
        ensures due { OnOk result (self.new.due.items ≡ self.old.due.items ++ due_tags complete peer.now (filter (is_from terminus.0) (row.now ∷ []))) }
    {
        if is_from(row, terminus) {
            self.add_sent(peer, complete, row)
        } else {
            Ok(())
        }
    }

    /// Adds what happens to a row of the terminus.
    fn add_sent(&mut self, peer: &PeerMap<'_>, complete: bool, row: &Row) -> Result<(), AllocError>
        ensures forgotten { OnOk result (self.new.forgotten.items ≡ self.old.forgotten.items ++ forgotten_rows complete peer.now (row.now ∷ [])) }
        ensures mapped { OnOk result (self.new.map.items ≡ self.old.map.items ++ producer_map complete peer.now (row.now ∷ [])) }
        ensures due { OnOk result (self.new.due.items ≡ self.old.due.items ++ due_tags complete peer.now (row.now ∷ [])) }
    {
        if row.forgotten {
            return Ok(());
        }
        let told = peer.entry(&row.tag).is_some();
        if complete && !told {
            return add(&mut self.forgotten, row.number);
        }
        let entry = map_entry(copy_tag(&row.tag)?, row.outcome.as_ref())?;
        add(&mut self.map, entry)?;
        if told {
            add(&mut self.due, copy_tag(&row.tag)?)?;
        }
        Ok(())
    }
}

/// Whether a row came from a terminus.
fn is_from(row: &Row, terminus: TerminusNumber) -> bool
    ensures { result ≡ is_from terminus.0 row.now }
{
    row.producer.0 == terminus.0
}
