//! What happens to the rows of a consumer's durable link that is attached again.
ghost use Rattle.std.specs.Prelude.{◌≡◌, ◌++◌, ◌∷◌, [], filter, option_map, IfOk, OnOk};
ghost use Rattle.std.specs.Option.{is_some, option_copied};
ghost use Rattle.book_core.specs.Rows.{rows_left};
ghost use Rattle.book_model.specs.Book.{is_for};
ghost use Rattle.resume_core.specs.Resuming.{entries_of, decisions, consumer_map, sendings, told_of, outcome_told, outcome_given, decided_by, outcome_after, either_outcome, listed_entry, resumed_as, decision_of, consumer_entry, sending_as, sending_of};

use crate::entry::{add, map_entry};
use crate::peer_map::PeerMap;
use amqp_model::{DeliveryState, DeliveryTag, Unsettled, UnsettledDelivery, copy_state};
use book_core::Rows;
use book_model::{Decision, Row, RowNumber, TerminusNumber};
use bytes::Bytes;
use reply_frames::{kept_outcome, tag_of};
use router_trace::{DeliveryName, Resumed};
use std::alloc::{AllocError, Global};

/// What is sent of a row.
#[derive(Debug, Drop)]
pub struct Sending {
    /// The row.
    pub row: RowNumber,
    /// How it is sent.
    pub how: Resumed,
    /// The format of its message (AMQP 1.0 part 2, section 2.8.11).
    pub format: u32,
    /// Its message.
    pub payload: Bytes,
}

/// What an attach does to the rows of a consumer's terminus.
#[derive(Debug, Drop)]
pub struct ConsumerPlan {
    /// The rows that it decides, by number, with their outcomes as the router keeps them.
    pub decisions: Vec<Decision>,
    /// The router's map: the deliveries that are undecided after it, and those that the consumer's map has too, by row number
    /// (AMQP 1.0 part 2, section 2.7.3).
    pub map: Vec<UnsettledDelivery>,
    /// What is sent, by row number.
    pub sendings: Vec<Sending>,
}

/// What a consumer's attach does to the rows that are bound to its terminus, of these, as they stand before it: by
/// `unsettled`, the map of the attach (None: null), which is `complete` unless the attach sets incomplete-unsettled.
///
/// # Errors
///
/// `AllocError` if memory was refused.
pub fn consumer_plan(
    alloc: Global,
    terminus: TerminusNumber,
    rows: Rows<'_>,
    unsettled: Option<&Unsettled>,
    complete: bool,
) -> Result<ConsumerPlan, AllocError>
    ensures decided { IfOk result (λ plan. plan.decisions.items ≡ decisions (entries_of (option_copied unsettled.entry)) (filter (is_for terminus.0) (rows_left rows.entry))) }
    ensures mapped { IfOk result (λ plan. plan.map.items ≡ consumer_map (entries_of (option_copied unsettled.entry)) (filter (is_for terminus.0) (rows_left rows.entry))) }
    ensures sent { IfOk result (λ plan. plan.sendings.items ≡ sendings complete (entries_of (option_copied unsettled.entry)) (filter (is_for terminus.0) (rows_left rows.entry))) }
{
    let peer = PeerMap::new(alloc, unsettled)?;
    let mut plan = ConsumerPlan::new(alloc);
    for row in rows {
        plan.add(alloc, terminus, &peer, complete, row)?;
    }
    Ok(plan)
}

impl ConsumerPlan {
    /// Without rows.
    pub fn new(alloc: Global) -> ConsumerPlan
        ensures decided { result.decisions.items ≡ [] }
        ensures mapped { result.map.items ≡ [] }
        ensures sent { result.sendings.items ≡ [] }
    {
        ConsumerPlan {
            decisions: Vec::new(alloc),
            map: Vec::new(alloc),
            sendings: Vec::new(alloc),
        }
    }

    /// Adds what happens to a row, if it is bound to the terminus.
    fn add(
        &mut self,
        alloc: Global,
        terminus: TerminusNumber,
        peer: &PeerMap<'_>,
        complete: bool,
        row: &Row,
    ) -> Result<(), AllocError>
        ensures decided { OnOk result (self.new.decisions.items ≡ self.old.decisions.items ++ decisions peer.now (filter (is_for terminus.0) (row.now ∷ []))) }
        ensures mapped { OnOk result (self.new.map.items ≡ self.old.map.items ++ consumer_map peer.now (filter (is_for terminus.0) (row.now ∷ []))) }
        ensures sent { OnOk result (self.new.sendings.items ≡ self.old.sendings.items ++ sendings complete peer.now (filter (is_for terminus.0) (row.now ∷ []))) }
    {
        if is_for(row, terminus) {
            self.add_bound(alloc, peer, complete, row)
        } else {
            Ok(())
        }
    }

    /// Adds what happens to a row of the terminus.
    fn add_bound(
        &mut self,
        alloc: Global,
        peer: &PeerMap<'_>,
        complete: bool,
        row: &Row,
    ) -> Result<(), AllocError>
        ensures decided { OnOk result (self.new.decisions.items ≡ self.old.decisions.items ++ decisions peer.now (row.now ∷ [])) }
        ensures mapped { OnOk result (self.new.map.items ≡ self.old.map.items ++ consumer_map peer.now (row.now ∷ [])) }
        ensures sent { OnOk result (self.new.sendings.items ≡ self.old.sendings.items ++ sendings complete peer.now (row.now ∷ [])) }
    {
        let tag = tag_of(DeliveryName::Row(row.number));
        let told = peer.entry(&tag);
        let given = outcome_given(alloc, told, row.outcome.as_ref())?;
        let outcome = row.outcome.as_ref().or(given.as_ref());
        if let Some(entry) = listed_entry(tag, told.is_some(), outcome)? {
            add(&mut self.map, entry)?;
        }
        if let Some(how) = resumed_as(complete, told.is_some(), outcome)? {
            add(&mut self.sendings, sending_as(row, how)?)?;
        }
        if let Some(outcome) = given {
            add(
                &mut self.decisions,
                Decision {
                    row: row.number,
                    outcome,
                },
            )?;
        }
        Ok(())
    }
}

/// Whether a row is bound to a terminus.
fn is_for(row: &Row, terminus: TerminusNumber) -> bool
    ensures { result ≡ is_for terminus.0 row.now }
{
    match row.consumer {
        None => false,
        Some(consumer) => consumer.0 == terminus.0,
    }
}

/// The outcome that an entry of the peer's map gives a row, as the router keeps it; none if the row is decided.
fn outcome_given(
    alloc: Global,
    told: Option<&UnsettledDelivery>,
    outcome: Option<&DeliveryState>,
) -> Result<Option<DeliveryState>, AllocError>
    ensures { IfOk result (λ given. given ≡ outcome_given (option_copied told.entry) (option_copied outcome.entry)) }
{
    if outcome.is_some() {
        return Ok(None);
    }
    match outcome_told(told) {
        None => Ok(None),
        Some(outcome) => Ok(Some(kept_outcome(alloc, outcome)?)),
    }
}

/// The outcome that an entry gives: its state, if that is terminal.
fn outcome_told(told: Option<&UnsettledDelivery>) -> Option<&DeliveryState>
    ensures { option_copied result ≡ outcome_told (option_copied told.entry) }
{
    match &told?.state {
        None => None,
        Some(DeliveryState::Received(_)) => None,
        Some(DeliveryState::Other(_)) => None,
        Some(outcome) => Some(outcome),
    }
}

/// The entry of the router's map for a row: if it is undecided, or the peer's map has it.
fn listed_entry(
    tag: DeliveryTag,
    told: bool,
    outcome: Option<&DeliveryState>,
) -> Result<Option<UnsettledDelivery>, AllocError>
    ensures { IfOk result (λ entry. entry ≡ listed_entry tag.items told (option_copied outcome.entry)) }
{
    if !told && outcome.is_some() {
        return Ok(None);
    }
    Ok(Some(map_entry(tag, outcome)?))
}

/// How a row is sent.
fn resumed_as(
    complete: bool,
    told: bool,
    outcome: Option<&DeliveryState>,
) -> Result<Option<Resumed>, AllocError>
    ensures { IfOk result (λ how. how ≡ resumed_as complete told (option_copied outcome.entry)) }
{
    match (told, outcome) {
        (true, Some(outcome)) => Ok(Some(Resumed::Settled(copy_state(outcome)?))),
        (true, None) => Ok(Some(Resumed::Again)),
        (false, Some(_)) => Ok(None),
        (false, None) if complete => Ok(Some(Resumed::Anew)),
        (false, None) => Ok(Some(Resumed::Kept)),
    }
}

/// What is sent of a row in this way; its message is shared.
fn sending_as(row: &Row, how: Resumed) -> Result<Sending, AllocError>
    ensures { IfOk result (λ sending. sending ≡ sending_as row.now how) }
{
    match row.payload.clone() {
        Ok(payload) => Ok(Sending {
            row: row.number,
            how,
            format: row.format,
            payload,
        }),
        Err(error) => {
            drop(how);
            Err(error)
        }
    }
}
