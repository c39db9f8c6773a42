//! Outcomes as the router keeps them, and the dispositions that report them.
ghost use Rattle.std.specs.Prelude.{◌≡◌, length, option_map, true, if◌then◌else◌, IfOk, IsOk, OnOk};
ghost use Rattle.amqp_model.specs.Copies.{is_plain};
ghost use Rattle.amqp_model.specs.PerfSpelling.{state_spelling};
ghost use Rattle.router_trace.specs.DeliveryFrames.{kept_condition, kept_error, undescribed, without_info, bare, unless_long, kept_outcome, outcome_item};

use amqp_model::{
    Boxed, DeliveryState, Disposition, Fault, Item, Perf, Rejected, Role, Symbol, copy_state,
};
use amqp_perf::write_state;
use bytes::Bytes;
use std::alloc::{AllocError, Global};

/// The longest error condition that the router keeps, in bytes.
const MAX_CONDITION: usize = 128;

/// The longest outcome that the router keeps with its info or annotations, in bytes.
const MAX_OUTCOME: usize = 400;

/// The condition that replaces one that is too long (AMQP 1.0 part 2, section 2.8.15).
const INTERNAL_ERROR: &str = "amqp:internal-error";

/// The router's disposition of one delivery with this outcome, which settles it or not (AMQP 1.0 part 2, section 2.7.6).
///
/// # Errors
///
/// `AllocError` if memory was refused; an outcome that holds no memory takes none.
pub fn outcome_item(
    alloc: Global,
    own: u16,
    role: Role,
    id: u32,
    settled: bool,
    state: &DeliveryState,
) -> Result<Item, AllocError>
    ensures item { IfOk result (λ item. item ≡ outcome_item own role id settled state.now) }
    ensures plain { is_plain state.now ≡ true → IsOk result }
{
    let kept = kept_outcome(alloc, state)?;
    Ok(Item::Frame {
        sasl: false,
        channel: own,
        perf: Perf::Disposition(Disposition {
            role,
            first: id,
            last: None,
            settled,
            state: Some(kept),
            batchable: false,
        }),
        payload: Bytes::new(),
    })
}

/// An outcome as the router keeps it: an error has no description and a short condition, and a long outcome no info and no
/// annotations.
///
/// # Errors
///
/// `AllocError` if memory was refused; an outcome that holds no memory takes none.
#[tactic(auto, using(crate::proofs::Plain::plain_undescribed))]
pub fn kept_outcome(alloc: Global, state: &DeliveryState) -> Result<DeliveryState, AllocError>
    ensures kept { IfOk result (λ kept. kept ≡ kept_outcome state.now) }
    ensures plain { is_plain state.now ≡ true → IsOk result }
{
    let mut kept = undescribed(alloc, state)?;
    if is_long(alloc, &kept)? {
        make_bare(alloc, &mut kept)?;
    }
    Ok(kept)
}

/// Whether an outcome is so long that it is kept without its info or annotations.
#[tactic(auto, using(crate::proofs::Either::either))]
fn is_long(alloc: Global, state: &DeliveryState) -> Result<bool, AllocError>
    ensures long { IfOk result (λ long. (if long then bare state.now else state.now) ≡ unless_long state.now) }
    ensures plain { is_plain state.now ≡ true → IsOk result }
{
    match state {
        DeliveryState::Rejected(_) => Ok(MAX_OUTCOME < state_len(alloc, state)?),
        DeliveryState::Modified(_) => Ok(MAX_OUTCOME < state_len(alloc, state)?),
        _ => Ok(false),
    }
}

/// The length of a delivery state's encoding, in bytes.
fn state_len(alloc: Global, state: &DeliveryState) -> Result<usize, AllocError>
    ensures { IfOk result (λ len. len ≡ length (state_spelling state.now)) }
{
    let mut text = Vec::new(alloc);
    write_state(alloc, state, &mut text)?;
    Ok(text.len())
}

/// A copy of an outcome, without the description of its error.
fn undescribed(alloc: Global, state: &DeliveryState) -> Result<DeliveryState, AllocError>
    ensures made { IfOk result (λ made. made ≡ undescribed state.now) }
    ensures plain { is_plain state.now ≡ true → IsOk result }
{
    match state {
        DeliveryState::Rejected(rejected) => Ok(DeliveryState::Rejected(Rejected {
            error: kept_cause(alloc, &rejected.error)?,
        })),
        _ => copy_state(state),
    }
}

/// An error as the router keeps it, if there is one.
fn kept_cause(
    alloc: Global,
    error: &Option<Boxed<Fault>>,
) -> Result<Option<Boxed<Fault>>, AllocError>
    ensures { IfOk result (λ kept. kept ≡ option_map kept_error error.now) }
{
    match error {
        None => Ok(None),
        Some(fault) => {
            let kept = kept_error(alloc, fault.as_ref())?;
            Ok(Some(Boxed::new(alloc, kept)?))
        }
    }
}

/// An error as the router keeps it.
fn kept_error(alloc: Global, fault: &Fault) -> Result<Fault, AllocError>
    ensures { IfOk result (λ kept. kept ≡ kept_error fault.now) }
{
    Ok(Fault {
        condition: kept_condition(alloc, &fault.condition)?,
        description: None,
        info: fault.info.clone()?,
    })
}

/// A condition as the router keeps it.
fn kept_condition(alloc: Global, condition: &Symbol) -> Result<Symbol, AllocError>
    ensures { IfOk result (λ kept. kept ≡ kept_condition condition.now) }
{
    if MAX_CONDITION < condition.as_str().len() {
        Ok(Symbol::new(String::from_str(alloc, INTERNAL_ERROR)?))
    } else {
        Ok(condition.clone()?)
    }
}

/// An error without its info, if there is one.
fn without_info(
    alloc: Global,
    error: Option<Boxed<Fault>>,
) -> Result<Option<Boxed<Fault>>, AllocError>
    ensures { IfOk result (λ kept. kept ≡ option_map without_info error) }
{
    match error {
        None => Ok(None),
        Some(fault) => {
            let mut fault = fault.into_inner();
            fault.info = None;
            Ok(Some(Boxed::new(alloc, fault)?))
        }
    }
}

/// Removes the info of an outcome's error, or its annotations.
fn make_bare(alloc: Global, state: &mut DeliveryState) -> Result<(), AllocError>
    ensures bare { OnOk result (state.new ≡ bare state.old) }
    ensures plain { is_plain state.old ≡ true → IsOk result }
{
    match state {
        DeliveryState::Rejected(rejected) => {
            rejected.error = without_info(alloc, rejected.error.take())?;
        }
        DeliveryState::Modified(modified) => modified.message_annotations = None,
        _ => {}
    }
    Ok(())
}
