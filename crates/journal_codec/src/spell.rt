//! Encoding acts.
ghost use Rattle.std.specs.Prelude.{◌≡◌, ◌+◌, ◌++◌, [], ◌∷◌, ◌<◌, ◌≤◌, ◌^◌, drop, length, vec_len, sum, OnOk, OnErr, IfOk, IfSome};
ghost use Rattle.std.specs.List.{flat_map};
ghost use Rattle.amqp_model.specs.PerfSpelling.{state_spelling};
ghost use Rattle.journal_codec.specs.Batches.{IsMake, IsAdmission, IsAboveZero, HasOutcome, HasTerminus, IsWritable, HaveOutcomes, HaveTermini, AreWritable};
ghost use Rattle.journal_codec.specs.Format.{in_2, in_4, in_8, text_bytes, role_byte, or_zero, make_bytes, admit_bytes, decide_bytes, act_bytes, acts_bytes, batch};

use amqp_model::DeliveryState;
use amqp_perf::write_state;
use book_model::{Act, Admission, Decision, LinkRole, Terminus, TerminusNumber};
use std::alloc::{AllocError, Global};

fn put_byte(out: &mut Vec<u8>, byte: u8) -> Result<(), AllocError>
    ensures { OnOk result (out.new.items ≡ out.old.items ++ byte ∷ []) }
{
    out.push(byte)?;
    Ok(())
}

#[tactic(auto, unfolding(crate::specs::Format::in_2))]
fn put_2(out: &mut Vec<u8>, number: u16) -> Result<(), AllocError>
    ensures { OnOk result (out.new.items ≡ out.old.items ++ in_2 number) }
{
    out.extend_from_slice(&number.to_be_bytes())
}

#[tactic(auto, unfolding(crate::specs::Format::in_4))]
fn put_4(out: &mut Vec<u8>, number: u32) -> Result<(), AllocError>
    ensures { OnOk result (out.new.items ≡ out.old.items ++ in_4 number) }
{
    out.extend_from_slice(&number.to_be_bytes())
}

#[tactic(auto, unfolding(crate::specs::Format::in_8))]
fn put_8(out: &mut Vec<u8>, number: u64) -> Result<(), AllocError>
    ensures { OnOk result (out.new.items ≡ out.old.items ++ in_8 number) }
{
    out.extend_from_slice(&number.to_be_bytes())
}

/// A text, or any bytes, after their length.
fn put_text(out: &mut Vec<u8>, text: &[u8]) -> Result<(), AllocError>
    ensures put { OnOk result (out.new.items ≡ out.old.items ++ text_bytes text.now) }
    ensures short { OnOk result (length text.now < 2 ^ 16) }
{
    let Ok(len) = u16::try_from(text.len()) else {
        return Err(AllocError);
    };
    put_2(out, len)?;
    out.extend_from_slice(text)
}

fn role_code(role: LinkRole) -> u8
    ensures { result ≡ role_byte role }
{
    match role {
        LinkRole::Producer => 0,
        LinkRole::Consumer => 1,
    }
}

fn number_or_zero(terminus: Option<TerminusNumber>) -> u64
    ensures { result ≡ or_zero terminus }
{
    match terminus {
        None => 0,
        Some(terminus) => terminus.0,
    }
}

#[tactic(auto, using(crate::proofs::Joins::join_7))]
fn put_make(out: &mut Vec<u8>, terminus: &Terminus) -> Result<(), AllocError>
    ensures put { OnOk result (out.new.items ≡ out.old.items ++ make_bytes terminus.now) }
    ensures writable { OnOk result (IsMake terminus.now) }
{
    put_byte(out, 1)?;
    put_8(out, terminus.number.0)?;
    put_byte(out, role_code(terminus.key.role))?;
    put_text(out, terminus.key.user.as_str().as_bytes())?;
    put_text(out, terminus.key.container.as_str().as_bytes())?;
    put_text(out, terminus.key.name.as_str().as_bytes())?;
    put_text(out, terminus.address.as_str().as_bytes())
}

#[tactic(auto, using(crate::proofs::Joins::join_9))]
fn put_admit(out: &mut Vec<u8>, admission: &Admission) -> Result<(), AllocError>
    ensures put { OnOk result (out.new.items ≡ out.old.items ++ admit_bytes admission.now) }
    ensures writable { OnOk result (IsAboveZero admission.now.consumer → IsAdmission admission.now) }
{
    let Ok(payload_len) = u32::try_from(admission.payload.len()) else {
        return Err(AllocError);
    };
    put_byte(out, 2)?;
    put_8(out, admission.row.0)?;
    put_8(out, admission.producer.0)?;
    put_byte(out, admission.tag.len() as u8)?;
    out.extend_from_slice(admission.tag.as_slice())?;
    put_8(out, number_or_zero(admission.consumer))?;
    put_4(out, admission.format)?;
    put_4(out, payload_len)?;
    out.extend_from_slice(admission.payload.as_slice())
}

/// The canonical encoding of an outcome.
pub(crate) fn spelling_of(alloc: Global, outcome: &DeliveryState) -> Result<Vec<u8>, AllocError>
    ensures { IfOk result (λ v. v.items ≡ state_spelling outcome.now) }
{
    let mut spelling = Vec::new(alloc);
    write_state(alloc, outcome, &mut spelling)?;
    Ok(spelling)
}

#[tactic(auto, using(crate::proofs::Joins::join_4))]
fn put_decide(alloc: Global, out: &mut Vec<u8>, decision: &Decision) -> Result<(), AllocError>
    ensures put { OnOk result (out.new.items ≡ out.old.items ++ decide_bytes decision.now.row.0 (state_spelling decision.now.outcome)) }
    ensures row { OnOk result (decision.now.row.0 < 2 ^ 64) }
    ensures short { OnOk result (length (state_spelling decision.now.outcome) < 2 ^ 16) }
{
    let outcome = spelling_of(alloc, &decision.outcome)?;
    put_byte(out, 3)?;
    put_8(out, decision.row.0)?;
    put_text(out, outcome.as_slice())
}

#[tactic(auto, using(crate::proofs::Joins::join_2))]
fn put_number(out: &mut Vec<u8>, kind: u8, number: u64) -> Result<(), AllocError>
    ensures { OnOk result (out.new.items ≡ out.old.items ++ ((kind ∷ []) ++ in_8 number)) }
{
    put_byte(out, kind)?;
    put_8(out, number)
}

/// Appends the bytes of an act.
#[tactic(auto, unfolding(crate::specs::Format::act_bytes))]
fn put_act(alloc: Global, out: &mut Vec<u8>, act: &Act) -> Result<(), AllocError>
    ensures put { OnOk result (out.new.items ≡ out.old.items ++ act_bytes act.now) }
    ensures writable { OnOk result (HasOutcome act.now → HasTerminus act.now → IsWritable act.now) }
{
    match act {
        Act::Make(terminus) => put_make(out, terminus),
        Act::Admit(admission) => put_admit(out, admission),
        Act::Decide(decision) => put_decide(alloc, out, decision),
        Act::Forget(row) => put_number(out, 4, row.0),
        Act::Drop(terminus) => put_number(out, 5, terminus.0),
    }
}

/// Appends the bytes of acts.
///
/// # Errors
///
/// `AllocError` where memory is refused, or an act can't be encoded.
pub fn put_acts(alloc: Global, out: &mut Vec<u8>, acts: &[Act]) -> Result<(), AllocError>
    ensures put { OnOk result (out.new.items ≡ out.old.items ++ acts_bytes acts.now) }
    ensures writable { OnOk result (HaveOutcomes acts.now → HaveTermini acts.now → AreWritable acts.now) }
{
    for act in acts {
        put_act(alloc, out, act)?;
    }
    Ok(())
}

/// Writes a length over the first four bytes.
#[tactic(auto, unfolding(crate::specs::Format::in_4))]
fn seal(block: &mut [u8], len: u32)
    requires { 4 ≤ length block.old }
    ensures { block.new ≡ in_4 len ++ drop 4 block.old }
{
    block[..4].copy_from_slice(&len.to_be_bytes());
}

/// The bytes of a batch, with a closed gate after it.
///
/// # Errors
///
/// `AllocError` where memory is refused, or an act can't be encoded.
pub fn block_of(alloc: Global, acts: &[Act]) -> Result<Vec<u8>, AllocError>
    ensures block { IfOk result (λ v. v.items ≡ batch acts.now ++ 0 ∷ []) }
    ensures len { IfOk result (λ v. vec_len v ≡ 5 + length (acts_bytes acts.now)) }
    ensures writable { OnOk result (HaveOutcomes acts.now → HaveTermini acts.now → AreWritable acts.now) }
{
    let mut block = Vec::new(alloc);
    put_4(&mut block, 0)?;
    put_acts(alloc, &mut block, acts)?;
    let Ok(len) = u32::try_from(block.len() - 4) else {
        return Err(AllocError);
    };
    seal(&mut block, len);
    put_byte(&mut block, 0)?;
    Ok(block)
}

/// How many bytes a terminus takes besides its texts: its kind, its number, its role, and the lengths of four texts.
const MAKE_LEN: usize = 18;

/// How many bytes an admission takes besides its tag and its payload.
const ADMIT_LEN: usize = 34;

/// How many bytes a decision takes besides its outcome.
const DECIDE_LEN: usize = 11;

/// How many bytes an act takes that is a kind and a number.
const NUMBER_LEN: usize = 9;

/// A sum; none where it is too large for its type.
fn total(parts: &[usize]) -> Option<usize>
    ensures { IfSome result (λ n. n ≡ sum parts.now) }
{
    let mut total = 0usize;
    for part in parts {
        total = total.checked_add(*part)?;
    }
    Some(total)
}

fn make_len(terminus: &Terminus) -> Option<usize>
    ensures { IfSome result (λ n. n ≡ length (make_bytes terminus.now)) }
{
    let user = terminus.key.user.as_str().len();
    let container = terminus.key.container.as_str().len();
    let name = terminus.key.name.as_str().len();
    let address = terminus.address.as_str().len();
    total(&[MAKE_LEN, user, container, name, address])
}

fn admit_len(admission: &Admission) -> Option<usize>
    ensures { IfSome result (λ n. n ≡ length (admit_bytes admission.now)) }
{
    total(&[ADMIT_LEN, admission.tag.len(), admission.payload.len()])
}

fn decide_len(alloc: Global, decision: &Decision) -> Result<usize, AllocError>
    ensures { IfOk result (λ n. n ≡ length (decide_bytes decision.now.row.0 (state_spelling decision.now.outcome))) }
{
    let outcome = spelling_of(alloc, &decision.outcome)?;
    match total(&[DECIDE_LEN, outcome.len()]) {
        Some(len) => Ok(len),
        None => Err(AllocError),
    }
}

/// How many bytes an act takes.
#[tactic(auto, unfolding(crate::specs::Format::act_bytes))]
fn act_len(alloc: Global, act: &Act) -> Result<usize, AllocError>
    ensures { IfOk result (λ n. n ≡ length (act_bytes act.now)) }
{
    match act {
        Act::Make(terminus) => make_len(terminus).ok_or(AllocError),
        Act::Admit(admission) => admit_len(admission).ok_or(AllocError),
        Act::Decide(decision) => decide_len(alloc, decision),
        Act::Forget(_) => Ok(NUMBER_LEN),
        Act::Drop(_) => Ok(NUMBER_LEN),
    }
}

/// How many bytes the acts of a batch take in the file. A batch that can be appended has at most 4,194,304. No payload is
/// encoded for it.
///
/// # Errors
///
/// `AllocError` where memory is refused, or the number is too large for its type.
pub fn acts_len(alloc: Global, acts: &[Act]) -> Result<usize, AllocError>
    ensures { IfOk result (λ len. len ≡ length (acts_bytes acts.now)) }
{
    let mut len = 0usize;
    for act in acts {
        let more = act_len(alloc, act)?;
        let Some(sum) = len.checked_add(more) else {
            return Err(AllocError);
        };
        len = sum;
    }
    Ok(len)
}
