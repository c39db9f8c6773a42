//! The length of an encoding, without writing it.
ghost use Rattle.std.specs.Prelude.{◌≡◌, ◌^◌, ◌-◌, ◌+◌, nat_lt, if◌then◌else◌, length, min, is_none, true, IfOk, IsOk};
ghost use Rattle.amqp_model.specs.ValueSpelling as values;
ghost use Rattle.amqp_model.specs.View.{plain_view};
ghost use Rattle.amqp_model.specs.declared.descriptor.Descriptor.{Descriptor};
ghost use Rattle.amqp_model.specs.declared.perf.Perf.TheVariants as perf;
ghost use Rattle.amqp_model.specs.Texts as texts;
ghost use Rattle.amqp_model.specs.PerfSpelling as spellings;
ghost use Rattle.amqp_perf.specs.TextViews.{field_view, fields_view};

use crate::text::{Field, given_of};
use crate::write_perfs::transfer_fields;
use crate::write_states::boxed_state_text;
use amqp_model::Transfer;
use amqp_types::Plain;
use std::alloc::{AllocError, Global};

/// How many bytes `write_perf` writes for a transfer; `usize::MAX` where there are more. It allocates only
/// for a state that says more than that a delivery is accepted or released.
///
/// # Errors
///
/// `AllocError` where memory was refused.
#[tactic(auto, unfolding(amqp_model::specs::PerfSpelling::spelling))]
pub fn transfer_len(alloc: Global, transfer: &Transfer) -> Result<usize, AllocError>
    ensures exact { IfOk result (λ len. len ≡ min (length (spellings.spelling (perf.Transfer transfer.now))) (2 ^ 64 - 1)) }
    ensures stateless { is_none transfer.now.state ≡ true → IsOk result }
{
    let state = boxed_state_text(alloc, &transfer.state)?;
    Ok(described_len(&transfer_fields(transfer, &state)))
}

/// How many bytes the described list of these fields has.
#[tactic(auto, unfolding(amqp_model::specs::Texts::described_text))]
fn described_len(fields: &[Field<'_>]) -> usize
    ensures { (name : Descriptor) → result ≡ min (length (texts.described_text name (fields_view fields.now))) (2 ^ 64 - 1) }
{
    let given = given_of(fields);
    if given.is_empty() {
        return 4;
    }
    let len = fields_len(given);
    if len < 255 && given.len() < 256 {
        len + 6
    } else {
        len.saturating_add(12)
    }
}

/// How many bytes these fields have, one after another.
pub(crate) fn fields_len(fields: &[Field<'_>]) -> usize
    ensures { result ≡ min (length (texts.joined (fields_view fields.now))) (2 ^ 64 - 1) }
{
    let mut total = 0_usize;
    for field in fields {
        total = total.saturating_add(field_len(*field));
    }
    total
}

fn field_len(field: Field<'_>) -> usize
    ensures { result ≡ length (texts.field_bytes (field_view field.entry)) }
{
    match field {
        Field::Null => 1,
        Field::Plain(plain) => plain_len(plain),
        Field::Spelt(bytes) => bytes.len(),
    }
}

/// How many bytes encode a value that holds no others.
#[tactic(auto, unfolding(amqp_model::specs::ValueSpelling::spelling))]
fn plain_len(plain: Plain<'_>) -> usize
    ensures { result ≡ length (values.spelling (plain_view plain.entry)) }
{
    match plain {
        Plain::Null => 1,
        Plain::Boolean(_) => 1,
        Plain::Ubyte(_) => 2,
        Plain::Byte(_) => 2,
        Plain::Ushort(_) => 3,
        Plain::Short(_) => 3,
        Plain::Uint(0) => 1,
        Plain::Uint(number) => 1 + if number < 256 { 1 } else { 4 },
        Plain::Ulong(0) => 1,
        Plain::Ulong(number) => 1 + if number < 256 { 1 } else { 8 },
        Plain::Int(number) => 1
            + if -128 <= number && number <= 127 {
                1
            } else {
                4
            },
        Plain::Long(number) => 1
            + if -128 <= number && number <= 127 {
                1
            } else {
                8
            },
        Plain::Char(_) => 5,
        Plain::Timestamp(_) => 9,
        Plain::Float(bytes) => 1 + bytes.len(),
        Plain::Double(bytes) => 1 + bytes.len(),
        Plain::Decimal32(bytes) => 1 + bytes.len(),
        Plain::Decimal64(bytes) => 1 + bytes.len(),
        Plain::Decimal128(bytes) => 1 + bytes.len(),
        Plain::Uuid(bytes) => 1 + bytes.len(),
        Plain::Binary(bytes) => sized_len(bytes),
        Plain::String(text) => sized_len(text.as_bytes()),
        Plain::Symbol(text) => sized_len(text.as_bytes()),
    }
}

/// The length of these bytes with a constructor and their size in front.
fn sized_len(bytes: &[u8]) -> usize
    ensures { result ≡ (if nat_lt (length bytes.now) 256 then length bytes.now + 2 else length bytes.now + 5) }
{
    let len = bytes.len();
    if len < 256 { len + 2 } else { len + 5 }
}
