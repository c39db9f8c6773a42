//! The fields of the frames that carry messages, written straight into a short array: of a transfer that begins a
//! delivery, of a disposition that accepts, and of a link's flow.
ghost use Rattle.std.specs.Prelude.{◌≡◌, ◌≤◌, ◌+◌, ◌++◌, ◌∷◌, [], length, true, false, Some, None, IfSome};
ghost use Rattle.amqp_model.specs.Data as d;
ghost use Rattle.amqp_model.specs.declared.descriptor.Descriptor.TheVariants as is;
ghost use Rattle.amqp_model.specs.declared.state.DeliveryState.TheVariants as states;
ghost use Rattle.amqp_model.specs.PerfSpelling as performatives;
ghost use Rattle.amqp_model.specs.Texts as texts;
ghost use Rattle.amqp_model.specs.ValueSpelling.{spelling};
ghost use Rattle.amqp_frames.specs.ShortLists.{short_list, BeginsDelivery};

use amqp_model::{DeliveryState, Disposition, Flow, Perf, Role, Transfer};
use arrayvec::ArrayVec;

/// Room for the fields of such a list: a transfer's have 51 bytes at most.
pub(crate) const ROOM: usize = 64;

/// The fields of a list, one after another.
pub(crate) type ShortList = ArrayVec<u8, ROOM>;

/// Writes the fields of a usual performative, and answers the number of its descriptor and how many fields there are.
/// None of any other, whose fields may have been begun.
#[tactic(auto, unfolding(amqp_model::specs::PerfSpelling::spelling))]
pub(crate) fn put_short(fields: &mut ShortList, perf: &Perf) -> Option<(u8, u8)>
    requires { fields.old.items ≡ [] }
    ensures { IfSome result (λ x. performatives.spelling perf.now ≡ short_list x.0 x.1 fields.new.items) }
{
    match perf {
        Perf::Transfer(transfer) => Some((0x14, put_transfer(fields, transfer)?)),
        Perf::Disposition(disposition) => Some((0x15, put_disposition(fields, disposition)?)),
        Perf::Flow(flow) => Some((0x13, put_flow(fields, flow)?)),
        _ => None,
    }
}

/// The number of 32 bits in as few bytes as it has.
#[inline(always)]
#[tactic(auto, unfolding(amqp_model::specs::ValueSpelling::spelling))]
fn put_uint(fields: &mut ShortList, number: u32)
    requires { length fields.old.items + 5 ≤ 64 }
    ensures written { fields.new.items ≡ fields.old.items ++ spelling (d.uint number) }
    ensures within { length fields.new.items ≤ length fields.old.items + 5 }
{
    if number == 0 {
        fields.push(0x43);
        return;
    }
    if number < 256 {
        fields.push(0x52);
        fields.push(number as u8);
        return;
    }
    let [a, b, c, d] = number.to_be_bytes();
    fields.push(0x70);
    fields.push(a);
    fields.push(b);
    fields.push(c);
    fields.push(d);
}

/// A number, or null.
#[inline(always)]
fn put_optional(fields: &mut ShortList, number: Option<u32>)
    requires { length fields.old.items + 5 ≤ 64 }
    ensures written { fields.new.items ≡ fields.old.items ++ texts.field_bytes (texts.mapped d.uint number) }
    ensures within { length fields.new.items ≤ length fields.old.items + 5 }
{
    match number {
        Some(number) => put_uint(fields, number),
        None => fields.push(0x40),
    }
}

/// A flag, null where it is false.
#[inline(always)]
#[tactic(auto, unfolding(amqp_model::specs::ValueSpelling::spelling))]
fn put_flag(fields: &mut ShortList, flag: bool)
    requires { length fields.old.items + 1 ≤ 64 }
    ensures written { fields.new.items ≡ fields.old.items ++ texts.field_bytes (texts.flag_text flag) }
    ensures within { length fields.new.items ≤ length fields.old.items + 1 }
{
    if flag {
        fields.push(0x41);
    } else {
        fields.push(0x40);
    }
}

/// A delivery's tag.
#[inline(always)]
#[tactic(auto, unfolding(amqp_model::specs::ValueSpelling::spelling))]
fn put_tag(fields: &mut ShortList, tag: &[u8]) -> Option<()>
    requires { length fields.old.items + 2 ≤ 64 }
    ensures written { IfSome result (λ _. fields.new.items ≡ fields.old.items ++ spelling (d.binary tag.now)) }
    ensures within { IfSome result (λ _. length fields.new.items ≡ length fields.old.items + 2 + length tag.now) }
{
    let len = u8::try_from(tag.len()).ok()?;
    fields.push(0xa0);
    fields.push(len);
    fields.try_extend_from_slice(tag).ok()
}

/// A transfer's fields, and how many there are.
fn put_transfer(fields: &mut ShortList, transfer: &Transfer) -> Option<u8>
    requires { fields.old.items ≡ [] }
    ensures { IfSome result (λ count. texts.described_text is.Transfer (performatives.transfer_texts transfer.now) ≡ short_list 0x14 count fields.new.items) }
{
    put_delivery(fields, transfer)?;
    if transfer.more {
        put_flag(fields, transfer.settled);
        put_flag(fields, true);
        return Some(6);
    }
    if transfer.settled {
        put_flag(fields, true);
        return Some(5);
    }
    Some(4)
}

/// The first four fields of a transfer that begins a delivery.
#[inline(always)]
fn put_delivery(fields: &mut ShortList, transfer: &Transfer) -> Option<()>
    requires { fields.old.items ≡ [] }
    ensures written { IfSome result (λ _. BeginsDelivery transfer.now fields.new.items) }
    ensures within { IfSome result (λ _. length fields.new.items ≤ 49) }
{
    let id = transfer.delivery_id?;
    let tag = transfer.delivery_tag.as_ref()?;
    let format = transfer.message_format?;
    ends_with_flags(transfer)?;
    put_uint(fields, transfer.handle);
    put_uint(fields, id);
    put_tag(fields, tag.as_slice())?;
    put_uint(fields, format);
    Some(())
}

/// Behind its flag for more a usual transfer has nothing.
#[inline(always)]
fn ends_with_flags(transfer: &Transfer) -> Option<()>
    ensures mode { IfSome result (λ _. transfer.now.rcv_settle_mode ≡ None) }
    ensures state { IfSome result (λ _. transfer.now.state ≡ None) }
    ensures resume { IfSome result (λ _. transfer.now.resume ≡ false) }
    ensures aborted { IfSome result (λ _. transfer.now.aborted ≡ false) }
    ensures batchable { IfSome result (λ _. transfer.now.batchable ≡ false) }
{
    if transfer.rcv_settle_mode.is_some() || transfer.state.is_some() {
        return None;
    }
    if transfer.resume || transfer.aborted || transfer.batchable {
        return None;
    }
    Some(())
}

/// The fields of a disposition that settles and accepts, and how many there are.
fn put_disposition(fields: &mut ShortList, disposition: &Disposition) -> Option<u8>
    requires { fields.old.items ≡ [] }
    ensures { IfSome result (λ count. texts.described_text is.Disposition (performatives.disposition_texts disposition.now) ≡ short_list 0x15 count fields.new.items) }
{
    settles_and_accepts(disposition)?;
    put_role(fields, disposition.role);
    put_uint(fields, disposition.first);
    put_optional(fields, disposition.last);
    put_flag(fields, true);
    put_accepted(fields);
    Some(5)
}

/// A usual disposition settles and accepts, and has nothing behind that.
#[inline(always)]
fn settles_and_accepts(disposition: &Disposition) -> Option<()>
    ensures settled { IfSome result (λ _. disposition.now.settled ≡ true) }
    ensures state { IfSome result (λ _. disposition.now.state ≡ Some states.Accepted) }
    ensures batchable { IfSome result (λ _. disposition.now.batchable ≡ false) }
{
    if !disposition.settled || disposition.batchable {
        return None;
    }
    match &disposition.state {
        Some(DeliveryState::Accepted) => Some(()),
        _ => None,
    }
}

/// The role of an end of a link.
#[inline(always)]
#[tactic(auto, unfolding(amqp_model::specs::ValueSpelling::spelling))]
fn put_role(fields: &mut ShortList, role: Role)
    requires { length fields.old.items + 1 ≤ 64 }
    ensures written { fields.new.items ≡ fields.old.items ++ texts.field_bytes (performatives.role_text role) }
    ensures within { length fields.new.items ≤ length fields.old.items + 1 }
{
    match role {
        Role::Sender => fields.push(0x42),
        Role::Receiver => fields.push(0x41),
    }
}

/// The state accepted.
#[inline(always)]
fn put_accepted(fields: &mut ShortList)
    requires { length fields.old.items + 4 ≤ 64 }
    ensures written { fields.new.items ≡ fields.old.items ++ 0x00 ∷ 0x53 ∷ 0x24 ∷ 0x45 ∷ [] }
    ensures within { length fields.new.items ≤ length fields.old.items + 4 }
{
    fields.push(0x00);
    fields.push(0x53);
    fields.push(0x24);
    fields.push(0x45);
}

/// The fields of a link's flow, and how many there are.
fn put_flow(fields: &mut ShortList, flow: &Flow) -> Option<u8>
    requires { fields.old.items ≡ [] }
    ensures { IfSome result (λ count. texts.described_text is.Flow (performatives.flow_texts flow.now) ≡ short_list 0x13 count fields.new.items) }
{
    let credit = flow.link_credit?;
    ends_with_credit(flow)?;
    put_optional(fields, flow.next_incoming_id);
    put_uint(fields, flow.incoming_window);
    put_uint(fields, flow.next_outgoing_id);
    put_uint(fields, flow.outgoing_window);
    put_optional(fields, flow.handle);
    put_optional(fields, flow.delivery_count);
    put_uint(fields, credit);
    Some(7)
}

/// Behind its credit a usual flow has nothing.
#[inline(always)]
fn ends_with_credit(flow: &Flow) -> Option<()>
    ensures available { IfSome result (λ _. flow.now.available ≡ None) }
    ensures drain { IfSome result (λ _. flow.now.drain ≡ false) }
    ensures echo { IfSome result (λ _. flow.now.echo ≡ false) }
    ensures properties { IfSome result (λ _. flow.now.properties ≡ None) }
{
    if flow.available.is_some() || flow.properties.is_some() {
        return None;
    }
    if flow.drain || flow.echo {
        return None;
    }
    Some(())
}
