//! The receiving end of a link.
ghost use Rattle.std.specs.Prelude.{◌≡◌, ◌≤◌, ◌+◌, ◌-◌, ◌^◌, ◌↔◌, [], ◌∷◌, true, false, min, IsOk, IfOk, OnOk, OnErr};
ghost use Rattle.std.specs.Option.{option_map};
ghost use Rattle.amqp_session.specs.Serials.{distance};
ghost use Rattle.amqp_link.specs.Deliveries.{frame};
ghost use Rattle.amqp_link.specs.Receiving.{Received, TheirAttach, OurGrant, TheirCount, TheirTransfer, TheirSettlement, middle, is_beyond, delivery_count, unused, given, behind};
ghost use Rattle.amqp_link.specs.Gathering.{gathered, next};
ghost use Rattle.amqp_link.specs.Figures.{Receives, unused_at, awaiting_at, after_our_grant, after_count, after_settlement, given_by, after_transfer};

use crate::fault::LinkFault;
use crate::gathering::{Gathering, first, later};
use crate::grant::Grant;
use crate::part::{Delivery, Part};
use amqp_model::Transfer;
use amqp_session::Serial;
use bytes::Bytes;
use std::alloc::{AllocError, Global};
use std::marker::Model;

/// The most credit that a link may have: a grant that reaches further would end before the sender's count (RFC 1982, section 3.2).
pub const MAX_CREDIT: u32 = 0x7fff_ffff;

/// The receiving end of a link: the sender's delivery-count, the last grant to it, and the delivery of which more
/// frames are to come (AMQP 1.0 part 2, sections 2.6.7 and 2.6.14).
#[derive(Debug, Drop)]
pub struct RecvEnd {
    alloc: Global,
    count: Serial,
    granted: Option<Grant>,
    middle: Option<Gathering>,
}

impl Model for RecvEnd {
    ghost use Rattle.amqp_link.specs.Gathering.{RecvFigures};

    ghost Value = { RecvFigures };

    ghost view = { λ e. record { count = e.count; granted = e.granted; middle = e.middle } };
}

impl RecvEnd {
    /// The end of a link that was just attached with this initial-delivery-count. Its sender has no credit.
    pub fn new(alloc: Global, initial: Serial) -> RecvEnd
        ensures fits { (t : Received) → Receives result (TheirAttach initial ∷ t) }
        ensures figures { result ≡ awaiting_at initial }
    {
        RecvEnd {
            alloc,
            count: initial,
            granted: None,
            middle: None,
        }
    }

    /// Grants this many deliveries more, and gives what a flow says of it: all credit that is unused then, from the sender's
    /// count on. It is never more than `MAX_CREDIT`.
    pub fn grant(&mut self, credit: u32) -> Grant
        ensures fits { (t : Received) → Receives self.old t → Receives self.new (OurGrant result ∷ t) }
        ensures told { (t : Received) → Receives self.old t → result ≡ record { count = delivery_count t; credit = min (unused t + credit) (2 ^ 31 - 1) } }
        ensures unused { (t : Received) → Receives self.old t → unused (OurGrant result ∷ t) ≡ result.credit }
        ensures figures { self.new ≡ after_our_grant result self.old }
        ensures tells { result ≡ record { count = self.old.count; credit = min (unused_at self.old + credit) (2 ^ 31 - 1) } }
    {
        let count = self.count;
        let credit = self.unused().saturating_add(credit).min(MAX_CREDIT);
        self.granted = Some(Grant { count, credit });
        Grant { count, credit }
    }

    /// Notes that a flow of this end granted this: for a table that follows what was sent.
    pub fn note_grant(&mut self, grant: Grant)
        ensures figures { self.new ≡ after_our_grant grant self.old }
    {
        self.granted = Some(grant);
    }

    /// Takes the delivery-count of a flow of the sender: its own changes nothing, and one ahead of that uses up as much credit.
    /// Fails, and changes nothing, exactly where it is before that, or ahead by more than the unused credit.
    pub fn count_forward(&mut self, count: Serial) -> Result<(), LinkFault>
        ensures fits { (t : Received) → Receives self.old t → OnOk result (Receives self.new (TheirCount count ∷ t)) }
        ensures within { (t : Received) → Receives self.old t → (IsOk result ↔ (distance (delivery_count t) count ≤ unused t)) }
        ensures reaches { IsOk result ↔ (distance self.old.count count ≤ unused_at self.old) }
        ensures figures { OnOk result (self.new ≡ after_count count self.old) }
        ensures err { OnErr result (self.new ≡ self.old) }
    {
        if self.count.distance_to(count) > self.unused() {
            return Err(LinkFault::CountOutOfReach);
        }
        self.count = count;
        Ok(())
    }

    /// Takes a transfer and its payload. One that starts a delivery uses one credit, and is `BeyondCredit` and changes
    /// nothing where none is unused. That allocates nothing, and neither does a delivery of one frame or an aborted one.
    #[tactic(auto, using(crate::proofs::Receives::given_same, crate::proofs::Receives::after_same))]
    pub fn on_transfer(&mut self, transfer: &Transfer, payload: Bytes) -> Result<Part, AllocError>
        ensures part { (t : Received) → Receives self.old t → IfOk result (λ p. p ≡ given (frame transfer.now payload) t) }
        ensures fits { (t : Received) → Receives self.old t → OnOk result (Receives self.new (behind (frame transfer.now payload) t)) }
        ensures beyond { (t : Received) → Receives self.old t → is_beyond t ≡ true → IsOk result }
        ensures alone { (t : Received) → Receives self.old t → middle t ≡ [] → transfer.now.more ≡ false → IsOk result }
        ensures aborted { transfer.now.aborted ≡ true → IsOk result }
        ensures gives { IfOk result (λ p. p ≡ given_by (frame transfer.now payload) self.old) }
        ensures figures { OnOk result (self.new ≡ after_transfer (frame transfer.now payload) self.old) }
        ensures err { OnErr result (self.new ≡ self.old) }
    {
        match self.middle.take() {
            Some(gathering) => match later(gathering, transfer, payload) {
                Ok((part, middle)) => {
                    self.middle = middle;
                    Ok(part)
                }
                Err(same) => {
                    self.middle = Some(same);
                    Err(AllocError)
                }
            },
            None if self.unused() == 0 => Ok(Part::BeyondCredit),
            None => {
                let (part, middle) = first(self.alloc, transfer, payload)?;
                self.count = self.count.plus(1);
                self.middle = middle;
                Ok(part)
            }
        }
    }

    /// Notes that the sender settled the delivery in the middle, by a disposition whose range has it (AMQP 1.0 part 2,
    /// section 2.7.6): it is reported as settled once it is whole. Without one in the middle nothing changes.
    pub fn settle(&mut self)
        ensures fits { (t : Received) → Receives self.old t → Receives self.new (TheirSettlement ∷ t) }
        ensures figures { self.new ≡ after_settlement self.old }
    {
        if let Some(gathering) = &mut self.middle {
            gathering.settle();
        }
    }

    /// The delivery-count of the sender.
    pub fn count(&self) -> Serial
        ensures fits { (t : Received) → Receives self.now t → result ≡ delivery_count t }
        ensures figure { result ≡ self.now.count }
    {
        self.count
    }

    /// The credit that the sender was granted and hasn't used.
    pub fn unused(&self) -> u32
        ensures fits { (t : Received) → Receives self.now t → result ≡ unused t }
        ensures figure { result ≡ unused_at self.now }
    {
        match self.granted {
            None => 0,
            Some(grant) => grant.left(self.count),
        }
    }

    /// The fields of the delivery in the middle, if there is one.
    pub fn in_middle(&self) -> Option<&Delivery>
        ensures fits { (t : Received) → Receives self.now t → option_map (λ d. d.now) result ≡ option_map (λ g. g.delivery) (gathered (middle t)) }
        ensures figure { option_map (λ d. d.now) result ≡ option_map (λ g. g.delivery) self.now.middle }
    {
        match &self.middle {
            None => None,
            Some(gathering) => Some(gathering.delivery()),
        }
    }
}
