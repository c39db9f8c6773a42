//! The delivery-ids of a routed link's deliveries, on both of its ends.
ghost use Rattle.std.specs.Prelude.{◌≡◌, ◌==◌, ◌&&◌, ◌-◌, false, ◌∷◌, [], ℕ, None, Some, not, map, option_map, option_and_then, IfOk, OnOk, OnErr};
ghost use Rattle.std.specs.List.{filter_map};
ghost use Rattle.std.specs.Option.{is_some};
ghost use Rattle.std.specs.Ordering.{nat_cmp};
ghost use Rattle.std.specs.BTreeMap.{get};
ghost use Rattle.route_links.specs.Naming.{came_under, one_more, History, Came, CameSettled, Went, Settled, Held, Told, Leaves, Ended, started, known, claimed, number_in, number_out};
ghost use Rattle.route_links.specs.Named.{IdsFit, ids_of};

use crate::names::{Deliveries, add, change, keep, numbers, pass, release, release_any};
use crate::passing::StartNumber;
use amqp_session::{DeliveryIds, Serial};
use std::alloc::{AllocError, Global};
use std::collections::BTreeMap;

/// A delivery-id on the session of a link's sender, which the sender gave.
#[derive(Clone, Copy, Debug, PartialEq, Eq)]
pub struct SenderId(pub u32);

/// A delivery-id on the session of a link's receiver, which the router gave.
#[derive(Clone, Copy, Debug, PartialEq, Eq)]
pub struct ReceiverId(pub u32);

/// What is known of a delivery.
#[derive(Clone, Copy, Debug)]
pub(crate) struct Known {
    /// The id under which it came from the sender.
    pub(crate) id_in: u32,
    /// The id under which it goes to the receiver, once it goes.
    pub(crate) id_out: Option<u32>,
    /// Whether no settlement came yet, from either end.
    pub(crate) is_unsettled: bool,
    /// How many dispositions are held that name it.
    pub(crate) held: u64,
}

impl Known {
    /// That of one that came under this id, unsettled.
    fn came(id: u32) -> Known
        ensures { result ≡ came_under id }
    {
        Known {
            id_in: id,
            id_out: None,
            is_unsettled: true,
            held: 0,
        }
    }

    /// That of the same delivery, settled.
    fn settled(self) -> Known
        ensures { result ≡ record self { is_unsettled = false } }
    {
        Known {
            is_unsettled: false,
            ..self
        }
    }

    /// The same with one more disposition that is held. An error tells that there are 2^64 - 1 of them.
    fn one_more(self) -> Result<Known, AllocError>
        ensures { IfOk result (λ k. k ≡ one_more self) }
    {
        match self.held.checked_add(1) {
            None => Err(AllocError),
            Some(held) => Ok(Known { held, ..self }),
        }
    }

    /// The same with one less.
    fn one_less(self) -> Known
        ensures { result ≡ record self { held = self.held - 1 } }
    {
        Known {
            held: self.held.saturating_sub(1),
            ..self
        }
    }

    /// Whether it may be forgotten: it is settled, and nothing that is held names it.
    pub(crate) fn is_over(self) -> bool
        ensures { result ≡ (not self.is_unsettled && (self.held == 0)) }
    {
        !self.is_unsettled && self.held == 0
    }
}

/// The delivery-ids of a routed link's deliveries, on both of its ends. The two ids of a delivery name each other until
/// the first settlement comes, on either end (AMQP 1.0 part 2, sections 2.6.12 and 2.7.6). Both are known until nothing
/// that is held names the delivery.
#[derive(Debug, Drop)]
pub struct Ids {
    /// How many deliveries came, and how many of these went.
    started: u64,
    gone: u64,
    /// Whether the sender's detach is held.
    leaves: bool,
    /// The deliveries that are unsettled, and those that something held still names.
    known: Deliveries,
    /// The unsettled ones by the id of the sender, and those that went by the id of the receiver.
    by_sender: DeliveryIds<u64>,
    by_receiver: DeliveryIds<u64>,
}

impl Ids {
    /// Those of a link on which nothing came.
    #[tactic(auto, using(crate::proofs::Fitted::fits_new))]
    pub fn new(alloc: Global) -> Ids
        ensures { IdsFit result [] }
    {
        Ids {
            started: 0,
            gone: 0,
            leaves: false,
            known: BTreeMap::new(alloc),
            by_sender: DeliveryIds::new(alloc),
            by_receiver: DeliveryIds::new(alloc),
        }
    }

    /// Whether the id names an unsettled delivery of the sender, so that no other one may come under it; also while the
    /// sender's detach is held.
    pub fn is_claimed(&self, id: SenderId) -> bool
        ensures { (h : History) → IdsFit self.now h → result ≡ is_some (claimed h id.0) }
    {
        self.by_sender.get(Serial::new(id.0)).is_some()
    }

    /// The delivery that the sender means by this id.
    pub fn number_in(&self, id: SenderId) -> Option<StartNumber>
        ensures { (h : History) → IdsFit self.now h → option_map (λ n. n.0) result ≡ number_in h id.0 }
    {
        if self.leaves {
            return None;
        }
        let number = self.by_sender.get(Serial::new(id.0))?;
        Some(StartNumber(*number))
    }

    /// The delivery that the receiver means by this id.
    pub fn number_out(&self, id: ReceiverId) -> Option<StartNumber>
        ensures { (h : History) → IdsFit self.now h → option_map (λ n. n.0) result ≡ number_out h id.0 }
    {
        let number = self.by_receiver.get(Serial::new(id.0))?;
        Some(StartNumber(*number))
    }

    /// The id under which this delivery came from the sender.
    pub fn id_in(&self, number: StartNumber) -> Option<SenderId>
        ensures { (h : History) → IdsFit self.now h → option_map (λ i. i.0) result ≡ option_map (λ k. k.id_in) (known h number.0) }
    {
        let known = self.known.get(&number.0)?;
        Some(SenderId(known.id_in))
    }

    /// The id under which this delivery goes to the receiver, once it goes.
    pub fn id_out(&self, number: StartNumber) -> Option<ReceiverId>
        ensures { (h : History) → IdsFit self.now h → option_map (λ o. o.0) result ≡ option_and_then (λ k. k.id_out) (known h number.0) }
    {
        let known = self.known.get(&number.0)?;
        let id = known.id_out?;
        Some(ReceiverId(id))
    }

    /// A delivery came from the sender, unsettled, under this id. Gives its number.
    ///
    /// # Errors
    ///
    /// `AllocError` if memory was refused, or if no number is left for it; nothing has changed then.
    #[tactic(auto, using(crate::proofs::Fitted::fits_came, crate::proofs::Fitted::fits_not_come, crate::proofs::Fitted::fits_same))]
    pub fn start(&mut self, id: SenderId) -> Result<StartNumber, AllocError>
        ensures number { IfOk result (λ n. (h : History) → IdsFit self.old h → n.0 ≡ started h) }
        ensures ok { OnOk result ((h : History) → IdsFit self.old h → IdsFit self.new (Came id.0 ∷ h)) }
        ensures err { OnErr result ((h : History) → IdsFit self.old h → IdsFit self.new h) }
    {
        let number = self.started;
        match number.checked_add(1) {
            None => Err(AllocError),
            Some(next) => {
                add(
                    &mut self.known,
                    &mut self.by_sender,
                    number,
                    Known::came(id.0),
                )?;
                self.started = next;
                Ok(StartNumber(number))
            }
        }
    }

    /// A delivery came from the sender, settled. Gives its number.
    ///
    /// # Errors
    ///
    /// `AllocError` if no number is left for it; nothing has changed then.
    #[tactic(auto, using(crate::proofs::Fitted::fits_came_settled))]
    pub fn start_settled(&mut self) -> Result<StartNumber, AllocError>
        ensures number { IfOk result (λ n. (h : History) → IdsFit self.old h → n.0 ≡ started h) }
        ensures ok { OnOk result ((h : History) → IdsFit self.old h → IdsFit self.new (CameSettled ∷ h)) }
        ensures err { OnErr result ((h : History) → IdsFit self.old h → IdsFit self.new h) }
    {
        let number = self.started;
        match number.checked_add(1) {
            None => Err(AllocError),
            Some(next) => {
                self.started = next;
                Ok(StartNumber(number))
            }
        }
    }

    /// The first delivery that hasn't gone yet goes to the receiver, under this id.
    ///
    /// # Errors
    ///
    /// `AllocError` if memory was refused; nothing has changed then.
    #[tactic(auto, using(crate::proofs::Fitted::fits_went, crate::proofs::Fitted::fits_same))]
    pub fn go(&mut self, id: ReceiverId) -> Result<(), AllocError>
        ensures ok { OnOk result ((h : History) → IdsFit self.old h → IdsFit self.new (Went id.0 ∷ h)) }
        ensures err { OnErr result ((h : History) → IdsFit self.old h → IdsFit self.new h) }
    {
        let number = self.gone;
        match number.checked_add(1) {
            None => Err(AllocError),
            Some(next) => {
                pass(&mut self.known, &mut self.by_receiver, number, id.0)?;
                self.gone = next;
                Ok(())
            }
        }
    }

    /// It came from either end that this delivery is settled, or aborted: no id names it any more.
    #[tactic(auto, using(crate::proofs::Fitted::fits_settled, crate::proofs::Fitted::fits_unknown_settled))]
    pub fn settle(&mut self, number: StartNumber)
        ensures { (h : History) → IdsFit self.old h → IdsFit self.new (Settled number.0 ∷ h) }
    {
        match self.known.get(&number.0).copied() {
            None => {}
            Some(known) => self.settle_known(number.0, known),
        }
    }

    /// The same of the delivery that was started last.
    pub(crate) fn settle_last(&mut self)
        ensures { (h : History) → IdsFit self.old h → IdsFit self.new (Settled (started h - 1) ∷ h) }
    {
        self.settle(StartNumber(self.started.saturating_sub(1)));
    }

    /// The same of a delivery of which this is known.
    #[tactic(auto, using(crate::proofs::Fitted::fits_settled))]
    fn settle_known(&mut self, number: u64, known: Known)
        requires { get nat_cmp self.old.known number ≡ Some known }
        ensures { (h : History) → IdsFit self.old h → IdsFit self.new (Settled number ∷ h) }
    {
        release(&mut self.by_sender, known.id_in, number);
        release_any(&mut self.by_receiver, known.id_out, number);
        keep(&mut self.known, number, known.settled());
    }

    /// A disposition that names this delivery is held.
    ///
    /// # Errors
    ///
    /// `AllocError` if 2^64 - 1 of them are; nothing has changed then.
    #[tactic(auto, using(crate::proofs::Fitted::fits_held, crate::proofs::Fitted::fits_unknown_held))]
    pub fn hold(&mut self, number: StartNumber) -> Result<(), AllocError>
        ensures ok { OnOk result ((h : History) → IdsFit self.old h → IdsFit self.new (Held number.0 ∷ h)) }
        ensures err { OnErr result ((h : History) → IdsFit self.old h → IdsFit self.new h) }
    {
        match self.known.get(&number.0).copied() {
            None => Ok(()),
            Some(known) => {
                let more = known.one_more()?;
                change(&mut self.known, number.0, more);
                Ok(())
            }
        }
    }

    /// A disposition that names this delivery was held, and goes out.
    #[tactic(auto, using(crate::proofs::Fitted::fits_told, crate::proofs::Fitted::fits_unknown_told))]
    pub fn tell(&mut self, number: StartNumber)
        ensures { (h : History) → IdsFit self.old h → IdsFit self.new (Told number.0 ∷ h) }
    {
        match self.known.get(&number.0).copied() {
            None => {}
            Some(known) => keep(&mut self.known, number.0, known.one_less()),
        }
    }

    /// The sender's detach came, and is held behind what came before it.
    pub fn leave(&mut self)
        ensures { (h : History) → IdsFit self.old h → IdsFit self.new (Leaves ∷ h) }
    {
        self.leaves = true;
    }

    /// A detach went out, or the receiver's came: no id names anything any more.
    pub fn end(&mut self, alloc: Global)
        ensures { (h : History) → IdsFit self.old h → IdsFit self.new (Ended ∷ h) }
    {
        self.leaves = false;
        self.known = BTreeMap::new(alloc);
        self.by_sender = DeliveryIds::new(alloc);
        self.by_receiver = DeliveryIds::new(alloc);
    }

    /// The deliveries that the sender's disposition names, in the order of its ids: from its first to its last, modulo
    /// 2^32.
    ///
    /// # Errors
    ///
    /// `AllocError` if memory was refused.
    #[tactic(auto, using(crate::proofs::Fitted::listed_in, crate::proofs::Fitted::none_listed))]
    pub fn numbers_in(
        &self,
        alloc: Global,
        first: SenderId,
        last: SenderId,
    ) -> Result<Vec<StartNumber>, AllocError>
        ensures { IfOk result (λ ns. (h : History) → IdsFit self.now h → map (λ n. n.0) ns.items ≡ filter_map (number_in h) (ids_of first.0 last.0)) }
    {
        if self.leaves {
            return Ok(Vec::new(alloc));
        }
        numbers(alloc, &self.by_sender, first.0, last.0)
    }

    /// The deliveries that the receiver's disposition names, in the order of its ids: from its first to its last, modulo
    /// 2^32.
    ///
    /// # Errors
    ///
    /// `AllocError` if memory was refused.
    #[tactic(auto, using(crate::proofs::Fitted::listed_out))]
    pub fn numbers_out(
        &self,
        alloc: Global,
        first: ReceiverId,
        last: ReceiverId,
    ) -> Result<Vec<StartNumber>, AllocError>
        ensures { IfOk result (λ ns. (h : History) → IdsFit self.now h → map (λ n. n.0) ns.items ≡ filter_map (number_out h) (ids_of first.0 last.0)) }
    {
        numbers(alloc, &self.by_receiver, first.0, last.0)
    }
}
