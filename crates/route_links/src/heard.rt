//! What the frames that pass on a link do to its ids.
ghost use Rattle.std.specs.Prelude.{◌≡◌, ◌-◌, ◌||◌, ◌∷◌, Some, option_map, OnOk, OnErr};
ghost use Rattle.route_links.specs.Naming.{History, CameSettled, Settled, started, known, out_of};
ghost use Rattle.route_links.specs.Named.{IdsFit};
ghost use Rattle.route_links.specs.Frames.{is_over, came_under_id, later_came, transfer_came, disposition_came, from_sender, from_receiver, went_under_id, to_receiver, to_sender, under_id};

use crate::ids::{Ids, ReceiverId, SenderId};
use crate::middle::Middle;
use crate::passing::{Passing, StartNumber};
use amqp_model::{Disposition, Transfer};
use std::alloc::{AllocError, Global};

impl Ids {
    /// A frame comes from the sender, behind this delivery in the middle. A transfer without id that starts a delivery is
    /// refused before; so is one under an id that is claimed.
    ///
    /// # Errors
    ///
    /// `AllocError` if memory was refused; nothing has changed then.
    pub fn hear_sender(&mut self, middle: Middle, passing: &Passing) -> Result<(), AllocError>
        ensures ok { OnOk result ((h : History) → IdsFit self.old h → IdsFit self.new (from_sender middle passing.now h)) }
        ensures err { OnErr result ((h : History) → IdsFit self.old h → IdsFit self.new h) }
    {
        match passing {
            Passing::Attach(_) => Ok(()),
            Passing::Flow(_) => Ok(()),
            Passing::Transfer(transfer, _payload) => self.hear_transfer(middle, transfer),
            Passing::Disposition(number, disposition) => {
                self.hear_disposition(*number, disposition.settled)
            }
            Passing::Detach(_) => {
                self.leave();
                Ok(())
            }
        }
    }

    /// A transfer comes from the sender. An error changes nothing.
    fn hear_transfer(&mut self, middle: Middle, transfer: &Transfer) -> Result<(), AllocError>
        ensures ok { OnOk result ((h : History) → IdsFit self.old h → IdsFit self.new (transfer_came middle transfer.now h)) }
        ensures err { OnErr result ((h : History) → IdsFit self.old h → IdsFit self.new h) }
    {
        if !middle.starts() {
            self.hear_later(transfer);
            return Ok(());
        }
        if is_over(transfer) {
            return self.hear_settled();
        }
        self.hear_start(transfer.delivery_id)
    }

    /// A transfer comes from the sender that goes on with a delivery.
    fn hear_later(&mut self, transfer: &Transfer)
        ensures { (h : History) → IdsFit self.old h → IdsFit self.new (later_came transfer.now h) }
    {
        if is_over(transfer) {
            self.settle_last();
        }
    }

    /// A delivery starts, settled. An error changes nothing.
    fn hear_settled(&mut self) -> Result<(), AllocError>
        ensures ok { OnOk result ((h : History) → IdsFit self.old h → IdsFit self.new (CameSettled ∷ h)) }
        ensures err { OnErr result ((h : History) → IdsFit self.old h → IdsFit self.new h) }
    {
        match self.start_settled() {
            Ok(_number) => Ok(()),
            Err(AllocError) => Err(AllocError),
        }
    }

    /// A delivery starts, unsettled if it has an id. An error changes nothing.
    fn hear_start(&mut self, id: Option<u32>) -> Result<(), AllocError>
        ensures ok { OnOk result ((h : History) → IdsFit self.old h → IdsFit self.new (came_under_id id h)) }
        ensures err { OnErr result ((h : History) → IdsFit self.old h → IdsFit self.new h) }
    {
        let Some(id) = id else {
            return self.hear_settled();
        };
        match self.start(SenderId(id)) {
            Ok(_number) => Ok(()),
            Err(AllocError) => Err(AllocError),
        }
    }

    /// What a disposition says of this delivery comes, from either end, and is held. An error changes nothing.
    fn hear_disposition(&mut self, number: StartNumber, settled: bool) -> Result<(), AllocError>
        ensures ok { OnOk result ((h : History) → IdsFit self.old h → IdsFit self.new (disposition_came number.0 settled h)) }
        ensures err { OnErr result ((h : History) → IdsFit self.old h → IdsFit self.new h) }
    {
        if !settled {
            return self.hold(number);
        }
        match self.hold(number) {
            Ok(()) => {
                self.settle(number);
                Ok(())
            }
            Err(AllocError) => Err(AllocError),
        }
    }

    /// A frame comes from the receiver.
    ///
    /// # Errors
    ///
    /// `AllocError` if 2^64 - 1 dispositions of one delivery are held; nothing has changed then.
    pub fn hear_receiver(&mut self, alloc: Global, passing: &Passing) -> Result<(), AllocError>
        ensures ok { OnOk result ((h : History) → IdsFit self.old h → IdsFit self.new (from_receiver passing.now h)) }
        ensures err { OnErr result ((h : History) → IdsFit self.old h → IdsFit self.new h) }
    {
        match passing {
            Passing::Attach(_) => Ok(()),
            Passing::Flow(_) => Ok(()),
            Passing::Transfer(_, _) => Ok(()),
            Passing::Disposition(number, disposition) => {
                self.hear_disposition(*number, disposition.settled)
            }
            Passing::Detach(_) => {
                self.end(alloc);
                Ok(())
            }
        }
    }

    /// A frame goes to the receiver: a transfer has a delivery-id then exactly if it starts a delivery.
    ///
    /// # Errors
    ///
    /// `AllocError` if memory was refused; nothing has changed then.
    pub fn put_receiver(&mut self, alloc: Global, passing: &Passing) -> Result<(), AllocError>
        ensures ok { OnOk result ((h : History) → IdsFit self.old h → IdsFit self.new (to_receiver passing.now h)) }
        ensures err { OnErr result ((h : History) → IdsFit self.old h → IdsFit self.new h) }
    {
        match passing {
            Passing::Attach(_) => Ok(()),
            Passing::Flow(_) => Ok(()),
            Passing::Transfer(transfer, _payload) => self.put_transfer(transfer.delivery_id),
            Passing::Disposition(number, _disposition) => {
                self.tell(*number);
                Ok(())
            }
            Passing::Detach(_) => {
                self.end(alloc);
                Ok(())
            }
        }
    }

    /// A transfer goes to the receiver, under an id if it starts a delivery. An error changes nothing.
    fn put_transfer(&mut self, id: Option<u32>) -> Result<(), AllocError>
        ensures ok { OnOk result ((h : History) → IdsFit self.old h → IdsFit self.new (went_under_id id h)) }
        ensures err { OnErr result ((h : History) → IdsFit self.old h → IdsFit self.new h) }
    {
        match id {
            None => Ok(()),
            Some(id) => self.go(ReceiverId(id)),
        }
    }

    /// A frame goes to the sender.
    pub fn put_sender(&mut self, alloc: Global, passing: &Passing)
        ensures { (h : History) → IdsFit self.old h → IdsFit self.new (to_sender passing.now h) }
    {
        match passing {
            Passing::Attach(_) => {}
            Passing::Flow(_) => {}
            Passing::Transfer(_, _) => {}
            Passing::Disposition(number, _disposition) => self.tell(*number),
            Passing::Detach(_) => self.end(alloc),
        }
    }

    /// What a disposition says of this delivery, as it goes to the receiver: under the id there.
    pub fn for_receiver(&self, number: StartNumber, disposition: Disposition) -> Option<Disposition>
        ensures { (h : History) → IdsFit self.now h → result ≡ option_map (λ o. under_id o disposition) (out_of (known h number.0)) }
    {
        match self.id_out(number) {
            None => None,
            Some(id) => Some(under_id(id.0, disposition)),
        }
    }

    /// What a disposition says of this delivery, as it goes to the sender: under the id there.
    pub fn for_sender(&self, number: StartNumber, disposition: Disposition) -> Option<Disposition>
        ensures { (h : History) → IdsFit self.now h → result ≡ option_map (λ k. under_id k.id_in disposition) (known h number.0) }
    {
        match self.id_in(number) {
            None => None,
            Some(id) => Some(under_id(id.0, disposition)),
        }
    }
}

/// Whether no id names the delivery from this transfer on.
fn is_over(transfer: &Transfer) -> bool
    ensures { result ≡ is_over transfer.now }
{
    transfer.settled || transfer.aborted
}

/// What a disposition says of one delivery, under this id.
fn under_id(id: u32, disposition: Disposition) -> Disposition
    ensures { result ≡ under_id id disposition }
{
    Disposition {
        first: id,
        last: None,
        ..disposition
    }
}
