//! The delivery in the middle at an end of a link.
ghost use Rattle.std.specs.Prelude.{◌≡◌, ℕ, List};
ghost use Rattle.route_links.specs.Parts.{starts, begun, after, transfer_parts, parts};

use crate::passing::Passing;
use amqp_model::Transfer;

/// The delivery in the middle: one with some of its transfers past and more to come (AMQP 1.0 part 2, section 2.6.14).
#[derive(Clone, Copy, Debug, PartialEq, Eq)]
pub enum Middle {
    /// There is none: the next transfer starts a delivery.
    Between,
    /// There is one, and none of its transfers said that it is settled.
    Open,
    /// There is one, and a transfer of it said that it is settled.
    Settled,
}

impl Middle {
    /// Whether the next transfer starts a delivery.
    pub fn starts(self) -> bool
        ensures { result ≡ starts self }
    {
        match self {
            Middle::Between => true,
            Middle::Open => false,
            Middle::Settled => false,
        }
    }

    /// The one after this transfer.
    #[tactic(auto, using(crate::proofs::Middles::after_transfer))]
    pub(crate) fn after_transfer(self, transfer: &Transfer) -> Middle
        ensures { (payload : List ℕ) → result ≡ after self (transfer_parts self transfer.now payload) }
    {
        if transfer.aborted || !transfer.more {
            return Middle::Between;
        }
        self.going_on(transfer.settled)
    }

    /// The one after a transfer that goes on, and says that its delivery is settled or not.
    fn going_on(self, settled: bool) -> Middle
        ensures { result ≡ begun self settled }
    {
        match self {
            Middle::Between => Middle::of(settled),
            Middle::Open => Middle::of(settled),
            Middle::Settled => Middle::Settled,
        }
    }

    /// A delivery in the middle that is settled or not.
    fn of(settled: bool) -> Middle
        ensures { result ≡ begun Middle.Between settled }
    {
        if settled {
            Middle::Settled
        } else {
            Middle::Open
        }
    }

    /// The one after this frame.
    pub(crate) fn after(self, passing: &Passing) -> Middle
        ensures { result ≡ after self (parts self passing.now) }
    {
        match passing {
            Passing::Attach(_) => self,
            Passing::Flow(_) => self,
            Passing::Transfer(transfer, _payload) => self.after_transfer(transfer),
            Passing::Disposition(_, _) => self,
            Passing::Detach(_) => self,
        }
    }
}
