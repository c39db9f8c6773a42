//! The frames that pass on a routed link.
ghost use Rattle.std.specs.Prelude.{◌≡◌};
ghost use Rattle.route_links.specs.Parts.{is_detach};
ghost use Rattle.route_links.specs.Cutting.{as_passing, carried_of};
ghost use Rattle.route_links.specs.Releases.{is_transfer, is_start};

use crate::cut::Carried;
use amqp_model::{Attach, Boxed, Detach, Disposition, Flow, Transfer};
use bytes::Bytes;

/// Which of a link's deliveries: how many were started on it before.
#[derive(Clone, Copy, Debug, PartialEq, Eq)]
pub struct StartNumber(pub u64);

/// A frame that passes from one end of a routed link to the other.
#[derive(Debug)]
pub enum Passing {
    /// An end attaches (AMQP 1.0 part 2, section 2.7.3).
    Attach(Boxed<Attach>),
    /// A flow of the link (AMQP 1.0 part 2, section 2.7.4).
    Flow(Flow),
    /// A transfer with its payload (AMQP 1.0 part 2, section 2.7.5).
    Transfer(Transfer, Bytes),
    /// What a disposition says of one delivery of the link (AMQP 1.0 part 2, section 2.7.6).
    Disposition(StartNumber, Disposition),
    /// An end detaches (AMQP 1.0 part 2, section 2.7.7).
    Detach(Detach),
}

impl Drop for Passing {
    /// Drops what it holds by one call, where a derived drop is its steps at each exit of a function that holds one.
    fn drop(self) {
        match self {
            Passing::Attach(_attach) => {}
            Passing::Flow(_flow) => {}
            Passing::Transfer(_transfer, _payload) => {}
            Passing::Disposition(_start, _disposition) => {}
            Passing::Detach(_detach) => {}
        }
    }
}

impl Passing {
    /// A transfer with its payload.
    pub(crate) fn of_carried(carried: Carried) -> Passing
        ensures { result ≡ as_passing carried }
    {
        let Carried { transfer, payload } = carried;
        Passing::Transfer(transfer, payload)
    }

    /// The transfer that it is; or another frame, as it is.
    pub(crate) fn into_carried(self) -> Result<Carried, Passing>
        ensures { result ≡ carried_of self }
    {
        match self {
            Passing::Attach(attach) => Err(Passing::Attach(attach)),
            Passing::Flow(flow) => Err(Passing::Flow(flow)),
            Passing::Transfer(transfer, payload) => Ok(Carried { transfer, payload }),
            Passing::Disposition(start, disposition) => {
                Err(Passing::Disposition(start, disposition))
            }
            Passing::Detach(detach) => Err(Passing::Detach(detach)),
        }
    }

    /// Whether it is a transfer.
    pub fn is_transfer(&self) -> bool
        ensures { result ≡ is_transfer self.now }
    {
        match self {
            Passing::Attach(_) => false,
            Passing::Flow(_) => false,
            Passing::Transfer(_, _) => true,
            Passing::Disposition(_, _) => false,
            Passing::Detach(_) => false,
        }
    }

    /// Whether it is a transfer that goes out and starts a delivery: it has a delivery-id then, and only then.
    pub fn is_start(&self) -> bool
        ensures { result ≡ is_start self.now }
    {
        match self {
            Passing::Attach(_) => false,
            Passing::Flow(_) => false,
            Passing::Transfer(transfer, _) => transfer.delivery_id.is_some(),
            Passing::Disposition(_, _) => false,
            Passing::Detach(_) => false,
        }
    }

    /// Whether it is a detach.
    pub fn is_detach(&self) -> bool
        ensures { result ≡ is_detach self.now }
    {
        match self {
            Passing::Attach(_) => false,
            Passing::Flow(_) => false,
            Passing::Transfer(_, _) => false,
            Passing::Disposition(_, _) => false,
            Passing::Detach(_) => true,
        }
    }
}
