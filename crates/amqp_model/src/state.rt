//! Delivery states, errors and unsettled maps (AMQP 1.0 part 3, section 3.4; part 2, sections 2.8.14 and 2.7.3).
ghost use Rattle.std.specs.Prelude.{◌≡◌};

use crate::boxed::Boxed;
use crate::leaf::{AnyValue, Map, Symbol, Text};
use arrayvec::ArrayVec;
use std::marker::Model;

/// The sender's own name for a delivery, at most 32 bytes (AMQP 1.0 part 2, section 2.8.7).
pub type DeliveryTag = ArrayVec<u8, 32>;

/// An error (AMQP 1.0 part 2, section 2.8.14).
#[derive(Debug)]
pub struct Fault {
    /// What is wrong, by a name of the standard's or of the peer's.
    pub condition: Symbol,
    /// A description for a person.
    pub description: Option<Text>,
    /// More about it, for a program.
    pub info: Option<Map>,
}

impl Drop for Fault {
    /// Drops what it holds by one call, where a derived drop is its steps at each exit of a function that holds one.
    fn drop(self) {
        let Fault {
            condition: _condition,
            description: _description,
            info: _info,
        } = self;
    }
}

/// The state of a delivery (AMQP 1.0 part 3, section 3.4).
#[derive(Debug)]
pub enum DeliveryState {
    /// Part of it has come; with `Other` the only state here that is not terminal.
    Received(Received),
    /// It is accepted.
    Accepted,
    /// It is invalid and refused.
    Rejected(Rejected),
    /// It was not and will not be acted upon.
    Released,
    /// As released, with changes for its next delivery.
    Modified(Modified),
    /// A state with another descriptor, carried unread. It is not terminal.
    Other(AnyValue),
}

impl Drop for DeliveryState {
    /// Drops what it holds by one call, where a derived drop is its steps at each exit of a function that holds one.
    fn drop(self) {
        match self {
            DeliveryState::Received(_received) => {}
            DeliveryState::Accepted => {}
            DeliveryState::Rejected(_rejected) => {}
            DeliveryState::Released => {}
            DeliveryState::Modified(_modified) => {}
            DeliveryState::Other(_value) => {}
        }
    }
}

/// How much of a delivery has come (AMQP 1.0 part 3, section 3.4.1).
#[derive(Debug, Drop)]
pub struct Received {
    /// The message section, from 0.
    pub section_number: u32,
    /// The byte within it.
    pub section_offset: u64,
}

/// Why a delivery is refused (AMQP 1.0 part 3, section 3.4.3).
#[derive(Debug, Drop)]
pub struct Rejected {
    /// The cause, where it is given.
    pub error: Option<Boxed<Fault>>,
}

/// The changes for the next delivery (AMQP 1.0 part 3, section 3.4.5).
#[derive(Debug, Drop)]
pub struct Modified {
    /// Count this transfer as a failed attempt.
    pub delivery_failed: bool,
    /// Don't send it to this link again.
    pub undeliverable_here: bool,
    /// Annotations to add to the message.
    pub message_annotations: Option<Map>,
}

/// One unsettled delivery of an attach.
#[derive(Debug, Drop)]
pub struct UnsettledDelivery {
    /// Its tag.
    pub tag: DeliveryTag,
    /// Its state, where it is given.
    pub state: Option<DeliveryState>,
}

/// The unsettled deliveries of an attach, in the order of the frame and each tag once (AMQP 1.0 part 2,
/// section 2.7.3).
#[derive(Debug, Drop)]
pub struct Unsettled {
    deliveries: Vec<UnsettledDelivery>,
}

impl Model for Unsettled {
    ghost use Rattle.std.specs.Prelude.{List};
    ghost use Rattle.amqp_model.specs.declared.state.UnsettledDelivery.{UnsettledDelivery};

    ghost Value = { List UnsettledDelivery };

    ghost view = { λ u. u.deliveries.items };
}

impl Unsettled {
    /// The deliveries of a vector, in its order.
    pub fn new(deliveries: Vec<UnsettledDelivery>) -> Unsettled
        ensures { result ≡ deliveries.items }
    {
        Unsettled { deliveries }
    }

    /// The deliveries, in order.
    pub fn as_slice(&self) -> &[UnsettledDelivery]
        ensures { result.now ≡ self.now }
    {
        self.deliveries.as_slice()
    }
}
