//! The termini of durable links.
ghost use Rattle.std.specs.Prelude.{◌≡◌};

use amqp_model::Text;
use std::alloc::AllocError;
use std::fmt;

/// The number of a terminus: from 1, in the order in which termini were made, and never reused.
#[derive(Clone, Copy, Debug, PartialEq, Eq)]
pub struct TerminusNumber(pub u64);

impl fmt::Display for TerminusNumber {
    fn fmt<W: fmt::Write>(&self, f: &mut fmt::Formatter<W>) -> fmt::Result {
        let number = self.0;
        write!(f, "{number}")
    }
}

/// The direction of deliveries on a link.
#[derive(Clone, Copy, Debug, PartialEq, Eq)]
pub enum LinkRole {
    /// The peer sends on it.
    Producer,
    /// The peer receives on it.
    Consumer,
}

/// The key of a durable link, whichever connection it is attached on.
#[derive(Debug, Drop)]
pub struct LinkKey {
    /// The direction of deliveries on it.
    pub role: LinkRole,
    /// The user of the SASL exchange (AMQP 1.0 part 5, section 5.3).
    pub user: Text,
    /// The container of the peer's open (AMQP 1.0 part 2, section 2.7.1).
    pub container: Text,
    /// The name of the attach (AMQP 1.0 part 2, section 2.7.3).
    pub name: Text,
}

impl Clone for LinkKey {
    ghost is_clone = { λ key copy. copy ≡ key };

    fn clone(&self) -> Result<LinkKey, AllocError> {
        Ok(LinkKey {
            role: self.role,
            user: self.user.clone()?,
            container: self.container.clone()?,
            name: self.name.clone()?,
        })
    }
}

/// The terminus of a durable link.
#[derive(Debug, Drop)]
pub struct Terminus {
    /// Its number.
    pub number: TerminusNumber,
    /// The key of its link.
    pub key: LinkKey,
    /// Its address.
    pub address: Text,
}
