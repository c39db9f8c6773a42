// The sections of a configuration, each with its values filled in.
ghost use Rattle.std.specs.Prelude.{◌≡◌, IfOk};
ghost use Rattle.route_table.specs.Sections.{is_direction};
ghost use Rattle.route_table.specs.Settings.{both, standard_listener};

use crate::texts::Text;
use std::alloc::{AllocError, Global};
use std::fmt;
use std::marker::Model;

/// How the router shares the deliveries of an address among its consumers.
#[derive(Clone, Copy, Debug, PartialEq, Eq)]
pub enum Distribution {
    /// To the consumer with the fewest undecided deliveries.
    Balanced,
    /// To the consumers in turn.
    Closest,
    /// To every consumer.
    Multicast,
}

/// Which links a link route takes.
#[derive(Clone, Copy, Debug, PartialEq, Eq)]
pub enum Direction {
    /// Links on which the peer sends.
    In,
    /// Links on which the peer receives.
    Out,
}

impl Direction {
    /// Whether the two are one direction.
    pub fn is(self, other: Direction) -> bool
        ensures { result ≡ is_direction self other }
    {
        match (self, other) {
            (Direction::In, Direction::In) | (Direction::Out, Direction::Out) => true,
            (Direction::In, Direction::Out) | (Direction::Out, Direction::In) => false,
        }
    }
}

/// What a listener's connections are for.
#[derive(Clone, Copy, Debug, PartialEq, Eq)]
pub enum Role {
    /// Peers that send and receive messages.
    Normal,
    /// Peers to which link routes lead.
    RouteContainer,
}

/// A SASL mechanism (AMQP 1.0 part 5, section 5.3.3).
#[derive(Clone, Copy, Debug, PartialEq, Eq)]
pub enum Mechanism {
    /// No proof of who the peer is (RFC 4505).
    Anonymous,
    /// A name and a password (RFC 4616).
    Plain,
}

/// A list of SASL mechanisms, in the order of the file; a mechanism may be listed twice.
#[derive(Debug, Drop)]
pub struct Mechanisms {
    words: Vec<Mechanism>,
}

impl Model for Mechanisms {
    ghost use Rattle.std.specs.Prelude.{List};
    ghost use Rattle.route_table.specs.declared.sections.Mechanism.{Mechanism};

    ghost Value = { List Mechanism };

    ghost view = { λ a. a.words.items };
}

impl Mechanisms {
    /// The list of these mechanisms.
    pub fn new(words: Vec<Mechanism>) -> Mechanisms
        ensures { result ≡ words.items }
    {
        Mechanisms { words }
    }

    /// Both mechanisms, ANONYMOUS first.
    pub(crate) fn both(alloc: Global) -> Result<Mechanisms, AllocError>
        ensures { IfOk result (λ m. m ≡ both) }
    {
        Ok(Mechanisms::new(vec![in alloc; Mechanism::Anonymous, Mechanism::Plain]?))
    }

    /// The mechanisms in order.
    pub fn as_slice(&self) -> &[Mechanism]
        ensures { result.now ≡ self.now }
    {
        self.words.as_slice()
    }
}

/// A host and a port where the router accepts connections.
#[derive(Debug, Drop)]
pub struct Listener {
    /// The host's name or address.
    pub host: Text,
    /// The TCP port, from 1 to 65535.
    pub port: u16,
    /// What its connections are for.
    pub role: Role,
    /// Whether a peer has to pass SASL before AMQP.
    pub authenticate_peer: bool,
    /// The mechanisms that are offered.
    pub mechanisms: Mechanisms,
}

impl Listener {
    /// The listener of which only the role is given. Fails where there is no memory for it.
    pub fn standard(alloc: Global, role: Role) -> Result<Listener, AllocError>
        ensures { IfOk result (λ l. l ≡ standard_listener role) }
    {
        Ok(Listener {
            host: Text::new(alloc, "127.0.0.1")?,
            port: 5672,
            role,
            authenticate_peer: false,
            mechanisms: Mechanisms::both(alloc)?,
        })
    }
}

/// The distribution of all addresses under a prefix.
#[derive(Debug, Drop)]
pub struct Address {
    /// The prefix, at most 1,024 bytes.
    pub prefix: Text,
    /// How deliveries are shared.
    pub distribution: Distribution,
}

/// A route of links under a prefix to a container.
#[derive(Debug, Drop)]
pub struct LinkRoute {
    /// The prefix, at most 1,024 bytes.
    pub prefix: Text,
    /// The container-id of the connection to which the links are passed, at most 1,024 bytes.
    pub container_id: Text,
    /// Which links it takes.
    pub direction: Direction,
}

/// A user of SASL PLAIN (RFC 4616). Its `Debug` shows nothing of it.
#[derive(Drop)]
pub struct User {
    /// The name, at most 1,024 bytes, and never `anonymous`.
    pub name: Text,
    /// The password.
    pub password: Text,
}

impl fmt::Debug for User {
    ghost use Rattle.std.specs.Prelude.{Some, codes};

    ghost debug_output = { λ _. Some (codes "User(..)") };

    fn fmt<W: fmt::Write>(&self, f: &mut fmt::Formatter<W>) -> fmt::Result {
        f.write_str("User(..)")
    }
}
