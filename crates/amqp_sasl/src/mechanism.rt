//! The mechanisms that the router supports.
ghost use Rattle.std.specs.Prelude.{◌≡◌, find, IfOk, map};
ghost use Rattle.std.specs.Str.{bytes_eq};
ghost use Rattle.amqp_sasl.specs.Names.{name_of};

use amqp_model::{SaslMechanisms, Symbol, Symbols};
use std::alloc::{AllocError, Global};

/// A SASL mechanism (AMQP 1.0 part 5, section 5.3.3).
#[derive(Clone, Copy, Debug, PartialEq, Eq)]
pub enum Mechanism {
    /// No proof of who the peer is (RFC 4505).
    Anonymous,
    /// A name and a password (RFC 4616).
    Plain,
}

impl Mechanism {
    /// Its registered name.
    pub fn name(self) -> &'static str
        ensures { result.now ≡ name_of self }
    {
        match self {
            Mechanism::Anonymous => "ANONYMOUS",
            Mechanism::Plain => "PLAIN",
        }
    }
}

/// The first of these mechanisms that has this name, in the same case.
pub(crate) fn chosen(mechanisms: &[Mechanism], name: &str) -> Option<Mechanism>
    ensures { result ≡ find (λ m. bytes_eq (name_of m) name.now) mechanisms.now }
{
    mechanisms
        .iter()
        .copied()
        .find(|mechanism| mechanism.name() == name)
}

/// The body that offers these mechanisms, in their order (AMQP 1.0 part 5, section 5.3.3.1).
pub(crate) fn offer(alloc: Global, mechanisms: &[Mechanism]) -> Result<SaslMechanisms, AllocError>
    ensures { IfOk result (λ body. body.mechanisms ≡ map name_of mechanisms.now) }
{
    let mut names = Vec::with_capacity(alloc, mechanisms.len())?;
    for mechanism in mechanisms {
        names.push(Symbol::new(String::from_str(alloc, mechanism.name())?))?;
    }
    Ok(SaslMechanisms {
        mechanisms: Symbols::new(names),
    })
}
