//! Users and their passwords.
ghost use Rattle.std.specs.Prelude.{◌≡◌, ◌↔◌, ℕ, IsTrue, IfSome, IfNone, string_bytes};
ghost use Rattle.amqp_sasl.specs.Users.{HasUser};

use crate::compare::same_bytes;
use amqp_model::Text;
use std::fmt;
use std::marker::Model;

/// A password. It can be compared, and can't be read or printed.
#[derive(Drop)]
pub struct Password {
    text: String,
}

impl Model for Password {
    ghost use Rattle.std.specs.Prelude.{List, ℕ, string_bytes};

    ghost Value = { List ℕ };

    ghost view = { λ p. string_bytes p.text };
}

impl Password {
    /// The password of a `String`, which moves in.
    pub fn new(text: String) -> Password
        ensures { result ≡ string_bytes text }
    {
        Password { text }
    }

    /// Whether it is these bytes. All given bytes are looked at, whichever differ.
    pub fn is(&self, given: &[u8]) -> bool
        ensures { IsTrue result ↔ (given.now ≡ self.now) }
    {
        same_bytes(given, self.text.as_bytes())
    }
}

impl fmt::Debug for Password {
    ghost use Rattle.std.specs.Prelude.{Some, codes};

    ghost debug_output = { λ _. Some (codes "Password(..)") };

    fn fmt<W: fmt::Write>(&self, f: &mut fmt::Formatter<W>) -> fmt::Result {
        f.write_str("Password(..)")
    }
}

/// A user of SASL PLAIN (RFC 4616).
#[derive(Debug, Drop)]
pub struct User {
    /// The name.
    pub name: Text,
    /// The password.
    pub password: Password,
}

impl User {
    /// Whether these are its name and its password. All given bytes are looked at, those of the password also
    /// where the name differs.
    pub fn is(&self, name: &[u8], password: &[u8]) -> bool
        ensures { IsTrue result ↔ (self.now ≡ record { name = name.now; password = password.now }) }
    {
        same_bytes(name, self.name.as_str().as_bytes()) & self.password.is(password)
    }
}

/// The place of a user of this name and this password. All users are looked at, even after a match.
pub(crate) fn place_of(users: &[User], name: &[u8], password: &[u8]) -> Option<usize>
    ensures found { IfSome result (λ k. HasUser users.now name.now password.now k) }
    ensures missed { IfNone result ((k : ℕ) → ¬ HasUser users.now name.now password.now k) }
{
    let mut found = None;
    for place in 0..users.len() {
        if users[place].is(name, password) {
            found = Some(place);
        }
    }
    found
}
