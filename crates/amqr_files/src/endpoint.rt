//! Where a listener listens.
ghost use Rattle.std.specs.Prelude.{◌≡◌, ◌≢◌, ℕ, List, MatchOption};
ghost use Rattle.amqr_files.specs.Endpoint.{IsBare, in_brackets, has_colon};

use std::fmt::{self, Display, Formatter, Write};

/// Where a listener listens. `{}` prints it as `HOST:PORT`, an address of IPv6 in brackets.
#[derive(Clone, Copy, Debug)]
pub struct Endpoint<'a> {
    /// A host's name, or an address without brackets.
    pub host: &'a str,
    /// The port.
    pub port: u16,
}

impl<'a> Endpoint<'a> {
    /// Where one listens with this host and port; the host may be an address of IPv6 in brackets.
    pub fn new(host: &'a str, port: u16) -> Endpoint<'a>
        ensures host { IsBare host.now result.host.now }
        ensures port { result.port ≡ port }
    {
        match between_brackets(host) {
            Some(bare) => Endpoint { host: bare, port },
            None => Endpoint { host, port },
        }
    }
}

impl<'a> Display for Endpoint<'a> {
    ghost use Rattle.std.specs.Prelude.{Some};
    ghost use Rattle.amqr_files.specs.Endpoint.{endpoint_text};

    ghost output = { λ e. Some (endpoint_text e.host.now e.port) };

    fn fmt<W: Write>(&self, f: &mut Formatter<W>) -> fmt::Result {
        let (host, port) = (self.host, self.port);
        if has_colon(host) {
            write!(f, "[{host}]:{port}")
        } else {
            write!(f, "{host}:{port}")
        }
    }
}

/// What stands between the brackets at the ends of a text, if it has both.
fn between_brackets(text: &str) -> Option<&str>
    ensures { MatchOption result
        ((inner : List ℕ) → text.now ≢ in_brackets inner)
        (λ inner. text.now ≡ in_brackets inner.now) }
{
    match text.strip_prefix('[') {
        Some(rest) => rest.strip_suffix(']'),
        None => None,
    }
}

/// Whether a text has a colon, as every address of IPv6 has, and no name.
fn has_colon(text: &str) -> bool
    ensures { result ≡ has_colon text.now }
{
    text.bytes().any(|byte| byte == b':')
}
