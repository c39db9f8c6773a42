//! Messages of PLAIN (RFC 4616, section 2).
ghost use Rattle.std.specs.Prelude.{◌≡◌, ◌++◌, ◌∷◌, ℕ, List, IfSome, IfNone, IsTrue, false};
ghost use Rattle.amqp_sasl.specs.Plain.{NoNul, IsPlain};

/// The parts of a message of PLAIN.
#[derive(Clone, Copy)]
pub(crate) struct PlainMessage<'a> {
    /// The identity to act as; empty for the one that is proved.
    pub(crate) authorization: &'a [u8],
    /// The identity whose password it gives.
    pub(crate) authentication: &'a [u8],
    /// The password.
    pub(crate) password: &'a [u8],
}

/// Reads a message: three parts around exactly two NULs.
pub(crate) fn read_plain(message: &[u8]) -> Option<PlainMessage<'_>>
    ensures read { IfSome result (λ m. IsPlain message.now m.authorization.now m.authentication.now m.password.now) }
    ensures unread { IfNone result ((a n p : List ℕ) → ¬ IsPlain message.now a n p) }
{
    let (authorization, behind) = cut_at_nul(message)?;
    let (authentication, password) = cut_at_nul(behind)?;
    if has_nul(password) {
        return None;
    }
    Some(PlainMessage {
        authorization,
        authentication,
        password,
    })
}

/// The bytes before the first NUL, and those after it.
fn cut_at_nul(bytes: &[u8]) -> Option<(&[u8], &[u8])>
    ensures cut { IfSome result (λ p. (bytes.now ≡ p.0.now ++ 0 ∷ p.1.now) × NoNul p.0.now) }
    ensures whole { IfNone result (NoNul bytes.now) }
{
    let place = bytes.iter().position(|byte| *byte == 0)?;
    let (front, behind) = bytes.split_at(place);
    Some((front, &behind[1..]))
}

/// Whether a byte is NUL.
fn has_nul(bytes: &[u8]) -> bool
    ensures none { result ≡ false → NoNul bytes.now }
    ensures some { IsTrue result → ¬ NoNul bytes.now }
{
    bytes.contains(&0)
}
