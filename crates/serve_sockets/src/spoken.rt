//! What a peer speaks that its door turned away.

/// What a peer speaks, by its first bytes.
#[derive(Clone, Copy, Debug, PartialEq, Eq)]
pub enum Spoken {
    /// AMQP 1.0, or too few bytes came to tell.
    Amqp,
    /// AMQP in an earlier version, as 0-9-1.
    EarlierAmqp,
    /// TLS.
    Tls,
    /// HTTP.
    Http,
    /// Anything else.
    Other,
}

impl Spoken {
    /// What a peer speaks whose stream begins with these bytes, of which eight tell. A header of AMQP 1.0 is `AMQP`, an id, and the bytes 1, 0 and 0 (AMQP 1.0
    /// part 2, section 2.2); TLS begins with a record of a handshake (RFC 8446, section 5.1), HTTP with a method.
    pub fn of(first: &[u8]) -> Spoken {
        match first {
            [b'A', b'M', b'Q', b'P', _, 1, 0, 0, ..] => Spoken::Amqp,
            [b'A', b'M', b'Q', b'P', _, _, _, _, ..] => Spoken::EarlierAmqp,
            [0x16, 3, ..] => Spoken::Tls,
            [b'G', b'E', b'T', b' ', ..] => Spoken::Http,
            [b'P', b'O', b'S', b'T', ..] => Spoken::Http,
            [b'P', b'U', b'T', b' ', ..] => Spoken::Http,
            [b'H', b'E', b'A', b'D', ..] => Spoken::Http,
            [b'P', b'R', b'I', b' ', ..] => Spoken::Http,
            [_, _, _, _, ..] if !first.starts_with(b"AMQP") => Spoken::Other,
            _ => Spoken::Amqp,
        }
    }

    /// Why the door turned a peer away, in words.
    pub fn words(self) -> &'static str {
        match self {
            Spoken::Amqp => "its header or its login was refused",
            Spoken::EarlierAmqp => "it speaks an earlier AMQP than 1.0",
            Spoken::Tls => "it speaks TLS, which is not served",
            Spoken::Http => "it speaks HTTP",
            Spoken::Other => "it doesn't speak AMQP",
        }
    }
}
