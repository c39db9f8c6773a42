//! The descriptors of the standard's lists, in one table (AMQP 1.0 part 2, section 2.7; part 3, sections 3.4 and 3.5; part
//! 5, section 5.3.3).

ghost use Rattle.std.specs.Prelude.{◌≡◌};
ghost use Rattle.amqp_model.specs.Descriptors.{code_of, named, symbol_named, otherwise_named};

/// Which list follows a descriptor.
#[derive(Clone, Copy, Debug, PartialEq, Eq)]
pub enum Descriptor {
    Open,
    Begin,
    Attach,
    Flow,
    Transfer,
    Disposition,
    Detach,
    End,
    Close,
    Error,
    Received,
    Accepted,
    Rejected,
    Released,
    Modified,
    Source,
    Target,
    SaslMechanisms,
    SaslInit,
    SaslChallenge,
    SaslResponse,
    SaslOutcome,
}

impl Descriptor {
    /// The low byte of its number; all others are 0.
    pub fn code(self) -> u8
        ensures { result ≡ code_of self }
    {
        match self {
            Descriptor::Open => 0x10,
            Descriptor::Begin => 0x11,
            Descriptor::Attach => 0x12,
            Descriptor::Flow => 0x13,
            Descriptor::Transfer => 0x14,
            Descriptor::Disposition => 0x15,
            Descriptor::Detach => 0x16,
            Descriptor::End => 0x17,
            Descriptor::Close => 0x18,
            Descriptor::Error => 0x1d,
            Descriptor::Received => 0x23,
            Descriptor::Accepted => 0x24,
            Descriptor::Rejected => 0x25,
            Descriptor::Released => 0x26,
            Descriptor::Modified => 0x27,
            Descriptor::Source => 0x28,
            Descriptor::Target => 0x29,
            Descriptor::SaslMechanisms => 0x40,
            Descriptor::SaslInit => 0x41,
            Descriptor::SaslChallenge => 0x42,
            Descriptor::SaslResponse => 0x43,
            Descriptor::SaslOutcome => 0x44,
        }
    }

    /// The descriptor of a number, if the standard's lists have it.
    pub fn from_code(code: u64) -> Option<Descriptor>
        ensures { result ≡ named code }
    {
        match code {
            0x10 => Some(Descriptor::Open),
            0x11 => Some(Descriptor::Begin),
            0x12 => Some(Descriptor::Attach),
            0x13 => Some(Descriptor::Flow),
            0x14 => Some(Descriptor::Transfer),
            0x15 => Some(Descriptor::Disposition),
            0x16 => Some(Descriptor::Detach),
            0x17 => Some(Descriptor::End),
            0x18 => Some(Descriptor::Close),
            0x1d => Some(Descriptor::Error),
            0x23 => Some(Descriptor::Received),
            0x24 => Some(Descriptor::Accepted),
            0x25 => Some(Descriptor::Rejected),
            0x26 => Some(Descriptor::Released),
            0x27 => Some(Descriptor::Modified),
            0x28 => Some(Descriptor::Source),
            0x29 => Some(Descriptor::Target),
            0x40 => Some(Descriptor::SaslMechanisms),
            0x41 => Some(Descriptor::SaslInit),
            0x42 => Some(Descriptor::SaslChallenge),
            0x43 => Some(Descriptor::SaslResponse),
            0x44 => Some(Descriptor::SaslOutcome),
            _ => None,
        }
    }

    /// The descriptor of a symbol, if the standard's lists have it.
    pub fn from_symbol(symbol: &[u8]) -> Option<Descriptor>
        ensures { result ≡ symbol_named symbol.now }
    {
        if symbol == b"amqp:open:list".as_slice() {
            Some(Descriptor::Open)
        } else if symbol == b"amqp:begin:list".as_slice() {
            Some(Descriptor::Begin)
        } else if symbol == b"amqp:attach:list".as_slice() {
            Some(Descriptor::Attach)
        } else if symbol == b"amqp:flow:list".as_slice() {
            Some(Descriptor::Flow)
        } else if symbol == b"amqp:transfer:list".as_slice() {
            Some(Descriptor::Transfer)
        } else if symbol == b"amqp:disposition:list".as_slice() {
            Some(Descriptor::Disposition)
        } else if symbol == b"amqp:detach:list".as_slice() {
            Some(Descriptor::Detach)
        } else if symbol == b"amqp:end:list".as_slice() {
            Some(Descriptor::End)
        } else if symbol == b"amqp:close:list".as_slice() {
            Some(Descriptor::Close)
        } else {
            Descriptor::from_other_symbol(symbol)
        }
    }

    /// The descriptor of a symbol that names no performative of the transport.
    fn from_other_symbol(symbol: &[u8]) -> Option<Descriptor>
        ensures { result ≡ otherwise_named symbol.now }
    {
        if symbol == b"amqp:error:list".as_slice() {
            Some(Descriptor::Error)
        } else if symbol == b"amqp:received:list".as_slice() {
            Some(Descriptor::Received)
        } else if symbol == b"amqp:accepted:list".as_slice() {
            Some(Descriptor::Accepted)
        } else if symbol == b"amqp:rejected:list".as_slice() {
            Some(Descriptor::Rejected)
        } else if symbol == b"amqp:released:list".as_slice() {
            Some(Descriptor::Released)
        } else if symbol == b"amqp:modified:list".as_slice() {
            Some(Descriptor::Modified)
        } else if symbol == b"amqp:source:list".as_slice() {
            Some(Descriptor::Source)
        } else if symbol == b"amqp:target:list".as_slice() {
            Some(Descriptor::Target)
        } else if symbol == b"amqp:sasl-mechanisms:list".as_slice() {
            Some(Descriptor::SaslMechanisms)
        } else if symbol == b"amqp:sasl-init:list".as_slice() {
            Some(Descriptor::SaslInit)
        } else if symbol == b"amqp:sasl-challenge:list".as_slice() {
            Some(Descriptor::SaslChallenge)
        } else if symbol == b"amqp:sasl-response:list".as_slice() {
            Some(Descriptor::SaslResponse)
        } else if symbol == b"amqp:sasl-outcome:list".as_slice() {
            Some(Descriptor::SaslOutcome)
        } else {
            None
        }
    }
}
