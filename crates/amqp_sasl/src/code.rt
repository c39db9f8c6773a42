//! How an exchange ended.
ghost use Rattle.std.specs.Prelude.{◌≡◌};
ghost use Rattle.amqp_sasl.specs.Codes.{number_of};

/// The code of a SASL outcome (AMQP 1.0 part 5, section 5.3.3.6). A number that the standard doesn't give is kept.
#[derive(Clone, Copy, Debug, PartialEq, Eq)]
pub enum SaslCode {
    /// The peer is who it says it is.
    Ok,
    /// Its credentials are wrong.
    Auth,
    /// The system failed.
    Sys,
    /// The system failed, and will go on failing until someone mends it.
    SysPerm,
    /// The system failed, and another try may succeed.
    SysTemp,
    /// A number that the standard doesn't give.
    Other(u8),
}

impl SaslCode {
    /// Its number in the field `code` of an outcome.
    pub fn number(self) -> u8
        ensures { result ≡ number_of self }
    {
        match self {
            SaslCode::Ok => 0,
            SaslCode::Auth => 1,
            SaslCode::Sys => 2,
            SaslCode::SysPerm => 3,
            SaslCode::SysTemp => 4,
            SaslCode::Other(number) => number,
        }
    }
}
