//! Who passes the door. The function does nothing: its contract is the law.
ghost use Rattle.core_door.specs.Logins.{TheyAlonePass, TheyPass};

/// A connection passes the door as a user exactly in one of two ways: it begins with the AMQP header at a listener that needs
/// no login, and is `anonymous`; or it begins with the SASL header, then an init that proves it to be that user by a
/// mechanism that the listener offers, then the AMQP header (AMQP 1.0 part 5, section 5.3.2).
pub fn only_proved_users_pass()
    ensures only { TheyAlonePass }
    ensures all { TheyPass }
{}
