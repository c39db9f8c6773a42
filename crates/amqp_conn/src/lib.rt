//! The phases of a connection: header, open, close; and when a heartbeat is due (AMQP 1.0 part 2, section 2.4).
#![tactic(auto)]

pub mod conn;
pub mod fault;
pub mod heartbeat;

pub use conn::Conn;
pub use fault::ConnFault;
pub use heartbeat::Heartbeat;
