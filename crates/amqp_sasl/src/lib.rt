//! SASL in front of a connection (AMQP 1.0 part 5, section 5.3): which user a peer's first message proves it to be.
#![tactic(auto)]

pub mod code;
mod compare;
pub mod mechanism;
mod plain;
pub mod server;
pub mod user;

pub use code::SaslCode;
pub use mechanism::Mechanism;
pub use server::{SaslAnswer, SaslServer};
pub use user::{Password, User};
