//! The configuration of a router, and the routes and distribution that it gives an address.
//!
//! [`read_config`] reads the file's text, or says which line is the first faulty one. [`Table`] finds the longest prefix
//! of an address.
#![tactic(auto)]

mod attributes;
mod building;
mod configuration;
mod faults;
mod files;
mod judgement;
pub mod laws;
mod lines;
mod parts;
mod prefixes;
mod sections;
mod tables;
mod texts;
mod values;

pub use configuration::Config;
pub use faults::{ConfigFault, FaultKind};
pub use files::read_config;
pub use sections::{
    Address, Direction, Distribution, LinkRoute, Listener, Mechanism, Mechanisms, Role, User,
};
pub use tables::{Place, Table};
pub use texts::Text;
