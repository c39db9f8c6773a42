//! The door of a connection: headers and logins, before the connection is up.
#![tactic(auto)]

mod door;
mod logins;

pub use door::{Door, DoorAnswer};
pub use logins::only_proved_users_pass;
pub use route_table::Config;
