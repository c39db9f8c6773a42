//! The table of links: by connection, session and handle, by key, and by number.
#![tactic(auto)]

mod found;
mod handles;
mod link;
mod links;
mod names;
mod owed;
mod table;
mod touched;

pub use found::FoundLink;
pub use link::{Link, LinkEnd, Side, address_by};
pub use links::Links;
