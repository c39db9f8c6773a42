//! What the router's tables are made of: values by place, and small sets of numbers.
#![tactic(auto)]

mod boxed;
mod by_handle;
mod by_session;
mod emptying;
mod few;
mod number_map;
mod number_set;

pub use boxed::Boxed;
pub use by_handle::{ByHandle, InConnection, InSession};
pub use by_session::{BySession, numbers_in};
pub use emptying::Empties;
pub use number_map::NumberMap;
pub use number_set::NumberSet;
