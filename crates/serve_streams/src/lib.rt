//! What the threads of a connection ask of the router, and what they read and write: bytes, the greeting at the door, and their ends.
#![tactic(auto)]

mod end;
mod gate;
mod greeting;
mod reading;
mod service;
mod writing;

pub use end::{ReadEnd, WriteEnd};
pub use gate::{Gate, OpenGate, Side};
pub use greeting::{Greeted, greet};
pub use reading::read_items;
pub use service::Service;
pub use writing::{spell, write_beginning};
