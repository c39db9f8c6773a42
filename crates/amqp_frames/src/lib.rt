//! The frames of AMQP 1.0: a stream of bytes is the encodings of items, then a rest.
#![tactic(auto)]

mod cut;
mod extent;
mod gather;
pub mod laws;
mod read;
pub mod reader;
pub mod room;
mod short_fields;
mod short_read;
mod short_write;
pub mod write;

pub use amqp_model::{FrameFault, Item};
pub use reader::FrameReader;
pub use room::{item_len, transfer_room};
pub use write::write_item;
