//! The type system of AMQP 1.0 (part 1): values, and the bytes that encode them.
#![tactic(auto)]

mod decoder;
mod encoder;
mod laws;
mod opening;
mod pieces;
mod reader;
mod skipper;

pub use amqp_model::{Code, Kind, Layout, Leaf, Plain, Size, TypeFault, Value};
pub use decoder::{decode, value_of};
pub use encoder::{encode, put_array, put_list, put_map, put_plain};
pub use laws::{a_fault_stays, arrays_are_of_one_type, none_begins_another, written_is_read_again};
pub use opening::{Opening, element_of, front_of, opening_of};
pub use pieces::Pieces;
pub use reader::{code_of, size_of, sized_of};
pub use skipper::{skip, skip_at};
