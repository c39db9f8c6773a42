//! What AMQP 1.0 speaks of: values, performatives, delivery states, termini, the items of a stream, and the faults of bytes that encode none of
//! them. How they are read and written stands in the crates of the codec (`amqp_types`, `amqp_perf`, `amqp_frames`); the router needs these types alone.
#![tactic(auto)]

mod boxed;
mod code;
mod copy;
mod descriptor;
mod frame_fault;
mod item;
mod leaf;
mod perf;
mod perf_fault;
mod plain;
mod state;
mod terminus;
mod type_fault;
mod value;

pub use boxed::Boxed;
pub use code::{Code, Kind, Layout, Leaf, Size, constructor};
pub use copy::copy_state;
pub use descriptor::Descriptor;
pub use frame_fault::FrameFault;
pub use item::Item;
pub use leaf::{AnyValue, Binary, Map, Symbol, Symbols, Text};
pub use perf::{
    Attach, Begin, Close, Detach, Disposition, End, Flow, Open, Perf, Role, SaslChallenge,
    SaslInit, SaslMechanisms, SaslOutcome, SaslResponse, Transfer,
};
pub use perf_fault::PerfFault;
pub use plain::Plain;
pub use state::{
    DeliveryState, DeliveryTag, Fault, Modified, Received, Rejected, Unsettled, UnsettledDelivery,
};
pub use terminus::{Address, Source, SourceTerminus, Target, TargetTerminus};
pub use type_fault::TypeFault;
pub use value::Value;
