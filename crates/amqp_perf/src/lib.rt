//! The performatives of AMQP 1.0 as bytes: the nine of the transport, the five bodies of SASL, delivery states and termini. Their types are
//! those of `amqp_model`, given on here.
#![tactic(auto)]

mod fault;
mod fields;
mod laws;
mod lengths;
mod opening;
mod read;
mod read_perfs;
mod read_states;
mod read_termini;
mod text;
mod write;
mod write_perfs;
mod write_states;
mod write_termini;

pub use amqp_model::{
    Address, AnyValue, Attach, Begin, Binary, Boxed, Close, DeliveryState, DeliveryTag, Descriptor,
    Detach, Disposition, End, Fault, Flow, Map, Modified, Open, Perf, PerfFault, Received,
    Rejected, Role, SaslChallenge, SaslInit, SaslMechanisms, SaslOutcome, SaslResponse, Source,
    SourceTerminus, Symbol, Symbols, Target, TargetTerminus, Text, Transfer, Unsettled,
    UnsettledDelivery, copy_state,
};
pub use laws::{
    a_fault_of_a_state_stays, a_fault_stays, encoded_by_its_table_is_read, none_begins_another,
    read_as_its_table_says, written_as_its_table_says, written_is_read_again,
};
pub use lengths::transfer_len;
pub use opening::Opening;
pub use read::{read_perf, read_state};
pub use write::{write_perf, write_state};
