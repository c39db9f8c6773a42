//! Threads around the shared router: a reader and a writer for each connection, and the server that they share.
#![tactic(auto)]

mod reader;
mod server;
mod service;
mod writer;

pub use reader::serve_reader;
pub use serve_lock::{
    Blanks, Closed, Ledgers, Log, Names, NoLog, Quiet, Receipt, SEATS, Seat, Shared,
};
pub use serve_streams::{Gate, Greeted, OpenGate, ReadEnd, Service, Side, WriteEnd, greet};
pub use server::Server;
pub use writer::serve_writer;
