//! The pools of all addresses, with what each link has (`docs/credit.md`).
//!
//! [`Pools`] is told which links may have changed (`touch`), and then what each of them has (`offer`, `want`, `leave`). It decides
//! who gets the next delivery of an address (`choose`) and who gets link credit (`grants`). It knows no trace: its answers are
//! a function of what each link has.
#![tactic(auto)]

mod by_address;
mod by_bytes;
mod digest;
mod due;
pub mod laws;
mod pools;
mod row;
mod same;
mod seat;

pub use pools::Pools;
