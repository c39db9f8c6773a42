//! Case files: what each of their cases asks, and the answer that it wants. `docs/cases.md` describes their form.
#![tactic(auto)]

mod case;
mod fault;
mod run;
mod text;

pub use case::Case;
pub use fault::CaseFault;
pub use run::{Scene, Tally, try_words};
pub use text::{bytes_of, digits_of, fault_number, number_of, size_of};
