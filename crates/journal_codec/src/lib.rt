//! The acts of a journal as bytes: how a batch of them is encoded, and how it is read again. `docs/journal.md` describes the format.
#![tactic(auto)]

mod batch;
mod read;
mod spell;

pub use batch::{read_acts, read_batch};
pub use read::{ReadFault, kept_outcome};
pub use spell::{acts_len, block_of, put_acts};
