//! The journal of a book on two files. One of them, the active side, has a checkpoint of the book and, behind it, the
//! batches since; the other one takes the next checkpoint. So a crash at any moment leaves the book before a batch or
//! after it, and the files stay as long as the book needs. `docs/two_files.md` describes the format.
#![tactic(auto)]

mod checkpoint;
mod device;
mod figures;
mod fresh;
mod gate;
mod group;
mod held;
mod holding;
mod journal;
pub mod laws;
mod listing;
mod numbers;
mod opened;
mod plan;
mod renew;
mod room;
mod scratch;
mod stamp;
mod store;
mod whole;

pub use fresh::format;
pub use gate_journal::{Entry, JournalFault, OpenFault};
pub use journal::Journal;
pub use listing::{Checkpoint, Listing, list};
