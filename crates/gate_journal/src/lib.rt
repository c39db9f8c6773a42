//! The journal of a book: batches of acts in a file, each after a gate that is opened once the batch is on the disk. So a
//! crash at any moment leaves the book before a batch or after it. `docs/journal.md` describes the format.
#![tactic(auto)]

mod device;
mod fault;
mod figures;
mod fresh;
mod journal;
pub mod laws;
mod listing;
mod scan;
mod store;
mod whole;

pub use fault::{JournalFault, OpenFault};
pub use figures::{growth_by, release_by, reserve_of, total};
pub use fresh::format;
pub use journal::Journal;
pub use journal_codec::{acts_len, kept_outcome};
pub use listing::{Entry, Listing, list, list_from};
pub use scan::{Found, walk};
