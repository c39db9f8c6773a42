//! What the program reads and prints without a router: arguments, inputs, listings and journals, over any two files, reader and writer.
#![tactic(auto)]

mod endpoint;
mod input;
mod journal;
mod listing;
mod print;
mod reasons;
mod status;
mod summary;
mod twin;
mod words;

pub use endpoint::Endpoint;
pub use input::{InputFault, MOST_BYTES, read_whole};
pub use journal::{
    InUse, Unopened, format_twin, is_any_taken, is_in_use, is_taken, journal_twin, list_journal,
    refuse_journal,
};
pub use listing::list;
pub use print::{print_lines, refuse};
pub use reasons::{Purpose, tell_file, tell_journal, tell_line};
pub use status::{Refusal, Status};
pub use summary::summarize_journal;
pub use twin::JournalTwin;
pub use words::{Serving, Task, read_words};
