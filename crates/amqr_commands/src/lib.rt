//! What the program does: it runs its commands and plays scripts, over any files, reader and writers.
#![tactic(auto)]

mod config;
mod program;
mod script;

pub use amqr_files::{
    Refusal, Serving, Status, format_twin, list, list_journal, refuse, summarize_journal,
};
pub use config::config_of;
pub use program::{config_at, play_text, run, serving_in};
