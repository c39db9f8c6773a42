//! Tries the cases that ask one library: values, performatives, frames, the delivery-ids of routed links, configurations, books, disks,
//! twins and journals on disks and twins.
//! `docs/cases.md` describes their form.
#![tactic(auto)]

mod acts;
mod batches;
mod books;
mod configurations;
mod disks;
mod frames;
mod ids;
mod journals;
mod performatives;
mod scene;
mod twin_journals;
mod twins;
mod values;

use crate::scene::Subject;
use case_files::try_words;

fn main(rt: HostRuntime) -> anyhow::Result<()> {
    let tally = try_words::<Subject>(&rt)?;
    println!(rt; "{} cases, {} differ", tally.cases, tally.differing)?;
    Ok(())
}
