//! Tries the cases of what the program does: scripts, listings, journals, and its arguments. `docs/cases.md` describes their form.
#![tactic(auto)]

mod scripts;

use crate::scripts::Scripts;
use case_files::try_words;

fn main(rt: HostRuntime) -> anyhow::Result<()> {
    let tally = try_words::<Scripts>(&rt)?;
    println!(rt; "{} cases, {} differ", tally.cases, tally.differing)?;
    Ok(())
}
