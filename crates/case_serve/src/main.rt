//! Serves worked rows in threads over memory: each connection gets exactly its bytes. `docs/cases.md` describes their form.
#![tactic(auto)]

mod gate;
mod row;
mod serving;
mod telling;
mod threads;
mod trying;
mod wire;

use crate::trying::try_rows;
use std::fs;

fn main(rt: HostRuntime) -> anyhow::Result<()> {
    let text = match fs::read_to_string(&rt, "worked.rows") {
        Ok(text) => text,
        // (it is built in a folder without rows)
        Err(_) => String::new(rt.alloc()),
    };
    let (rows, differing) = try_rows(&rt, text.as_str())?;
    println!(rt; "{rows} rows, {differing} differ")?;
    Ok(())
}
