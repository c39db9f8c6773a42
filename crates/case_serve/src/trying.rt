//! Tries the rows of a text.
use crate::row::Row;
use crate::serving::serve_row;
use crate::telling::tell;
use case_files::CaseFault;
use std::alloc::Global;
use std::sync::Wait;
use std::thread::Threads;

/// Tries the rows of a text, and prints a line for each. It returns how many there are, and how many differ.
///
/// # Errors
///
/// `Word` and `Bytes` where a line isn't in the form of `docs/cases.md`, `File` where nothing can be printed; `Memory`.
pub fn try_rows<R: Threads + Wait + Sync + Print + AllocGlobal>(
    rt: &R,
    text: &str,
) -> Result<(u64, u64), CaseFault> {
    let mut rows = 0u64;
    let mut differing = 0u64;
    for part in text.split("\nrow ").skip(1) {
        let (name, lines) = part.split_once('\n').unwrap_or((part, ""));
        rows = rows.saturating_add(1);
        if !try_row(rt, name, lines)? {
            differing = differing.saturating_add(1);
        }
    }
    Ok((rows, differing))
}

/// Tries a row, and returns whether it left what it has to. It prints that the row is ok, or what is wanted and what it left.
fn try_row<R: Threads + Wait + Sync + Print + AllocGlobal>(
    rt: &R,
    name: &str,
    lines: &str,
) -> Result<bool, CaseFault> {
    let row = Row::of(rt.alloc(), lines)?;
    let told = match told_of(rt, rt.alloc(), &row) {
        Ok(told) => told,
        Err(fault) => {
            drop(row);
            return Err(fault);
        }
    };
    let is_ok = told.as_str() == row.wanted.as_str();
    let said = if is_ok {
        println!(rt; "{name} ok")
    } else {
        println!(rt; "{name} differs: wanted\n{}got\n{told}", row.wanted)
    };
    drop(row);
    said?;
    Ok(is_ok)
}

/// What serving a row left, in lines.
fn told_of<R: Threads + Wait + Sync>(
    rt: &R,
    alloc: Global,
    row: &Row,
) -> Result<String, CaseFault> {
    let mut left = serve_row(rt, alloc, row)?;
    let told = tell(rt, alloc, row, &mut left);
    drop(left);
    told
}
