//! What serving a row left, in lines.
use crate::row::Row;
use crate::serving::Left;
use crate::wire::{Ends, Wire};
use amqr_files::list_journal;
use case_files::{CaseFault, digits_of};
use core_machine::Counts;
use disk_core::{MemTwin, Side};
use router_serve::{ReadEnd, WriteEnd};
use std::alloc::Global;
use std::io::Write;
use std::sync::Wait;

/// What the seats counted, but for the batches, whose number is the schedule's; the journal's batches, the lengths of its files and its list; and a
/// line for each thing that isn't as the row has it.
pub fn tell<R: Wait>(
    rt: &R,
    alloc: Global,
    row: &Row,
    left: &mut Left,
) -> Result<String, CaseFault> {
    let mut told = Vec::new(alloc);
    tell_counts(left, &mut told)?;
    tell_journal(alloc, &mut left.twin, &mut told)?;
    if row.is_stuck(rt) {
        writeln!(told, "a thread gave up waiting")?;
    }
    for wire in &row.wires {
        tell_wire(rt, alloc, wire, &mut told)?;
    }
    String::from_utf8(told).or(Err(CaseFault::Text))
}

/// Whether all seats came back, what they counted, and how many batches were appended. (Receipts are not told: none is given out yet.)
fn tell_counts(left: &Left, told: &mut Vec<u8>) -> Result<(), CaseFault> {
    let Counts {
        ups,
        items,
        downs,
        ticks,
        starts,
        ..
    } = left.counts;
    let seats = if left.all {
        "all seats"
    } else {
        "not all seats"
    };
    writeln!(
        told,
        "{seats}: ups {ups} items {items} downs {downs} ticks {ticks} starts {starts}"
    )?;
    Ok(writeln!(told, "appended {}", left.appended)?)
}

/// How many bytes two files have, and the list of the journal on them.
fn tell_journal(alloc: Global, twin: &mut MemTwin, told: &mut Vec<u8>) -> Result<(), CaseFault> {
    let first = twin.bytes(Side::First).len();
    let second = twin.bytes(Side::Second).len();
    writeln!(told, "journal {first} {second}")?;
    let _ = list_journal(alloc, twin, told)?;
    Ok(())
}

/// Where what was written on a connection isn't what the row has, both of them; and why its threads ended, where that differs.
fn tell_wire<R: Wait>(
    rt: &R,
    alloc: Global,
    wire: &Wire,
    told: &mut Vec<u8>,
) -> Result<(), CaseFault> {
    let written = wire.written.lock(rt);
    let done = tell_bytes(alloc, wire, written.as_slice(), told);
    drop(written);
    done?;
    let ends = *wire.ends.lock(rt);
    tell_ends(wire.at, ends, told)
}

/// What is wanted on a connection and what was written, where they differ.
fn tell_bytes(
    alloc: Global,
    wire: &Wire,
    written: &[u8],
    told: &mut Vec<u8>,
) -> Result<(), CaseFault> {
    if written == wire.wanted.as_slice() {
        return Ok(());
    }
    let conn = wire.at.saturating_add(1);
    let wanted = digits_of(alloc, wire.wanted.as_slice())?;
    let got = digits_of(alloc, written)?;
    Ok(writeln!(told, "out {conn} wanted {wanted}\nout {conn} got    {got}")?)
}

/// Why the threads of the connection at a place ended, unless the peer's stream ended and all was written.
fn tell_ends(at: usize, ends: Option<Ends>, told: &mut Vec<u8>) -> Result<(), CaseFault> {
    let conn = at.saturating_add(1);
    match ends {
        None => Ok(writeln!(told, "connection {conn} had no threads")?),
        Some(
            Ends {
                read: ReadEnd::End,
                written: Some(WriteEnd::Ended),
            },
        ) => Ok(()),
        Some(Ends { read, written }) => Ok(writeln!(
            told,
            "connection {conn} ended: {read:?}, {written:?}"
        )?),
    }
}
