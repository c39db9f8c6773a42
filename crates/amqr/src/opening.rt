//! Opens the router over its journal.
ghost use Rattle.std.specs.Prelude.{◌≡◌, ⊤, IfOk, IfErr};
ghost use Rattle.core_machine.specs.Opened.{IsOpened};
ghost use Rattle.router_core.specs.Machine.{opening_of};
ghost use Rattle.amqr_files.specs.Journals.{IsNotListed};

use amqr_files::{JournalTwin, MOST_BYTES, Refusal, Unopened, journal_twin};
use core_machine::Machine;
use disk_core::{DiskFault, MemTwin, Twin};
use route_table::Config;
use router_core::Core;
use std::alloc::{AllocError, Global};
use std::fs::File;
use std::rt::Files;
use std::time::Clock;
use twin_journal::format;

/// A router over the journal that is named, on its two files, or over a new one in memory.
///
/// # Errors
///
/// `InUse` where another server has it in use, `NoJournal` where its name itself is a file's, `File` where one of its files can't be opened for reading and
/// writing; else as `opened`.
pub fn open_router<R: Files<File = File> + Clock>(
    rt: &R,
    alloc: Global,
    journal: Option<&str>,
    config: &Config,
) -> Result<Core<JournalTwin>, Unopened>
    ensures opened { IfOk result (λ core. IsOpened ⟦<Core<JournalTwin> as Machine>⟧.meaning (opening_of config.now core) core) }
{
    let twin = match journal {
        Some(path) => JournalTwin::File(journal_twin(rt, alloc, path)?),
        None => match new_journal(alloc) {
            Ok(twin) => JournalTwin::Memory(twin),
            Err(fault) => return Err(Unopened::Refused(Refusal::from(fault))),
        },
    };
    match opened(alloc, twin, config) {
        Ok(core) => Ok(core),
        Err(refusal) => Err(Unopened::Refused(refusal)),
    }
}

/// A new journal in memory.
fn new_journal(alloc: Global) -> Result<MemTwin, DiskFault> {
    let mut twin = MemTwin::new(alloc);
    format(&mut twin)?;
    Ok(twin)
}

/// A router over the journal on two files.
///
/// # Errors
///
/// `NoJournal` where they have none; `Damaged` where no head can be read, or an open gate has no batch after it; `Disk` where they failed; `Memory` where
/// memory was refused.
fn opened(alloc: Global, twin: JournalTwin, config: &Config) -> Result<Core<JournalTwin>, Refusal>
    ensures opened { IfOk result (λ core. IsOpened ⟦<Core<JournalTwin> as Machine>⟧.meaning (opening_of config.now core) core) }
    ensures refusal { IfErr result (IsNotListed (⟦<JournalTwin as Twin>⟧.seen twin) ⊤) }
{
    match Core::open(alloc, twin, config) {
        Ok(core) => Ok(core),
        Err(fault) => Err(Refusal::from(fault)),
    }
}

/// What is reported of the journal when serving begins: where it is, how many rows and termini it has, and how much room is left.
///
/// # Errors
///
/// Memory was refused.
pub fn journal_words(
    alloc: Global,
    path: Option<&str>,
    core: &Core<JournalTwin>,
) -> Result<String, AllocError> {
    let Some(path) = path else {
        return format!(in alloc;
            "the journal is kept in memory: durable deliveries don't outlive this process"
        );
    };
    let room = core.room()?.max(0);
    let RowsLeft {
        undecided,
        unforgotten,
    } = rows_left(core);
    let termini = core.book().terminus_count();
    format!(in alloc;
        "the journal {path} has {undecided} undecided rows, {unforgotten} unforgotten ones and {termini} termini; {room} bytes are left of {MOST_BYTES}"
    )
}

/// How many rows of a book wait for a peer.
struct RowsLeft {
    /// How many are undecided.
    undecided: u64,
    /// How many their producers haven't settled.
    unforgotten: u64,
}

/// How many rows of a router's book wait for a peer.
fn rows_left(core: &Core<JournalTwin>) -> RowsLeft {
    let mut left = RowsLeft {
        undecided: 0,
        unforgotten: 0,
    };
    for row in core.book().rows() {
        if row.outcome.is_none() {
            left.undecided = left.undecided.saturating_add(1);
        }
        if !row.forgotten {
            left.unforgotten = left.unforgotten.saturating_add(1);
        }
    }
    left
}
