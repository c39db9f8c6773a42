//! A router with ledgers of its own for each row.
ghost use Rattle.std.specs.Prelude.{◌≡◌, ◌^◌, IfOk};
ghost use Rattle.core_machine.specs.Opened.{IsOpened};
ghost use Rattle.router_core.specs.Machine.{opening_of};
ghost use Rattle.serve_lock.specs.Blank.{AreOf};

use crate::row::Row;
use crate::threads::serve_all;
use core_machine::{Counts, Machine};
use disk_core::{DiskFault, MemTwin};
use route_table::Config;
use router_core::Core;
use router_serve::{Blanks, Closed, Names, NoLog, Server};
use std::alloc::{AllocError, Global};
use std::marker::Brand;
use std::sync::Wait;
use std::thread::Threads;
use twin_journal::{OpenFault, format};

/// What is left once a row was served.
#[derive(Drop)]
pub struct Left {
    /// Whether every seat came back.
    pub all: bool,
    /// The sums of the seats' counts.
    pub counts: Counts,
    /// The number of the journal's last batch.
    pub appended: u64,
    /// The files of the journal.
    pub twin: MemTwin,
}

/// A new journal in memory.
fn new_journal(alloc: Global) -> Result<MemTwin, DiskFault> {
    let mut twin = MemTwin::new(alloc);
    format(&mut twin)?;
    Ok(twin)
}

/// A router over a new journal in memory.
fn opened(alloc: Global, config: &Config) -> Result<Core<MemTwin>, OpenFault>
    ensures opened { IfOk result (λ core. IsOpened ⟦<Core<MemTwin> as Machine>⟧.meaning (opening_of config.now core) core) }
{
    let Ok(twin) = new_journal(alloc) else {
        return Err(OpenFault::Memory);
    };
    match Core::open(alloc, twin, config) {
        Ok(core) => Ok(core),
        Err(fault) => Err(fault),
    }
}

/// Serves the connections of a row with a router of its own, with the standard configuration, whose ledgers are made for it.
pub fn serve_row<R: Threads + Wait + Sync>(
    rt: &R,
    alloc: Global,
    row: &Row,
) -> Result<Left, AllocError> {
    let config = Config::standard(alloc)?;
    let Ok(core) = opened(alloc, &config) else {
        drop(config);
        return Err(AllocError);
    };
    counted::<Brand, R>(rt, alloc, row, config, core, Blanks::new())
}

/// Serves a row, and adds up what the seats counted.
fn counted<N: Names, R: Threads + Wait + Sync>(
    rt: &R,
    alloc: Global,
    row: &Row,
    config: Config,
    core: Core<MemTwin>,
    blanks: Blanks,
) -> Result<Left, AllocError>
    requires opened { IsOpened ⟦<Core<MemTwin> as Machine>⟧.meaning N.opening core }
    requires blanks { AreOf N.ups N.items N.downs N.ticks N.starts N.batches N.seats blanks }
    requires seats { N.seats ≡ 2 ^ 62 }
{
    drop(config);
    let server: Server<Core<MemTwin>, N> = Server::new(alloc, core, blanks)?;
    serve_all(rt, &server, row);
    Ok(left_of(server.close()))
}

/// What a router left, of which all but the journal is let go.
fn left_of(closed: Closed<Core<MemTwin>, NoLog>) -> Left {
    let Closed {
        all,
        counts,
        appended,
        core,
        ..
    } = closed;
    Left {
        all,
        counts,
        appended,
        twin: core.into_twin(),
    }
}
