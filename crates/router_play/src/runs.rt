//! Plays the runs of a script.
ghost use Rattle.std.specs.Prelude.{◌≡◌, ◌+◌, ◌∷◌, ◌++◌, ℕ, List, [], length, None, map, OnOk, IfOk, IfSome};
ghost use Rattle.core_player.specs.declared.line.Line.{Line as ALine};
ghost use Rattle.core_player.specs.declared.line.Line.TheVariants as line;
ghost use Rattle.journal_store.specs.Store.{OpensTo, count_of, twin_of};
ghost use Rattle.core_player.specs.declared.entry.Entry.{Entry as AnEntry};
ghost use Rattle.core_player.specs.declared.entry.Entry.TheVariants as entry;
ghost use Rattle.router_core.specs.Handling.{store_of, kept_book};
ghost use Rattle.router_play.specs.Lives.{Life, Lives};
ghost use Rattle.router_play.specs.Carrying.{RunsCarry};
ghost use Rattle.router_play.specs.Ending.{IsSizeOf, TellsOf, size_line};
ghost use Rattle.router_play.specs.Script.{Scene, opening_on, run_line, Plays, PlaysAll, no_book, book_line};
ghost use Rattle.router_play.specs.Stopping.{EndsLives, HoldsJournal};
ghost use Rattle.router_play.specs.Entries.{Survives};
ghost use Rattle.reply_rows.specs.Acts.{Journaled, book_in, journaled};
ghost use Rattle.router_trace.specs.Trace.{Trace};

use crate::finish::{Ended, Size, graver};
use crate::script::{Report, Run, Stop};
use crate::surviving::add_last;
use core_machine::CoreFault;
use core_player::{Entry, Line, Played, play};
use disk_core::CrashTwin;
use router_core::{Config, Core};
use std::alloc::{AllocError, Global};
use twin_journal::OpenFault;

/// Plays runs, one after another. The first router is opened on the journal of these two files, each other one on what the stop of the run before it
/// left: then a line has the run's number. After each step all outboxes are emptied, by connection. The last line has the size of the book, and the
/// number of the journal's last batch, at the end of the last run, whose files are stopped too. If memory is refused to the play itself, or a journal
/// can't be opened, the lines end there.
pub fn play_runs<C: CrashTwin>(alloc: Global, twin: C, config: Config, runs: &[Run]) -> Report<C>
    ensures plays { result.halted ≡ None → result.failed ≡ None → (j : Journaled) → HoldsJournal (C.Twin.seen twin) j
        → PlaysAll config 1 j (map (λ r. r.steps.items) runs.now) no_book result.lines.items }
    ensures carries { result.halted ≡ None → result.failed ≡ None → (j : Journaled) → HoldsJournal (C.Twin.seen twin) j
        → RunsCarry config 1 j (map (λ r. r.steps.items) runs.now) no_book result.lines.items }

    // Where a router failed, a line says so.
    ensures told { result.halted ≡ None → TellsOf result.failed result.lines.items }

    // Whatever fails, and whatever the stops leave: the files left open to the book of a run for each, on top of the runs to whose book the files opened;
    // and the entries are what these runs show.
    ensures lives { IfSome result.twin (λ left. (past : List Life) (t : Trace) → Lives config.router_id past t → OpensTo (C.Twin.seen twin) (book_in t)
        → EndsLives config.router_id past (length runs.now) (C.Twin.seen left) result.entries.items) }
{
    let mut lines = Vec::new(alloc);
    let mut entries = Vec::new(alloc);
    let mut failed = None;
    let mut size = Size {
        rows: 0,
        termini: 0,
        batches: 0,
    };
    let mut last = twin;
    let mut number = 0u64;
    for run in runs {
        number += 1;
        match play_run(alloc, last, &config, number, run, &mut lines, &mut entries) {
            Ok(ended) => {
                failed = graver(failed, ended.failed);
                size = ended.size;
                last = ended.twin;
            }
            Err(fault) => return halted(lines, entries, failed, fault),
        }
    }
    match say(&mut lines, line_of(size)) {
        Ok(()) => Report {
            lines,
            entries,
            halted: None,
            failed,
            twin: Some(last),
        },
        Err(fault) => halted(lines, entries, failed, fault),
    }
}

/// The report of a play that was halted.
fn halted<C: CrashTwin>(
    lines: Vec<Line>,
    entries: Vec<Entry>,
    failed: Option<CoreFault>,
    fault: OpenFault,
) -> Report<C>
    ensures { result ≡ record { lines = lines; entries = entries; halted = Some fault; failed = failed; twin = None } }
{
    Report {
        lines,
        entries,
        halted: Some(fault),
        failed,
        twin: None,
    }
}

/// Opens a router on two files, plays a run, and stops it. Appends its lines, and what outlived the stop.
fn play_run<C: CrashTwin>(
    alloc: Global,
    twin: C,
    config: &Config,
    number: u64,
    run: &Run,
    lines: &mut Vec<Line>,
    entries: &mut Vec<Entry>,
) -> Result<Ended<C>, OpenFault>
    // Whatever it finds, its lines are those of the steps from there.
    ensures plays { IfOk result (λ ended. ended.failed ≡ None → (j : Journaled) → HoldsJournal (C.Twin.seen twin) j
        → (u : Scene) × Plays run.now.steps.items (opening_on config.now j) u × (lines.new.items ≡ lines.old.items ++ run_line number ++ u.lines)
        × (size_line ended.size ≡ book_line (journaled u.trace)) × HoldsJournal (C.Twin.seen ended.twin) (journaled u.trace)) }
    ensures told { IfOk result (λ ended. TellsOf ended.failed lines.new.items) }
    ensures more { OnOk result ((more : List ALine) × (lines.new.items ≡ lines.old.items ++ more)) }

    // Whatever fails, its stop leaves the book of one more run, and its entries are what that shows.
    ensures lives { IfOk result (λ ended. (past : List Life) (t : Trace) → Lives config.now.router_id past t → OpensTo (C.Twin.seen twin) (book_in t)
        → (mine : List AnEntry) × (entries.new.items ≡ entries.old.items ++ mine) × EndsLives config.now.router_id past 1 (C.Twin.seen ended.twin) mine) }
{
    let core = Core::open(alloc, twin, config)?;
    say_run(lines, number)?;
    match play(alloc, config, core, &run.steps, lines, entries) {
        Ok(played) => end_run(alloc, played, run.stop, entries),
        Err(AllocError) => Err(OpenFault::Memory),
    }
}

/// Stops a router that was played.
fn end_run<C: CrashTwin>(
    alloc: Global,
    played: Played<Core<C>>,
    stop: Stop,
    entries: &mut Vec<Entry>,
) -> Result<Ended<C>, OpenFault>
    ensures failed { IfOk result (λ ended. ended.failed ≡ played.fault) }
    ensures size { IfOk result (λ ended. IsSizeOf played.core ended.size) }
    ensures left { IfOk result (λ ended. C.Twin.may_leave (twin_of (store_of played.core)) (C.Twin.seen ended.twin)) }
    ensures told { IfOk result (λ ended. (last : List AnEntry) × Survives played.cut (C.Twin.seen ended.twin) last
        × (entries.new.items ≡ entries.old.items ++ last ++ entry.Stop ∷ [])) }
{
    let Played { core, fault, cut } = played;
    let size = size_of(&core);
    let mut twin = stopped(core.into_twin(), stop)?;
    add_last(alloc, &mut twin, cut, entries)?;
    Ok(Ended {
        failed: fault,
        size,
        twin,
    })
}

/// Two files after this stop.
fn stopped<C: CrashTwin>(twin: C, stop: Stop) -> Result<C, OpenFault>
    ensures left { IfOk result (λ left. C.Twin.may_leave twin (C.Twin.seen left)) }
{
    match twin.crash(stop.how()) {
        Ok(left) => Ok(left),
        Err(AllocError) => Err(OpenFault::Memory),
    }
}

/// The size of a router's book, and the number of its journal's last batch.
fn size_of<C: CrashTwin>(core: &Core<C>) -> Size
    ensures { IsSizeOf core.now result }
{
    let book = core.book();
    Size {
        rows: book.row_count() as u64,
        termini: book.terminus_count() as u64,
        batches: core.batch(),
    }
}

/// Appends the line of a run's number, but for the first.
fn say_run(lines: &mut Vec<Line>, number: u64) -> Result<(), OpenFault>
    ensures { OnOk result (lines.new.items ≡ lines.old.items ++ run_line number) }
{
    if number == 1 {
        return Ok(());
    }
    say(lines, Line::Run(number))
}

/// The line of the book.
fn line_of(size: Size) -> Line
    ensures { result ≡ size_line size }
{
    let Size {
        rows,
        termini,
        batches,
    } = size;
    Line::Book {
        rows,
        termini,
        batches,
    }
}

/// Appends a line.
fn say(lines: &mut Vec<Line>, line: Line) -> Result<(), OpenFault>
    ensures { OnOk result (lines.new.items ≡ lines.old.items ++ line ∷ []) }
{
    match lines.push(line) {
        Ok(()) => Ok(()),
        Err(_) => Err(OpenFault::Memory),
    }
}
