//! The program, over any files, reader and writers.
ghost use Rattle.std.specs.Prelude.{◌≡◌, ◌<◌, None, length, map, IfOk, IfErr, OnOk, IfSome};
ghost use Rattle.std.specs.List.{list_any};
ghost use Rattle.route_table.specs.Settings.{standard};
ghost use Rattle.amqr_commands.specs.Config.{IsConfig, IsRefusedInput};
ghost use Rattle.amqr_commands.specs.Running.{Plays, PlaysInput, PlaysRuns, Writes, as_run, is_fuse, sets_fuse, end_of};

use crate::config::config_of;
use crate::script::{ScriptFault, read_script};
use amqr_files::{
    InputFault, MOST_BYTES, Purpose, Refusal, Serving, Status, Task, format_twin, is_any_taken,
    is_in_use, is_taken, list, list_journal, print_lines, read_whole, read_words, refuse,
    summarize_journal, tell_file, tell_journal, tell_line,
};
use clap::Error;
use clap::error::ErrorKind;
use disk_core::{DiskFault, FileTwin, FuseTwin, MemTwin};
use route_table::Config;
use router_play::{CoreFault, Report, Run, Step, play_runs};
use std::alloc::Global;
use std::convert::AsStr;
use std::fs::{self, File};
use std::io::{self, Read, Write};
use std::rt::Files;
use twin_journal::{OpenFault, format};

/// The most bytes of a side that can be listed: those of a journal, and one gate.
const MOST_JOURNAL: usize = MOST_BYTES + 1;

/// Does what the arguments ask for, the first of which is the program's name. Lines go to the output, faults of the arguments
/// to the errors.
///
/// # Errors
///
/// An error of the output or of the errors, which could not be written.
pub fn run<R: Files<File = File> + AllocGlobal, S: AsStr, I: Read, O: Write, E: Write>(
    rt: &R,
    words: &[S],
    input: &mut I,
    output: &mut O,
    errors: &mut E,
) -> io::Result<Status>
    ensures input { length words.now < 2 → IfOk result (λ status. PlaysInput standard (I.remaining input.old) status (O.contents output.old) (O.contents output.new)) }
{
    let alloc = rt.alloc();
    match read_words(alloc, words) {
        Ok(Task::PlayInput) => play_standard(alloc, input, output),
        Ok(Task::Play { config, script }) => play_file(rt, config, script, output, errors),
        Ok(Task::Serve(_)) => {
            writeln!(errors, "clients are served by the program alone")?;
            Ok(Status::BadWords)
        }
        Ok(Task::Frames { file }) => list_frames(rt, file, output, errors),
        Ok(Task::Format { file }) => make(rt, file, output, errors),
        Ok(Task::Journal { file, summary }) => show(rt, file, summary, output, errors),
        Err(fault) => explain(&fault, output, errors),
    }
}

/// How clients are to be served, if the arguments are good and ask for that.
pub fn serving_in<'a, S: AsStr>(alloc: Global, words: &'a [S]) -> Option<Serving<'a>> {
    match read_words(alloc, words) {
        Ok(Task::Serve(serving)) => Some(serving),
        _ => None,
    }
}

/// The configuration in a file, or the standard one where no file is named. Of a file that can't be read, and of a faulty line, a sentence is written to the
/// errors too.
///
/// # Errors
///
/// `File` where it can't be read; `Config` with its first faulty line; `Memory` where memory was refused.
pub fn config_at<R: Files<File = File> + AllocGlobal, E: Write>(
    rt: &R,
    path: Option<&str>,
    errors: &mut E,
) -> Result<Config, Refusal> {
    let Some(path) = path else {
        return standard(rt.alloc());
    };
    let read = config_in(rt, path, errors);
    if matches!(&read, Err(Refusal::File)) {
        let _ = tell_file(rt, path, Purpose::Read, errors);
    }
    read
}

/// Writes what is wrong with the arguments, or the help that they ask for.
fn explain<O: Write, E: Write>(
    fault: &Error,
    output: &mut O,
    errors: &mut E,
) -> io::Result<Status> {
    if fault.kind() == ErrorKind::OutOfMemory {
        return refuse(output, Refusal::Memory);
    }
    if fault.use_stderr() {
        write!(errors, "{fault}")?;
        return Ok(Status::BadWords);
    }
    write!(output, "{fault}")?;
    Ok(Status::Done)
}

/// Lists the frames in a file.
fn list_frames<R: Files<File = File> + AllocGlobal, O: Write, E: Write>(
    rt: &R,
    path: &str,
    output: &mut O,
    errors: &mut E,
) -> io::Result<Status> {
    match input_in(rt, path) {
        Ok(stream) => list(rt.alloc(), stream.as_slice(), output),
        Err(fault) => refuse_input(rt, path, fault, output, errors),
    }
}

/// All bytes of the input in a file.
///
/// # Errors
///
/// `Unread` where it can't be opened or read; `Memory` where memory was refused.
fn input_in<R: Files<File = File> + AllocGlobal>(
    rt: &R,
    path: &str,
) -> Result<Vec<u8>, InputFault> {
    match fs::open(rt, path) {
        Ok(mut file) => read_whole(rt.alloc(), &mut file),
        Err(_) => Err(InputFault::Unread),
    }
}

/// Writes why the input in a file isn't used.
fn refuse_input<R: Files<File = File>, O: Write, E: Write>(
    rt: &R,
    path: &str,
    fault: InputFault,
    output: &mut O,
    errors: &mut E,
) -> io::Result<Status> {
    match fault {
        InputFault::Unread => {
            let _ = tell_file(rt, path, Purpose::Read, errors);
            refuse(output, Refusal::File)
        }
        InputFault::Memory => refuse(output, Refusal::Memory),
    }
}

/// Makes a journal on two files. Where its name, or that of one of its files, is taken, nothing is changed.
fn make<R: Files<File = File> + AllocGlobal, O: Write, E: Write>(
    rt: &R,
    path: &str,
    output: &mut O,
    errors: &mut E,
) -> io::Result<Status> {
    let alloc = rt.alloc();
    match is_any_taken(rt, alloc, path) {
        Ok(false) => {}
        Ok(true) => return refuse(output, Refusal::Exists),
        Err(_) => return refuse(output, Refusal::Memory),
    }
    match FileTwin::create(rt, alloc, path) {
        Ok(mut twin) => format_twin(&mut twin, output),
        Err(fault) => refuse_files(rt, path, Purpose::Make, not_opened(fault), output, errors),
    }
}

/// Writes why the files of a journal aren't used.
fn refuse_files<R: Files<File = File> + AllocGlobal, O: Write, E: Write>(
    rt: &R,
    path: &str,
    purpose: Purpose,
    refusal: Refusal,
    output: &mut O,
    errors: &mut E,
) -> io::Result<Status> {
    let _ = tell_journal(rt, rt.alloc(), path, purpose, refusal, errors);
    refuse(output, refusal)
}

/// The refusal where two files could not be opened or made.
fn not_opened(fault: DiskFault) -> Refusal
    ensures failed { fault ≡ DiskFault.Failed → result ≡ Refusal.File }
    ensures memory { fault ≡ DiskFault.Memory → result ≡ Refusal.Memory }
{
    match fault {
        DiskFault::Failed => Refusal::File,
        DiskFault::Memory => Refusal::Memory,
    }
}

/// Lists a journal, or tells it in short. That a server has it in use is told on the errors.
fn show<R: Files<File = File> + AllocGlobal, O: Write, E: Write>(
    rt: &R,
    path: &str,
    summary: bool,
    output: &mut O,
    errors: &mut E,
) -> io::Result<Status> {
    let alloc = rt.alloc();
    let mut twin = match files_at(rt, alloc, path) {
        Ok(twin) => twin,
        Err(refusal) => return refuse_files(rt, path, Purpose::List, refusal, output, errors),
    };
    if is_in_use(rt, alloc, path) {
        let _ = writeln!(
            errors,
            "the journal {path} is in use: it may change meanwhile"
        );
    }
    if summary {
        summarize_journal(alloc, &mut twin, output)
    } else {
        list_journal(alloc, &mut twin, output)
    }
}

/// The two files of a journal, to be read.
///
/// # Errors
///
/// `NoJournal` if its name is that of something, and of no empty file; `File` if one of the two is missing or can't be read; `Memory` if one has more
/// bytes than a journal may have, or memory was refused.
fn files_at<R: Files<File = File>>(rt: &R, alloc: Global, path: &str) -> Result<FileTwin, Refusal> {
    if is_taken(rt, path) {
        return Err(Refusal::NoJournal);
    }
    match FileTwin::open_to_read(rt, alloc, path, MOST_JOURNAL) {
        Ok(twin) => Ok(twin),
        Err(fault) => Err(not_opened(fault)),
    }
}

/// Plays the script in a file, with the configuration in another where one is named, which is checked first.
fn play_file<R: Files<File = File> + AllocGlobal, O: Write, E: Write>(
    rt: &R,
    config: Option<&str>,
    script: &str,
    output: &mut O,
    errors: &mut E,
) -> io::Result<Status> {
    let config = match config_at(rt, config, errors) {
        Ok(config) => config,
        Err(refusal) => return refuse(output, refusal),
    };
    match input_in(rt, script) {
        Ok(text) => play_text(rt.alloc(), config, text.as_slice(), output),
        Err(fault) => {
            drop(config);
            refuse_input(rt, script, fault, output, errors)
        }
    }
}

/// The configuration in a file. Of a faulty line a sentence is written to the errors too.
///
/// # Errors
///
/// `File` where it can't be read; `Config` with its first faulty line; `Memory` where memory was refused.
fn config_in<R: Files<File = File> + AllocGlobal, E: Write>(
    rt: &R,
    path: &str,
    errors: &mut E,
) -> Result<Config, Refusal> {
    match fs::open(rt, path) {
        Ok(mut file) => read_config(rt.alloc(), &mut file, path, errors),
        Err(_) => Err(Refusal::File),
    }
}

/// The configuration in an input, which is that of a file. Of a faulty line a sentence is written to the errors too.
///
/// # Errors
///
/// `File` where it can't be read; `Config` with its first faulty line; `Memory` where memory was refused.
fn read_config<I: Read, E: Write>(
    alloc: Global,
    input: &mut I,
    path: &str,
    errors: &mut E,
) -> Result<Config, Refusal>
    ensures ok { IfOk result (λ config. IfSome (I.remaining input.old) (λ text. IsConfig text config)) }
    ensures err { IfErr result (λ refusal. IfSome (I.remaining input.old) (λ text. IsRefusedInput text refusal)) }
{
    let text = match read_whole(alloc, input) {
        Ok(text) => text,
        Err(InputFault::Unread) => return Err(Refusal::File),
        Err(InputFault::Memory) => return Err(Refusal::Memory),
    };
    match config_of(alloc, text.as_slice()) {
        Ok(config) => Ok(config),
        Err(refusal) => {
            tell_config(path, text.as_slice(), refusal, errors);
            Err(refusal)
        }
    }
}

/// Writes a sentence about the faulty line of a configuration, if that is why it is refused. One that can't be written is lost.
fn tell_config<E: Write>(path: &str, text: &[u8], refusal: Refusal, errors: &mut E) {
    if let Refusal::Config { line, kind } = refusal {
        let _ = tell_line(path, text, line, kind, errors);
    }
}

/// The configuration of a router named `R1` with no sections.
///
/// # Errors
///
/// `Memory` where memory was refused.
fn standard(alloc: Global) -> Result<Config, Refusal>
    ensures { IfOk result (λ config. config ≡ standard) }
{
    match Config::standard(alloc) {
        Ok(config) => Ok(config),
        Err(_) => Err(Refusal::Memory),
    }
}

/// Plays the script in an input, with the standard configuration.
fn play_standard<I: Read, O: Write>(
    alloc: Global,
    input: &mut I,
    output: &mut O,
) -> io::Result<Status>
    ensures { IfOk result (λ status. PlaysInput standard (I.remaining input.old) status (O.contents output.old) (O.contents output.new)) }
{
    match standard(alloc) {
        Ok(config) => play(alloc, config, input, output),
        Err(_) => refuse(output, Refusal::Memory),
    }
}

/// Plays the script in an input.
fn play<I: Read, O: Write>(
    alloc: Global,
    config: Config,
    input: &mut I,
    output: &mut O,
) -> io::Result<Status>
    ensures { IfOk result (λ status. PlaysInput config (I.remaining input.old) status (O.contents output.old) (O.contents output.new)) }
{
    match read_whole(alloc, input) {
        Ok(text) => play_text(alloc, config, text.as_slice(), output),
        Err(InputFault::Unread) => refuse(output, Refusal::File),
        Err(InputFault::Memory) => refuse(output, Refusal::Memory),
    }
}

/// Plays a script against a router with this configuration. The whole of it is checked before anything is played.
pub fn play_text<O: Write>(
    alloc: Global,
    config: Config,
    text: &[u8],
    output: &mut O,
) -> io::Result<Status>
    ensures { IfOk result (λ status. Plays config text.now status (O.contents output.old) (O.contents output.new)) }
{
    match read_script(alloc, text) {
        Ok(runs) => play_script(alloc, config, runs.as_slice(), output),
        Err(ScriptFault::Line { line }) => {
            drop(config);
            refuse(output, Refusal::Script { line })
        }
        Err(ScriptFault::Memory) => refuse(output, Refusal::Memory),
    }
}

/// Plays the runs of a script, on a new journal in memory.
fn play_script<O: Write>(
    alloc: Global,
    config: Config,
    runs: &[Run],
    output: &mut O,
) -> io::Result<Status>
    ensures { IfOk result (λ status. PlaysRuns config (map as_run runs.now) status (O.contents output.old) (O.contents output.new)) }
{
    let mut twin = FuseTwin::new(MemTwin::new(alloc));
    match format(&mut twin) {
        Ok(()) => {
            let report = play_runs(alloc, twin, config, runs);
            print_report(&report, sets_fuse(runs), output)
        }
        Err(_) => {
            drop(twin);
            drop(config);
            refuse(output, Refusal::Memory)
        }
    }
}

/// Whether runs set a fuse.
fn sets_fuse(runs: &[Run]) -> bool
    ensures { result ≡ sets_fuse (map as_run runs.now) }
{
    for run in runs {
        if has_fuse(&run.steps) {
            return true;
        }
    }
    false
}

/// Whether steps set a fuse.
fn has_fuse(steps: &[Step]) -> bool
    ensures { result ≡ list_any is_fuse steps.now }
{
    steps.iter().any(|step| matches!(step, Step::Fuse { .. }))
}

/// Writes the lines of a report, and a line that memory was refused if it was. Where the steps set a fuse, it is the fuse that made the
/// router's disk fail: that is what was asked for, and no failure of the program.
fn print_report<O: Write, C: Drop>(
    report: &Report<C>,
    fused: bool,
    output: &mut O,
) -> io::Result<Status>
    ensures status { IfOk result (λ status. status ≡ end_of fused report.now) }
    ensures lines { report.now.halted ≡ None → OnOk result (Writes report.now.lines.items (O.contents output.old) (O.contents output.new)) }
{
    print_lines(output, report.lines.as_slice())?;
    match report.halted {
        None => {}
        Some(OpenFault::Memory) => return refuse(output, Refusal::Memory),
        Some(_) => return Ok(Status::Failed),
    }
    match report.failed {
        None => Ok(Status::Done),
        Some(CoreFault::Disk) => Ok(if fused { Status::Done } else { Status::Failed }),
        Some(_) => Ok(Status::Failed),
    }
}
