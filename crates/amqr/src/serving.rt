//! The command that serves clients.
ghost use Rattle.std.specs.Prelude.{◌≡◌, ◌^◌};
ghost use Rattle.core_machine.specs.Opened.{IsOpened};
ghost use Rattle.router_core.specs.Machine.{opening_of};
ghost use Rattle.serve_lock.specs.Blank.{AreOf};

use crate::opening::{journal_words, open_router};
use amqr_commands::{Refusal, Serving, Status, config_at, refuse};
use amqr_files::{Endpoint, JournalTwin, Purpose, Unopened, refuse_journal, tell_journal};
use core_machine::Machine;
use route_table::{Config, Listener, Role};
use router_core::Core;
use router_serve::{Blanks, Names, Server};
use serve_sockets::{Lines, Program, ProgramState, THREADS, listen, write_lines};
use state_connections::CONNECTIONS;
use std::alloc::{AllocError, Global};
use std::fs::File;
use std::io::{self, Write};
use std::marker::Brand;
use std::net::{Net, TcpListener, TcpStream};
use std::rt::Files;
use std::sync::{Arc, Wait};
use std::thread::Threads;
use std::time::Clock;

/// How clients are to be served, and what is reported first.
#[derive(Clone, Copy)]
struct Task<'a> {
    /// How they are to be served.
    serving: Serving<'a>,
    /// What is reported of the journal.
    journal: &'a str,
}

/// The sockets of the listeners.
enum Bound {
    /// Each has one.
    All(Vec<TcpListener>),
    /// Not all can be had: how the program ends.
    Ended(Status),
}

/// Serves clients at the configuration's listeners, or at the standard one where it has none, over the journal that is named, or
/// over one in memory. Why it doesn't is a line of the output, and a sentence of the errors unless it is to be quiet.
pub fn serve<
    R: Net<Listener = TcpListener, Stream = TcpStream>
        + Files<File = File>
        + AllocGlobal
        + Threads
        + Wait
        + Sync
        + Clock
        + Eprint
        + Copy
        + Send
        + 'static,
    O: Write,
    E: Write,
>(rt: &R, serving: Serving<'_>, output: &mut O, errors: &mut E) -> io::Result<Status> {
    if serving.quiet {
        return serve_telling(rt, serving, output, &mut io::sink());
    }
    serve_telling(rt, serving, output, errors)
}

/// Serves clients, as `serve` does, and writes sentences to the errors.
fn serve_telling<
    R: Net<Listener = TcpListener, Stream = TcpStream>
        + Files<File = File>
        + AllocGlobal
        + Threads
        + Wait
        + Sync
        + Clock
        + Eprint
        + Copy
        + Send
        + 'static,
    O: Write,
    E: Write,
>(rt: &R, serving: Serving<'_>, output: &mut O, errors: &mut E) -> io::Result<Status> {
    let alloc = rt.alloc();
    let config = match config_at(rt, serving.config, errors) {
        Ok(config) => config,
        Err(refusal) => return refuse(output, refusal),
    };
    match open_router(rt, alloc, serving.journal, &config) {
        Ok(core) => {
            let Ok(journal) = journal_words(alloc, serving.journal, &core) else {
                drop(core);
                drop(config);
                return refuse(output, Refusal::Memory);
            };
            let task = Task {
                serving,
                journal: journal.as_str(),
            };
            serve_over(rt, alloc, config, core, task, output, errors)
        }
        Err(fault) => {
            drop(config);
            let path = serving.journal.unwrap_or("");
            refuse_router(rt, alloc, path, fault, output, errors)
        }
    }
}

/// Writes why no router is opened over a journal.
fn refuse_router<R: Files<File = File>, O: Write, E: Write>(
    rt: &R,
    alloc: Global,
    path: &str,
    fault: Unopened,
    output: &mut O,
    errors: &mut E,
) -> io::Result<Status> {
    if let Unopened::Refused(refusal) = fault {
        let _ = tell_journal(rt, alloc, path, Purpose::Serve, refusal, errors);
    }
    refuse_journal(output, path, fault)
}

/// Serves with a router, once all listeners have their sockets.
fn serve_over<
    R: Net<Listener = TcpListener, Stream = TcpStream>
        + Threads
        + Wait
        + Sync
        + Clock
        + Eprint
        + Copy
        + Send
        + 'static,
    O: Write,
    E: Write,
>(
    rt: &R,
    alloc: Global,
    config: Config,
    core: Core<JournalTwin>,
    task: Task<'_>,
    output: &mut O,
    errors: &mut E,
) -> io::Result<Status>
    requires opened { IsOpened ⟦<Core<JournalTwin> as Machine>⟧.meaning (opening_of config core) core }
{
    let Ok(own) = standard_listeners(alloc) else {
        drop(core);
        drop(config);
        return refuse(output, Refusal::Memory);
    };
    match bind(rt, alloc, listeners_of(&config, &own), output, errors) {
        Ok(Bound::All(sockets)) => match start(rt, alloc, config, core, &own, &sockets, task) {
            Ok(status) => Ok(status),
            Err(_) => refuse(output, Refusal::Memory),
        },
        Ok(Bound::Ended(status)) => {
            drop(core);
            drop(config);
            Ok(status)
        }
        Err(error) => {
            drop(core);
            drop(config);
            Err(error)
        }
    }
}

/// Makes the sockets of listeners, and prints each listener, or the first that can't be bound, with the reason on the errors.
fn bind<R: Net<Listener = TcpListener, Stream = TcpStream>, O: Write, E: Write>(
    rt: &R,
    alloc: Global,
    listeners: &[Listener],
    output: &mut O,
    errors: &mut E,
) -> io::Result<Bound> {
    let Ok(sockets) = bind_all(rt, alloc, listeners, errors) else {
        return Ok(Bound::Ended(refuse(output, Refusal::Memory)?));
    };
    if let Some(listener) = listeners.get(sockets.len()) {
        let endpoint = endpoint_of(listener);
        writeln!(output, "listen {endpoint}")?;
        return Ok(Bound::Ended(Status::BadInput));
    }
    for listener in listeners {
        let endpoint = endpoint_of(listener);
        writeln!(output, "listening {endpoint}")?;
    }
    output.flush()?;
    Ok(Bound::All(sockets))
}

/// Where a listener listens.
fn endpoint_of(listener: &Listener) -> Endpoint<'_> {
    Endpoint::new(listener.host.as_str(), listener.port)
}

/// The listener of a configuration that has none.
fn standard_listeners(alloc: Global) -> Result<Vec<Listener>, AllocError> {
    let mut own = Vec::new(alloc);
    own.push(Listener::standard(alloc, Role::Normal)?)?;
    Ok(own)
}

/// The listeners of a configuration, or these where it has none.
fn listeners_of<'a>(config: &'a Config, own: &'a [Listener]) -> &'a [Listener] {
    if config.listeners().is_empty() {
        own
    } else {
        config.listeners()
    }
}

/// The sockets of listeners, in order, up to the first that can't be bound, of which a sentence is written to the errors.
fn bind_all<R: Net<Listener = TcpListener, Stream = TcpStream>, E: Write>(
    rt: &R,
    alloc: Global,
    listeners: &[Listener],
    errors: &mut E,
) -> Result<Vec<TcpListener>, AllocError> {
    let mut sockets = Vec::new(alloc);
    for listener in listeners {
        let endpoint = endpoint_of(listener);
        match TcpListener::bind(rt, (endpoint.host, endpoint.port)) {
            Ok(socket) => sockets.push(socket)?,
            Err(error) => {
                let _ = writeln!(errors, "no listener can be had at {endpoint}: {error}");
                return Ok(sockets);
            }
        }
    }
    Ok(sockets)
}

/// Serves with a router, with ledgers that are made for it.
fn start<
    R: Net<Listener = TcpListener, Stream = TcpStream>
        + Threads
        + Wait
        + Sync
        + Clock
        + Eprint
        + Copy
        + Send
        + 'static,
>(
    rt: &R,
    alloc: Global,
    config: Config,
    core: Core<JournalTwin>,
    own: &[Listener],
    sockets: &[TcpListener],
    task: Task<'_>,
) -> Result<Status, AllocError>
    requires opened { IsOpened ⟦<Core<JournalTwin> as Machine>⟧.meaning (opening_of config core) core }
{
    let blanks = Blanks::new();
    counted::<Brand, R>(rt, alloc, config, own, sockets, task, core, blanks)
}

/// Serves, and joins the threads' counts with what the router did.
fn counted<
    N: Names,
    R: Net<Listener = TcpListener, Stream = TcpStream>
        + Threads
        + Wait
        + Sync
        + Clock
        + Eprint
        + Copy
        + Send
        + 'static,
>(
    rt: &R,
    alloc: Global,
    config: Config,
    own: &[Listener],
    sockets: &[TcpListener],
    task: Task<'_>,
    core: Core<JournalTwin>,
    blanks: Blanks,
) -> Result<Status, AllocError>
    requires opened { IsOpened ⟦<Core<JournalTwin> as Machine>⟧.meaning N.opening core }
    requires blanks { AreOf N.ups N.items N.downs N.ticks N.starts N.batches N.seats blanks }
    requires seats { N.seats ≡ 2 ^ 62 }
{
    let made: Result<Server<Core<JournalTwin>, N>, AllocError> = Server::new(alloc, core, blanks);
    let Ok(router) = made else {
        drop(config);
        return Err(AllocError);
    };
    let Ok(lines) = Arc::new(alloc, Lines::new(alloc, task.serving.quiet)) else {
        drop(config);
        drop(router);
        return Err(AllocError);
    };
    let state = ProgramState::new(alloc, config, task.serving.connections, lines);
    let program = Program { router, state };
    write_lines(rt, &program.state.lines)?;
    program.state.lines.say(rt, task.journal);
    tell_limits(rt, &program.state);
    tell_routes(rt, &program.state);
    program.start(rt);
    listen(
        rt,
        &program,
        listeners_of(&program.state.config, own),
        sockets,
    );
    program.state.lines.close(rt);
    if close(program) {
        return Ok(Status::Failed);
    }
    Ok(Status::Done)
}

/// Reports how many connections are served at once.
fn tell_limits<R: Wait + Clock>(rt: &R, state: &ProgramState) {
    if let Ok(line) = format!(in state.alloc;
        "up to {CONNECTIONS} connections are served at once, and up to {THREADS} are taken with those that are at their doors"
    ) {
        state.lines.say(rt, &line);
    }
}

/// Reports that link routes aren't followed, if the configuration has any.
fn tell_routes<R: Wait + Clock>(rt: &R, state: &ProgramState) {
    if !state.config.link_routes().is_empty() {
        state.lines.say(
            rt,
            "link routes aren't followed yet: a link of such an address ends at this router",
        );
    }
}

/// The seats that no thread uses come back, and all else is let go. It tells whether the router failed.
fn close<N: Names>(program: Program<Server<Core<JournalTwin>, N>>) -> bool {
    let Program { router, state } = program;
    drop(state);
    let closed = router.close();
    let failed = closed.core.is_failed();
    drop(closed);
    failed
}
