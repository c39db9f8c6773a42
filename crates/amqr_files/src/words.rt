//! The program's arguments.
ghost use Rattle.std.specs.Prelude.{◌≡◌, ◌<◌, length, IfOk};

use clap::error::ErrorKind;
use clap::{Arg, ArgAction, Command, Error};
use std::alloc::{AllocError, Global};
use std::convert::AsStr;

/// The version that `--version` prints.
const VERSION: &str = "0.1.0";

/// What the arguments ask for.
#[derive(Clone, Copy, Debug)]
pub enum Task<'a> {
    /// To play the script that comes on standard input.
    PlayInput,
    /// To play the script in a file.
    Play {
        /// The file of the router's configuration; the standard configuration where none is named.
        config: Option<&'a str>,
        /// The file of the script.
        script: &'a str,
    },
    /// To serve clients.
    Serve(Serving<'a>),
    /// To list the frames in a file.
    Frames {
        /// The file.
        file: &'a str,
    },
    /// To make a journal.
    Format {
        /// The name of its files, without their numbers.
        file: &'a str,
    },
    /// To list a journal.
    Journal {
        /// The name of its files, without their numbers.
        file: &'a str,
        /// Whether it is told in short.
        summary: bool,
    },
}

/// How clients are to be served.
#[derive(Clone, Copy, Debug)]
pub struct Serving<'a> {
    /// The file of the router's configuration; the standard configuration where none is named.
    pub config: Option<&'a str>,
    /// The name of the journal's files, without their numbers; without it the journal is kept in memory.
    pub journal: Option<&'a str>,
    /// The number of connections after which the program ends, at least 1; without it the program doesn't end.
    pub connections: Option<u64>,
    /// Whether nothing is reported on standard error.
    pub quiet: bool,
}

/// What these arguments ask for; the first is the program's name. Without others the script comes on standard input.
///
/// # Errors
///
/// A text for the user: what is wrong with the arguments, or the help that they ask for.
pub fn read_words<'a, S: AsStr>(alloc: Global, words: &'a [S]) -> Result<Task<'a>, Error>
    ensures none { length words.entry.now < 2 → result ≡ Ok Task.PlayInput }
    ensures some { IfOk result (λ task. task ≡ Task.PlayInput → length words.entry.now < 2) }
{
    if words.len() < 2 {
        return Ok(Task::PlayInput);
    }
    let matches = program(alloc)?.try_get_matches_from(words)?;
    match matches.subcommand() {
        Some(("play", rest)) => {
            if let Some(script) = rest.get_str("SCRIPT") {
                let config = rest.get_str("config");
                return Ok(Task::Play { config, script });
            }
        }
        Some(("serve", rest)) => {
            if let Some(connections) = connections_in(rest.get_str("connections")) {
                return Ok(Task::Serve(Serving {
                    config: rest.get_str("config"),
                    journal: rest.get_str("journal"),
                    connections,
                    quiet: rest.get_flag("quiet"),
                }));
            }
            return Err(program(alloc)?.error(
                ErrorKind::InvalidValue,
                "a number of connections is decimal digits, from 1 to 2^64 - 1",
            )?);
        }
        Some(("frames", rest)) => {
            if let Some(file) = rest.get_str("FILE") {
                return Ok(Task::Frames { file });
            }
        }
        Some(("format", rest)) => {
            if let Some(file) = rest.get_str("FILE") {
                return Ok(Task::Format { file });
            }
        }
        Some(("journal", rest)) => {
            if let Some(file) = rest.get_str("FILE") {
                let summary = rest.get_flag("summary");
                return Ok(Task::Journal { file, summary });
            }
        }
        _ => {}
    }
    Err(program(alloc)?.error(ErrorKind::MissingSubcommand, "a command is missing")?)
}

/// The program and its commands, as the help shows them.
fn program<'a>(alloc: Global) -> Result<Command<'a>, AllocError> {
    Command::new(alloc, "amqr")
        .version(VERSION)
        .about(
            "A message router for AMQP 1.0. Without a word it plays the script on standard input.",
        )
        .subcommand_required(true)
        .subcommand(play(alloc)?)?
        .subcommand(serve(alloc)?)?
        .subcommand(frames(alloc)?)?
        .subcommand(format(alloc)?)?
        .subcommand(journal(alloc)?)
}

/// The command that plays a script.
fn play<'a>(alloc: Global) -> Result<Command<'a>, AllocError> {
    let config = Arg::new(alloc, "config")
        .long("config")
        .value_name("FILE")
        .action(ArgAction::Set)
        .help(
            "A file of the router's configuration; without it the router is R1 and has no sections",
        );
    let script = Arg::new(alloc, "SCRIPT")
        .required(true)
        .action(ArgAction::Set)
        .help(
            "A file of lines: up N, up N route-container, in N HEX, down N, tick MS, fuse K, blank lines and # comments",
        );
    Command::new(alloc, "play")
        .about("Plays a script against a router in memory, and prints what the router sends")
        .arg(config)?
        .arg(script)
}

/// The command that serves clients.
fn serve<'a>(alloc: Global) -> Result<Command<'a>, AllocError> {
    let config = Arg::new(alloc, "config")
        .long("config")
        .value_name("FILE")
        .action(ArgAction::Set)
        .help(
            "A file of the router's configuration; without it the router is R1 and listens on 127.0.0.1:5672",
        );
    let journal = Arg::new(alloc, "journal")
        .long("journal")
        .value_name("FILE")
        .action(ArgAction::Set)
        .help(
            "A journal, in FILE.0 and FILE.1; without it durable deliveries are lost when the program ends",
        );
    let connections = Arg::new(alloc, "connections")
        .long("connections")
        .value_name("N")
        .action(ArgAction::Set)
        .help("Ends after N connections");
    let quiet = Arg::new(alloc, "quiet")
        .long("quiet")
        .action(ArgAction::SetTrue)
        .help("Tells nothing on standard error");
    Command::new(alloc, "serve")
        .about("Serves clients, each connection in threads of its own")
        .arg(config)?
        .arg(journal)?
        .arg(connections)?
        .arg(quiet)
}

/// The number of connections in a word, if there is a word: digits alone, and not 0. None where it is no such number.
fn connections_in(word: Option<&str>) -> Option<Option<u64>> {
    let Some(word) = word else {
        return Some(None);
    };
    if !word.bytes().all(|byte| byte.is_ascii_digit()) {
        return None;
    }
    match word.parse::<u64>() {
        Ok(0) => None,
        Ok(number) => Some(Some(number)),
        Err(_) => None,
    }
}

/// The command that lists frames.
fn frames<'a>(alloc: Global) -> Result<Command<'a>, AllocError> {
    let file = file(
        alloc,
        "A file of the bytes that one side of a connection sent",
    );
    Command::new(alloc, "frames")
        .about("Lists the headers and frames that the bytes of a file are")
        .arg(file)
}

/// The command that makes a journal.
fn format<'a>(alloc: Global) -> Result<Command<'a>, AllocError> {
    let file = file(
        alloc,
        "The journal is made in FILE.0 and FILE.1, which are missing or empty",
    );
    Command::new(alloc, "format")
        .about("Makes a journal of durable deliveries on two files")
        .arg(file)
}

/// The command that lists a journal.
fn journal<'a>(alloc: Global) -> Result<Command<'a>, AllocError> {
    let summary = Arg::new(alloc, "summary")
        .long("summary")
        .action(ArgAction::SetTrue)
        .help("Tells it in short: its size, its rows, each terminus, and the room that is left");
    let file = file(alloc, "A journal, in FILE.0 and FILE.1");
    Command::new(alloc, "journal")
        .about(
            "Lists the acts of a journal, each with the place of its batch, and what its book has",
        )
        .arg(summary)?
        .arg(file)
}

/// The word that names a file.
fn file<'a>(alloc: Global, help: &'a str) -> Arg<'a> {
    Arg::new(alloc, "FILE")
        .required(true)
        .action(ArgAction::Set)
        .help(help)
}
