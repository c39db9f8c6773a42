//! A message router for AMQP 1.0: the program.
#![tactic(auto)]

mod opening;
mod serving;

use crate::serving::serve;
use amqr_commands::{Refusal, Status, refuse, run, serving_in};
use std::env;
use std::io::{self, BufWriter, Write};
use std::process::ExitCode;

fn main(rt: HostRuntime) -> ExitCode {
    let Ok(words) = words_of(&rt) else {
        let _ = refuse(&mut rt.stdout(), Refusal::Memory);
        return ExitCode::from(Status::Failed.code());
    };
    let done = match serving_in(rt.alloc(), words.as_slice()) {
        Some(serving) => serve(&rt, serving, &mut rt.stdout(), &mut rt.stderr()),
        None => run_over(&rt, words.as_slice()),
    };
    let status = match done {
        Ok(status) => status,
        Err(_) => Status::Failed,
    };
    ExitCode::from(status.code())
}

/// The arguments of the process.
fn words_of(rt: &HostRuntime) -> io::Result<Vec<String>> {
    Ok(env::args(rt)?.collect(rt.alloc())?)
}

/// Runs the program on the arguments and streams of the process.
fn run_over(rt: &HostRuntime, words: &[String]) -> io::Result<Status> {
    let Ok(mut output) = BufWriter::new(rt.alloc(), rt.stdout()) else {
        return refuse(&mut rt.stdout(), Refusal::Memory);
    };
    let mut errors = rt.stderr();
    let status = run(rt, words, &mut rt.stdin(), &mut output, &mut errors)?;
    output.flush()?;
    Ok(status)
}
