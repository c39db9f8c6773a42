//! Reads a script: lines that say what happens to a router.
pub mod line;
pub mod word;

ghost use Rattle.std.specs.Prelude.{◌≡◌, ◌+◌, ◌<◌, [], ◌∷◌, ◌++◌, length, map, take, IfOk, IfErr, OnOk};
ghost use Rattle.amqr_commands.specs.Running.{as_run};
ghost use Rattle.amqr_commands.specs.Script.{HasInstructions, HasRuns, IsFaulty, line_of, runs_from};

use crate::script::line::{Instruction, LineFault, read_line};
use crate::script::word::cut;
use router_play::{Run, Stop};
use std::alloc::{AllocError, Global};
use std::str;
use thiserror::Error;

/// Why a script can't be read.
#[derive(Clone, Copy, Debug, PartialEq, Eq, Error)]
pub enum ScriptFault {
    /// This line, counted from 1, says something that a script may not say, or has the first byte that isn't UTF-8.
    #[error("line {line} of the script is at fault")]
    Line {
        /// The line, counted from 1.
        line: u64,
    },
    /// Memory was refused.
    #[error("out of memory")]
    Memory,
}

/// The runs of a script. The whole text is checked: a fault is that of its first faulty line. Text that isn't UTF-8
/// is at fault in the line of its first wrong byte, and comes before any other fault.
///
/// # Errors
///
/// `Line` with the first faulty line; `Memory` where memory was refused.
pub fn read_script(alloc: Global, text: &[u8]) -> Result<Vec<Run>, ScriptFault>
    ensures ok { IfOk result (λ runs. HasRuns text.now (map as_run runs.items)) }
    ensures err { IfErr result (λ fault. IsFaulty text.now fault) }
{
    match str::from_utf8(text) {
        Ok(text) => {
            let instructions = read_lines(alloc, text)?;
            match runs_of(alloc, instructions) {
                Ok(runs) => Ok(runs),
                Err(AllocError) => Err(ScriptFault::Memory),
            }
        }
        Err(fault) => Err(ScriptFault::Line {
            line: line_at(text, fault.valid_up_to()),
        }),
    }
}

/// The line, counted from 1, that has this place of a text.
pub(crate) fn line_at(text: &[u8], place: usize) -> u64
    requires { place < length text.now }
    ensures { result ≡ line_of (take place text.now) }
{
    let before = text[..place].iter().filter(|byte| **byte == b'\n').count();
    before as u64 + 1
}

/// The runs that steps and stops make: each stop ends one, and so does the end.
fn runs_of(alloc: Global, instructions: Vec<Instruction>) -> Result<Vec<Run>, AllocError>
    ensures { IfOk result (λ runs. map as_run runs.items ≡ runs_from [] instructions.items) }
{
    let mut runs = Vec::new(alloc);
    let mut steps = Vec::new(alloc);
    for instruction in instructions {
        match instruction {
            Instruction::Play(step) => add(&mut steps, step)?,
            Instruction::Stop(stop) => {
                add(&mut runs, Run { steps, stop })?;
                steps = Vec::new(alloc);
            }
        }
    }
    let stop = Stop::Old;
    add(&mut runs, Run { steps, stop })?;
    Ok(runs)
}

/// Appends an item.
fn add<T: Drop>(items: &mut Vec<T>, item: T) -> Result<(), AllocError>
    ensures { OnOk result (items.new.items ≡ items.old.items ++ item ∷ []) }
{
    match items.push(item) {
        Ok(()) => Ok(()),
        Err(_) => Err(AllocError),
    }
}

/// The steps and stops of the lines of a text.
fn read_lines(alloc: Global, text: &str) -> Result<Vec<Instruction>, ScriptFault>
    ensures ok { IfOk result (λ steps. HasInstructions text.now steps.items) }
    ensures err { IfErr result (λ fault. IsFaulty text.now fault) }
{
    let mut steps = Vec::new(alloc);
    let mut line = 0u64;
    let mut rest = Some(text);
    while let Some(lines) = rest {
        let (first, behind) = cut(lines, '\n');
        line += 1;
        match read_line(alloc, first) {
            Ok(None) => {}
            Ok(Some(step)) => match steps.push(step) {
                Ok(()) => {}
                Err(_) => return Err(ScriptFault::Memory),
            },
            Err(LineFault::Wrong) => return Err(ScriptFault::Line { line }),
            Err(LineFault::Memory) => return Err(ScriptFault::Memory),
        }
        rest = behind;
    }
    Ok(steps)
}
