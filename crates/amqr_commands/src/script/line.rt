//! What one line of a script means.
ghost use Rattle.std.specs.Prelude.{◌≡◌, ◌==◌, ◌||◌, IfOk, Some, OnErr};
ghost use Rattle.amqr_commands.specs.Lines.{Says, saying_of, stop_in, is_blank, is_comment, step_by, with_number, with_word, with_role, with_bytes};
ghost use Rattle.amqr_commands.specs.Words.{cut_at, number_of, bytes_of};

use crate::script::word::{bytes, cut, number};
use router_play::{ConnectionId, PeerRole, Step, Stop};
use std::alloc::{AllocError, Global};

/// Why a line gives no step.
#[derive(Clone, Copy, Debug, PartialEq, Eq)]
pub(crate) enum LineFault {
    /// It says something that a script may not say.
    Wrong,
    /// Memory was refused.
    Memory,
}

/// What a line of a script asks for.
#[derive(Debug, Drop)]
pub(crate) enum Instruction {
    /// A step.
    Play(Step),
    /// A stop of the router, after which the next run begins.
    Stop(Stop),
}

/// What a line says: an instruction, or none where it is blank or a comment.
#[tactic(auto, unfolding(crate::specs::Lines::saying_of))]
pub(crate) fn read_line(alloc: Global, line: &str) -> Result<Option<Instruction>, LineFault>
    ensures { Says result (saying_of line.now) }
{
    if is_comment(line) || is_blank(line) {
        return Ok(None);
    }
    if let Some(stop) = stop_in(line) {
        return Ok(Some(Instruction::Stop(stop)));
    }
    match read_step(alloc, line) {
        Ok(Some(step)) => Ok(Some(Instruction::Play(step))),
        Ok(None) => Err(LineFault::Wrong),
        Err(_) => Err(LineFault::Memory),
    }
}

/// Whether a line is a comment.
fn is_comment(line: &str) -> bool
    ensures { result ≡ is_comment line.now }
{
    line.starts_with('#')
}

/// Whether a line has only spaces and tabs.
fn is_blank(line: &str) -> bool
    ensures { result ≡ is_blank line.now }
{
    line.bytes().all(|byte| byte == b' ' || byte == b'\t')
}

/// The stop that a line says, if it says one.
fn stop_in(line: &str) -> Option<Stop>
    ensures { result ≡ stop_in line.now }
{
    match line {
        "stop old" => Some(Stop::Old),
        "stop new" => Some(Stop::New),
        _ => None,
    }
}

/// The step that the words of a line say, if they say one.
fn read_step(alloc: Global, line: &str) -> Result<Option<Step>, AllocError>
    ensures { IfOk result (λ step. step ≡ step_by (cut_at 32 line.now)) }
{
    let (verb, Some(behind)) = cut(line, ' ') else {
        return Ok(None);
    };
    match cut(behind, ' ') {
        (word, None) => Ok(step_with_number(verb, word)),
        (word, Some(behind)) => match cut(behind, ' ') {
            (third, None) => step_with_word(alloc, verb, word, third),
            (_, Some(_)) => Ok(None),
        },
    }
}

/// The step that a verb and a number say.
fn step_with_number(verb: &str, word: &str) -> Option<Step>
    ensures { result ≡ with_number verb.now (number_of word.now) }
{
    let number = number(word)?;
    match verb {
        "up" => Some(Step::Up {
            conn: ConnectionId(number),
            role: PeerRole::Normal,
        }),
        "down" => Some(Step::Down {
            conn: ConnectionId(number),
        }),
        "tick" => Some(Step::Tick { ms: number }),
        "fuse" => Some(Step::Fuse { calls: number }),
        _ => None,
    }
}

/// The step that a verb, a number and another word say.
fn step_with_word(
    alloc: Global,
    verb: &str,
    word: &str,
    third: &str,
) -> Result<Option<Step>, AllocError>
    ensures { IfOk result (λ step. step ≡ with_word verb.now (number_of word.now) third.now) }
{
    if verb == "up" {
        return Ok(step_with_role(word, third));
    }
    step_with_bytes(alloc, verb, word, third)
}

/// The step for a connection that is made in this role.
fn step_with_role(word: &str, role: &str) -> Option<Step>
    ensures { result ≡ with_role (number_of word.now) role.now }
{
    let number = number(word)?;
    if role != "route-container" {
        return None;
    }
    Some(Step::Up {
        conn: ConnectionId(number),
        role: PeerRole::RouteContainer,
    })
}

/// The step that a verb, a number and bytes say.
fn step_with_bytes(
    alloc: Global,
    verb: &str,
    word: &str,
    pairs: &str,
) -> Result<Option<Step>, AllocError>
    ensures { IfOk result (λ step. step ≡ with_bytes verb.now (number_of word.now) (bytes_of pairs.now)) }
{
    if verb != "in" {
        return Ok(None);
    }
    let Some(number) = number(word) else {
        return Ok(None);
    };
    match bytes(alloc, pairs)? {
        Some(bytes) => Ok(Some(Step::In {
            conn: ConnectionId(number),
            bytes,
        })),
        None => Ok(None),
    }
}
