//! Reads a configuration.
ghost use Rattle.std.specs.Prelude.{◌≡◌, IfOk, IfErr};
ghost use Rattle.amqr_commands.specs.Config.{IsConfig, IsRefused, config_refusal};

use crate::script::line_at;
use amqr_files::Refusal;
use route_table::{Config, ConfigFault, FaultKind, read_config};
use std::alloc::Global;
use std::str;

/// The configuration in a text. The whole text is checked: a fault is that of its first faulty line. Text that
/// isn't UTF-8 is a syntax fault in the line of its first wrong byte, and comes before any other fault.
///
/// # Errors
///
/// `Config` with the first faulty line; `Memory` where memory was refused.
#[tactic(auto, using(crate::proofs::Configs::refused))]
pub fn config_of(alloc: Global, text: &[u8]) -> Result<Config, Refusal>
    ensures ok { IfOk result (λ config. IsConfig text.now config) }
    ensures err { IfErr result (λ refusal. IsRefused text.now refusal) }
{
    match str::from_utf8(text) {
        Ok(text) => match read_config(alloc, text) {
            Ok(config) => Ok(config),
            Err(fault) => Err(refusal_of(fault)),
        },
        Err(fault) => Err(Refusal::Config {
            line: line_at(text, fault.valid_up_to()),
            kind: FaultKind::Syntax,
        }),
    }
}

/// How a fault of a configuration is reported.
fn refusal_of(fault: ConfigFault) -> Refusal
    ensures { result ≡ config_refusal fault }
{
    match fault.kind {
        FaultKind::Memory => Refusal::Memory,
        kind => Refusal::Config {
            line: fault.line as u64,
            kind,
        },
    }
}
