// A configuration's text, read line by line.
ghost use Rattle.std.specs.Prelude.{◌≡◌, ◌≢◌, None, Some, IfOk, IfErr, OnOk};
ghost use Rattle.route_table.specs.File.{first_fault, sections};
ghost use Rattle.route_table.specs.Said.{settings_of};

use crate::building::config_of;
use crate::configuration::Config;
use crate::faults::{ConfigFault, FaultKind};
use crate::judgement::step;
use crate::lines::{first_line, read_line};
use crate::parts::Section;
use std::alloc::Global;

/// Reads a configuration.
///
/// A line is empty, a comment (`#` is its first character), `NAME {`, `key: value` or `}`; spaces and tabs at its ends
/// are ignored. The answer is what the sections say, with each default filled in, or the first faulty line with
/// what is wrong with it. It allocates, and answers `Memory` where memory was refused.
pub fn read_config(alloc: Global, text: &str) -> Result<Config, ConfigFault>
    ensures config { IfOk result (λ c. c ≡ settings_of (sections text.now)) }
    ensures faultless { OnOk result (first_fault text.now ≡ None) }
    ensures fault { IfErr result (λ e. e.kind ≢ FaultKind.Memory → first_fault text.now ≡ Some (e.line, e.kind)) }
{
    let sections = read_sections(alloc, text)?;
    match config_of(alloc, &sections) {
        Ok(config) => Ok(config),
        Err(_) => Err(ConfigFault {
            line: 0,
            kind: FaultKind::Memory,
        }),
    }
}

fn read_sections(alloc: Global, text: &str) -> Result<Vec<Section<'_>>, ConfigFault>
    ensures sections { IfOk result (λ v. v.items ≡ sections text.now) }
    ensures faultless { OnOk result (first_fault text.now ≡ None) }
    ensures fault { IfErr result (λ e. e.kind ≢ FaultKind.Memory → first_fault text.now ≡ Some (e.line, e.kind)) }
{
    let mut ended = Vec::new(alloc);
    let mut current = None;
    let mut rest = text;
    let mut number: usize = 0;
    while !rest.is_empty() {
        let (line, behind) = first_line(rest);
        number += 1;
        match step(alloc, &mut ended, current, read_line(line), behind) {
            Ok(next) => current = next,
            Err(kind) => return Err(ConfigFault { line: number, kind }),
        }
        rest = behind;
    }
    match current {
        None => Ok(ended),
        Some(_) => Err(ConfigFault {
            line: number,
            kind: FaultKind::Syntax,
        }),
    }
}
