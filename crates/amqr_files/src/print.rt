//! Lines of output.
ghost use Rattle.std.specs.Prelude.{◌≡◌, OnOk, IfOk, IfSome};
ghost use Rattle.std.specs.Io.KnownBytes.{Appends};
ghost use Rattle.amqr_files.specs.Print.{Refuses, printed};
ghost use Rattle.amqr_files.specs.Status.{status_of};

use crate::status::{Refusal, Status};
use std::fmt::Display;
use std::io::{self, Write};

/// Writes each line and a line feed after it, and nothing else.
pub fn print_lines<W: Write, L: Display>(output: &mut W, lines: &[L]) -> io::Result<()>
    ensures { OnOk result (IfSome (printed L.output lines.now) (Appends (W.contents output.old) (W.contents output.new))) }
{
    for line in lines {
        output.writeln(line)?;
    }
    Ok(())
}

/// Writes why nothing is done.
pub fn refuse<O: Write>(output: &mut O, refusal: Refusal) -> io::Result<Status>
    ensures status { IfOk result (λ status. status ≡ status_of refusal) }
    ensures told { IfOk result (λ status. Refuses refusal (O.contents output.old) (O.contents output.new)) }
{
    print_lines(output, &[refusal])?;
    Ok(refusal.status())
}
