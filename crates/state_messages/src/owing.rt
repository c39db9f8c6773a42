//! Links that owe a drain.
ghost use Rattle.std.specs.Prelude.{◌≡◌, ◌&&◌, ℕ, List, None, IfOk};
ghost use Rattle.router_trace.specs.Trace.{Entry};
ghost use Rattle.state_deliveries.specs.Finding.{IsFirst, is_above};
ghost use Rattle.state_messages.specs.Asking.{is_below, owes_drain, lowest_of};
ghost use Rattle.state_messages.specs.Fits.{MessagesFit};

use crate::messages::Messages;
use router_trace::Attachment;
use std::alloc::AllocError;

impl Messages {
    /// The lowest number, above another, of an attachment whose link owes a drain.
    pub fn owing_after(&self, number: Option<u64>) -> Result<Option<u64>, AllocError>
        ensures { IfOk result (λ owing. (t : List Entry) → MessagesFit self.now t → IsFirst (λ n. is_above number n && owes_drain t n) owing) }
    {
        let owed = self.links.owed()?;
        Ok(lowest_above(number, owed.as_slice()))
    }
}

/// The lowest number, above another, of these attachments.
fn lowest_above(number: Option<u64>, places: &[Attachment]) -> Option<u64>
    ensures { result ≡ lowest_of number None places.now }
{
    let mut lowest: Option<u64> = None;
    for at in places {
        if is_above(number, at.number) && is_below(lowest, at.number) {
            lowest = Some(at.number);
        }
    }
    lowest
}

/// Whether a number is above another, or there is no other.
fn is_above(other: Option<u64>, number: u64) -> bool
    ensures { result ≡ is_above other number }
{
    match other {
        None => true,
        Some(other) => other < number,
    }
}

/// Whether a number is below another, or there is no other.
fn is_below(other: Option<u64>, number: u64) -> bool
    ensures { result ≡ is_below other number }
{
    match other {
        None => true,
        Some(other) => number < other,
    }
}
