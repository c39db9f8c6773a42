//! What becomes of a fault within a list.
ghost use Rattle.std.specs.Prelude.{◌≡◌};
ghost use Rattle.amqp_perf.specs.Faults.{inner, inside};

use amqp_model::{PerfFault, TypeFault};

/// The same fault inside a list, where the end of the bytes is the list's end.
pub(crate) fn within(fault: PerfFault) -> PerfFault
    ensures { result ≡ inside fault }
{
    match fault {
        PerfFault::Spelling(TypeFault::Truncated) => PerfFault::Spelling(TypeFault::SizeMismatch),
        fault => fault,
    }
}

/// A value's own fault within a list.
pub(crate) fn within_list(fault: TypeFault) -> PerfFault
    ensures { result ≡ inner fault }
{
    match fault {
        TypeFault::Memory => PerfFault::Memory,
        TypeFault::Truncated => PerfFault::Spelling(TypeFault::SizeMismatch),
        fault => PerfFault::Spelling(fault),
    }
}
