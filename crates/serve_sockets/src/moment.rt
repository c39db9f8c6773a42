//! The time of a line.
use jiff_core::civil::DateTime;
use std::fmt::{self, Display, Formatter, Write};
use std::time::Clock;

/// A moment by the system's clock. `{}` prints it in UTC, to the millisecond, as `2026-11-28T14:03:59.123Z`.
#[derive(Clone, Copy)]
pub struct Moment {
    at: DateTime,
}

impl Moment {
    /// The time by the system's clock; none if it can't be read.
    pub fn now<R: Clock>(rt: &R) -> Option<Moment> {
        let since = rt.since_1970().ok()?;
        let nanoseconds = i128::try_from(since.as_nanos()).ok()?;
        let at = DateTime::from_nanosecond(nanoseconds).ok()?;
        Some(Moment { at })
    }
}

impl Display for Moment {
    fn fmt<W: Write>(&self, f: &mut Formatter<W>) -> fmt::Result {
        let (date, time) = (self.at.date, self.at.time);
        let (year, month, day) = (date.year, date.month, date.day);
        let (hour, minute, second) = (time.hour, time.minute, time.second);
        let milliseconds = time.subsec_nanosecond / 1_000_000;
        write!(f, "{year:04}-{month:02}-{day:02}T")?;
        write!(f, "{hour:02}:{minute:02}:{second:02}.{milliseconds:03}Z")
    }
}
