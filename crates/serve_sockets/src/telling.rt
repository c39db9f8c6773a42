//! When a line tells that the journal is full.
ghost use Rattle.std.specs.Prelude.{◌≡◌, ◌+◌, ◌-◌, ◌<◌, ◌≤◌, Some, None, IfSome};

/// The least time between two lines that tell it, in milliseconds: a minute.
const MINUTE: u64 = 60_000;

/// The last line that told that the journal is full.
#[derive(Clone, Copy)]
pub struct LastTold {
    /// How many events had found it full by then.
    events: u64,
    /// When it was said, in milliseconds since the first tick; none if there was no such line yet.
    at: Option<u64>,
}

impl LastTold {
    /// No line yet.
    pub fn nothing() -> LastTold
        ensures events { result.events ≡ 0 }
        ensures at { result.at ≡ None }
    {
        LastTold {
            events: 0,
            at: None,
        }
    }

    /// A line at this moment, by which so many events had found the journal full.
    pub fn at(events: u64, now: u64) -> LastTold
        ensures events { result.events ≡ events }
        ensures at { result.at ≡ Some now }
    {
        LastTold {
            events,
            at: Some(now),
        }
    }

    /// The number that a line is to tell now, when so many events have found the journal full: how many did since the last line. None if none did,
    /// or if the last line isn't a minute old.
    pub fn due(self, events: u64, now: u64) -> Option<u64>
        ensures still { events ≤ self.events → result ≡ None }
        ensures first { self.at ≡ None → self.events < events → result ≡ Some (events - self.events) }
        ensures soon { IfSome self.at (λ at. now < at + 60000 → result ≡ None) }
        ensures later { IfSome self.at (λ at. at + 60000 ≤ now → self.events < events → result ≡ Some (events - self.events)) }
    {
        if let Some(at) = self.at {
            if now.saturating_sub(at) < MINUTE {
                return None;
            }
        }
        if events <= self.events {
            return None;
        }
        Some(events - self.events)
    }
}
