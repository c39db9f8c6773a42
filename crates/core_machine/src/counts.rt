//! The counts: events by kind, and batches.
ghost use Rattle.std.specs.Prelude.{◌≡◌, ◌+◌, IfOk};
ghost use Rattle.core_machine.specs.Counting.{uncounted, with_event, with_batch};

use router_trace::Event;
use std::alloc::AllocError;

/// How many events the router handled, by kind, and how many batches it returned; each number is below 2^64.
#[derive(Clone, Copy, Debug, PartialEq, Eq)]
pub struct Counts {
    /// Connections that came up.
    pub ups: u64,
    /// Items that were received.
    pub items: u64,
    /// Connections that were lost.
    pub downs: u64,
    /// Ticks.
    pub ticks: u64,
    /// Starts.
    pub starts: u64,
    /// Batches that were taken.
    pub batches: u64,
}

impl Counts {
    /// The counts of a new router.
    pub fn none() -> Counts
        ensures { result ≡ uncounted }
    {
        Counts {
            ups: 0,
            items: 0,
            downs: 0,
            ticks: 0,
            starts: 0,
            batches: 0,
        }
    }

    /// The counts after one more event. Fails if the number of its kind can't rise; this counts as refused memory.
    pub fn with_event(self, event: &Event) -> Result<Counts, AllocError>
        ensures { IfOk result (λ counts. counts ≡ with_event event.now self) }
    {
        let mut counts = self;
        match event {
            Event::Up(_, _) => counts.ups = more(self.ups)?,
            Event::Item(_, _) => counts.items = more(self.items)?,
            Event::Down(_) => counts.downs = more(self.downs)?,
            Event::Tick(_) => counts.ticks = more(self.ticks)?,
            Event::Start => counts.starts = more(self.starts)?,
        }
        Ok(counts)
    }

    /// The counts after one more batch. Fails if the number can't rise; this counts as refused memory.
    pub fn with_batch(self) -> Result<Counts, AllocError>
        ensures { IfOk result (λ counts. counts ≡ with_batch self) }
    {
        Ok(Counts {
            batches: more(self.batches)?,
            ..self
        })
    }
}

/// One more.
fn more(count: u64) -> Result<u64, AllocError>
    ensures { IfOk result (λ next. next ≡ count + 1) }
{
    match count.checked_add(1) {
        Some(next) => Ok(next),
        None => Err(AllocError),
    }
}
