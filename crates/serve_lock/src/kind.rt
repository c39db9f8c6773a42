//! The kinds of events.
ghost use Rattle.std.specs.Prelude.{◌≡◌};
ghost use Rattle.core_machine.specs.declared.counts.Counts.{Counts};
ghost use Rattle.core_machine.specs.Counting.{with_event};
ghost use Rattle.serve_lock.specs.Adding.{with_kind};

use router_trace::Event;

/// The kind of an event.
#[derive(Clone, Copy, Debug, PartialEq, Eq)]
pub enum Kind {
    /// A connection came up.
    Up,
    /// An item was received.
    Item,
    /// A connection was lost.
    Down,
    /// The clock moved.
    Tick,
    /// The router starts.
    Start,
}

impl Kind {
    /// The kind of this event.
    pub fn of(event: &Event) -> Kind
        ensures { (n : Counts) → with_event «event».now n ≡ with_kind result n }
    {
        match event {
            Event::Up(_, _) => Kind::Up,
            Event::Item(_, _) => Kind::Item,
            Event::Down(_) => Kind::Down,
            Event::Tick(_) => Kind::Tick,
            Event::Start => Kind::Start,
        }
    }
}
