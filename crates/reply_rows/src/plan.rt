//! What the router decides of an event: all that is done of it follows from that.
ghost use Rattle.std.specs.Prelude.{◌≡◌};

use crate::answer::Answer;
use crate::attach::Resumption;
use amqp_conn::Conn;
use book_model::Act;
use router_trace::Attachment;
use state_deliveries::Change;
use std::alloc::Global;
use std::mem;

/// What the router decides of an event before anything is done: how the event finds the router, how its item is answered, and what it does to the
/// book. `decide` fills it in, once it has `ends` and `phase`; `hear` and `reply` carry it out.
#[derive(Drop)]
pub struct Plan {
    /// The connections that the event ends first, because their outboxes are full.
    pub ends: Vec<u64>,
    /// The phase of the connection of its item, as the event finds it; none if it isn't live then, and of other events.
    pub phase: Option<Conn>,
    /// The router's channel of its item's session, if its item's channel has one.
    pub own: Option<u16>,
    /// The answer to its item; `Nothing` if the item's connection isn't live as the event finds it, and for any other event.
    pub answer: Answer,
    /// What its item changes of deliveries at once, unless the event ends the item's connection first.
    pub change: Option<Change>,
    /// Whether the event finds the journal full.
    pub full: bool,
    /// Its acts on the book. Those that admit a message aren't known before the message is heard.
    pub acts: Vec<Act>,
    /// The consumer that is chosen for the message that its acts admit. It isn't known before the message is heard.
    pub consumer: Option<Attachment>,
    /// What it takes up again; what the map of its attach decides and forgets is among the acts.
    pub resumption: Option<Resumption>,
}

impl Plan {
    /// Nothing yet.
    pub fn nothing(alloc: Global) -> Plan {
        Plan {
            ends: Vec::new(alloc),
            phase: None,
            own: None,
            answer: Answer::Nothing,
            change: None,
            full: false,
            acts: Vec::new(alloc),
            consumer: None,
            resumption: None,
        }
    }

    /// Its acts, which are no longer in it.
    pub fn take_acts(&mut self, alloc: Global) -> Vec<Act>
        ensures acts { result ≡ self.old.acts }
        ensures rest { self.new ≡ record self.old { acts = self.new.acts } }
    {
        mem::replace(&mut self.acts, Vec::new(alloc))
    }
}
