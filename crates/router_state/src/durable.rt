//! What is asked and done for durable messages: their rows are admitted and decided in the journal before the tables change.
ghost use Rattle.std.specs.Prelude.{◌≡◌, List, OnOk, IfOk, is_some};
ghost use Rattle.router_trace.specs.Trace.{Entry};
ghost use Rattle.router_trace.specs.Deliveries.{none_if_ended};
ghost use Rattle.router_trace.specs.Links.{durable_key, link};
ghost use Rattle.router_trace.specs.Settling.{uses_tag};
ghost use Rattle.state_deliveries.specs.Deciding.{decided_rows};
ghost use Rattle.state_messages.specs.Messages.{consumer_of};
ghost use Rattle.router_state.specs.Tables.{TablesFit, TablesFind};
ghost use Rattle.router_state.specs.Waiting.{NothingWaits};

use crate::place::LinkPlace;
use crate::tables::State;
use book_model::Decision;
use router_trace::Attachment;
use state_deliveries::Change;
use std::alloc::AllocError;

/// This, unless the event ended the connection first, because its outbox was full: these are the connections that it ended so.
pub fn none_if_ended(ends: &[u64], conn: u64, own: Option<u16>) -> Option<u16>
    ensures { result ≡ none_if_ended ends.now conn own }
{
    if ends.contains(&conn) { None } else { own }
}

impl State {
    /// Whether the link on a handle of the router is durable.
    pub fn is_durable(&self, at: LinkPlace) -> bool
        ensures { (t : List Entry) → TablesFit self.now t → result ≡ is_some (durable_key (link t at.conn.0 at.own at.handle)) }
    {
        self.messages.is_durable(at.conn.0, at.own, at.handle)
    }

    /// The consumer that [`State::pass`] would choose now for a message of the producer's link on a handle of the router; nothing is noted, so
    /// asked again it answers the same.
    pub fn consumer_for(&mut self, at: LinkPlace) -> Result<Option<Attachment>, AllocError>
        ensures consumer { IfOk result (λ consumer. (t : List Entry) → TablesFit self.old t → consumer ≡ consumer_of t (link t at.conn.0 at.own at.handle)) }
        ensures fits { OnOk result ((t : List Entry) → TablesFit self.old t → TablesFit self.new t) }
    {
        let consumer = self.messages.consumer_for(at.conn.0, at.own, at.handle)?;
        Ok(consumer)
    }

    /// Whether the producer's link on a handle of the router has an unsettled delivery with this tag.
    pub fn uses_tag(&self, at: LinkPlace, tag: &[u8]) -> bool
        ensures { (t : List Entry) → TablesFind self.now t → result ≡ uses_tag t at.conn.0 at.own at.handle tag.now }
    {
        self.messages
            .incoming()
            .uses_tag(at.conn.0, at.own, at.handle, tag)
    }

    /// The rows that these changes of deliveries would decide, one after another, each with its outcome, in order of the deliveries' numbers.
    pub fn decided_rows(&self, changes: &[Change]) -> Result<Vec<Decision>, AllocError>
        ensures { IfOk result (λ rows. (t : List Entry) → TablesFind self.now t → rows.items ≡ decided_rows t changes.now) }
    {
        self.messages.deliveries().decided_rows(changes)
    }

    /// Forgets the items that wait in outboxes, so that none is put out. It takes no memory. The tables need not agree with any trace then.
    pub fn give_up(&mut self)
        ensures { NothingWaits self.new }
    {
        self.connections.give_up();
    }
}
