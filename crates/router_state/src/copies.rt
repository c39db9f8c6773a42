//! Copies of messages of multicast addresses: one for each consumer.
ghost use Rattle.std.specs.Prelude.{◌≡◌, ◌∷◌, List, OnOk, IfOk};
ghost use Rattle.router_trace.specs.Following.{link_of};
ghost use Rattle.router_trace.specs.Links.{link};
ghost use Rattle.router_trace.specs.Trace.{Bound, Entry};
ghost use Rattle.state_messages.specs.Messages.{copies_for, copy_to};
ghost use Rattle.router_state.specs.Copying.{copied_to, goes_to_all};
ghost use Rattle.router_state.specs.Tables.{TablesFit};

use crate::place::LinkPlace;
use crate::tables::State;
use bytes::Bytes;
use router_trace::Attachment;
use std::alloc::AllocError;

impl State {
    /// Whether the messages of the address of a link, on a handle of the router, go to every consumer.
    pub fn goes_to_all(&self, at: LinkPlace) -> bool
        ensures { (t : List Entry) → TablesFit self.now t → result ≡ goes_to_all t (link t at.conn.0 at.own at.handle) }
    {
        let place = Attachment {
            number: 0,
            conn: at.conn,
            channel: at.own,
            handle: at.handle,
        };
        match self.messages.links().link(place) {
            None => false,
            Some(link) => self.messages.is_multicast(link.address.as_str()),
        }
    }

    /// The consumers that get a copy of a message of a producer's link, in order of attach: each with free credit, on a
    /// multicast address; else none.
    pub fn copies_for(&mut self, from: Attachment) -> Result<Vec<Attachment>, AllocError>
        ensures copies { IfOk result (λ to. (t : List Entry) → TablesFit self.old t → to.items ≡ copies_for t (link_of t from)) }
        ensures fits { OnOk result ((t : List Entry) → TablesFit self.old t → TablesFit self.new t) }
    {
        let copies = self.messages.copies_for(from)?;
        Ok(copies)
    }

    /// Binds a copy of a message to a consumer: a message by itself, without a producer's delivery and without a row.
    fn pass_copy(
        &mut self,
        consumer: Attachment,
        format: u32,
        payload: Bytes,
    ) -> Result<(), AllocError>
        ensures { OnOk result ((t : List Entry) → TablesFit self.old t → TablesFit self.new (Bound (copy_to t format payload consumer) ∷ t)) }
    {
        self.messages.pass_copy(consumer, format, payload)?;
        Ok(())
    }

    /// Binds a copy of a message to each of these consumers, one after another. They share its payload.
    pub fn pass_copies(
        &mut self,
        to: Vec<Attachment>,
        format: u32,
        payload: &Bytes,
    ) -> Result<(), AllocError>
        ensures { OnOk result ((t : List Entry) → TablesFit self.old t → TablesFit self.new (copied_to format payload.now to.items t)) }
    {
        for consumer in to {
            let shared = payload.clone()?;
            self.pass_copy(consumer, format, shared)?;
        }
        Ok(())
    }
}
