//! Copies of a message for the consumers of a multicast address.
ghost use Rattle.std.specs.Prelude.{◌≡◌, ◌∷◌, ◌++◌, ℕ, List, Some, IfOk, OnOk, map};
ghost use Rattle.route_credit.specs.declared.ids.ConsumerId.{ConsumerId};
ghost use Rattle.router_trace.specs.Following.{link_of};
ghost use Rattle.router_trace.specs.Links.{place_of};
ghost use Rattle.router_trace.specs.Trace.{Bound, Entry};
ghost use Rattle.state_links.specs.Fits.{LinksFit};
ghost use Rattle.state_messages.specs.Fits.{MessagesFit, NotedFit, Untouched};
ghost use Rattle.state_messages.specs.Messages.{copies_for, copy_to, is_there, last_after};
ghost use Rattle.state_messages.specs.Asking.{standing};

use crate::messages::Messages;
use bytes::Bytes;
use route_credit::ConsumerId;
use router_trace::Attachment;
use state_links::Links;
use std::alloc::{AllocError, Global};

impl Messages {
    /// The consumers that get a copy of a message of a producer's link, in order of attach: each with free credit, if
    /// its address is multicast; else none. Nothing is noted.
    pub fn copies_for(&mut self, from: Attachment) -> Result<Vec<Attachment>, AllocError>
        ensures copies { IfOk result (λ to. (t : List Entry) → MessagesFit self.old t → to.items ≡ copies_for t (link_of t from)) }
        ensures fits { OnOk result ((t : List Entry) → MessagesFit self.old t → MessagesFit self.new t) }
    {
        self.tell_all()?;
        let to = self.copies(from)?;
        Ok(to)
    }

    /// The same after the pools were told of all links.
    fn copies(&self, from: Attachment) -> Result<Vec<Attachment>, AllocError>
        ensures { IfOk result (λ to. (t : List Entry) → Untouched self.now → MessagesFit self.now t → to.items ≡ copies_for t (link_of t from)) }
    {
        match self.links.link(from) {
            None => Ok(Vec::new(self.alloc)),
            Some(link) => {
                let consumers = self.pools.copies(link.number)?;
                let to = places(self.alloc, &self.links, consumers.as_slice())?;
                Ok(to)
            }
        }
    }

    /// Binds a copy of a message to a consumer, as a message by itself, and notes the consumer as the last one chosen.
    /// Fails if memory is refused, and if no binding number is left.
    pub fn pass_copy(
        &mut self,
        consumer: Attachment,
        format: u32,
        payload: Bytes,
    ) -> Result<(), AllocError>
        ensures { OnOk result ((t : List Entry) → MessagesFit self.old t → MessagesFit self.new (Bound (copy_to t format payload consumer) ∷ t)) }
    {
        self.tell_all()?;
        self.note(consumer);
        self.bind(consumer, None, None, format, payload)
    }

    /// Notes a consumer as the last one chosen, after the pools were told of all links; nothing if its link is gone.
    fn note(&mut self, consumer: Attachment)
        ensures { (t : List Entry) → Untouched self.old → MessagesFit self.old t → NotedFit self.new t (last_after t (Some consumer)) }
    {
        if self.is_attached(consumer) {
            self.pools
                .note(consumer.number, ConsumerId(consumer.number));
        }
    }
}

/// Where these consumers are.
fn places(
    alloc: Global,
    links: &Links,
    consumers: &[ConsumerId],
) -> Result<Vec<Attachment>, AllocError>
    ensures { IfOk result (λ places. (t : List Entry) → LinksFit links.now t → places.items ≡ standing t (map (λ c. c.0) consumers.now)) }
{
    let mut places = Vec::new(alloc);
    for consumer in consumers {
        add_place(&mut places, links, consumer.0)?;
    }
    Ok(places)
}

/// Adds the place of a link, if it is attached.
fn add_place(places: &mut Vec<Attachment>, links: &Links, number: u64) -> Result<(), AllocError>
    ensures { OnOk result ((t : List Entry) → LinksFit links.now t → places.new.items ≡ places.old.items ++ is_there (place_of t number)) }
{
    match links.place_of(number) {
        None => Ok(()),
        Some(at) => {
            places.push(at)?;
            Ok(())
        }
    }
}
