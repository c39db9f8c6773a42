//! Deliveries as the table keeps them.
ghost use Rattle.std.specs.Prelude.{◌≡◌, ◌&&◌, OnOk, Some, is_none, option_map, if◌then◌else◌};
ghost use Rattle.router_trace.specs.Settling.{is_open_as};
ghost use Rattle.router_trace.specs.Deliveries.{bound, brought, origin_in, told_in, early_in, owned_in, origin_of, told_of, early_of, owned_of, link_alone, resumed_held, unresumed_held, settled_held, held_by, presettles, goes_out, is_sent, is_put_off, outcome_as, outcome_known, outcome_held, outcome_in, is_resumed, resumes, with_origin, source, unforgotten, sender, holder, is_over, is_undecided, after_frame, untold, unsettled, forsaken, ended, after_ends};
ghost use Rattle.state_deliveries.specs.Deciding.{bare, changed_by};
ghost use Rattle.state_deliveries.specs.Giving.{with_outcome};
ghost use Rattle.state_deliveries.specs.Indexing.{is_decided_with};
ghost use Rattle.state_deliveries.specs.Stepping.{is_gone, is_decided_by, comes_with_id, changed};

use crate::change::{Change, Gone, comes_with_id, is_in};
use crate::state::failed;
use amqp_model::{DeliveryState, Transfer, copy_state};
use bytes::Bytes;
use router_trace::{
    Attachment, Binding, BindingKind, DeliveryName, Holding, JoinedTo, Origin, Rank, Resumed,
};
use std::alloc::AllocError;
use std::marker::Model;

/// A message bound to one consumer link (AMQP 1.0 part 2, section 2.6.12).
#[derive(Drop)]
pub struct Delivery {
    /// Its name, from which its tag is made.
    pub name: DeliveryName,
    /// Its place in the order of binding.
    pub rank: Rank,
    /// The consumer's link.
    pub link: Attachment,
    /// The producer's delivery, to which the outcome is reported; none if no report is due to it any more.
    pub origin: Option<Origin>,
    /// Whether its producer had settled it before it was bound.
    pub presettled: bool,
    /// The message format.
    pub format: u32,
    /// The message.
    pub payload: Bytes,
    /// Its delivery-id on the consumer's session, once it has started.
    pub id: Option<u32>,
    /// How many bytes of it were sent.
    pub sent: u64,
    /// Whether frames of it remain to be sent.
    pub going_on: bool,
    /// Its outcome, once decided.
    pub outcome: Option<DeliveryState>,
    /// The producer's delivery once its outcome was told, as long as the producer has yet to settle it.
    pub told: Option<Origin>,
    /// The producer's delivery, if that has a row and the producer settled it before it was decided.
    pub early: Option<Origin>,
    /// The producer's link, if it has a row, and that was attached again, and its producer hasn't resumed or settled the row since.
    pub owned: Option<Origin>,
    /// Whether it has a row and its consumer's link is durable.
    pub lasting: bool,
    /// Whether that link was suspended before it was decided.
    pub suspended: bool,
    /// Whether its link took it up again and has it still: its first frame says that it is resumed.
    pub resumed: bool,
}

/// The producer's delivery of a delivery, in whichever place it is.
#[derive(Clone, Copy)]
pub struct Producers {
    /// That to which the outcome is reported; none if no report is due to it any more.
    pub origin: Option<Origin>,
    /// The one that was told the outcome, as long as the producer has yet to settle it.
    pub told: Option<Origin>,
    /// The one that the producer settled before the row was decided.
    pub early: Option<Origin>,
    /// The producer's link, if it has the row without a delivery.
    pub owned: Option<Origin>,
}

/// What comes with a binding, by what is bound.
#[derive(Drop)]
struct Brought {
    producers: Producers,
    outcome: Option<DeliveryState>,
    presettled: bool,
    sent: bool,
    suspended: bool,
    resumed: bool,
}

impl Model for Delivery {
    ghost use Rattle.router_trace.specs.Deliveries.{Delivery as View};

    ghost Value = { View };

    ghost view = { λ d. record {
      name = d.name;
      rank = d.rank;
      link = d.link;
      origin = d.origin;
      presettled = d.presettled;
      format = d.format;
      payload = d.payload;
      id = d.id;
      sent = d.sent;
      going_on = d.going_on;
      outcome = d.outcome;
      told = d.told;
      early = d.early;
      owned = d.owned;
      lasting = d.lasting;
      suspended = d.suspended;
      resumed = d.resumed;
    } };
}

impl Producers {
    /// Those of a delivery, if there is one.
    pub(crate) fn of(delivery: Option<&Delivery>) -> Producers
        ensures origin { result.origin ≡ origin_in (option_map (λ d. d.now) delivery.entry) }
        ensures told { result.told ≡ told_in (option_map (λ d. d.now) delivery.entry) }
        ensures early { result.early ≡ early_in (option_map (λ d. d.now) delivery.entry) }
        ensures owned { result.owned ≡ owned_in (option_map (λ d. d.now) delivery.entry) }
    {
        match delivery {
            None => Producers::reporting(None),
            Some(delivery) => Producers {
                origin: delivery.origin,
                told: delivery.told,
                early: delivery.early,
                owned: delivery.owned,
            },
        }
    }

    /// This one, to which the outcome is reported, or none.
    fn reporting(origin: Option<Origin>) -> Producers
        ensures { result ≡ record { origin = origin; told = None; early = None; owned = None } }
    {
        Producers {
            origin,
            told: None,
            early: None,
            owned: None,
        }
    }

    /// Those of a row that a producer's link has like this.
    fn holding(holding: Holding) -> Producers
        ensures { result ≡ record { origin = resumed_held holding; told = None; early = settled_held holding; owned = unresumed_held holding } }
    {
        match holding {
            Holding::Resumed(origin) => Producers::reporting(Some(origin)),
            Holding::Unresumed(link) => Producers {
                origin: None,
                told: None,
                early: None,
                owned: Some(link_alone(link)),
            },
            Holding::Settled(link) => Producers {
                origin: None,
                told: None,
                early: Some(link_alone(link)),
                owned: None,
            },
        }
    }
}

/// A producer's link in place of its delivery, without an id that means anything.
fn link_alone(link: Attachment) -> Origin
    ensures { result ≡ link_alone link }
{
    Origin { link, id: 0 }
}

impl Brought {
    /// What comes with a binding of this kind.
    fn by(kind: BindingKind) -> Brought
        ensures origin { result.producers.origin ≡ origin_of kind }
        ensures told { result.producers.told ≡ told_of kind }
        ensures early { result.producers.early ≡ early_of kind }
        ensures owned { result.producers.owned ≡ owned_of kind }
        ensures outcome { result.outcome ≡ outcome_in kind }
        ensures presettled { result.presettled ≡ presettles kind }
        ensures sent { result.sent ≡ is_sent kind }
        ensures suspended { result.suspended ≡ is_put_off kind }
        ensures resumed { result.resumed ≡ resumes kind }
    {
        match kind {
            BindingKind::Message(origin) => Brought {
                producers: Producers::reporting(origin),
                outcome: None,
                presettled: origin.is_none(),
                sent: true,
                suspended: false,
                resumed: false,
            },
            BindingKind::TakenUp(taken) => Brought {
                producers: Producers {
                    origin: taken.origin,
                    told: taken.told,
                    early: taken.early,
                    owned: taken.owned,
                },
                presettled: false,
                sent: goes_out(&taken.how),
                suspended: false,
                resumed: is_resumed(&taken.how),
                outcome: outcome_as(taken.how),
            },
            BindingKind::Joined(holding, to) => Brought {
                producers: Producers::holding(holding),
                presettled: false,
                sent: false,
                suspended: is_unknown(holding, &to),
                resumed: false,
                outcome: outcome_held(holding, to),
            },
        }
    }
}

/// Whether a row's first frame says that it is resumed.
fn is_resumed(how: &Resumed) -> bool
    ensures { result ≡ is_resumed how.now }
{
    match how {
        Resumed::Anew => false,
        Resumed::Kept => false,
        _ => true,
    }
}

/// Whether anything is sent of a row.
fn goes_out(how: &Resumed) -> bool
    ensures { result ≡ goes_out how.now }
{
    match how {
        Resumed::Kept => false,
        _ => true,
    }
}

/// Whether a row that a producer's link has like this is known to have no outcome.
fn is_unknown(holding: Holding, to: &JoinedTo) -> bool
    ensures { result ≡ is_none (outcome_held holding to.now) }
{
    match holding {
        Holding::Settled(_) => true,
        _ => match to {
            JoinedTo::Standing => true,
            JoinedTo::New(outcome) => outcome.is_none(),
        },
    }
}

/// The outcome that a row has already, which a producer's link has like this.
fn outcome_held(holding: Holding, to: JoinedTo) -> Option<DeliveryState>
    ensures { result ≡ outcome_held holding to }
{
    match holding {
        Holding::Settled(_) => {
            drop(to);
            None
        }
        _ => outcome_known(to),
    }
}

/// The outcome that a row has already.
fn outcome_known(to: JoinedTo) -> Option<DeliveryState>
    ensures { result ≡ outcome_known to }
{
    match to {
        JoinedTo::Standing => None,
        JoinedTo::New(outcome) => outcome,
    }
}

/// The outcome that a row is sent with.
fn outcome_as(how: Resumed) -> Option<DeliveryState>
    ensures { result ≡ outcome_as how }
{
    match how {
        Resumed::Settled(outcome) => Some(outcome),
        _ => None,
    }
}

impl Delivery {
    /// A message that was just bound, under a name, at a place in the order of binding.
    pub(crate) fn bound(name: DeliveryName, rank: Rank, binding: Binding) -> Delivery
        ensures { result ≡ bound name rank binding }
    {
        let brought = Brought::by(binding.kind);
        Delivery {
            name,
            rank,
            link: binding.consumer,
            origin: brought.producers.origin,
            presettled: brought.presettled,
            format: binding.format,
            payload: binding.payload,
            id: None,
            sent: 0,
            going_on: brought.sent,
            outcome: brought.outcome,
            told: brought.producers.told,
            early: brought.producers.early,
            owned: brought.producers.owned,
            lasting: name.has_row() && binding.lasting,
            suspended: brought.suspended,
            resumed: brought.resumed,
        }
    }

    /// Whether it is decided or suspended, its producer needs no more of it, and no frame remains to be sent.
    pub fn is_over(&self) -> bool
        ensures { result ≡ is_over self.now }
    {
        !self.going_on && ((self.outcome.is_some() || self.suspended) && self.holder().is_none())
    }

    /// The producer's delivery, told or not.
    pub(crate) fn source(&self) -> Option<Origin>
        ensures { result ≡ source self.now }
    {
        match self.origin {
            Some(origin) => Some(origin),
            None => self.told,
        }
    }

    /// The same, or the link alone that was attached again: the producer hasn't settled it.
    fn unforgotten(&self) -> Option<Origin>
        ensures { result ≡ unforgotten self.now }
    {
        match self.source() {
            Some(origin) => Some(origin),
            None => self.owned,
        }
    }

    /// The same, settled by the producer or not.
    pub(crate) fn sender(&self) -> Option<Origin>
        ensures { result ≡ sender self.now }
    {
        match self.unforgotten() {
            Some(origin) => Some(origin),
            None => self.early,
        }
    }

    /// The producer's delivery, or its link alone, as long as it counts for the producer's link: until the producer has settled it, and, if it has a row,
    /// until it is decided too.
    pub(crate) fn holder(&self) -> Option<Origin>
        ensures { result ≡ holder self.now }
    {
        if self.outcome.is_none() {
            self.sender()
        } else {
            self.unforgotten()
        }
    }

    /// Whether its consumer has yet to decide it.
    pub fn is_undecided(&self) -> bool
        ensures { result ≡ is_undecided self.now }
    {
        self.outcome.is_none() && !(self.presettled || self.suspended)
    }

    /// Whether it is undecided and has this id on a router's session.
    pub(crate) fn is_open_as(&self, conn: u64, own: u16, id: u32) -> bool
        ensures { result ≡ is_open_as conn own id (Some self.now) }
    {
        self.is_undecided()
            && ((self.link.conn.0 == conn && self.link.channel == own) && self.id == Some(id))
    }

    /// Whether it is decided once it has this transfer: it was before, or it was settled before it was bound, and this
    /// is its last frame.
    pub(crate) fn is_decided_with(&self, transfer: &Transfer) -> bool
        ensures { result ≡ is_decided_with transfer.now self.now }
    {
        self.outcome.is_some() || (self.presettled && !transfer.more)
    }

    /// Notes a transfer that carries `count` bytes of it. Fails if its byte count overflows.
    pub(crate) fn note_frame(&mut self, transfer: &Transfer, count: u64) -> Result<(), AllocError>
        ensures { OnOk result (self.new ≡ after_frame transfer.now count self.old) }
    {
        let Some(sent) = self.sent.checked_add(count) else {
            return Err(AllocError);
        };
        if self.id.is_none() {
            self.id = transfer.delivery_id;
        }
        self.sent = sent;
        self.going_on = transfer.more;
        if self.presettled && !transfer.more {
            self.outcome = Some(DeliveryState::Accepted);
        }
        Ok(())
    }

    /// Its producer needs no more of it. If it has a row and isn't decided yet, it still counts for the producer's link.
    pub(crate) fn untell(&mut self)
        ensures { self.new ≡ untold self.old }
    {
        self.early = if self.outcome.is_none() && self.name.has_row() {
            self.source()
        } else {
            None
        };
        self.origin = None;
        self.told = None;
    }

    /// Its producer's link ends.
    pub(crate) fn forsake(&mut self)
        ensures { self.new ≡ forsaken self.old }
    {
        self.origin = None;
        self.told = None;
        self.early = None;
        self.owned = None;
    }

    /// Its outcome was told, and its producer has yet to settle it.
    fn tell(&mut self)
        ensures { self.new ≡ unsettled self.old }
    {
        self.told = self.source();
        self.origin = None;
    }

    /// Its outcome is reported to this delivery of its producer from now on, and to none before.
    fn report_to(&mut self, origin: Origin)
        ensures { self.new ≡ with_origin origin self.old }
    {
        self.forsake();
        self.origin = Some(origin);
    }

    /// A producer's link has it like this from now on.
    pub(crate) fn join(&mut self, holding: Holding)
        ensures { self.new ≡ held_by holding self.old }
    {
        match holding {
            Holding::Resumed(origin) => self.report_to(origin),
            Holding::Unresumed(link) => self.owned = Some(link_alone(link)),
            Holding::Settled(link) => {
                self.early = Some(link_alone(link));
                self.owned = None;
            }
        }
    }

    /// It gets an outcome, if it has none.
    pub(crate) fn give(&mut self, outcome: &DeliveryState) -> Result<(), AllocError>
        ensures { OnOk result (self.new ≡ with_outcome outcome.now self.old) }
    {
        if self.outcome.is_some() {
            return Ok(());
        }
        self.outcome = Some(copy_state(outcome)?);
        Ok(())
    }

    /// Its link ends, closed for good or not.
    pub(crate) fn end(&mut self, closed: bool)
        ensures { self.new ≡ ended closed self.old }
    {
        if self.suspended {
            return;
        }
        self.going_on = false;
        if self.outcome.is_some() {
            return;
        }
        if self.lasting && !closed {
            self.suspended = true;
        } else {
            self.outcome = Some(failed());
        }
    }

    /// Links end, closed for good or not, which may be its own or its producer's.
    fn leave(&mut self, closed: bool, gone: Gone)
        ensures { self.new ≡ after_ends closed (is_gone gone) self.old }
    {
        if gone.has(self.link) {
            self.end(closed);
        }
        if gone.has_origin(self.sender()) {
            self.forsake();
        }
    }

    /// Applies a change to it.
    pub(crate) fn change(&mut self, change: &Change) -> Result<(), AllocError>
        ensures { OnOk result (self.new ≡ changed change.now self.old) }
    {
        match change {
            Change::Ends { gone, closed } => self.leave(*closed, *gone),
            Change::Untold {
                conn,
                own,
                first,
                last,
            } => self.untell_within(*conn, *own, *first, *last),
            Change::Told {
                conn,
                own,
                first,
                last,
            } => self.tell_within(*conn, *own, *first, *last),
            Change::Decided {
                conn,
                own,
                first,
                last,
                outcome,
            } => {
                if self.is_decided_by(*conn, *own, *first, *last) {
                    self.outcome = Some(copy_state(outcome)?);
                }
            }
        }
        Ok(())
    }

    /// Applies changes to it, one after another.
    pub(crate) fn change_by(&mut self, changes: &[Change]) -> Result<(), AllocError>
        ensures { OnOk result (self.new ≡ changed_by changes.now self.old) }
    {
        for change in changes {
            self.change(change)?;
        }
        Ok(())
    }

    /// A copy without the message and the outcome, which costs no memory.
    pub(crate) fn bare(&self) -> Delivery
        ensures { result ≡ bare self.now }
    {
        Delivery {
            name: self.name,
            rank: self.rank,
            link: self.link,
            origin: self.origin,
            presettled: self.presettled,
            format: self.format,
            payload: Bytes::new(),
            id: self.id,
            sent: self.sent,
            going_on: self.going_on,
            outcome: None,
            told: self.told,
            early: self.early,
            owned: self.owned,
            lasting: self.lasting,
            suspended: self.suspended,
            resumed: self.resumed,
        }
    }

    /// Its outcome needs no report any more, if its producer gave it an id in this range, on a session.
    fn untell_within(&mut self, conn: u64, own: u16, first: u32, last: u32)
        ensures { self.new ≡ (if comes_with_id (source self.old) conn own first last then untold self.old else self.old) }
    {
        if comes_with_id(self.source(), conn, own, first, last) {
            self.untell();
        }
    }

    /// Its outcome was told, if its producer gave it an id in this range, on a session.
    fn tell_within(&mut self, conn: u64, own: u16, first: u32, last: u32)
        ensures { self.new ≡ (if comes_with_id (source self.old) conn own first last then unsettled self.old else self.old) }
    {
        if comes_with_id(self.source(), conn, own, first, last) {
            self.tell();
        }
    }

    /// Whether it is undecided and the router gave it an id in this range, on a session.
    fn is_decided_by(&self, conn: u64, own: u16, first: u32, last: u32) -> bool
        ensures { result ≡ is_decided_by self.now conn own first last }
    {
        self.is_undecided()
            && ((self.link.conn.0 == conn && self.link.channel == own)
                && is_in(self.id, first, last))
    }
}
