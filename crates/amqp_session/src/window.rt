//! The windows of one session.
ghost use Rattle.std.specs.Prelude.{◌≡◌, ◌≤◌, ◌↔◌, ◌∷◌, Some, IsTrue, OnOk, OnErr};
ghost use Rattle.amqp_session.specs.Session.{Session, OurBegin, TheirBegin, OurFlow, TheirFlow, OurTransfer, TheirTransfer, next_outgoing, next_incoming, remote_window, allowance, WindowKept};
ghost use Rattle.amqp_session.specs.Figures.{Fits, CanSend, begun, after_their_flow, after_their_transfer, after_our_flow, after_our_transfer};

use crate::fault::SessionFault;
use crate::serial::Serial;
use crate::states::{BeginState, FlowState};

/// The windows of one session that both ends have begun: what this end may still send, and what the peer may.
#[derive(Clone, Copy, Debug, PartialEq, Eq)]
pub struct Window {
    first_outgoing: Serial,
    next_outgoing: Serial,
    next_incoming: Serial,
    remote_window: u32,
    allowance: u32,
}

impl Window {
    /// The windows of a session that both ends have begun, in either order, and on which nothing else happened.
    pub fn new(ours: BeginState, theirs: BeginState) -> Window
        ensures answered { (t : Session) → Fits result (OurBegin ours ∷ TheirBegin theirs ∷ t) }
        ensures asked { (t : Session) → Fits result (TheirBegin theirs ∷ OurBegin ours ∷ t) }
        ensures figures { result ≡ begun ours theirs }
    {
        Window {
            first_outgoing: ours.next_outgoing,
            next_outgoing: ours.next_outgoing,
            next_incoming: theirs.next_outgoing,
            remote_window: theirs.incoming_window,
            allowance: ours.incoming_window,
        }
    }

    /// Whether a transfer may be sent: the remote-incoming-window is at least 1.
    pub fn can_send(&self) -> bool
        ensures can { IsTrue result ↔ CanSend self.now }
        ensures exact { (t : Session) → Fits self.now t → (IsTrue result ↔ (1 ≤ remote_window t)) }
    {
        self.remote_window > 0
    }

    /// Notes that a transfer frame was sent, which `can_send` allows.
    pub fn sent(&mut self)
        requires { CanSend self.old }
        ensures fits { (t : Session) → Fits self.old t → Fits self.new (OurTransfer ∷ t) }
        ensures kept { (t : Session) → Fits self.old t → WindowKept t → WindowKept (OurTransfer ∷ t) }
    {
        self.note_sent();
    }

    /// Notes that a transfer frame was sent, whether the peer's window had room for it or not.
    pub fn note_sent(&mut self)
        ensures fits { (t : Session) → Fits self.old t → Fits self.new (OurTransfer ∷ t) }
        ensures figures { self.new ≡ after_our_transfer self.old }
    {
        self.next_outgoing = self.next_outgoing.plus(1);
        self.remote_window = self.remote_window.saturating_sub(1);
    }

    /// Takes a transfer frame of the peer. Fails with `WindowViolation`, and changes nothing, exactly where the peer's
    /// window is used up.
    pub fn received(&mut self) -> Result<(), SessionFault>
        ensures fits { (t : Session) → Fits self.old t → OnOk result (Fits self.new (TheirTransfer ∷ t)) }
        ensures beyond { (t : Session) → Fits self.old t → (OnErr result (allowance t ≡ 0)) × OnOk result (1 ≤ allowance t) }
        ensures figures { self.new ≡ after_their_transfer self.old }
        ensures err { OnErr result (self.new ≡ self.old) }
    {
        if self.allowance == 0 {
            return Err(SessionFault::WindowViolation);
        }
        self.next_incoming = self.next_incoming.plus(1);
        self.allowance -= 1;
        Ok(())
    }

    /// Takes what a flow of the peer says of its end.
    pub fn on_flow(&mut self, flow: FlowState)
        ensures fits { (t : Session) → Fits self.old t → Fits self.new (TheirFlow flow ∷ t) }
        ensures figures { self.new ≡ after_their_flow flow self.old }
    {
        let got = flow.next_incoming.unwrap_or(self.first_outgoing);
        let on_the_way = got.distance_to(self.next_outgoing);
        self.remote_window = flow.incoming_window.saturating_sub(on_the_way);
        self.next_incoming = flow.next_outgoing;
    }

    /// The figures of this end's next flow, with this incoming-window from now on. The flow has to be sent: the peer is
    /// held to what it says.
    pub fn flow_state(&mut self, incoming_window: u32) -> FlowState
        ensures fits { (t : Session) → Fits self.old t → Fits self.new (OurFlow result ∷ t) }
        ensures told { (t : Session) → Fits self.old t → result ≡ record {
          next_incoming = Some (next_incoming t);
          incoming_window = incoming_window;
          next_outgoing = next_outgoing t;
        } }
        ensures figures { self.new ≡ after_our_flow incoming_window self.old }
        ensures tells { result ≡ record {
          next_incoming = Some self.old.next_incoming;
          incoming_window = incoming_window;
          next_outgoing = self.old.next_outgoing;
        } }
    {
        self.allowance = incoming_window;
        FlowState {
            next_incoming: Some(self.next_incoming),
            incoming_window,
            next_outgoing: self.next_outgoing,
        }
    }

    /// How many transfers the peer may still send.
    pub fn allowance(&self) -> u32
        ensures fits { (t : Session) → Fits self.now t → result ≡ allowance t }
        ensures figure { result ≡ self.now.allowance }
    {
        self.allowance
    }
}
