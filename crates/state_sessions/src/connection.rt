//! The sessions of one connection.
ghost use Rattle.std.specs.Prelude.{◌≡◌, ◌==◌, ℕ, Option, None, Some, false, is_some, option_map, if◌then◌else◌, OnOk, IfOk};
ghost use Rattle.amqp_session.specs.Session.{Session};
ghost use Rattle.std.specs.Ordering.{nat_cmp};
ghost use Rattle.std.specs.BTreeMap.{get};
ghost use Rattle.state_collections.specs.NumberMap.{at_number};
ghost use Rattle.amqp_session.specs.Figures.{after_our_flow, after_our_transfer};
ghost use Rattle.router_trace.specs.Trace.{puts_of};
ghost use Rattle.router_trace.specs.Sessions.{begin_state, flow_state, offered_in, answers_begin, unless_answering, theirs_in, on_session, own_of, place_by, is_channel, maps};
ghost use Rattle.state_sessions.specs.Windows.{is_narrow_window, is_narrow_at, flow_due};
ghost use Rattle.state_sessions.specs.Fits.{listed, heard_in_window, heard_window, window_after, answered_window, begun_window, window_by, found_of};
ghost use Rattle.router_trace.specs.declared.channel.PeerChannel.TheVariants.{Mapped, Ending};
ghost use Rattle.amqp_model.specs.declared.perf.Perf.TheVariants as perf;

use crate::place::{FoundSession, Place};
use amqp_model::{Begin, Flow, Perf};
use amqp_session::{BeginState, FlowState, Serial, Window};
use router_trace::{ConnectionId, Outgoing, PeerChannel, SESSION_WINDOW, flow_item};
use state_collections::NumberMap;
use std::alloc::{AllocError, Global};
use std::collections::BTreeMap;

/// The number of transfers at which a window is narrow: the peer may send this many or fewer, so half of it is used up.
pub const NARROW: u32 = 1_024;

/// So many neighbouring channels are found without an ordered map.
const PLACES: usize = 16;

/// The sessions of one connection.
#[derive(Drop)]
pub struct ConnectionSessions {
    // what the peer's last begin says
    offered: Option<BeginState>,
    // by the router's channel, what the router's begin says while it awaits the peer's
    awaited: NumberMap<BeginState>,
    // by the router's channel, the peer's channel of its session
    answered: BTreeMap<u16, u16>,
    // by the peer's channel, what it stands for
    theirs: NumberMap<PeerChannel>,
    // by the router's channel, its session's windows
    windows: NumberMap<Window>,
}

/// What a begin says of its sender's end.
fn begin_state(begin: &Begin) -> BeginState
    ensures { result ≡ begin_state begin.now }
{
    BeginState {
        next_outgoing: Serial::new(begin.next_outgoing_id),
        incoming_window: begin.incoming_window,
    }
}

/// What a flow says of its sender's end.
pub fn flow_state(flow: &Flow) -> FlowState
    ensures { result ≡ flow_state flow.now }
{
    FlowState {
        next_incoming: flow.next_incoming_id.map(Serial::new),
        incoming_window: flow.incoming_window,
        next_outgoing: Serial::new(flow.next_outgoing_id),
    }
}

/// What a begin of the router says of its end while it awaits the peer's, if it answers none.
fn unless_answering(begin: &Begin) -> Option<BeginState>
    ensures { result ≡ unless_answering begin.now }
{
    match begin.remote_channel {
        None => Some(begin_state(begin)),
        Some(_) => None,
    }
}

/// The window of the session that a begin of the router makes, if it answers the peer's.
fn begun_window(offered: Option<BeginState>, ours: &Begin) -> Option<Window>
    ensures { result ≡ begun_window offered ours.now }
{
    let theirs = offered?;
    let _ = ours.remote_channel?;
    Some(Window::new(begin_state(ours), theirs))
}

/// The window of the session that a begin of the peer makes, if it answers the router's.
fn answered_window(ours: Option<BeginState>, theirs: &Begin) -> Option<Window>
    ensures { result ≡ answered_window (perf.Begin theirs.now) ours }
{
    Some(Window::new(ours?, begin_state(theirs)))
}

/// The router's channel that a peer's channel stands for.
fn mapped(theirs: &NumberMap<PeerChannel>, channel: u16) -> Option<u16>
    ensures { (o : ℕ) → is_channel result o ≡ maps (at_number theirs.now channel) o }
{
    match theirs.get(u64::from(channel)) {
        Some(PeerChannel::Mapped(own)) => Some(*own),
        _ => None,
    }
}

/// Applies a performative of the peer to the window of its session.
fn hear_in(windows: &mut NumberMap<Window>, own: Option<u16>, perf: &Perf)
    ensures { (o : ℕ) → at_number windows.new o ≡ heard_window perf.now (is_channel own o) (at_number windows.old o) }
{
    let Some(own) = own else {
        return;
    };
    if let Some(window) = windows.get_mut(u64::from(own)) {
        hear_one(window, perf);
    }
}

/// Applies a performative of the peer to the window of a session.
fn hear_one(window: &mut Window, perf: &Perf)
    ensures { window.new ≡ heard_in_window perf.now window.old }
{
    match perf {
        Perf::Flow(flow) => window.on_flow(flow_state(flow)),
        Perf::Transfer(_) => {
            let _ = window.received();
        }
        _ => {}
    }
}

impl ConnectionSessions {
    /// An empty table.
    pub fn new(alloc: Global) -> ConnectionSessions
        ensures offered { result.offered ≡ None }
        ensures awaited { (o : ℕ) → at_number result.awaited o ≡ None }
        ensures answered { (o : ℕ) → get nat_cmp result.answered o ≡ None }
        ensures theirs { (p : ℕ) → at_number result.theirs p ≡ None }
        ensures windows { (o : ℕ) → at_number result.windows o ≡ None }
    {
        ConnectionSessions {
            offered: None,
            awaited: NumberMap::new(alloc, PLACES),
            answered: BTreeMap::new(alloc),
            theirs: NumberMap::new(alloc, PLACES),
            windows: NumberMap::new(alloc, PLACES),
        }
    }

    /// What a channel of the peer stands for.
    pub fn find(&self, channel: u16) -> FoundSession
        ensures own { result.own ≡ own_of (at_number self.now.theirs channel) }
        ensures place { (known : ℕ → Option Session) → ((o : ℕ) → at_number self.now.windows o ≡ window_by (known o))
            → result.place ≡ found_of (place_by (at_number self.now.theirs channel) known) }
    {
        match self.theirs.get(u64::from(channel)) {
            None => FoundSession {
                own: None,
                place: Place::Nowhere,
            },
            Some(PeerChannel::Ending) => FoundSession {
                own: None,
                place: Place::Ending,
            },
            Some(PeerChannel::Mapped(own)) => FoundSession {
                own: Some(*own),
                place: self.place_on(*own),
            },
        }
    }

    /// The session on a channel of the router, if there is one.
    fn place_on(&self, own: u16) -> Place
        ensures { (known : ℕ → Option Session) → ((o : ℕ) → at_number self.now.windows o ≡ window_by (known o))
            → result ≡ found_of (on_session own (known own)) }
    {
        match self.windows.get(u64::from(own)) {
            None => Place::Nowhere,
            Some(window) => Place::On {
                own,
                window: *window,
            },
        }
    }

    /// The windows of the session on a channel of the router.
    pub fn window(&self, own: u16) -> Option<Window>
        ensures { result ≡ at_number self.now.windows own }
    {
        self.windows.get(u64::from(own)).copied()
    }

    /// Whether the router's begin on a channel awaits an answer.
    pub fn awaits(&self, own: u16) -> bool
        ensures { result ≡ is_some (at_number self.now.awaited own) }
    {
        self.awaited.get(u64::from(own)).is_some()
    }

    /// The router's channel whose begin a performative on the peer's channel answers, if it does.
    pub fn answered(&self, channel: u16, perf: &Perf) -> Option<u16>
        ensures { (o : ℕ) → is_channel result o ≡ answers_begin perf.now o (at_number self.now.theirs channel) (at_number self.now.awaited o) }
    {
        match perf {
            Perf::Begin(begin) => self.named(channel, begin.as_ref()),
            _ => None,
        }
    }

    /// The router's channel whose begin a begin on the peer's channel answers, if it does.
    fn named(&self, channel: u16, begin: &Begin) -> Option<u16>
        ensures { (o : ℕ) → is_channel result o ≡ answers_begin (perf.Begin begin.now) o (at_number self.now.theirs channel) (at_number self.now.awaited o) }
    {
        let own = begin.remote_channel?;
        if self.theirs.get(u64::from(channel)).is_some() {
            return None;
        }
        if !self.awaits(own) {
            return None;
        }
        Some(own)
    }

    /// Handles a performative received on the peer's channel. Returns whether its session's window is narrow now.
    pub fn hear(&mut self, channel: u16, perf: &Perf) -> Result<bool, AllocError>
        ensures narrow { IfOk result (λ narrow. narrow ≡ is_narrow_at (at_number self.new.theirs channel) (at_number self.new.windows)) }
        ensures marks { IfOk result (λ narrow. narrow ≡ false → (o : ℕ) → is_narrow_window (at_number self.old.windows o) ≡ false → is_narrow_window (at_number self.new.windows o) ≡ false) }
        ensures offered { OnOk result (self.new.offered ≡ offered_in perf.now self.old.offered) }
        ensures awaited { OnOk result ((o : ℕ) → at_number self.new.awaited o ≡ (if answers_begin perf.now o (at_number self.old.theirs channel) (at_number self.old.awaited o) then None else at_number self.old.awaited o)) }
        ensures answered { OnOk result ((o : ℕ) → get nat_cmp self.new.answered o ≡ (if answers_begin perf.now o (at_number self.old.theirs channel) (at_number self.old.awaited o) then Some channel else get nat_cmp self.old.answered o)) }
        ensures theirs { OnOk result ((p : ℕ) → at_number self.new.theirs p ≡ theirs_in perf.now channel p (at_number self.old.awaited) (at_number self.old.theirs p)) }
        ensures windows { OnOk result ((o : ℕ) → at_number self.new.windows o ≡ window_after perf.now o (at_number self.old.theirs channel) (at_number self.old.awaited o) (at_number self.old.windows o)) }
    {
        match perf {
            Perf::Begin(begin) => self.hear_begin(channel, begin.as_ref()),
            _ => Ok(self.hear_other(channel, perf)),
        }
    }

    /// Handles a performative of the peer that is no begin. Returns whether its session's window is narrow now.
    fn hear_other(&mut self, channel: u16, perf: &Perf) -> bool
        ensures narrow { result ≡ is_narrow_at (at_number self.new.theirs channel) (at_number self.new.windows) }
        ensures marks { result ≡ false → (o : ℕ) → is_narrow_window (at_number self.old.windows o) ≡ false → is_narrow_window (at_number self.new.windows o) ≡ false }
        ensures offered { self.new.offered ≡ self.old.offered }
        ensures awaited { self.new.awaited ≡ self.old.awaited }
        ensures answered { self.new.answered ≡ self.old.answered }
        ensures theirs { (p : ℕ) → at_number self.new.theirs p ≡ theirs_in perf.now channel p (λ o. None) (at_number self.old.theirs p) }
        ensures windows { (o : ℕ) → at_number self.new.windows o ≡ heard_window perf.now (maps (at_number self.old.theirs channel) o) (at_number self.old.windows o) }
    {
        let own = mapped(&self.theirs, channel);
        hear_in(&mut self.windows, own, perf);
        if let Perf::End(_) = perf {
            let _ = self.theirs.remove(u64::from(channel));
            return false;
        }
        match own {
            None => false,
            Some(own) => self.is_narrow(own),
        }
    }

    /// Handles a begin of the peer. Returns whether the window of its channel's session is narrow now.
    fn hear_begin(&mut self, channel: u16, begin: &Begin) -> Result<bool, AllocError>
        ensures narrow { IfOk result (λ narrow. narrow ≡ is_narrow_at (at_number self.new.theirs channel) (at_number self.new.windows)) }
        ensures marks { IfOk result (λ narrow. narrow ≡ false → (o : ℕ) → is_narrow_window (at_number self.old.windows o) ≡ false → is_narrow_window (at_number self.new.windows o) ≡ false) }
        ensures offered { OnOk result (self.new.offered ≡ Some (begin_state begin.now)) }
        ensures awaited { OnOk result ((o : ℕ) → at_number self.new.awaited o ≡ (if answers_begin (perf.Begin begin.now) o (at_number self.old.theirs channel) (at_number self.old.awaited o) then None else at_number self.old.awaited o)) }
        ensures answered { OnOk result ((o : ℕ) → get nat_cmp self.new.answered o ≡ (if answers_begin (perf.Begin begin.now) o (at_number self.old.theirs channel) (at_number self.old.awaited o) then Some channel else get nat_cmp self.old.answered o)) }
        ensures theirs { OnOk result ((p : ℕ) → at_number self.new.theirs p ≡ theirs_in (perf.Begin begin.now) channel p (at_number self.old.awaited) (at_number self.old.theirs p)) }
        ensures windows { OnOk result ((o : ℕ) → at_number self.new.windows o ≡ window_after (perf.Begin begin.now) o (at_number self.old.theirs channel) (at_number self.old.awaited o) (at_number self.old.windows o)) }
    {
        let answered = self.named(channel, begin);
        self.offered = Some(begin_state(begin));
        let Some(own) = answered else {
            return Ok(self.is_narrow_on(channel));
        };
        self.make(own, channel, begin)?;
        Ok(self.is_narrow(own))
    }

    /// Makes the session of the router's begin on its channel `own` and of the peer's begin that answers it.
    fn make(&mut self, own: u16, channel: u16, theirs: &Begin) -> Result<(), AllocError>
        ensures offered { self.new.offered ≡ self.old.offered }
        ensures awaited { OnOk result ((o : ℕ) → at_number self.new.awaited o ≡ (if own == o then None else at_number self.old.awaited o)) }
        ensures answered { OnOk result ((o : ℕ) → get nat_cmp self.new.answered o ≡ (if own == o then Some channel else get nat_cmp self.old.answered o)) }
        ensures theirs { OnOk result ((p : ℕ) → at_number self.new.theirs p ≡ (if channel == p then Some (Mapped own) else at_number self.old.theirs p)) }
        ensures windows { OnOk result ((o : ℕ) → at_number self.new.windows o ≡ (if own == o then answered_window (perf.Begin theirs.now) (at_number self.old.awaited own) else at_number self.old.windows o)) }
    {
        let ours = self.awaited.remove(u64::from(own));
        set(&mut self.answered, own, Some(channel))?;
        let stands_for = PeerChannel::Mapped(own);
        let _ = self.theirs.insert(u64::from(channel), stands_for)?;
        set_number(&mut self.windows, own, answered_window(ours, theirs))
    }

    /// Whether the window of a session is narrow: half of what its peer may send is used up.
    pub fn is_narrow(&self, own: u16) -> bool
        ensures { result ≡ is_narrow_window (at_number self.now.windows own) }
    {
        match self.windows.get(u64::from(own)) {
            None => false,
            Some(window) => window.allowance() <= NARROW,
        }
    }

    /// Whether the window of the session on the peer's channel is narrow.
    fn is_narrow_on(&self, channel: u16) -> bool
        ensures { result ≡ is_narrow_at (at_number self.now.theirs channel) (at_number self.now.windows) }
    {
        let Some(PeerChannel::Mapped(own)) = self.theirs.get(u64::from(channel)) else {
            return false;
        };
        self.is_narrow(*own)
    }

    /// The flow that is due on a session because its window is narrow.
    pub fn due(&self, conn: u64, own: u16) -> Option<Outgoing>
        ensures { (known : ℕ → Option Session) → ((o : ℕ) → at_number self.now.windows o ≡ window_by (known o))
            → flow_due conn own (known own) ≡ puts_of (listed result) }
    {
        let mut window = *self.windows.get(u64::from(own))?;
        if window.allowance() > NARROW {
            return None;
        }
        Some(Outgoing {
            conn: ConnectionId(conn),
            item: flow_item(own, window.flow_state(SESSION_WINDOW)),
        })
    }

    /// The router begins a session on its channel `own`. Returns whether its window is narrow.
    pub fn begin(&mut self, own: u16, begin: &Begin) -> Result<bool, AllocError>
        ensures narrow { IfOk result (λ narrow. narrow ≡ is_narrow_window (at_number self.new.windows own)) }
        ensures offered { self.new.offered ≡ self.old.offered }
        ensures awaited { OnOk result ((o : ℕ) → at_number self.new.awaited o ≡ (if own == o then unless_answering begin.now else at_number self.old.awaited o)) }
        ensures answered { OnOk result ((o : ℕ) → get nat_cmp self.new.answered o ≡ (if own == o then begin.now.remote_channel else get nat_cmp self.old.answered o)) }
        ensures theirs { OnOk result ((p : ℕ) → at_number self.new.theirs p ≡ (if is_channel begin.now.remote_channel p then Some (Mapped own) else at_number self.old.theirs p)) }
        ensures windows { OnOk result ((o : ℕ) → at_number self.new.windows o ≡ (if own == o then begun_window self.old.offered begin.now else at_number self.old.windows o)) }
    {
        set_number(&mut self.awaited, own, unless_answering(begin))?;
        set(&mut self.answered, own, begin.remote_channel)?;
        if let Some(channel) = begin.remote_channel {
            let _ = self
                .theirs
                .insert(u64::from(channel), PeerChannel::Mapped(own))?;
        }
        let window = begun_window(self.offered, begin);
        set_number(&mut self.windows, own, window)?;
        Ok(self.is_narrow(own))
    }

    /// The router ends the session on its channel `own`.
    pub fn end(&mut self, own: u16)
        ensures offered { self.new.offered ≡ self.old.offered }
        ensures awaited { (o : ℕ) → at_number self.new.awaited o ≡ (if own == o then None else at_number self.old.awaited o) }
        ensures answered { (o : ℕ) → get nat_cmp self.new.answered o ≡ (if own == o then None else get nat_cmp self.old.answered o) }
        ensures theirs { (p : ℕ) → at_number self.new.theirs p ≡ (if is_channel (get nat_cmp self.old.answered own) p then option_map (λ v. Ending) (at_number self.old.theirs p) else at_number self.old.theirs p) }
        ensures windows { (o : ℕ) → at_number self.new.windows o ≡ (if own == o then None else at_number self.old.windows o) }
    {
        let _ = self.windows.remove(u64::from(own));
        let _ = self.awaited.remove(u64::from(own));
        let Some(channel) = self.answered.remove(&own) else {
            return;
        };
        if let Some(stands_for) = self.theirs.get_mut(u64::from(channel)) {
            *stands_for = PeerChannel::Ending;
        }
    }

    /// The router sends a flow with its window on its channel `own`. Returns whether the window is narrow.
    pub fn tell(&mut self, own: u16, flow: &Flow) -> bool
        ensures narrow { result ≡ is_narrow_window (at_number self.new.windows own) }
        ensures offered { self.new.offered ≡ self.old.offered }
        ensures awaited { self.new.awaited ≡ self.old.awaited }
        ensures answered { self.new.answered ≡ self.old.answered }
        ensures theirs { self.new.theirs ≡ self.old.theirs }
        ensures windows { (o : ℕ) → at_number self.new.windows o ≡ (if own == o then option_map (after_our_flow flow.now.incoming_window) (at_number self.old.windows o) else at_number self.old.windows o) }
    {
        if let Some(window) = self.windows.get_mut(u64::from(own)) {
            let _ = window.flow_state(flow.incoming_window);
        }
        self.is_narrow(own)
    }

    /// The router sends a transfer on its channel `own`.
    pub fn send(&mut self, own: u16)
        ensures offered { self.new.offered ≡ self.old.offered }
        ensures awaited { self.new.awaited ≡ self.old.awaited }
        ensures answered { self.new.answered ≡ self.old.answered }
        ensures theirs { self.new.theirs ≡ self.old.theirs }
        ensures windows { (o : ℕ) → at_number self.new.windows o ≡ (if own == o then option_map after_our_transfer (at_number self.old.windows o) else at_number self.old.windows o) }
    {
        if let Some(window) = self.windows.get_mut(u64::from(own)) {
            window.note_sent();
        }
    }
}

/// Gives a key this value, or removes it.
fn set(map: &mut BTreeMap<u16, u16>, key: u16, value: Option<u16>) -> Result<(), AllocError>
    ensures { OnOk result ((k : ℕ) → get nat_cmp map.new k ≡ (if key == k then value else get nat_cmp map.old k)) }
{
    let Some(value) = value else {
        let _ = map.remove(&key);
        return Ok(());
    };
    match map.insert(key, value) {
        Ok(_) => Ok(()),
        Err(_) => Err(AllocError),
    }
}

/// Gives a number this value, or removes it.
fn set_number<V: Drop>(
    map: &mut NumberMap<V>,
    number: u16,
    value: Option<V>,
) -> Result<(), AllocError>
    ensures { OnOk result ((n : ℕ) → at_number map.new n ≡ (if number == n then value else at_number map.old n)) }
{
    let Some(value) = value else {
        let _ = map.remove(u64::from(number));
        return Ok(());
    };
    let _ = map.insert(u64::from(number), value)?;
    Ok(())
}
