//! Connection negotiation: headers and logins, before a connection is up.
ghost use Rattle.std.specs.Prelude.{◌≡◌, ◌∷◌, [], codes, map, OnOk, OnErr, IfOk};
ghost use Rattle.amqp_sasl.specs.Names.{name_of};
ghost use Rattle.router_trace.specs.Frames.{header_item};
ghost use Rattle.core_door.specs.Door.{door, door_after, turn, turn_at, turn_of, first, last, told, over, lets_in, goes_on, protocol_of, sasl_header, sasl_frame, offer, outcome, refused_by, door_of, user_of, mechanism_of, role_of, verdict_of};
ghost use Rattle.core_door.specs.declared.door.Stage.TheVariants as stage;

use amqp_model::{Item, Perf, SaslOutcome, Text};
use amqp_sasl::{Mechanism, Password, SaslAnswer, SaslCode, SaslServer, User};
use bytes::Bytes;
use route_table::{Config, Listener, Role};
use router_trace::{PeerRole, header_item};
use std::alloc::{AllocError, Global};

/// The door's answer to an item.
#[derive(Debug, Drop)]
pub enum DoorAnswer {
    /// These items are sent; the next item is awaited.
    Say(Vec<Item>),
    /// The connection is up, with this user; the item goes on to the router, after the event that says so.
    Pass(Text),
    /// These items are sent, and the connection is over.
    End(Vec<Item>),
}

/// The stage of a connection that isn't up yet.
#[derive(Debug, Drop)]
pub enum Stage {
    /// Nothing was received: a protocol header is awaited.
    Header,
    /// The mechanisms were sent: the peer's choice is awaited.
    Init,
    /// The peer logged in as this user: the AMQP header is awaited.
    LoggedIn(Text),
    /// The connection has passed, or is over.
    Done,
}

/// What a protocol header asks for (AMQP 1.0 part 2, section 2.2).
#[derive(Clone, Copy)]
enum Protocol {
    /// AMQP 1.0.0.
    Amqp,
    /// SASL 1.0.0.
    Sasl,
    /// Anything else.
    Other,
}

/// The door's answer to an item, and the connection's stage after it.
#[derive(Drop)]
struct Answered {
    answer: DoorAnswer,
    stage: Stage,
}

/// The door of a connection that isn't up yet.
#[derive(Debug, Drop)]
pub struct Door {
    server: SaslServer,
    authenticate_peer: bool,
    role: PeerRole,
    stage: Stage,
}

impl Door {
    /// The door of a new connection at a listener. Fails if there is no memory for the users and
    /// mechanisms.
    pub fn new(alloc: Global, config: &Config, listener: &Listener) -> Result<Door, AllocError>
        ensures { IfOk result (λ d. d ≡ door_of config.now listener.now) }
    {
        let users = users_of(alloc, config.users())?;
        let mechanisms = mechanisms_of(alloc, listener.mechanisms.as_slice())?;
        Ok(Door {
            server: SaslServer::new(users, mechanisms),
            authenticate_peer: listener.authenticate_peer,
            role: role_of(listener.role),
            stage: Stage::Header,
        })
    }

    /// The peer's role, which the listener determines.
    pub fn role(&self) -> PeerRole
        ensures { result ≡ self.now.role }
    {
        self.role
    }

    /// Handles an item (AMQP 1.0 part 2, section 2.2, and part 5, section 5.3). The first must be a header: an AMQP header passes as
    /// user `anonymous`, unless peers have to log in; a SASL header is answered by the mechanisms. After that comes
    /// an init, which the outcome answers, and after code 0 the AMQP header, which passes as the user. Anything
    /// else ends the connection; a first header gets an answer. If memory is refused, nothing is changed.
    pub fn step(&mut self, alloc: Global, item: &Item) -> Result<DoorAnswer, AllocError>
        ensures answer { IfOk result (λ a. verdict_of a ≡ door self.old item.now) }
        ensures stage { OnOk result (self.new ≡ door_after self.old item.now) }
        ensures err { OnErr result (self.new ≡ self.old) }
    {
        let Answered { answer, stage } = self.turn(alloc, item)?;
        self.stage = stage;
        Ok(answer)
    }

    /// The answer to an item.
    fn turn(&self, alloc: Global, item: &Item) -> Result<Answered, AllocError>
        ensures { IfOk result (λ a. turn_of a ≡ turn self.now item.now) }
    {
        match (&self.stage, item) {
            (
                Stage::Header,
                Item::Header {
                    id,
                    major,
                    minor,
                    revision,
                },
            ) => self.first(alloc, protocol_of(*id, *major, *minor, *revision)),
            (
                Stage::Init,
                Item::Frame {
                    sasl: true,
                    perf,
                    ..
                },
            ) => told(alloc, self.server.step(alloc, perf)?),
            (
                Stage::LoggedIn(user),
                Item::Header {
                    id,
                    major,
                    minor,
                    revision,
                },
            ) => last(alloc, user, protocol_of(*id, *major, *minor, *revision)),
            _ => Ok(over(Vec::new(alloc))),
        }
    }

    /// The answer to the first header.
    fn first(&self, alloc: Global, protocol: Protocol) -> Result<Answered, AllocError>
        ensures { IfOk result (λ a. turn_of a ≡ first self.now protocol) }
    {
        match protocol {
            Protocol::Sasl => Ok(Answered {
                answer: DoorAnswer::Say(self.offer(alloc)?),
                stage: Stage::Init,
            }),
            Protocol::Amqp if !self.authenticate_peer => {
                Ok(lets_in(Text::new(String::from_str(alloc, "anonymous")?)))
            }
            _ => Ok(over(one(alloc, self.refusal())?)),
        }
    }

    /// The SASL header and the mechanisms.
    fn offer(&self, alloc: Global) -> Result<Vec<Item>, AllocError>
        ensures { IfOk result (λ v. v.items ≡ sasl_header ∷ offer self.now.server.mechanisms ∷ []) }
    {
        let mechanisms = self.server.mechanisms(alloc)?;
        two(
            alloc,
            sasl_header(),
            sasl_frame(Perf::SaslMechanisms(mechanisms)),
        )
    }

    /// The header that answers a header that doesn't pass.
    fn refusal(&self) -> Item
        ensures { result ≡ refused_by self.now.authenticate_peer }
    {
        if self.authenticate_peer {
            sasl_header()
        } else {
            header_item()
        }
    }
}

/// The answer that forwards a SASL server's answer.
fn told(alloc: Global, answer: SaslAnswer) -> Result<Answered, AllocError>
    ensures { IfOk result (λ a. turn_of a ≡ told answer) }
{
    match answer {
        SaslAnswer::Outcome(SaslCode::Ok, Some(user)) => Ok(Answered {
            answer: DoorAnswer::Say(one(alloc, outcome(SaslCode::Ok))?),
            stage: Stage::LoggedIn(user),
        }),
        SaslAnswer::Outcome(code, _) => Ok(over(one(alloc, outcome(code))?)),
        SaslAnswer::Refuse => Ok(over(Vec::new(alloc))),
    }
}

/// The answer to the header of a peer that has logged in.
fn last(alloc: Global, user: &Text, protocol: Protocol) -> Result<Answered, AllocError>
    ensures { IfOk result (λ a. turn_of a ≡ last user.now protocol) }
{
    match protocol {
        Protocol::Amqp => Ok(lets_in(user.clone()?)),
        Protocol::Sasl | Protocol::Other => Ok(over(Vec::new(alloc))),
    }
}

/// The connection is up.
fn lets_in(user: Text) -> Answered
    ensures { turn_of result ≡ lets_in user }
{
    Answered {
        answer: DoorAnswer::Pass(user),
        stage: Stage::Done,
    }
}

/// These items are sent, and the connection is over.
fn over(items: Vec<Item>) -> Answered
    ensures { turn_of result ≡ over items.items }
{
    Answered {
        answer: DoorAnswer::End(items),
        stage: Stage::Done,
    }
}

/// One item.
fn one(alloc: Global, item: Item) -> Result<Vec<Item>, AllocError>
    ensures { IfOk result (λ v. v.items ≡ item ∷ []) }
{
    let Ok(mut items) = Vec::with_capacity(alloc, 1) else {
        drop(item);
        return Err(AllocError);
    };
    match items.push(item) {
        Ok(()) => Ok(items),
        Err(left) => {
            drop(left);
            Err(AllocError)
        }
    }
}

/// Two items.
fn two(alloc: Global, first: Item, second: Item) -> Result<Vec<Item>, AllocError>
    ensures { IfOk result (λ v. v.items ≡ first ∷ second ∷ []) }
{
    let Ok(mut items) = one(alloc, first) else {
        drop(second);
        return Err(AllocError);
    };
    match items.push(second) {
        Ok(()) => Ok(items),
        Err(left) => {
            drop(left);
            Err(AllocError)
        }
    }
}

/// What a header asks for.
fn protocol_of(id: u8, major: u8, minor: u8, revision: u8) -> Protocol
    ensures { result ≡ protocol_of id major minor revision }
{
    if major == 1 && minor == 0 && revision == 0 {
        if id == 0 {
            Protocol::Amqp
        } else if id == 3 {
            Protocol::Sasl
        } else {
            Protocol::Other
        }
    } else {
        Protocol::Other
    }
}

/// The protocol header of SASL 1.0.0 (AMQP 1.0 part 5, section 5.3.1).
fn sasl_header() -> Item
    ensures { result ≡ sasl_header }
{
    Item::Header {
        id: 3,
        major: 1,
        minor: 0,
        revision: 0,
    }
}

/// A SASL frame (AMQP 1.0 part 5, section 5.3.1).
fn sasl_frame(body: Perf) -> Item
    ensures { result ≡ sasl_frame body }
{
    Item::Frame {
        sasl: true,
        channel: 0,
        perf: body,
        payload: Bytes::new(),
    }
}

/// The frame with the outcome of a login (AMQP 1.0 part 5, section 5.3.3.6).
fn outcome(code: SaslCode) -> Item
    ensures { result ≡ outcome code }
{
    sasl_frame(Perf::SaslOutcome(SaslOutcome {
        code: code.number(),
        additional_data: None,
    }))
}

/// The role of a listener's peers.
fn role_of(role: Role) -> PeerRole
    ensures { result ≡ role_of role }
{
    match role {
        Role::Normal => PeerRole::Normal,
        Role::RouteContainer => PeerRole::RouteContainer,
    }
}

/// The users of a configuration, as SASL takes them.
fn users_of(alloc: Global, users: &[route_table::User]) -> Result<Vec<User>, AllocError>
    ensures { IfOk result (λ v. v.items ≡ map user_of users.now) }
{
    let mut found = Vec::with_capacity(alloc, users.len())?;
    for user in users {
        found.push(user_of(alloc, user)?)?;
    }
    Ok(found)
}

/// A user, as SASL takes it.
fn user_of(alloc: Global, user: &route_table::User) -> Result<User, AllocError>
    ensures { IfOk result (λ u. u ≡ user_of user.now) }
{
    Ok(User {
        name: Text::new(String::from_str(alloc, user.name.as_str())?),
        password: Password::new(String::from_str(alloc, user.password.as_str())?),
    })
}

/// The mechanisms of a listener, as SASL takes them.
fn mechanisms_of(
    alloc: Global,
    words: &[route_table::Mechanism],
) -> Result<Vec<Mechanism>, AllocError>
    ensures { IfOk result (λ v. v.items ≡ map mechanism_of words.now) }
{
    let mut found = Vec::with_capacity(alloc, words.len())?;
    for word in words {
        found.push(mechanism_of(*word))?;
    }
    Ok(found)
}

/// A mechanism, as SASL takes it.
fn mechanism_of(word: route_table::Mechanism) -> Mechanism
    ensures { result ≡ mechanism_of word }
{
    match word {
        route_table::Mechanism::Anonymous => Mechanism::Anonymous,
        route_table::Mechanism::Plain => Mechanism::Plain,
    }
}
