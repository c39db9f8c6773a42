//! The server's side of SASL.
ghost use Rattle.std.specs.Prelude.{◌≡◌, ◌≢◌, ◌⊎◌, ℕ, List, [], IfOk, MatchOption, IsTrue, false, map};
ghost use Rattle.amqp_sasl.specs.Names.{name_of};
ghost use Rattle.amqp_sasl.specs.Login.{IsPlainLogin, Logins};
ghost use Rattle.amqp_sasl.specs.Answer.{Answers, AnswersInit, outcome_of};
ghost use Rattle.amqp_sasl.specs.Judging.{answer_to};

use crate::code::SaslCode;
use crate::mechanism::{Mechanism, chosen, offer};
use crate::plain::read_plain;
use crate::user::{User, place_of};
use amqp_model::{Perf, SaslInit, SaslMechanisms, Text};
use std::alloc::{AllocError, Global};
use std::marker::Model;

/// What a server answers to a performative or SASL body.
#[derive(Debug, Drop)]
pub enum SaslAnswer {
    /// The exchange is over: the outcome's code, and with `Ok` the user that the peer is.
    Outcome(SaslCode, Option<Text>),
    /// It has no answer: only an init has one.
    Refuse,
}

/// The server's side of SASL: the users, and the mechanisms that are offered. It keeps no state of an exchange, so that
/// one serves any number of connections.
#[derive(Debug, Drop)]
pub struct SaslServer {
    users: Vec<User>,
    mechanisms: Vec<Mechanism>,
}

impl Model for SaslServer {
    ghost Value = { Logins };

    ghost view = { λ s. record { users = s.users.items; mechanisms = s.mechanisms.items } };
}

impl SaslServer {
    /// The server of these users that offers these mechanisms, in this order; one that stands there twice is offered
    /// twice.
    pub fn new(users: Vec<User>, mechanisms: Vec<Mechanism>) -> SaslServer
        ensures { result ≡ record { users = users.items; mechanisms = mechanisms.items } }
    {
        SaslServer { users, mechanisms }
    }

    /// The body that offers the mechanisms, in order (AMQP 1.0 part 5, section 5.3.3.1). Fails where there is no memory
    /// for it.
    pub fn mechanisms(&self, alloc: Global) -> Result<SaslMechanisms, AllocError>
        ensures { IfOk result (λ body. body.mechanisms ≡ map name_of self.now.mechanisms) }
    {
        offer(alloc, self.mechanisms.as_slice())
    }

    /// Answers the peer's first body (AMQP 1.0 part 5, section 5.3.2). An init that proves the peer to be a user gets code
    /// `Ok` and that user: `anonymous` by ANONYMOUS, whatever it says, and by PLAIN the user whose name and password it
    /// has, where it asks to act as nobody else. Any other init gets code `Auth`, and anything else `Refuse`. Fails where
    /// there is no memory for the user's name.
    pub fn step(&self, alloc: Global, perf: &Perf) -> Result<SaslAnswer, AllocError>
        ensures standard { IfOk result (λ a. Answers self.now perf.now a) }
        ensures exact { IfOk result (λ a. a ≡ answer_to self.now perf.now) }
    {
        match perf {
            Perf::SaslInit(init) => {
                let users = self.users.as_slice();
                let mechanisms = self.mechanisms.as_slice();
                Ok(outcome(user_of(alloc, users, mechanisms, init)?))
            }
            _ => Ok(SaslAnswer::Refuse),
        }
    }
}

/// The outcome where the peer is this user, or none.
fn outcome(user: Option<Text>) -> SaslAnswer
    ensures { result ≡ outcome_of user }
{
    match user {
        Some(name) => SaslAnswer::Outcome(SaslCode::Ok, Some(name)),
        None => SaslAnswer::Outcome(SaslCode::Auth, None),
    }
}

/// The user that an init proves the peer to be.
fn user_of(
    alloc: Global,
    users: &[User],
    mechanisms: &[Mechanism],
    init: &SaslInit,
) -> Result<Option<Text>, AllocError>
    ensures { IfOk result (λ user. AnswersInit (record { users = users.now; mechanisms = mechanisms.now }) init.now (outcome_of user)) }
{
    match chosen(mechanisms, init.mechanism.as_str()) {
        Some(Mechanism::Anonymous) => Ok(Some(Text::new(String::from_str(alloc, "anonymous")?))),
        Some(Mechanism::Plain) => match &init.initial_response {
            Some(message) => plain_user(users, message.as_slice()),
            None => Ok(None),
        },
        None => Ok(None),
    }
}

/// The user whose name and password a message of PLAIN has, where it asks to act as nobody else (RFC 4616, section 2).
fn plain_user(users: &[User], message: &[u8]) -> Result<Option<Text>, AllocError>
    ensures { IfOk result (λ user. MatchOption user ((name : List ℕ) → ¬ IsPlainLogin users.now message.now name) (λ name. IsPlainLogin users.now message.now name)) }
{
    let Some(said) = read_plain(message) else {
        return Ok(None);
    };
    let known = place_of(users, said.authentication, said.password);
    if !acts_as_itself(said.authorization, said.authentication) {
        return Ok(None);
    }
    match known {
        Some(place) => Ok(Some(users[place].name.clone()?)),
        None => Ok(None),
    }
}

/// Whether the proved identity asks to act as nobody else.
fn acts_as_itself(authorization: &[u8], authentication: &[u8]) -> bool
    ensures itself { IsTrue result → (authorization.now ≡ []) ⊎ (authorization.now ≡ authentication.now) }
    ensures another { result ≡ false → (authorization.now ≢ []) × (authorization.now ≢ authentication.now) }
{
    authorization.is_empty() || authorization == authentication
}
