//! The rows of a begin.
ghost use Rattle.std.specs.Prelude.{◌≡◌, ℕ, Bool};
ghost use Rattle.router_trace.specs.Sessions.{place, Place as At};
ghost use Rattle.state_sessions.specs.Fits.{found_of};
ghost use Rattle.reply_rows.specs.Rows.{answering, begin_reply, begin_by, is_awaited};

use crate::answer::Answer;
use amqp_model::Begin;
use router_trace::Condition;
use state_sessions::Place;

/// A begin: on a channel in use, or if it answers a begin of the router that awaits no answer, a close with
/// `amqp:not-allowed`; if it answers one that does (`awaits`), nothing; if no channel of the router is free, a close with
/// `amqp:resource-limit-exceeded`; else the router's begin on its lowest free channel. On a channel whose session the router
/// ended it is dropped (AMQP 1.0 part 2, sections 2.5.1 and 2.7.2).
pub(crate) fn begin_reply(
    place: Place,
    free: Option<u16>,
    awaits: bool,
    theirs: u16,
    begin: &Begin,
) -> Answer
    ensures { (at : At) (asked : ℕ → Bool) → place ≡ found_of at → awaits ≡ is_awaited asked begin.now.remote_channel
        → result ≡ begin_reply at free asked theirs begin.now }
{
    match place {
        Place::Nowhere => begin_by(theirs, free, awaits, begin.remote_channel),
        Place::Ending => Answer::Nothing,
        Place::On { .. } => Answer::CloseWith(Condition::NotAllowed),
    }
}

/// The answer to a begin on a channel without a session.
fn begin_by(theirs: u16, free: Option<u16>, awaits: bool, answers: Option<u16>) -> Answer
    ensures { (asked : ℕ → Bool) → awaits ≡ is_awaited asked answers → result ≡ begin_by theirs free asked answers }
{
    if answers.is_some() {
        return answering(awaits);
    }
    match free {
        None => Answer::CloseWith(Condition::ResourceLimitExceeded),
        Some(own) => Answer::Begin { own, theirs },
    }
}

/// The answer to a begin that answers one of the router.
fn answering(awaits: bool) -> Answer
    ensures { result ≡ answering awaits }
{
    if awaits {
        Answer::Nothing
    } else {
        Answer::CloseWith(Condition::NotAllowed)
    }
}
