//! What answers a frame that isn't in turn, and the answers that several performatives share.
ghost use Rattle.std.specs.Prelude.{◌≡◌, Some};
ghost use Rattle.reply_rows.specs.LinkRows.{detach_for};
ghost use Rattle.reply_rows.specs.declared.answer.Answer.TheVariants as answers;
ghost use Rattle.router_trace.specs.declared.condition.Condition.TheVariants.{NotAllowed, UnattachedHandle};
ghost use Rattle.reply_rows.specs.declared.answer.Answer.TheVariants.{End};
ghost use Rattle.reply_rows.specs.Rows.{header_reply, bad_frame_reply, early_frame_reply, channel_reply, out_of_turn, no_session_reply, beat_reply, condition_of};

use crate::answer::Answer;
use amqp_conn::conn::CHANNEL_MAX;
use amqp_conn::{Conn, ConnFault};
use amqp_model::{Detach, FrameFault, Perf};
use router_trace::Condition;

/// A header: the first is answered by the header, a later one closes with `amqp:connection:framing-error` (AMQP 1.0 part
/// 2, section 2.2).
pub(crate) fn header_reply(phase: Conn) -> Answer
    ensures { result ≡ header_reply phase }
{
    match phase.take_header() {
        Ok(()) => Answer::Header,
        Err(_) => Answer::CloseWith(Condition::FramingError),
    }
}

/// The error condition for a faulty frame.
fn condition_of(fault: FrameFault) -> Condition
    ensures { result ≡ condition_of fault }
{
    match fault {
        FrameFault::Perf(_) => Condition::DecodeError,
        _ => Condition::FramingError,
    }
}

/// A faulty frame: a faulty body closes with `amqp:decode-error`, anything else with `amqp:connection:framing-error`.
pub(crate) fn bad_frame_reply(fault: FrameFault) -> Answer
    ensures { result ≡ bad_frame_reply fault }
{
    Answer::CloseWith(condition_of(fault))
}

/// A heartbeat: no answer; on a channel above 14 the same answer as for any frame.
pub(crate) fn beat_reply(channel: u16) -> Answer
    ensures { result ≡ beat_reply channel }
{
    if channel > CHANNEL_MAX {
        channel_reply()
    } else {
        Answer::Nothing
    }
}

/// A SASL frame, a SASL body, or a performative before the open: a close with `amqp:not-allowed`.
pub(crate) fn early_frame_reply() -> Answer
    ensures { result ≡ early_frame_reply }
{
    Answer::CloseWith(Condition::NotAllowed)
}

/// A channel above 14: a close with `amqp:connection:framing-error`.
fn channel_reply() -> Answer
    ensures { result ≡ channel_reply }
{
    Answer::CloseWith(Condition::FramingError)
}

/// A frame that isn't in turn: before the open, or on a channel above 14.
pub(crate) fn out_of_turn(fault: ConnFault) -> Answer
    ensures { result ≡ out_of_turn fault }
{
    match fault {
        ConnFault::ChannelTooHigh => channel_reply(),
        _ => early_frame_reply(),
    }
}

/// A performative other than begin, on a channel without a session: a close with `amqp:not-allowed`.
pub(crate) fn no_session_reply() -> Answer
    ensures { result ≡ no_session_reply }
{
    Answer::CloseWith(Condition::NotAllowed)
}

/// A frame that names a handle on which no link is attached ends its session.
pub(crate) fn end_unattached(own: u16) -> Answer
    ensures { result ≡ End own (Some UnattachedHandle) }
{
    Answer::End {
        own,
        error: Some(Condition::UnattachedHandle),
    }
}

/// A frame that isn't allowed ends its session.
pub(crate) fn end_not_allowed(own: u16) -> Answer
    ensures { result ≡ answers.End own (Some NotAllowed) }
{
    Answer::End {
        own,
        error: Some(Condition::NotAllowed),
    }
}

/// A faulty frame detaches its link, which is closed unless it is durable.
pub(crate) fn detach_for(own: u16, handle: u32, durable: bool, error: Condition) -> Answer
    ensures { result ≡ detach_for own handle durable error }
{
    Answer::Detach {
        own,
        handle,
        closed: !durable,
        error: Some(error),
    }
}
