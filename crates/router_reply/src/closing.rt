//! The items of an answer, and the closes because of full outboxes.
ghost use Rattle.std.specs.Prelude.{◌∷◌, List, [], OnOk, Some, true};
ghost use Rattle.router_trace.specs.Trace.{Entry, puts};
ghost use Rattle.router_state.specs.Tables.{TablesFit};
ghost use Rattle.router_trace.specs.LinkFrames.{detach_item};
ghost use Rattle.router_trace.specs.Frames.{closing, open_item, close_item};
ghost use Rattle.reply_rows.specs.Rows.{said};
ghost use Rattle.router_reply.specs.Replies.{ends, closing_of};
ghost use Rattle.router_trace.specs.Connection.{conn as known};
ghost use Rattle.router_trace.specs.declared.condition.Condition.TheVariants.{ResourceLimitExceeded};

use amqp_conn::Conn;
use reply_rows::Answer;
use router_state::State;
use router_trace::{Condition, RouterId, flow_item, header_item, link_flow_item};
use std::alloc::AllocError;

/// Closes a connection in this phase with an error; the router's open comes before the close if it isn't written
/// yet.
pub fn close_with(
    state: &mut State,
    id: &RouterId,
    conn: u64,
    phase: Conn,
    condition: Condition,
) -> Result<(), AllocError>
    ensures { OnOk result ((t : List Entry) → TablesFit state.old t → TablesFit state.new (puts conn (closing id.now phase condition) t)) }
{
    if phase.opened {
        write_close(state, id, conn, Some(condition))?;
        return Ok(());
    }
    write_open(state, id, conn)?;
    write_close(state, id, conn, Some(condition))?;
    Ok(())
}

/// Writes the router's open.
pub fn write_open(state: &mut State, id: &RouterId, conn: u64) -> Result<(), AllocError>
    ensures { OnOk result ((t : List Entry) → TablesFit state.old t → TablesFit state.new (puts conn (open_item id.now ∷ []) t)) }
{
    let item = id.open_item()?;
    state.put(conn, item)?;
    Ok(())
}

/// Writes the router's close, with or without an error.
pub fn write_close(
    state: &mut State,
    id: &RouterId,
    conn: u64,
    condition: Option<Condition>,
) -> Result<(), AllocError>
    ensures { OnOk result ((t : List Entry) → TablesFit state.old t → TablesFit state.new (puts conn (close_item condition ∷ []) t)) }
{
    let item = id.close_item(condition)?;
    state.put(conn, item)?;
    Ok(())
}

/// Writes a detach that closes the link for good, with an error.
pub fn write_detach(
    state: &mut State,
    id: &RouterId,
    conn: u64,
    own: u16,
    handle: u32,
    error: Condition,
) -> Result<(), AllocError>
    ensures { OnOk result ((t : List Entry) → TablesFit state.old t → TablesFit state.new (puts conn (detach_item own handle true (Some error) ∷ []) t)) }
{
    let item = id.detach_item(own, handle, true, Some(error))?;
    state.put(conn, item)?;
    Ok(())
}

/// Closes these connections because their outboxes are full, one after another. They are over already, so nothing else is
/// put out for them.
pub fn close_all(state: &mut State, id: &RouterId, due: &[u64]) -> Result<(), AllocError>
    ensures { OnOk result ((t : List Entry) → TablesFit state.old t → TablesFit state.new (ends id.now due.now t)) }
{
    for conn in due {
        close_full(state, id, *conn)?;
    }
    Ok(())
}

/// Closes a connection because its outbox is full, if it is known.
fn close_full(state: &mut State, id: &RouterId, conn: u64) -> Result<(), AllocError>
    ensures { OnOk result ((t : List Entry) → TablesFit state.old t → TablesFit state.new (puts conn (closing_of id.now (known t conn) ResourceLimitExceeded) t)) }
{
    if let Some(phase) = state.phase(conn) {
        close_with(state, id, conn, phase, Condition::ResourceLimitExceeded)?;
    }
    Ok(())
}

/// Puts the items of an answer, on a connection in this phase.
pub fn say(
    state: &mut State,
    id: &RouterId,
    conn: u64,
    phase: Conn,
    answer: &Answer,
) -> Result<(), AllocError>
    ensures { OnOk result ((t : List Entry) → TablesFit state.old t → TablesFit state.new (puts conn (said id.now phase answer.now) t)) }
{
    match answer {
        Answer::Nothing => {}
        Answer::Header => state.put(conn, header_item())?,
        Answer::Open => write_open(state, id, conn)?,
        Answer::Close => write_close(state, id, conn, None)?,
        Answer::CloseWith(condition) => close_with(state, id, conn, phase, *condition)?,
        Answer::Begin { own, theirs } => {
            state.put(conn, id.begin_item(*own, Some(*theirs))?)?;
        }
        Answer::End { own, error } => {
            let item = id.end_item(*own, *error)?;
            state.put(conn, item)?;
        }
        Answer::Flow { own, told } => state.put(conn, flow_item(*own, *told))?,
        Answer::Detach {
            own,
            handle,
            closed,
            error,
        } => {
            let item = id.detach_item(*own, *handle, *closed, *error)?;
            state.put(conn, item)?;
        }
        Answer::LinkFlow { own, told, at } => state.put(conn, link_flow_item(*own, *told, *at))?,
        Answer::Attach { .. } | Answer::Refuse { .. } => {}
        Answer::Taken { .. } | Answer::Settle { .. } => {}
    }
    Ok(())
}
