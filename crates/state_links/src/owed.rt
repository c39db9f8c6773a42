//! Links that owe a drain.
ghost use Rattle.std.specs.Prelude.{◌≡◌, ◌++◌, ◌&&◌, ℕ, OnOk};
ghost use Rattle.std.specs.Ordering.{nat_cmp};
ghost use Rattle.std.specs.BTreeMap.{get};
ghost use Rattle.std.specs.BTreeSet.{contains};
ghost use Rattle.state_links.specs.Owed.{owed_here, owed_in_session, owed_in_connection, owed_of_connection, owed_of, owes_in_session, owes_in_connection, owes_on};
ghost use Rattle.state_collections.specs.NumberMap.{at_number};

use crate::link::Link;
use router_trace::{Attachment, ConnectionId};
use state_collections::{ByHandle, InConnection, InSession};
use std::alloc::AllocError;
use std::collections::BTreeSet;

/// Appends a link if it owes a drain.
fn append_link(
    owed: &mut Vec<Attachment>,
    conn: u64,
    own: u16,
    handle: u32,
    link: &Link,
) -> Result<(), AllocError>
    ensures { OnOk result (owed.new.items ≡ owed.old.items ++ owed_here conn own handle link.now) }
{
    if link.owes_drain && link.end.sends() {
        owed.push(Attachment {
            number: link.number,
            conn: ConnectionId(conn),
            channel: own,
            handle,
        })?;
    }
    Ok(())
}

/// Appends the links of a session that owe a drain.
fn append_session(
    owed: &mut Vec<Attachment>,
    conn: u64,
    own: u16,
    handles: &InSession<Link>,
) -> Result<(), AllocError>
    ensures { OnOk result (owed.new.items ≡ owed.old.items ++ owed_in_session conn own handles.now) }
{
    for (handle, link) in handles {
        append_link(owed, conn, own, *handle, link)?;
    }
    Ok(())
}

/// Appends the links of a connection that owe a drain.
fn append_connection(
    owed: &mut Vec<Attachment>,
    conn: u64,
    sessions: &InConnection<Link>,
) -> Result<(), AllocError>
    ensures { OnOk result (owed.new.items ≡ owed.old.items ++ owed_in_connection conn sessions.now) }
{
    for (own, handles) in sessions {
        append_session(owed, conn, *own, handles)?;
    }
    Ok(())
}

/// Appends the links of a connection that owe a drain, if it has links.
fn append_of(
    owed: &mut Vec<Attachment>,
    conn: u64,
    links: &ByHandle<Link>,
) -> Result<(), AllocError>
    ensures { OnOk result (owed.new.items ≡ owed.old.items ++ owed_of_connection conn (at_number links.now.rows conn)) }
{
    match links.connection(conn) {
        None => Ok(()),
        Some(sessions) => append_connection(owed, conn, sessions),
    }
}

/// Appends the links of these connections that owe a drain.
pub(crate) fn append_all(
    owed: &mut Vec<Attachment>,
    conns: &BTreeSet<u64>,
    links: &ByHandle<Link>,
) -> Result<(), AllocError>
    ensures { OnOk result (owed.new.items ≡ owed.old.items ++ owed_of (at_number links.now.rows) conns.now.keys) }
{
    for conn in conns {
        append_of(owed, *conn, links)?;
    }
    Ok(())
}

/// Whether any link of a session owes a drain.
fn owes_in_session(handles: &InSession<Link>) -> bool
    ensures { result ≡ owes_in_session handles.now }
{
    for (_handle, link) in handles {
        if link.owes_drain {
            return true;
        }
    }
    false
}

/// Whether any link of a connection owes a drain.
fn owes_in_connection(sessions: &InConnection<Link>) -> bool
    ensures { result ≡ owes_in_connection sessions.now }
{
    for (_own, handles) in sessions {
        if owes_in_session(handles) {
            return true;
        }
    }
    false
}

/// Whether the connection has a link that owes a drain.
fn owes_on(links: &ByHandle<Link>, conn: u64) -> bool
    ensures { result ≡ owes_on (at_number links.now.rows conn) }
{
    match links.connection(conn) {
        None => false,
        Some(sessions) => owes_in_connection(sessions),
    }
}

/// Unmarks the connections on which no link owes a drain.
pub(crate) fn settle(marks: &mut BTreeSet<u64>, links: &ByHandle<Link>)
    ensures { (c : ℕ) → contains nat_cmp marks.new c ≡ (owes_on (at_number links.now.rows c) && contains nat_cmp marks.old c) }
{
    marks.retain(|conn| owes_on(links, *conn));
}
