//! The numbers of links that may have changed.
ghost use Rattle.std.specs.Prelude.{◌≡◌, ◌==◌, ◌||◌, ℕ, true, if◌then◌else◌, OnOk};
ghost use Rattle.state_collections.specs.NumberSet.{has};
ghost use Rattle.state_collections.specs.Places.{at};
ghost use Rattle.state_links.specs.Touching.{is_numbered, in_session, in_connection};

use crate::link::Link;
use state_collections::{ByHandle, InConnection, InSession, NumberSet};
use std::alloc::AllocError;

/// Touches a number.
pub(crate) fn touch(touched: &mut NumberSet, number: u64) -> Result<(), AllocError>
    ensures { OnOk result ((k : ℕ) → has touched.new k ≡ (if number == k then true else has touched.old k)) }
{
    touched.insert(number)
}

/// Touches the link at a handle of a session, if there is one.
pub(crate) fn touch_at(
    touched: &mut NumberSet,
    links: &ByHandle<Link>,
    conn: u64,
    own: u16,
    handle: u32,
) -> Result<(), AllocError>
    ensures { OnOk result ((k : ℕ) → has touched.new k ≡ (if is_numbered k (at links.now conn own handle) then true else has touched.old k)) }
{
    match links.get(conn, own, handle) {
        None => Ok(()),
        Some(link) => touch(touched, link.number),
    }
}

/// Touches the links of a session.
pub(crate) fn touch_session(
    touched: &mut NumberSet,
    handles: &InSession<Link>,
) -> Result<(), AllocError>
    ensures { OnOk result ((k : ℕ) → has touched.new k ≡ (in_session k handles.now || has touched.old k)) }
{
    for (_handle, link) in handles {
        touch(touched, link.number)?;
    }
    Ok(())
}

/// Touches the links of a connection.
pub(crate) fn touch_connection(
    touched: &mut NumberSet,
    sessions: &InConnection<Link>,
) -> Result<(), AllocError>
    ensures { OnOk result ((k : ℕ) → has touched.new k ≡ (in_connection k sessions.now || has touched.old k)) }
{
    for (_own, handles) in sessions {
        touch_session(touched, handles)?;
    }
    Ok(())
}
