//! Delivery numbers by the handle of a link.
ghost use Rattle.std.specs.Prelude.{◌≡◌, ◌==◌, ℕ, Option, None, true, if◌then◌else◌, OnOk};
ghost use Rattle.amqp_session.specs.Ranges.{has};
ghost use Rattle.router_trace.specs.Deliveries.{is_number};
ghost use Rattle.state_deliveries.specs.declared.spots.Spot.{Spot as TheSpot};
ghost use Rattle.state_deliveries.specs.Rowing.{in_rows};
ghost use Rattle.state_deliveries.specs.Placing.{HandlesFit, on_session, handle_in, is_gone_there};

use crate::change::Gone;
use crate::rows::Rows;
use crate::spots::Spot;
use std::alloc::{AllocError, Global};

/// The handle of each delivery's link, by the session and the delivery's number, each number at one place at most. It is asked only when a link, a
/// session or a connection ends: for a link the numbers of its session are looked at.
#[derive(Drop)]
pub(crate) struct Handles {
    rows: Rows<u32>,
}

impl Handles {
    /// An empty table.
    pub(crate) fn new(alloc: Global) -> Handles
        ensures { HandlesFit result (λ n. None) }
    {
        Handles {
            rows: Rows::new(alloc),
        }
    }

    /// Moves a number from one place to another.
    pub(crate) fn shift(
        &mut self,
        number: u64,
        before: Option<Spot>,
        after: Option<Spot>,
    ) -> Result<(), AllocError>
        ensures { OnOk result ((known : ℕ → Option TheSpot) → known number ≡ before → HandlesFit self.old known
            → HandlesFit self.new (λ n. if number == n then after else known n)) }
    {
        if before == after {
            return Ok(());
        }
        self.drop_from(number, before);
        self.add_to(number, after)?;
        Ok(())
    }

    /// Removes a number from the session of a place, if there is one.
    fn drop_from(&mut self, number: u64, spot: Option<Spot>)
        ensures { (c o n : ℕ) → in_rows self.new.rows c o n ≡ (if on_session spot c o then (if number == n then None else in_rows self.old.rows c o n) else in_rows self.old.rows c o n) }
    {
        if let Some(spot) = spot {
            self.rows.remove(spot.conn, spot.own, number);
        }
    }

    /// Adds a number to a place, if there is one.
    fn add_to(&mut self, number: u64, spot: Option<Spot>) -> Result<(), AllocError>
        ensures { OnOk result ((c o n : ℕ) → in_rows self.new.rows c o n ≡ (if on_session spot c o then (if number == n then handle_in spot else in_rows self.old.rows c o n) else in_rows self.old.rows c o n)) }
    {
        if let Some(spot) = spot {
            self.rows.insert(spot.conn, spot.own, number, spot.at)?;
        }
        Ok(())
    }

    /// Appends the numbers at the places of links that end.
    pub(crate) fn append_gone(&self, gone: Gone, numbers: &mut Vec<u64>) -> Result<(), AllocError>
        ensures more { OnOk result ((n : ℕ) → has n numbers.old.items ≡ true → has n numbers.new.items ≡ true) }
        ensures found { OnOk result ((known : ℕ → Option TheSpot) → HandlesFit self.now known → (n : ℕ) → is_gone_there gone (known n) ≡ true → has n numbers.new.items ≡ true) }
    {
        match gone {
            Gone::Link { conn, own, handle } => self.append_link(conn, own, handle, numbers)?,
            Gone::Session { conn, own } => self.rows.append_session(conn, own, numbers)?,
            Gone::Connection(conn) => self.rows.append_connection(conn, numbers)?,
        }
        Ok(())
    }

    /// Appends the numbers of a session that have this handle.
    fn append_link(
        &self,
        conn: u64,
        own: u16,
        handle: u32,
        numbers: &mut Vec<u64>,
    ) -> Result<(), AllocError>
        ensures more { OnOk result ((n : ℕ) → has n numbers.old.items ≡ true → has n numbers.new.items ≡ true) }
        ensures found { OnOk result ((n : ℕ) → is_number (in_rows self.now.rows conn own n) handle ≡ true → has n numbers.new.items ≡ true) }
    {
        let mut session = Vec::new(self.rows.alloc());
        self.rows.append_session(conn, own, &mut session)?;
        for number in &session {
            if self.has_handle(conn, own, *number, handle) {
                numbers.push(*number)?;
            }
        }
        Ok(())
    }

    /// Whether a number of a session has this handle.
    fn has_handle(&self, conn: u64, own: u16, number: u64, handle: u32) -> bool
        ensures { result ≡ is_number (in_rows self.now.rows conn own number) handle }
    {
        match self.rows.get(conn, own, number) {
            None => false,
            Some(found) => *found == handle,
        }
    }

    /// Lets go of the rows of sessions that end, where they have no numbers.
    pub(crate) fn end(&mut self, gone: Gone) -> Result<(), AllocError>
        ensures { OnOk result ((known : ℕ → Option TheSpot) → HandlesFit self.old known → HandlesFit self.new known) }
    {
        self.rows.end(gone)?;
        Ok(())
    }
}
