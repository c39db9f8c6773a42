//! The connections of a script that are open, by number.
ghost use Rattle.std.specs.Prelude.{◌≡◌, ◌==◌, ℕ, None, Some, option_map, if◌then◌else◌, OnOk, IfOk};
ghost use Rattle.std.specs.Ordering.{nat_cmp};
ghost use Rattle.std.specs.BTreeMap.{get};
ghost use Rattle.core_player.specs.Asking.{AsksAt, ReadsAt, ReadsOne};
ghost use Rattle.core_player.specs.Playing.{PartsAt};

use crate::socket::{Asked, Socket};
use amqp_model::{FrameFault, Item};
use std::alloc::{AllocError, Global};
use std::collections::BTreeMap;

/// Asks who takes an item of a connection, which is closed if the door ends it.
pub fn ask_in(
    sockets: &mut BTreeMap<u64, Socket>,
    alloc: Global,
    conn: u64,
    item: &Item,
) -> Result<Asked, AllocError>
    ensures { IfOk result (λ asked. AsksAt conn item.now (get nat_cmp sockets.old) (get nat_cmp sockets.old conn) (get nat_cmp sockets.new) asked) }
{
    let asked = match sockets.get_mut(&conn) {
        None => return Ok(Asked::Nobody),
        Some(socket) => socket.ask(alloc, item)?,
    };
    if let Asked::End(_) = &asked {
        close(sockets, conn);
    }
    Ok(asked)
}

/// Cuts the bytes received on a connection into items; none if it is closed, or its stream ended.
pub fn read_in(
    sockets: &mut BTreeMap<u64, Socket>,
    conn: u64,
    bytes: &[u8],
) -> Result<Option<Vec<Item>>, AllocError>
    ensures { IfOk result (λ read. ReadsAt conn bytes.now (get nat_cmp sockets.old) (get nat_cmp sockets.old conn) (get nat_cmp sockets.new) (option_map (λ v. v.items) read)) }
{
    match sockets.get_mut(&conn) {
        None => Ok(None),
        Some(socket) => read_one(socket, bytes),
    }
}

/// Cuts the bytes received into items; none if the stream ended.
fn read_one(socket: &mut Socket, bytes: &[u8]) -> Result<Option<Vec<Item>>, AllocError>
    ensures { IfOk result (λ read. ReadsOne bytes.now socket.old socket.old.reader.failed socket.new (option_map (λ v. v.items) read)) }
{
    match socket.reader.feed(bytes) {
        Ok(items) => Ok(Some(items)),
        Err(FrameFault::Failed) => Ok(None),
        Err(_) => Err(AllocError),
    }
}

/// Where a connection was when it was closed.
#[derive(Clone, Copy)]
pub enum Parted {
    /// Nowhere: it was closed before.
    Closed,
    /// Past the door.
    Passed,
    /// At the door.
    AtDoor,
}

/// Closes a connection, and returns where it was.
pub fn part_in(sockets: &mut BTreeMap<u64, Socket>, conn: u64) -> Parted
    ensures parted { PartsAt (get nat_cmp sockets.old conn) result }
    ensures rows { (n : ℕ) → get nat_cmp sockets.new n ≡ (if conn == n then None else get nat_cmp sockets.old n) }
{
    match sockets.remove(&conn) {
        None => Parted::Closed,
        Some(socket) => {
            if socket.door.is_some() {
                Parted::AtDoor
            } else {
                Parted::Passed
            }
        }
    }
}

/// Opens a connection.
pub fn add(sockets: &mut BTreeMap<u64, Socket>, conn: u64, socket: Socket) -> Result<(), AllocError>
    ensures { OnOk result ((n : ℕ) → get nat_cmp sockets.new n ≡ (if conn == n then Some socket else get nat_cmp sockets.old n)) }
{
    match sockets.insert(conn, socket) {
        Ok(_) => Ok(()),
        Err(_) => Err(AllocError),
    }
}

/// Closes a connection.
pub fn close(sockets: &mut BTreeMap<u64, Socket>, conn: u64)
    ensures { (n : ℕ) → get nat_cmp sockets.new n ≡ (if conn == n then None else get nat_cmp sockets.old n) }
{
    let _ = sockets.remove(&conn);
}
