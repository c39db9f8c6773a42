//! A connection of a script: its door, and the reader of its bytes.
ghost use Rattle.std.specs.Prelude.{◌≡◌, IfOk};
ghost use Rattle.core_player.specs.Script.{new_socket};
ghost use Rattle.core_player.specs.Asking.{IsAsked};

use amqp_frames::FrameReader;
use amqp_model::Item;
use core_door::{Door, DoorAnswer};
use router_trace::Peer;
use std::alloc::{AllocError, Global};

/// A connection of a script: its door until it passes, and the reader of its bytes.
#[derive(Drop)]
pub struct Socket {
    /// The door, until the connection passes.
    pub door: Option<Door>,
    /// The reader of the bytes received.
    pub reader: FrameReader,
}

impl Socket {
    /// A connection at this door, on which nothing was received.
    pub fn new(alloc: Global, door: Door) -> Socket
        ensures { result ≡ new_socket door }
    {
        Socket {
            door: Some(door),
            reader: FrameReader::new(alloc),
        }
    }

    /// Asks the door, while the connection is at it.
    pub fn ask(&mut self, alloc: Global, item: &Item) -> Result<Asked, AllocError>
        ensures { IfOk result (λ asked. IsAsked item.now self.old self.new asked) }
    {
        let Some(door) = &mut self.door else {
            return Ok(Asked::Router);
        };
        let role = door.role();
        match door.step(alloc, item)? {
            DoorAnswer::Say(items) => Ok(Asked::Say(items)),
            DoorAnswer::Pass(user) => {
                self.door = None;
                Ok(Asked::Pass(Peer { user, role }))
            }
            DoorAnswer::End(items) => Ok(Asked::End(items)),
        }
    }
}

/// Who takes an item of a connection.
#[derive(Drop)]
pub enum Asked {
    /// No one: the connection is over.
    Nobody,
    /// The router.
    Router,
    /// The door, which sends these items.
    Say(Vec<Item>),
    /// The router, after the event that this peer's connection came up.
    Pass(Peer),
    /// The door, which sends these items and ends the connection.
    End(Vec<Item>),
}
