//! The door for a connection of a script.
ghost use Rattle.std.specs.Prelude.{◌≡◌, IfOk, option_map, find};
ghost use Rattle.std.specs.Option.{option_copied};
ghost use Rattle.core_player.specs.Listening.{is_for, listening_for, door_for};

use core_door::Door;
use route_table::{Config, Listener, Role};
use router_trace::PeerRole;
use std::alloc::{AllocError, Global};

/// The door of a new connection in this role: that of the configuration's first listener for it, or of the standard listener
/// if it has none.
pub fn door_for(alloc: Global, config: &Config, peers: PeerRole) -> Result<Door, AllocError>
    ensures { IfOk result (λ d. d ≡ door_for config.now peers) }
{
    match first_for(config.listeners(), peers) {
        Some(listener) => Door::new(alloc, config, listener),
        None => Door::new(
            alloc,
            config,
            &Listener::standard(alloc, listening_for(peers))?,
        ),
    }
}

/// The first listener for peers in this role.
fn first_for(listeners: &[Listener], peers: PeerRole) -> Option<&Listener>
    ensures { option_copied result ≡ find (λ l. is_for peers l.role) listeners.now }
{
    for listener in listeners {
        if is_for(peers, listener.role) {
            return Some(listener);
        }
    }
    None
}

/// Whether a listener in `role` is for peers in the role `peers`.
fn is_for(peers: PeerRole, role: Role) -> bool
    ensures { result ≡ is_for peers role }
{
    match (peers, role) {
        (PeerRole::Normal, Role::Normal) => true,
        (PeerRole::RouteContainer, Role::RouteContainer) => true,
        _ => false,
    }
}

/// The role of a listener for peers in this role.
fn listening_for(peers: PeerRole) -> Role
    ensures { result ≡ listening_for peers }
{
    match peers {
        PeerRole::Normal => Role::Normal,
        PeerRole::RouteContainer => Role::RouteContainer,
    }
}
