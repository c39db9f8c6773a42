// A whole configuration.
ghost use Rattle.std.specs.Prelude.{◌≡◌, [], IfOk, codes};
ghost use Rattle.route_table.specs.Settings.{Settings, standard};

use crate::sections::{Address, LinkRoute, Listener, User};
use crate::texts::Text;
use std::alloc::{AllocError, Global};
use std::marker::Model;

/// A router's configuration: its id, and the sections of each kind in the order of the file, with each default filled
/// in.
#[derive(Debug, Drop)]
pub struct Config {
    router_id: Text,
    listeners: Vec<Listener>,
    addresses: Vec<Address>,
    link_routes: Vec<LinkRoute>,
    users: Vec<User>,
}

impl Model for Config {
    ghost Value = { Settings };

    ghost view = { λ a. record {
      router_id = a.router_id;
      listeners = a.listeners.items;
      addresses = a.addresses.items;
      link_routes = a.link_routes.items;
      users = a.users.items;
    } };
}

impl Config {
    /// The configuration of a router that is called `R1` and has no sections.
    pub fn standard(alloc: Global) -> Result<Config, AllocError>
        ensures { IfOk result (λ c. c ≡ standard) }
    {
        let router_id = Text::new(alloc, "R1")?;
        Ok(Config::new(
            router_id,
            Vec::new(alloc),
            Vec::new(alloc),
            Vec::new(alloc),
            Vec::new(alloc),
        ))
    }

    // The configuration of these parts.
    pub(crate) fn new(
        router_id: Text,
        listeners: Vec<Listener>,
        addresses: Vec<Address>,
        link_routes: Vec<LinkRoute>,
        users: Vec<User>,
    ) -> Config
        ensures { result ≡ record {
          router_id = router_id;
          listeners = listeners.items;
          addresses = addresses.items;
          link_routes = link_routes.items;
          users = users.items;
        } }
    {
        Config {
            router_id,
            listeners,
            addresses,
            link_routes,
            users,
        }
    }

    /// The router's id, at most 128 bytes.
    pub fn router_id(&self) -> &str
        ensures { result.now ≡ self.now.router_id }
    {
        self.router_id.as_str()
    }

    /// The listeners, in order.
    pub fn listeners(&self) -> &[Listener]
        ensures { result.now ≡ self.now.listeners }
    {
        self.listeners.as_slice()
    }

    /// The sections on addresses, in order.
    pub fn addresses(&self) -> &[Address]
        ensures { result.now ≡ self.now.addresses }
    {
        self.addresses.as_slice()
    }

    /// The link routes, in order.
    pub fn link_routes(&self) -> &[LinkRoute]
        ensures { result.now ≡ self.now.link_routes }
    {
        self.link_routes.as_slice()
    }

    /// The users, in order.
    pub fn users(&self) -> &[User]
        ensures { result.now ≡ self.now.users }
    {
        self.users.as_slice()
    }
}
