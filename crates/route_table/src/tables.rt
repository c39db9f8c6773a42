// The routes and the distribution of an address.
ghost use Rattle.std.specs.Prelude.{◌≡◌, IfOk, option_map, take};
ghost use Rattle.route_table.specs.Places.{Routing, routing_of, address_pairs, route_pairs, distribution_of, route_in_of, route_out_of, FindsAs};
ghost use Rattle.route_table.specs.Prefixes.{FindSame, best};

use crate::configuration::Config;
use crate::prefixes::Prefixes;
use crate::sections::{Address, Direction, Distribution, LinkRoute};
use crate::texts::Text;
use std::alloc::{AllocError, Global};
use std::marker::Model;

/// The routes and the distribution of an address.
#[derive(Clone, Copy, Debug)]
pub struct Place<'a> {
    /// How its deliveries are shared.
    pub distribution: Distribution,
    /// The container-id of the link route for links on which the peer sends, if there is one.
    pub route_in: Option<&'a str>,
    /// The same for links on which the peer receives.
    pub route_out: Option<&'a str>,
}

/// The prefixes of a configuration, ordered for the search.
#[derive(Drop)]
pub struct Table {
    addresses: Prefixes<Distribution>,
    routes_in: Prefixes<Text>,
    routes_out: Prefixes<Text>,
}

impl Model for Table {
    ghost Value = { Routing };

    ghost view = { λ a. record { addresses = a.addresses; routes_in = a.routes_in; routes_out = a.routes_out } };
}

impl Table {
    /// The table of a configuration. Fails where there is no memory for it.
    pub fn new(alloc: Global, config: &Config) -> Result<Table, AllocError>
        ensures { IfOk result (λ t. FindsAs t (routing_of config.now)) }
    {
        Ok(Table {
            addresses: addresses_of(alloc, config.addresses())?,
            routes_in: routes_of(alloc, Direction::In, config.link_routes())?,
            routes_out: routes_of(alloc, Direction::Out, config.link_routes())?,
        })
    }

    /// The place of an address: by the longest prefix that it equals, or that it goes on after with `.` or `/`.
    /// Balanced and without routes where none matches. It allocates nothing, and makes one look-up for each `.` and `/` of the
    /// address.
    pub fn find(&self, address: &str) -> Place<'_>
        ensures distribution { result.distribution ≡ distribution_of self.now address.now }
        ensures route_in { option_map (λ t. t.now) result.route_in ≡ route_in_of self.now address.now }
        ensures route_out { option_map (λ t. t.now) result.route_out ≡ route_out_of self.now address.now }
    {
        Place {
            distribution: self.distribution(address),
            route_in: route(&self.routes_in, address),
            route_out: route(&self.routes_out, address),
        }
    }

    /// How the deliveries of an address are shared: the distribution of the place that [`Table::find`] returns, without a
    /// search for its routes.
    pub fn distribution(&self, address: &str) -> Distribution
        ensures { result ≡ distribution_of self.now address.now }
    {
        match self.addresses.longest(address) {
            None => Distribution::Balanced,
            Some(distribution) => *distribution,
        }
    }
}

// The container-id of the longest route.
fn route<'a>(routes: &'a Prefixes<Text>, address: &str) -> Option<&'a str>
    ensures { option_map (λ t. t.now) result ≡ option_map (λ e. e.1) (best routes.now address.now) }
{
    match routes.longest(address) {
        None => None,
        Some(container) => Some(container.as_str()),
    }
}

fn addresses_of(alloc: Global, sections: &[Address]) -> Result<Prefixes<Distribution>, AllocError>
    ensures { IfOk result (λ p. FindSame p (address_pairs sections.now)) }
{
    let mut prefixes = Prefixes::new(alloc);
    for section in sections {
        prefixes.add(alloc, section.prefix.as_str(), section.distribution)?;
    }
    Ok(prefixes)
}

fn routes_of(
    alloc: Global,
    direction: Direction,
    sections: &[LinkRoute],
) -> Result<Prefixes<Text>, AllocError>
    ensures { IfOk result (λ p. FindSame p (route_pairs direction sections.now)) }
{
    let mut prefixes = Prefixes::new(alloc);
    for section in sections {
        if section.direction.is(direction) {
            let container = Text::new(alloc, section.container_id.as_str())?;
            prefixes.add(alloc, section.prefix.as_str(), container)?;
        }
    }
    Ok(prefixes)
}
