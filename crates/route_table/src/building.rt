// The meaning of sections, with the defaults filled in.
ghost use Rattle.std.specs.Prelude.{◌≡◌, IfOk, List, [], ◌∷◌};
ghost use Rattle.route_table.specs.declared.attributes.SectionKind.TheVariants as kinds;
ghost use Rattle.route_table.specs.declared.attributes.Attribute.TheVariants as attributes;
ghost use Rattle.route_table.specs.declared.sections.Mechanism.TheVariants.{Anonymous, Plain};
ghost use Rattle.route_table.specs.File.{value_of};
ghost use Rattle.route_table.specs.Said.{settings_of, sections_of, listener_of, address_of, link_route_of, user_of, text_of, chosen, router_id_of};
ghost use Rattle.route_table.specs.Values.{is_kind, mechanisms_of};
ghost use Rattle.std.specs.List.{find};
ghost use Rattle.std.specs.Option.{option_copied};

use crate::attributes::{Attribute, SectionKind};
use crate::configuration::Config;
use crate::parts::Section;
use crate::sections::{
    Address, Direction, Distribution, LinkRoute, Listener, Mechanism, Mechanisms, Role, User,
};
use crate::texts::Text;
use crate::values;
use std::alloc::{AllocError, Global};

/// The configuration that these sections make.
#[tactic(auto, unfolding(crate::specs::Said::settings_of))]
pub fn config_of(alloc: Global, sections: &[Section<'_>]) -> Result<Config, AllocError>
    ensures { IfOk result (λ c. c ≡ settings_of sections.now) }
{
    Ok(Config::new(
        router_id(alloc, sections)?,
        listeners(alloc, sections)?,
        addresses(alloc, sections)?,
        link_routes(alloc, sections)?,
        users(alloc, sections)?,
    ))
}

fn router_id(alloc: Global, sections: &[Section<'_>]) -> Result<Text, AllocError>
    ensures { IfOk result (λ t. t ≡ router_id_of (find (λ s. is_kind s.kind kinds.Router) sections.now)) }
{
    match router(sections) {
        None => Text::new(alloc, "R1"),
        Some(section) => text(alloc, section, Attribute::Id, "R1"),
    }
}

fn router<'a, 'b>(sections: &'b [Section<'a>]) -> Option<&'b Section<'a>>
    ensures { option_copied result ≡ find (λ s. is_kind s.kind kinds.Router) sections.now }
{
    for section in sections {
        if section.is(SectionKind::Router) {
            return Some(section);
        }
    }
    None
}

fn text(
    alloc: Global,
    section: &Section<'_>,
    attribute: Attribute,
    default: &str,
) -> Result<Text, AllocError>
    ensures { IfOk result (λ t. t ≡ text_of section.now attribute default.now) }
{
    match section.value(attribute) {
        None => Text::new(alloc, default),
        Some(value) => Text::new(alloc, value),
    }
}

fn listeners(alloc: Global, sections: &[Section<'_>]) -> Result<Vec<Listener>, AllocError>
    ensures { IfOk result (λ v. v.items ≡ sections_of kinds.Listener listener_of sections.now) }
{
    let mut found = Vec::new(alloc);
    for section in sections {
        if section.is(SectionKind::Listener) {
            found.push(listener(alloc, section)?)?;
        }
    }
    Ok(found)
}

fn addresses(alloc: Global, sections: &[Section<'_>]) -> Result<Vec<Address>, AllocError>
    ensures { IfOk result (λ v. v.items ≡ sections_of kinds.Address address_of sections.now) }
{
    let mut found = Vec::new(alloc);
    for section in sections {
        if section.is(SectionKind::Address) {
            found.push(address(alloc, section)?)?;
        }
    }
    Ok(found)
}

fn link_routes(alloc: Global, sections: &[Section<'_>]) -> Result<Vec<LinkRoute>, AllocError>
    ensures { IfOk result (λ v. v.items ≡ sections_of kinds.LinkRoute link_route_of sections.now) }
{
    let mut found = Vec::new(alloc);
    for section in sections {
        if section.is(SectionKind::LinkRoute) {
            found.push(link_route(alloc, section)?)?;
        }
    }
    Ok(found)
}

fn users(alloc: Global, sections: &[Section<'_>]) -> Result<Vec<User>, AllocError>
    ensures { IfOk result (λ v. v.items ≡ sections_of kinds.User user_of sections.now) }
{
    let mut found = Vec::new(alloc);
    for section in sections {
        if section.is(SectionKind::User) {
            found.push(user(alloc, section)?)?;
        }
    }
    Ok(found)
}

fn listener(alloc: Global, section: &Section<'_>) -> Result<Listener, AllocError>
    ensures { IfOk result (λ l. l ≡ listener_of section.now) }
{
    Ok(Listener {
        host: text(alloc, section, Attribute::Host, "127.0.0.1")?,
        port: section
            .value(Attribute::Port)
            .and_then(values::port)
            .unwrap_or(5672),
        role: section
            .value(Attribute::Role)
            .and_then(values::role)
            .unwrap_or(Role::Normal),
        authenticate_peer: section
            .value(Attribute::AuthenticatePeer)
            .and_then(values::switch)
            .unwrap_or(false),
        mechanisms: mechanisms(alloc, section)?,
    })
}

fn mechanisms(alloc: Global, section: &Section<'_>) -> Result<Mechanisms, AllocError>
    ensures { IfOk result (λ m. m ≡ chosen section.now attributes.SaslMechanisms mechanisms_of (Anonymous ∷ Plain ∷ [])) }
{
    if let Some(value) = section.value(Attribute::SaslMechanisms)
        && let Some(given) = values::mechanisms(alloc, value)?
    {
        return Ok(given);
    }
    Mechanisms::both(alloc)
}

fn address(alloc: Global, section: &Section<'_>) -> Result<Address, AllocError>
    ensures { IfOk result (λ a. a ≡ address_of section.now) }
{
    Ok(Address {
        prefix: text(alloc, section, Attribute::Prefix, "")?,
        distribution: section
            .value(Attribute::Distribution)
            .and_then(values::distribution)
            .unwrap_or(Distribution::Balanced),
    })
}

fn link_route(alloc: Global, section: &Section<'_>) -> Result<LinkRoute, AllocError>
    ensures { IfOk result (λ r. r ≡ link_route_of section.now) }
{
    Ok(LinkRoute {
        prefix: text(alloc, section, Attribute::Prefix, "")?,
        container_id: text(alloc, section, Attribute::ContainerId, "")?,
        direction: section
            .value(Attribute::Direction)
            .and_then(values::direction)
            .unwrap_or(Direction::In),
    })
}

fn user(alloc: Global, section: &Section<'_>) -> Result<User, AllocError>
    ensures { IfOk result (λ u. u ≡ user_of section.now) }
{
    Ok(User {
        name: text(alloc, section, Attribute::Name, "")?,
        password: text(alloc, section, Attribute::Password, "")?,
    })
}
