// What the values of attributes mean, and which value an attribute takes.
ghost use Rattle.std.specs.Prelude.{◌≡◌, ℕ, List, IfOk, map};
ghost use Rattle.std.specs.List.{slice_split};
ghost use Rattle.route_table.specs.Lines.{is_blank};
ghost use Rattle.route_table.specs.Values.{port_of, role_of, switch_of, distribution_named, direction_named, mechanism_named, mechanisms_of, takes};
ghost use Rattle.route_table.specs.declared.sections.Mechanism.{Mechanism};

use crate::attributes::Attribute;
use crate::sections::{Direction, Distribution, Mechanism, Mechanisms, Role};
use std::alloc::{AllocError, Global};

/// The most bytes of a router's id, and of a prefix, a container-id or a user's name.
pub const LONGEST_ID: usize = 128;

pub const LONGEST_TEXT: usize = 1024;

/// A TCP port, in decimal digits.
pub fn port(value: &str) -> Option<u16>
    ensures { result ≡ port_of value.now }
{
    let mut number: u32 = 0;
    for byte in value.as_bytes() {
        if !byte.is_ascii_digit() {
            return None;
        }
        number = 10 * number + u32::from(*byte - b'0');
        if number >= 65536 {
            return None;
        }
    }
    if number == 0 {
        return None;
    }
    Some(number as u16)
}

/// A listener's role.
pub fn role(value: &str) -> Option<Role>
    ensures { result ≡ role_of value.now }
{
    if value == "normal" {
        Some(Role::Normal)
    } else if value == "route-container" {
        Some(Role::RouteContainer)
    } else {
        None
    }
}

/// `yes` or `no`.
pub fn switch(value: &str) -> Option<bool>
    ensures { result ≡ switch_of value.now }
{
    if value == "yes" {
        Some(true)
    } else if value == "no" {
        Some(false)
    } else {
        None
    }
}

/// An address's distribution.
pub fn distribution(value: &str) -> Option<Distribution>
    ensures { result ≡ distribution_named value.now }
{
    if value == "balanced" {
        Some(Distribution::Balanced)
    } else if value == "closest" {
        Some(Distribution::Closest)
    } else if value == "multicast" {
        Some(Distribution::Multicast)
    } else {
        None
    }
}

/// A link route's direction.
pub fn direction(value: &str) -> Option<Direction>
    ensures { result ≡ direction_named value.now }
{
    if value == "in" {
        Some(Direction::In)
    } else if value == "out" {
        Some(Direction::Out)
    } else {
        None
    }
}

fn mechanism(word: &[u8]) -> Option<Mechanism>
    ensures { result ≡ mechanism_named word.now }
{
    if word == b"ANONYMOUS".as_slice() {
        Some(Mechanism::Anonymous)
    } else if word == b"PLAIN".as_slice() {
        Some(Mechanism::Plain)
    } else {
        None
    }
}

// The parts of a value between blanks.
fn parts(alloc: Global, value: &str) -> Result<Vec<&[u8]>, AllocError>
    ensures { IfOk result (λ v. map (λ part. part.now) v.items ≡ slice_split is_blank value.now) }
{
    value
        .as_bytes()
        .split(|byte| *byte == b' ' || *byte == b'\t')
        .collect(alloc)
}

/// The mechanisms of a list of words, if each names one.
pub fn mechanisms(alloc: Global, value: &str) -> Result<Option<Mechanisms>, AllocError>
    ensures { IfOk result (λ m. m ≡ mechanisms_of value.now) }
{
    let parts = parts(alloc, value)?;
    let mut found = Vec::new(alloc);
    for part in &parts {
        if !part.is_empty() {
            match mechanism(part) {
                None => return Ok(None),
                Some(one) => found.push(one)?,
            }
        }
    }
    Ok(Some(Mechanisms::new(found)))
}

/// Whether the attribute takes the value. Allocates only for a list of mechanisms.
pub fn takes(alloc: Global, attribute: Attribute, value: &str) -> Result<bool, AllocError>
    ensures { IfOk result (λ t. t ≡ takes attribute value.now) }
{
    Ok(match attribute {
        Attribute::Id => value.len() <= LONGEST_ID,
        Attribute::Mode => value == "standalone",
        Attribute::Host | Attribute::Password => true,
        Attribute::Port => port(value).is_some(),
        Attribute::Role => role(value).is_some(),
        Attribute::AuthenticatePeer => switch(value).is_some(),
        Attribute::SaslMechanisms => mechanisms(alloc, value)?.is_some(),
        Attribute::Prefix | Attribute::ContainerId => value.len() <= LONGEST_TEXT,
        Attribute::Distribution => distribution(value).is_some(),
        Attribute::Direction => direction(value).is_some(),
        Attribute::Name => value.len() <= LONGEST_TEXT && value != "anonymous",
    })
}
