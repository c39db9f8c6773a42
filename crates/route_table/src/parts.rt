// The sections of a configuration as they stand in the file.
ghost use Rattle.std.specs.Prelude.{◌≡◌, ◌&&◌, ℕ, List, [], ◌∷◌, ◌++◌, is_some, OnOk, option_map};
ghost use Rattle.route_table.specs.declared.attributes.Attribute.{Attribute};
ghost use Rattle.route_table.specs.declared.attributes.Attribute.TheVariants as attributes;
ghost use Rattle.route_table.specs.declared.attributes.SectionKind.TheVariants as kinds;
ghost use Rattle.route_table.specs.File.{Section as Part, value_of, is_text, has, is_complete_as, direction_below, direction_of, is_same_direction};
ghost use Rattle.route_table.specs.Lines.{forms};
ghost use Rattle.route_table.specs.Values.{is_kind};

use crate::attributes::{Attribute, SectionKind};
use crate::lines::{Line, first_line, read_line};
use crate::sections::Direction;
use crate::values;
use std::alloc::{AllocError, Global};
use std::marker::Model;

/// An attribute with its value. Contracts see the pair.
#[derive(Drop)]
pub struct Given<'a> {
    attribute: Attribute,
    value: &'a str,
}

impl<'a> Model for Given<'a> {
    ghost Value = { Attribute × List ℕ };

    ghost view = { λ a. (a.attribute, a.value.now) };
}

/// A section as it stands in the file.
#[derive(Drop)]
pub struct Section<'a> {
    kind: SectionKind,
    values: Vec<Given<'a>>,
}

impl<'a> Model for Section<'a> {
    ghost Value = { Part };

    ghost view = { λ a. record { kind = a.kind; values = a.values.items } };
}

impl<'a> Given<'a> {
    fn new(attribute: Attribute, value: &'a str) -> Given<'a>
        ensures { result ≡ (attribute, value.now) }
    {
        Given { attribute, value }
    }

    fn attribute(&self) -> Attribute
        ensures { result ≡ self.now.0 }
    {
        self.attribute
    }

    fn value(&self) -> &'a str
        ensures { result.now ≡ self.now.1 }
    {
        self.value
    }
}

impl<'a> Section<'a> {
    pub fn new(alloc: Global, kind: SectionKind) -> Section<'a>
        ensures { result ≡ record { kind = kind; values = [] } }
    {
        Section {
            kind,
            values: Vec::new(alloc),
        }
    }

    pub fn kind(&self) -> SectionKind
        ensures { result ≡ self.now.kind }
    {
        self.kind
    }

    /// Whether it is of the kind.
    pub fn is(&self, kind: SectionKind) -> bool
        ensures { result ≡ is_kind self.now.kind kind }
    {
        self.kind.is(kind)
    }

    /// The value of an attribute.
    pub fn value(&self, attribute: Attribute) -> Option<&'a str>
        ensures { option_map (λ t. t.now) result ≡ value_of attribute self.now }
    {
        for given in &self.values {
            if given.attribute().is(attribute) {
                return Some(given.value());
            }
        }
        None
    }

    // Whether it is of the kind, and gives the attribute this value.
    pub fn has(&self, kind: SectionKind, attribute: Attribute, text: &str) -> bool
        ensures { result ≡ has kind attribute text.now self.now }
    {
        self.is(kind) && self.says(attribute, text)
    }

    fn says(&self, attribute: Attribute, text: &str) -> bool
        ensures { result ≡ is_text (value_of attribute self.now) text.now }
    {
        match self.value(attribute) {
            None => false,
            Some(value) => value == text,
        }
    }

    pub fn gives(&self, attribute: Attribute) -> bool
        ensures { result ≡ is_some (value_of attribute self.now) }
    {
        self.value(attribute).is_some()
    }

    // Whether each attribute without a default is there.
    pub fn is_complete(&self) -> bool
        ensures { result ≡ is_complete_as self.now.kind self.now }
    {
        match self.kind() {
            SectionKind::Router | SectionKind::Listener => true,
            SectionKind::Address => self.gives(Attribute::Prefix),
            SectionKind::LinkRoute => {
                self.gives(Attribute::Prefix)
                    && self.gives(Attribute::ContainerId)
                    && self.gives(Attribute::Direction)
            }
            SectionKind::User => self.gives(Attribute::Name) && self.gives(Attribute::Password),
        }
    }

    // Whether it is a link route with this prefix and direction.
    pub fn routes(&self, prefix: &str, direction: Option<Direction>) -> bool
        ensures { result ≡ (has kinds.LinkRoute attributes.Prefix prefix.now self.now
            && is_same_direction (direction_of self.now []) direction) }
    {
        self.has(SectionKind::LinkRoute, Attribute::Prefix, prefix)
            && is_same_direction(self.direction(""), direction)
    }

    // The direction of a link route, which may be given in the text after it.
    pub fn direction(&self, behind: &str) -> Option<Direction>
        ensures { result ≡ direction_of self.now (forms behind.now) }
    {
        match self.value(Attribute::Direction) {
            Some(value) => values::direction(value),
            None => values::direction(direction_in(behind)?),
        }
    }

    pub fn add(&mut self, attribute: Attribute, value: &'a str) -> Result<(), AllocError>
        ensures { OnOk result (self.new ≡ record self.old { values = self.old.values ++ (attribute, value.now) ∷ [] }) }
    {
        self.values.push(Given::new(attribute, value))?;
        Ok(())
    }
}

// The value of the first line `direction` in the text, up to the end of a section.
fn direction_in(text: &str) -> Option<&str>
    ensures { option_map (λ t. t.now) result ≡ direction_below (forms text.now) }
{
    let mut rest = text;
    while !rest.is_empty() {
        let (line, behind) = first_line(rest);
        match read_line(line) {
            Line::Close => return None,
            Line::Given(key, value) => {
                if key == "direction" {
                    return Some(value);
                }
            }
            Line::Nothing | Line::Wrong | Line::Head(_) => {}
        }
        rest = behind;
    }
    None
}

pub fn is_same_direction(one: Option<Direction>, other: Option<Direction>) -> bool
    ensures { result ≡ is_same_direction one other }
{
    match (one, other) {
        (Some(one), Some(other)) => one.is(other),
        (None, _) | (Some(_), None) => false,
    }
}
