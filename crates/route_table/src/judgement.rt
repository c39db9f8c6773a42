// The fault of a line, by the sections before it and the text after it.
ghost use Rattle.std.specs.Prelude.{◌≡◌, ◌≢◌, ◌&&◌, ℕ, List, [], None, Some, IfOk, IfErr, OnOk, count_by};
ghost use Rattle.std.specs.List.{list_any};
ghost use Rattle.route_table.specs.declared.attributes.Attribute.TheVariants as attributes;
ghost use Rattle.route_table.specs.declared.attributes.SectionKind.TheVariants as kinds;
ghost use Rattle.route_table.specs.File.{has, direction_of, is_same_direction, is_second_prefix_of, is_second_prefix, is_second_user, given_fault, head_fault, inside_fault, outside_fault, fault_in, open_behind, ended_behind};
ghost use Rattle.route_table.specs.Lines.{forms, head};
ghost use Rattle.route_table.specs.Seen.{form_seen};
ghost use Rattle.route_table.specs.Values.{attribute_of, is_kind, kind_of};

use crate::attributes::{Attribute, SectionKind};
use crate::faults::FaultKind;
use crate::lines::Line;
use crate::parts::{Section, is_same_direction};
use crate::sections::Direction;
use crate::values;
use std::alloc::Global;

fn count(sections: &[Section<'_>], kind: SectionKind) -> usize
    ensures { result ≡ count_by (λ s. is_kind s.kind kind) sections.now }
{
    sections.iter().filter(|section| section.is(kind)).count()
}

fn some_has(sections: &[Section<'_>], kind: SectionKind, attribute: Attribute, text: &str) -> bool
    ensures { result ≡ list_any (λ s. has kind attribute text.now s) sections.now }
{
    sections
        .iter()
        .any(|section| section.has(kind, attribute, text))
}

fn some_routes(sections: &[Section<'_>], prefix: &str, direction: Option<Direction>) -> bool
    ensures { result ≡ list_any
        (λ s. has kinds.LinkRoute attributes.Prefix prefix.now s && is_same_direction (direction_of s []) direction)
        sections.now }
{
    sections
        .iter()
        .any(|section| section.routes(prefix, direction))
}

fn is_second_user(ended: &[Section<'_>], attribute: Attribute, value: &str) -> bool
    ensures { result ≡ is_second_user ended.now attribute value.now }
{
    attribute.is(Attribute::Name) && some_has(ended, SectionKind::User, Attribute::Name, value)
}

fn is_second_prefix(
    section: &Section<'_>,
    ended: &[Section<'_>],
    attribute: Attribute,
    value: &str,
    behind: &str,
) -> bool
    ensures { result ≡ is_second_prefix section.now ended.now attribute value.now (forms behind.now) }
{
    attribute.is(Attribute::Prefix) && is_second_prefix_of(section, ended, value, behind)
}

fn is_second_prefix_of(
    section: &Section<'_>,
    ended: &[Section<'_>],
    prefix: &str,
    behind: &str,
) -> bool
    ensures { result ≡ is_second_prefix_of section.now.kind ended.now (direction_of section.now (forms behind.now)) prefix.now }
{
    match section.kind() {
        SectionKind::Address => some_has(ended, SectionKind::Address, Attribute::Prefix, prefix),
        SectionKind::LinkRoute => some_routes(ended, prefix, section.direction(behind)),
        SectionKind::Router | SectionKind::Listener | SectionKind::User => false,
    }
}

// The attribute of a key, where a line with this value may stand in the section.
fn judge(
    alloc: Global,
    section: &Section<'_>,
    ended: &[Section<'_>],
    key: &str,
    value: &str,
    behind: &str,
) -> Result<Attribute, FaultKind>
    ensures fault { IfErr result (λ k. k ≢ FaultKind.Memory
        → given_fault section.now ended.now (attribute_of section.now.kind key.now) value.now (forms behind.now) ≡ Some k) }
    ensures good { OnOk result
        (given_fault section.now ended.now (attribute_of section.now.kind key.now) value.now (forms behind.now) ≡ None) }
    ensures attribute { IfOk result (λ a. attribute_of section.now.kind key.now ≡ Some a) }
{
    let attribute = section
        .kind()
        .attribute(key)
        .ok_or(FaultKind::UnknownAttribute)?;
    if section.gives(attribute) {
        return Err(FaultKind::Syntax);
    }
    if !values::takes(alloc, attribute, value)? {
        return Err(FaultKind::BadValue);
    }
    if is_second_user(ended, attribute, value) {
        return Err(FaultKind::BadValue);
    }
    if is_second_prefix(section, ended, attribute, value, behind) {
        return Err(FaultKind::DuplicatePrefix);
    }
    Ok(attribute)
}

// The section that is open after a line outside of a section.
fn outside<'a>(
    alloc: Global,
    ended: &[Section<'a>],
    line: Line<'a>,
) -> Result<Option<Section<'a>>, FaultKind>
    ensures fault { IfErr result (λ k. k ≢ FaultKind.Memory → outside_fault ended.now (form_seen line.entry) ≡ Some k) }
    ensures good { OnOk result (outside_fault ended.now (form_seen line.entry) ≡ None) }
    ensures open { IfOk result (λ current. current ≡ open_behind (form_seen line.entry) None) }
    ensures ended { OnOk result (ended_behind (form_seen line.entry) None ended.now ≡ ended.now) }
{
    match line {
        Line::Nothing => Ok(None),
        Line::Head(name) => Ok(Some(begin(alloc, ended, name)?)),
        Line::Given(_, _) | Line::Close | Line::Wrong => Err(FaultKind::Syntax),
    }
}

fn begin<'a>(alloc: Global, ended: &[Section<'a>], name: &str) -> Result<Section<'a>, FaultKind>
    ensures fault { IfErr result (λ k. k ≢ FaultKind.Memory → head_fault ended.now (kind_of name.now) ≡ Some k) }
    ensures good { OnOk result (head_fault ended.now (kind_of name.now) ≡ None) }
    ensures open { IfOk result (λ section. Some section ≡ open_behind (head name.now) None) }
{
    let kind = SectionKind::named(name).ok_or(FaultKind::UnknownSection)?;
    if count(ended, kind) >= kind.most() {
        return Err(FaultKind::BadValue);
    }
    Ok(Section::new(alloc, kind))
}

// The section that is open after a line inside of a section; one that ends is put at the end of the others.
fn inside<'a>(
    alloc: Global,
    ended: &mut Vec<Section<'a>>,
    mut section: Section<'a>,
    line: Line<'a>,
    behind: &'a str,
) -> Result<Option<Section<'a>>, FaultKind>
    ensures fault { IfErr result (λ k. k ≢ FaultKind.Memory
        → inside_fault section.entry ended.old.items (form_seen line.entry) (forms behind.now) ≡ Some k) }
    ensures good { OnOk result (inside_fault section.entry ended.old.items (form_seen line.entry) (forms behind.now) ≡ None) }
    ensures open { IfOk result (λ current. current ≡ open_behind (form_seen line.entry) (Some section.entry)) }
    ensures ended { OnOk result (ended.new.items ≡ ended_behind (form_seen line.entry) (Some section.entry) ended.old.items) }
{
    match line {
        Line::Nothing => Ok(Some(section)),
        Line::Given(key, value) => {
            let attribute = judge(alloc, &section, ended.as_slice(), key, value, behind)?;
            section.add(attribute, value)?;
            Ok(Some(section))
        }
        Line::Close => {
            if !section.is_complete() {
                return Err(FaultKind::BadValue);
            }
            ended.push(section)?;
            Ok(None)
        }
        Line::Head(_) | Line::Wrong => Err(FaultKind::Syntax),
    }
}

/// The section that is open after a line, by the one that is open before it; one that ends is put at the end of the
/// others. An error is the line's fault.
#[tactic(auto, unfolding(crate::specs::File::fault_in))]
pub fn step<'a>(
    alloc: Global,
    ended: &mut Vec<Section<'a>>,
    current: Option<Section<'a>>,
    line: Line<'a>,
    behind: &'a str,
) -> Result<Option<Section<'a>>, FaultKind>
    ensures fault { IfErr result (λ k. k ≢ FaultKind.Memory
        → fault_in current.entry ended.old.items (form_seen line.entry) (forms behind.now) ≡ Some k) }
    ensures good { OnOk result (fault_in current.entry ended.old.items (form_seen line.entry) (forms behind.now) ≡ None) }
    ensures open { IfOk result (λ next. next ≡ open_behind (form_seen line.entry) current.entry) }
    ensures ended { OnOk result (ended.new.items ≡ ended_behind (form_seen line.entry) current.entry ended.old.items) }
{
    match current {
        None => outside(alloc, ended.as_slice(), line),
        Some(section) => inside(alloc, ended, section, line, behind),
    }
}
