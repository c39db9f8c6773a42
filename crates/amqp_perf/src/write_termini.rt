//! Writing sources and targets.
ghost use Rattle.std.specs.Prelude.{◌≡◌, ◌++◌, option_map, IfOk, OnOk, OnErr};
ghost use Rattle.amqp_model.specs.declared.descriptor.Descriptor.TheVariants as is;
ghost use Rattle.amqp_model.specs.Texts as texts;
ghost use Rattle.amqp_model.specs.PerfSpelling as spellings;
ghost use Rattle.amqp_perf.specs.NestedViews.{nested_view};

use crate::text::{Field, put_described, symbols_text};
use crate::write_states::{Nested, state_text};
use amqp_model::{Descriptor, Source, SourceTerminus, Target, TargetTerminus};
use std::alloc::{AllocError, Global};

fn put_source(alloc: Global, out: &mut Vec<u8>, source: &Source) -> Result<(), AllocError>
    ensures { OnOk result (out.new.items ≡ out.old.items ++ texts.described_text is.Source (spellings.source_texts source.now)) }
{
    let default_outcome = state_text(alloc, &source.default_outcome)?;
    let outcomes = symbols_text(alloc, &source.outcomes)?;
    let capabilities = symbols_text(alloc, &source.capabilities)?;
    put_source_with(out, source, &default_outcome, &outcomes, &capabilities)
}

/// A source whose fields that hold other values are encoded.
fn put_source_with<'a>(
    out: &mut Vec<u8>,
    source: &'a Source,
    default_outcome: &'a Option<Nested>,
    outcomes: &'a Option<Vec<u8>>,
    capabilities: &'a Option<Vec<u8>>,
) -> Result<(), AllocError>
    requires default_outcome { option_map nested_view default_outcome.now ≡ spellings.state_text source.now.default_outcome }
    requires outcomes { option_map (λ v. v.items) outcomes.now ≡ texts.symbols_text source.now.outcomes }
    requires capabilities { option_map (λ v. v.items) capabilities.now ≡ texts.symbols_text source.now.capabilities }
    ensures { OnOk result (out.new.items ≡ out.old.items ++ texts.described_text is.Source (spellings.source_texts source.now)) }
{
    let fields = [
        Field::address(&source.address),
        Field::uint_unless(0, source.durable),
        Field::policy(&source.expiry_policy),
        Field::uint_unless(0, source.timeout),
        Field::flag(source.dynamic),
        Field::map(&source.dynamic_node_properties),
        Field::symbol(&source.distribution_mode),
        Field::map(&source.filter),
        Field::nested(default_outcome),
        Field::spelt(outcomes),
        Field::spelt(capabilities),
    ];
    put_described(out, Descriptor::Source, &fields)
}

fn put_target(alloc: Global, out: &mut Vec<u8>, target: &Target) -> Result<(), AllocError>
    ensures { OnOk result (out.new.items ≡ out.old.items ++ texts.described_text is.Target (spellings.target_texts target.now)) }
{
    let capabilities = symbols_text(alloc, &target.capabilities)?;
    put_target_with(out, target, &capabilities)
}

/// A target whose capabilities are encoded.
fn put_target_with<'a>(
    out: &mut Vec<u8>,
    target: &'a Target,
    capabilities: &'a Option<Vec<u8>>,
) -> Result<(), AllocError>
    requires { option_map (λ v. v.items) capabilities.now ≡ texts.symbols_text target.now.capabilities }
    ensures { OnOk result (out.new.items ≡ out.old.items ++ texts.described_text is.Target (spellings.target_texts target.now)) }
{
    let fields = [
        Field::address(&target.address),
        Field::uint_unless(0, target.durable),
        Field::policy(&target.expiry_policy),
        Field::uint_unless(0, target.timeout),
        Field::flag(target.dynamic),
        Field::map(&target.dynamic_node_properties),
        Field::spelt(capabilities),
    ];
    put_described(out, Descriptor::Target, &fields)
}

/// The encoding of a source, if there is one.
pub(crate) fn source_text(
    alloc: Global,
    terminus: &Option<SourceTerminus>,
) -> Result<Option<Vec<u8>>, AllocError>
    ensures { IfOk result (λ text. option_map (λ v. v.items) text ≡ spellings.source_text terminus.now) }
{
    let mut text = Vec::new(alloc);
    match terminus {
        None => return Ok(None),
        Some(SourceTerminus::Source(source)) => put_source(alloc, &mut text, source)?,
        Some(SourceTerminus::Other(other)) => text.extend_from_slice(other.as_slice())?,
    }
    Ok(Some(text))
}

/// The encoding of a target, if there is one.
pub(crate) fn target_text(
    alloc: Global,
    terminus: &Option<TargetTerminus>,
) -> Result<Option<Vec<u8>>, AllocError>
    ensures { IfOk result (λ text. option_map (λ v. v.items) text ≡ spellings.target_text terminus.now) }
{
    let mut text = Vec::new(alloc);
    match terminus {
        None => return Ok(None),
        Some(TargetTerminus::Target(target)) => put_target(alloc, &mut text, target)?,
        Some(TargetTerminus::Other(other)) => text.extend_from_slice(other.as_slice())?,
    }
    Ok(Some(text))
}
