//! Reading sources and targets, each by a list of calls of field readers.
ghost use Rattle.std.specs.Prelude.{◌≡◌};
ghost use Rattle.amqp_perf.specs.Contract.{Gives, GivesAs};
ghost use Rattle.amqp_perf.specs.Places.{Took, at_of};
ghost use Rattle.amqp_model.specs.PerfSpelling.{session_end};
ghost use Rattle.amqp_perf.specs.Termini as termini;
ghost use Rattle.std.specs.Prelude.{OnOk, IfOk};
ghost use Rattle.std.specs.Option.{unwrap_or};

use crate::fault::within;
use crate::fields::Fields;
use crate::opening::{Opening, carried, listed, opening_of, refused};
use amqp_model::{
    Address, DeliveryState, Descriptor, Map, PerfFault, Source, SourceTerminus, Symbol, Symbols,
    Target, TargetTerminus,
};
use std::alloc::Global;

/// The default expiry policy of a terminus (AMQP 1.0 part 3, section 3.5.3).
pub(crate) const SESSION_END: &str = "session-end";

/// The expiry policy that is given, or the default.
fn expiry_policy(alloc: Global, told: Option<Symbol>) -> Result<Symbol, PerfFault>
    ensures { Gives result (Ok (unwrap_or told session_end)) }
{
    match told {
        Some(policy) => Ok(policy),
        None => Ok(Symbol::new(String::from_str(alloc, SESSION_END)?)),
    }
}

/// The fields that a source and a target begin with: the node that is meant.
#[derive(Drop)]
struct NodeFields {
    address: Option<Address>,
    durable: u32,
    expiry_policy: Symbol,
    timeout: u32,
    dynamic: bool,
    dynamic_node_properties: Option<Map>,
}

#[tactic(auto, unfolding(crate::specs::Termini::node_at))]
fn node_of(alloc: Global, fields: &mut Fields<'_>) -> Result<NodeFields, PerfFault>
    ensures { Took (λ x. x) result (at_of fields.new) (termini.node_at (at_of fields.old)) }
{
    let address = fields.address(alloc)?;
    let durable = fields.uint()?;
    let policy = fields.symbol(alloc)?;
    let timeout = fields.uint()?;
    let dynamic = fields.flag()?;
    let dynamic_node_properties = fields.map(alloc)?;
    Ok(NodeFields {
        address,
        durable: durable.unwrap_or(0),
        expiry_policy: expiry_policy(alloc, policy)?,
        timeout: timeout.unwrap_or(0),
        dynamic,
        dynamic_node_properties,
    })
}

/// The further fields of a source: which messages are wanted of the node, and how they are settled.
#[derive(Drop)]
struct SourceChoices {
    distribution_mode: Option<Symbol>,
    filter: Option<Map>,
    default_outcome: Option<DeliveryState>,
    outcomes: Symbols,
    capabilities: Symbols,
}

#[tactic(auto, unfolding(crate::specs::Termini::choices_fields))]
fn choices_of(alloc: Global, fields: &mut Fields<'_>) -> Result<SourceChoices, PerfFault>
    ensures { Gives result (termini.choices_fields (at_of fields.old)) }
{
    let distribution_mode = fields.symbol(alloc)?;
    let filter = fields.map(alloc)?;
    let default_outcome = fields.state(alloc)?;
    let outcomes = fields.symbols(alloc)?;
    let capabilities = fields.symbols(alloc)?;
    fields.ended()?;
    Ok(SourceChoices {
        distribution_mode,
        filter,
        default_outcome,
        outcomes,
        capabilities,
    })
}

#[tactic(auto, unfolding(crate::specs::Termini::source_fields))]
fn source_fields(alloc: Global, fields: &mut Fields<'_>) -> Result<Source, PerfFault>
    ensures { Gives result (termini.source_fields (at_of fields.old)) }
{
    let node = node_of(alloc, fields)?;
    let choices = choices_of(alloc, fields)?;
    Ok(Source {
        address: node.address,
        durable: node.durable,
        expiry_policy: node.expiry_policy,
        timeout: node.timeout,
        dynamic: node.dynamic,
        dynamic_node_properties: node.dynamic_node_properties,
        distribution_mode: choices.distribution_mode,
        filter: choices.filter,
        default_outcome: choices.default_outcome,
        outcomes: choices.outcomes,
        capabilities: choices.capabilities,
    })
}

#[tactic(auto, unfolding(crate::specs::Termini::target_fields))]
fn target_fields(alloc: Global, fields: &mut Fields<'_>) -> Result<Target, PerfFault>
    ensures { Gives result (termini.target_fields (at_of fields.old)) }
{
    let node = node_of(alloc, fields)?;
    let capabilities = fields.symbols(alloc)?;
    fields.ended()?;
    Ok(Target {
        address: node.address,
        durable: node.durable,
        expiry_policy: node.expiry_policy,
        timeout: node.timeout,
        dynamic: node.dynamic,
        dynamic_node_properties: node.dynamic_node_properties,
        capabilities,
    })
}

/// The source at the front, and the bytes after it; none where null stands there.
#[tactic(auto, unfolding(crate::specs::Termini::source_in))]
fn source_of(
    alloc: Global,
    depth: u32,
    bytes: &[u8],
) -> Result<(Option<SourceTerminus>, &[u8]), PerfFault>
    ensures { GivesAs (λ x. (x.0, x.1.now)) result (termini.source_in depth bytes.now) }
{
    let (opening, rest) = opening_of(depth, bytes)?;
    match opening {
        Opening::Null => Ok((None, rest)),
        Opening::Other => Err(refused(depth, bytes)),
        Opening::Described(Some(Descriptor::Source)) => {
            let (mut fields, behind) = listed(
                depth.saturating_sub(1),
                11,
                PerfFault::WrongKind,
                rest,
            )?;
            Ok((
                Some(SourceTerminus::Source(source_fields(alloc, &mut fields)?)),
                behind,
            ))
        }
        Opening::Described(_) => {
            let (terminus, behind) = carried(alloc, depth, bytes)?;
            Ok((Some(SourceTerminus::Other(terminus)), behind))
        }
    }
}

/// The target at the front, and the bytes after it; none where null stands there.
#[tactic(auto, unfolding(crate::specs::Termini::target_in))]
fn target_of(
    alloc: Global,
    depth: u32,
    bytes: &[u8],
) -> Result<(Option<TargetTerminus>, &[u8]), PerfFault>
    ensures { GivesAs (λ x. (x.0, x.1.now)) result (termini.target_in depth bytes.now) }
{
    let (opening, rest) = opening_of(depth, bytes)?;
    match opening {
        Opening::Null => Ok((None, rest)),
        Opening::Other => Err(refused(depth, bytes)),
        Opening::Described(Some(Descriptor::Target)) => {
            let (mut fields, behind) = listed(
                depth.saturating_sub(1),
                7,
                PerfFault::WrongKind,
                rest,
            )?;
            Ok((
                Some(TargetTerminus::Target(target_fields(alloc, &mut fields)?)),
                behind,
            ))
        }
        Opening::Described(_) => {
            let (terminus, behind) = carried(alloc, depth, bytes)?;
            Ok((Some(TargetTerminus::Other(terminus)), behind))
        }
    }
}

impl<'a> Fields<'a> {
    /// A source.
    #[tactic(auto, unfolding(crate::specs::Termini::source_at))]
    pub fn source(&mut self, alloc: Global) -> Result<Option<SourceTerminus>, PerfFault>
        ensures { Took (λ x. x) result (at_of self.new) (termini.source_at (at_of self.old)) }
    {
        if self.left == 0 {
            self.ended()?;
            return Ok(None);
        }
        match source_of(alloc, self.depth, self.rest) {
            Err(fault) => Err(within(fault)),
            Ok((source, rest)) => {
                self.left -= 1;
                self.rest = rest;
                Ok(source)
            }
        }
    }

    /// A target.
    #[tactic(auto, unfolding(crate::specs::Termini::target_at))]
    pub fn target(&mut self, alloc: Global) -> Result<Option<TargetTerminus>, PerfFault>
        ensures { Took (λ x. x) result (at_of self.new) (termini.target_at (at_of self.old)) }
    {
        if self.left == 0 {
            self.ended()?;
            return Ok(None);
        }
        match target_of(alloc, self.depth, self.rest) {
            Err(fault) => Err(within(fault)),
            Ok((target, rest)) => {
                self.left -= 1;
                self.rest = rest;
                Ok(target)
            }
        }
    }
}
