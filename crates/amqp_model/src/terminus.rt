//! Sources and targets: where the messages of a link come from and go to (AMQP 1.0 part 3, sections 3.5.3 and 3.5.4).
use crate::leaf::{AnyValue, Map, Symbol, Symbols, Text};
use crate::state::DeliveryState;

/// The address of a terminus (AMQP 1.0 part 3, section 3.5.3).
#[derive(Debug)]
pub enum Address {
    /// A string, the only kind that is routed.
    Text(Text),
    /// A value of another type, carried unread.
    Other(AnyValue),
}

impl Drop for Address {
    /// Drops what it holds by one call, where a derived drop is its steps at each exit of a function that holds one.
    fn drop(self) {
        match self {
            Address::Text(_text) => {}
            Address::Other(_value) => {}
        }
    }
}

/// The source field of an attach.
#[derive(Debug, Drop)]
pub enum SourceTerminus {
    /// A source.
    Source(Source),
    /// A terminus with another descriptor, carried unread.
    Other(AnyValue),
}

/// The target field of an attach.
#[derive(Debug, Drop)]
pub enum TargetTerminus {
    /// A target.
    Target(Target),
    /// A terminus with another descriptor, such as a coordinator, carried unread.
    Other(AnyValue),
}

/// Where messages come from (AMQP 1.0 part 3, section 3.5.3).
#[derive(Debug)]
pub struct Source {
    /// Its address.
    pub address: Option<Address>,
    /// What is kept of the terminus: 0 nothing, 1 its configuration, 2 its unsettled deliveries too.
    pub durable: u32,
    /// When it expires: `session-end` where nothing is given.
    pub expiry_policy: Symbol,
    /// Seconds from then on until it is discarded.
    pub timeout: u32,
    /// Whether the peer is to create a node.
    pub dynamic: bool,
    /// Properties of such a node.
    pub dynamic_node_properties: Option<Map>,
    /// `move` or `copy`.
    pub distribution_mode: Option<Symbol>,
    /// Which messages are wanted.
    pub filter: Option<Map>,
    /// The outcome of deliveries that are settled without one.
    pub default_outcome: Option<DeliveryState>,
    /// The outcomes that the sender supports.
    pub outcomes: Symbols,
    /// What it can do.
    pub capabilities: Symbols,
}

impl Drop for Source {
    /// Drops what it holds by one call, where a derived drop is its steps at each exit of a function that holds one.
    fn drop(self) {
        let Source {
            address: _address,
            durable: _durable,
            expiry_policy: _expiry_policy,
            timeout: _timeout,
            dynamic: _dynamic,
            dynamic_node_properties: _dynamic_node_properties,
            distribution_mode: _distribution_mode,
            filter: _filter,
            default_outcome: _default_outcome,
            outcomes: _outcomes,
            capabilities: _capabilities,
        } = self;
    }
}

/// Where messages go to (AMQP 1.0 part 3, section 3.5.4).
#[derive(Debug)]
pub struct Target {
    /// Its address.
    pub address: Option<Address>,
    /// What is kept of the terminus: 0 nothing, 1 its configuration, 2 its unsettled deliveries too.
    pub durable: u32,
    /// When it expires: `session-end` where nothing is given.
    pub expiry_policy: Symbol,
    /// Seconds from then on until it is discarded.
    pub timeout: u32,
    /// Whether the peer is to create a node.
    pub dynamic: bool,
    /// Properties of such a node.
    pub dynamic_node_properties: Option<Map>,
    /// What it can do.
    pub capabilities: Symbols,
}

impl Drop for Target {
    /// Drops what it holds by one call, where a derived drop is its steps at each exit of a function that holds one.
    fn drop(self) {
        let Target {
            address: _address,
            durable: _durable,
            expiry_policy: _expiry_policy,
            timeout: _timeout,
            dynamic: _dynamic,
            dynamic_node_properties: _dynamic_node_properties,
            capabilities: _capabilities,
        } = self;
    }
}
