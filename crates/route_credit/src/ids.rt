//! The names of links.

/// A consumer link: one on which the peer receives. A link that attaches later has a higher number, and numbers are never
/// reused.
#[derive(Clone, Copy, Debug, PartialEq, Eq)]
pub struct ConsumerId(pub u64);

/// A producer link: one on which the peer sends. A link that attaches later has a higher number, and numbers are never
/// reused.
#[derive(Clone, Copy, Debug, PartialEq, Eq)]
pub struct ProducerId(pub u64);
