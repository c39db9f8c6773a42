//! Routed links in a trace: what happened on each, and what becomes of it.
//!
//! A link whose address is routed goes through the router to another connection. It has two ends: the near one, on which its attach came, and the
//! far one, to which it is led. The definitions are in specs/, and docs/design/routes.md explains them; the types here name the parts of a link.
#![tactic(auto)]

mod ends;

pub use ends::{LinkEnd, LinkNumber, OurEnd, PeerEnd, RoutedAt, RoutedPlace, Side};
