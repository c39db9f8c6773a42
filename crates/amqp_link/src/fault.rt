//! Why a delivery-count is not taken.
use thiserror::Error;

/// Why the delivery-count of a flow is not taken.
#[derive(Clone, Copy, Debug, PartialEq, Eq, Error)]
pub enum LinkFault {
    /// It is before the sender's own, or further ahead of it than the sender has credit (AMQP 1.0 part 2, section 2.6.7).
    #[error("the sender told a delivery-count that is behind, or ahead of what it was granted")]
    CountOutOfReach,
}
