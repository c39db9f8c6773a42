//! The changes of a book.
ghost use Rattle.std.specs.Prelude.{◌≡◌};
ghost use Rattle.book_model.specs.Act.{kind_of, number_of};

use crate::row::RowNumber;
use crate::terminus::{Terminus, TerminusNumber};
use amqp_model::{DeliveryState, DeliveryTag};
use bytes::Bytes;
use std::fmt;

/// A change of a book, written as one log record.
#[derive(Debug, Drop)]
pub enum Act {
    /// A terminus is made for a durable link.
    Make(Terminus),
    /// A delivery is admitted.
    Admit(Admission),
    /// The outcome of a delivery is decided.
    Decide(Decision),
    /// The producer of a delivery has settled it.
    Forget(RowNumber),
    /// The terminus of a closed link is dropped.
    Drop(TerminusNumber),
}

/// A delivery that is admitted.
#[derive(Debug, Drop)]
pub struct Admission {
    /// The number of its row.
    pub row: RowNumber,
    /// The terminus of the link on which it came.
    pub producer: TerminusNumber,
    /// Its delivery-tag, given by the producer.
    pub tag: DeliveryTag,
    /// The terminus of the link to which it is bound; none where that link is not durable.
    pub consumer: Option<TerminusNumber>,
    /// The format of its message (AMQP 1.0 part 2, section 2.8.11).
    pub format: u32,
    /// Its message, carried unread.
    pub payload: Bytes,
}

/// The outcome of a delivery.
#[derive(Debug, Drop)]
pub struct Decision {
    /// The number of its row.
    pub row: RowNumber,
    /// Its outcome: a terminal state.
    pub outcome: DeliveryState,
}

/// The kind of an act.
#[derive(Clone, Copy, Debug, PartialEq, Eq)]
pub enum ActKind {
    /// A terminus is made.
    Make,
    /// A row is admitted.
    Admit,
    /// A row is decided.
    Decide,
    /// A row is forgotten.
    Forget,
    /// A terminus is dropped.
    Drop,
}

impl fmt::Display for ActKind {
    fn fmt<W: fmt::Write>(&self, f: &mut fmt::Formatter<W>) -> fmt::Result {
        match self {
            ActKind::Make => write!(f, "Make"),
            ActKind::Admit => write!(f, "Admit"),
            ActKind::Decide => write!(f, "Decide"),
            ActKind::Forget => write!(f, "Forget"),
            ActKind::Drop => write!(f, "Drop"),
        }
    }
}

impl Act {
    /// Its kind.
    pub fn kind(&self) -> ActKind
        ensures { result ≡ kind_of self.now }
    {
        match self {
            Act::Make(_) => ActKind::Make,
            Act::Admit(_) => ActKind::Admit,
            Act::Decide(_) => ActKind::Decide,
            Act::Forget(_) => ActKind::Forget,
            Act::Drop(_) => ActKind::Drop,
        }
    }

    /// The number of its row, or else of its terminus.
    pub fn number(&self) -> u64
        ensures { result ≡ number_of self.now }
    {
        match self {
            Act::Make(terminus) => terminus.number.0,
            Act::Admit(admission) => admission.row.0,
            Act::Decide(decision) => decision.row.0,
            Act::Forget(row) => row.0,
            Act::Drop(terminus) => terminus.0,
        }
    }
}
