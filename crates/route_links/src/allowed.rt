//! What an end takes now, and why nothing goes there.
ghost use Rattle.std.specs.Prelude.{◌≡◌};
ghost use Rattle.route_links.specs.Releases.{less};

use crate::passing::Passing;
use amqp_session::Serial;

/// What the end takes on which a leg goes out, now.
#[derive(Clone, Copy, Debug, PartialEq, Eq)]
pub struct Allowed {
    /// How many transfers its session's window takes (AMQP 1.0 part 2, section 2.5.6).
    pub window: u32,
    /// How many deliveries its link's credit lets start (AMQP 1.0 part 2, section 2.6.7).
    pub credit: u32,
    /// The delivery-id that its session's next delivery gets.
    pub next_id: Serial,
    /// How many ids from that one on name no unsettled delivery of its session.
    pub free_ids: u32,
    /// The largest transfer frame that it takes, in bytes (AMQP 1.0 part 2, section 2.7.1).
    pub largest: u32,
}

impl Allowed {
    /// The same.
    pub(crate) fn same(&self) -> Allowed
        ensures { result ≡ self.now }
    {
        Allowed {
            window: self.window,
            credit: self.credit,
            next_id: self.next_id,
            free_ids: self.free_ids,
            largest: self.largest,
        }
    }

    /// What is allowed behind this frame: a transfer uses one of the window, and one that starts a delivery one of the credit and an id.
    pub fn less(&self, passing: &Passing) -> Allowed
        ensures { result ≡ less self.now passing.now }
    {
        if passing.is_start() {
            return Allowed {
                window: self.window.saturating_sub(1),
                credit: self.credit.saturating_sub(1),
                next_id: self.next_id.plus(1),
                free_ids: self.free_ids.saturating_sub(1),
                largest: self.largest,
            };
        }
        if passing.is_transfer() {
            return Allowed {
                window: self.window.saturating_sub(1),
                credit: self.credit,
                next_id: self.next_id,
                free_ids: self.free_ids,
                largest: self.largest,
            };
        }
        self.same()
    }
}

/// Why nothing goes out.
#[derive(Clone, Copy, Debug, PartialEq, Eq)]
pub enum Stop {
    /// Nothing is held.
    Empty,
    /// A transfer is first, and the window takes none.
    Window,
    /// A transfer that starts a delivery is first, and no credit is left.
    Credit,
    /// A transfer that starts a delivery is first, and the next delivery-id still names an unsettled delivery.
    Id,
    /// A transfer is first that even without payload is larger than the largest frame.
    TooLarge,
}

/// What a leg answers when it is asked for its next frame.
#[derive(Debug, Drop)]
pub enum Turn {
    /// Nothing goes out, for this reason.
    Stopped(Stop),
    /// This frame goes out.
    Passed(Passing),
}
