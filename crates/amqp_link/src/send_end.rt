//! The sending end of a link.
ghost use Rattle.std.specs.Prelude.{◌≡◌, ◌≤◌, ◌+◌, ◌%◌, ◌^◌, ◌↔◌, ◌∷◌, IsTrue};
ghost use Rattle.amqp_link.specs.Credit.{Link, Attached, Granted, Started, Counted, initial, count, credit, WithinCredit};
ghost use Rattle.amqp_link.specs.Figures.{Sends, CanStart, left_at, begun_at, after_grant, after_start, after_drain, after_told_count, drained_count};

use crate::grant::Grant;
use amqp_session::Serial;

/// The sending end of a link: its delivery-count, and the receiver's last grant (AMQP 1.0 part 2, section 2.6.7).
#[derive(Clone, Copy, Debug, PartialEq, Eq)]
pub struct SendEnd {
    initial: Serial,
    count: Serial,
    granted: Option<Grant>,
}

impl SendEnd {
    /// The end of a link that was just attached with this initial-delivery-count. It has no credit.
    pub fn new(initial: Serial) -> SendEnd
        ensures fits { (t : Link) → Sends result (Attached initial ∷ t) }
        ensures figures { result ≡ begun_at initial }
    {
        SendEnd {
            initial,
            count: initial,
            granted: None,
        }
    }

    /// Takes a flow of the receiver that has a link-credit. One without a delivery-count grants from the initial one.
    pub fn on_flow(&mut self, count: Option<Serial>, credit: u32)
        ensures fits { (t : Link) → Sends self.old t → Sends self.new (Granted count credit ∷ t) }
        ensures figures { self.new ≡ after_grant count credit self.old }
    {
        self.granted = Some(Grant {
            count: count.unwrap_or(self.initial),
            credit,
        });
    }

    /// Whether a delivery may be started: at least 1 credit is left.
    pub fn can_start(&self) -> bool
        ensures can { IsTrue result ↔ CanStart self.now }
        ensures exact { (t : Link) → Sends self.now t → (IsTrue result ↔ (1 ≤ credit t)) }
    {
        self.left() > 0
    }

    /// Notes that a delivery was started, which `can_start` allows.
    pub fn started(&mut self)
        requires { CanStart self.old }
        ensures fits { (t : Link) → Sends self.old t → Sends self.new (Started ∷ t) }
        ensures within { (t : Link) → Sends self.old t → WithinCredit t → WithinCredit (Started ∷ t) }
        ensures figures { self.new ≡ after_start self.old }
    {
        self.note_started();
    }

    /// Notes that a delivery was started, whatever credit is left: for a table that follows what was sent.
    pub fn note_started(&mut self)
        ensures figures { self.new ≡ after_start self.old }
    {
        self.count = self.count.plus(1);
    }

    /// Notes that a flow of this end gave this delivery-count: for a table that follows what was sent.
    pub fn note_count(&mut self, count: Serial)
        ensures figures { self.new ≡ after_told_count count self.old }
    {
        self.count = count;
    }

    /// Uses up the credit that is left, for a receiver that drains the link, and gives the delivery-count to announce in a flow
    /// (AMQP 1.0 part 2, section 2.6.7).
    pub fn drain_left(&mut self) -> Serial
        ensures fits { (t : Link) → Sends self.old t → Sends self.new (Counted result ∷ t) }
        ensures told { (t : Link) → Sends self.old t → result ≡ (count t + credit t) % 2 ^ 32 }
        ensures drained { (t : Link) → Sends self.old t → credit (Counted result ∷ t) ≡ 0 }
        ensures within { (t : Link) → Sends self.old t → WithinCredit t → WithinCredit (Counted result ∷ t) }
        ensures figures { self.new ≡ after_drain self.old }
        ensures tells { result ≡ drained_count self.old }
    {
        self.count = self.count.plus(self.left());
        self.count
    }

    /// The delivery-count: the initial one, and one more for each delivery that was started or drained.
    pub fn count(&self) -> Serial
        ensures fits { (t : Link) → Sends self.now t → result ≡ count t }
        ensures figure { result ≡ self.now.count }
    {
        self.count
    }

    /// The credit that is left.
    pub fn left(&self) -> u32
        ensures fits { (t : Link) → Sends self.now t → result ≡ credit t }
        ensures figure { result ≡ left_at self.now }
    {
        match self.granted {
            None => 0,
            Some(grant) => grant.left(self.count),
        }
    }
}
