//! What holds of the credit of every link. These functions do nothing: their contracts are the laws.
ghost use Rattle.std.specs.Prelude.{◌≡◌, ◌≤◌, ◌<◌, ◌^◌, ◌+◌, ◌-◌, [], ◌∷◌, ℕ, List, true, false, Some, count_by};
ghost use Rattle.amqp_session.specs.Serials.{distance};
ghost use Rattle.amqp_link.specs.Credit.{Link, Attached, Granted, Started, Counted, is_start, is_grant, since, from, count, credit, WithinCredit};
ghost use Rattle.amqp_link.specs.Deliveries.{Frame, delivery};
ghost use Rattle.amqp_link.specs.Receiving.{Received, TheirSettlement, middle, is_empty, seen, unused, behind};

/// A sender that stays within its credit never starts more deliveries than the receiver granted: what a grant leaves it is the
/// link-credit less the deliveries that were on the way to the receiver (those from its delivery-count on), and it starts no
/// more than that until the next grant.
pub fn no_more_is_started_than_granted()
    ensures on_the_way { (t : Link) (c k : ℕ) → c < 2 ^ 32 → k < 2 ^ 31 → distance c (count t) ≤ 2 ^ 31 → credit (Granted (Some c) k ∷ t) ≡ k - distance c (count t) }
    ensures starts { (t : Link) → WithinCredit t → count_by is_start (since is_grant t) ≤ credit (from is_grant t) }
{}

/// Credit never goes below 0: a start uses exactly one, and a count that the sender gives, which is ahead by no
/// more than what is left, exactly as much as it is ahead.
pub fn each_start_uses_one()
    ensures start { (t : Link) → 1 ≤ credit t → credit (Started ∷ t) + 1 ≡ credit t }
    ensures count { (t : Link) (n : ℕ) → distance (count t) n ≤ credit t → credit (Counted n ∷ t) + distance (count t) n ≡ credit t }
{}

/// What a receiver grants from the sender's own count on is what the sender has left.
pub fn both_ends_agree()
    ensures { (t : Link) (k : ℕ) → k < 2 ^ 31 → credit (Granted (Some (count t)) k ∷ t) ≡ k }
{}

/// After the count 2^32 - 1 comes 0: of 2 granted there, one delivery is started at each of the two, and none is left then.
pub fn counts_go_on_after_the_highest()
    ensures granted { let t : Link = Granted (Some 4294967295) 2 ∷ Attached 4294967295 ∷ [] in (count t ≡ 4294967295) × (credit t ≡ 2) }
    ensures one_started { let t : Link = Started ∷ Granted (Some 4294967295) 2 ∷ Attached 4294967295 ∷ [] in (count t ≡ 0) × (credit t ≡ 1) }
    ensures both_started { let t : Link = Started ∷ Started ∷ Granted (Some 4294967295) 2 ∷ Attached 4294967295 ∷ [] in (count t ≡ 1) × (credit t ≡ 0) }
{}

/// No delivery is taken that was started beyond the credit: where the peer stayed within it, it still does after any
/// transfer, since one beyond it doesn't count on the link. One that starts a delivery uses one credit, a later one none.
pub fn only_what_was_granted_is_taken()
    ensures within { (t : Received) (f : Frame) → WithinCredit (seen t) → WithinCredit (seen (behind f t)) }
    ensures start { (t : Received) (f : Frame) → is_empty (middle t) ≡ true → 1 ≤ unused t → unused (behind f t) + 1 ≡ unused t }
    ensures later { (t : Received) (f : Frame) → is_empty (middle t) ≡ false → unused (behind f t) ≡ unused t }
{}

/// A delivery that its sender settled while it was in the middle is reported as settled, whatever frames of it follow. A
/// settlement uses no credit.
#[tactic(auto, using(crate::proofs::Settled::told_settled, crate::proofs::Settled::lasts))]
pub fn a_settlement_lasts()
    ensures told { (t : Received) (f : Frame) → is_empty (middle t) ≡ false → (delivery f (middle (TheirSettlement ∷ t))).settled ≡ true }
    ensures lasts { (f g : Frame) (before : List Frame) → (delivery g before).settled ≡ true → (delivery f (g ∷ before)).settled ≡ true }
    ensures credit { (t : Received) → unused (TheirSettlement ∷ t) ≡ unused t }
{}
