//! What holds of the figures of every session. These functions do nothing: their contracts are the laws.
ghost use Rattle.std.specs.Prelude.{◌≡◌, ◌≤◌, ◌<◌, ◌+◌, ◌%◌, ◌^◌, ◌∷◌, ℕ, true, false, count_by};
ghost use Rattle.amqp_session.specs.Ranges.{in_range};
ghost use Rattle.amqp_session.specs.Serials.{distance};
ghost use Rattle.amqp_session.specs.declared.states.FlowState.{FlowState};
ghost use Rattle.amqp_session.specs.Session.{Session, TheirFlow, TheirTransfer, OurTransfer, is_our_transfer, since, tells_id, window_told, allowance, WindowKept};

/// Where the window is respected, no more transfers were sent since the peer last announced its window than it had room for.
pub fn no_more_is_sent_than_told()
    ensures { (t : Session) → WindowKept t → count_by is_our_transfer (since tells_id t) ≤ window_told t }
{}

/// What the peer may still send is what this end announced: a flow of the peer doesn't change it, wherever its
/// next-outgoing-id jumps, and neither does a transfer of this end.
pub fn allowance_is_told_by_this_end_alone()
    ensures flow { (t : Session) (f : FlowState) → allowance (TheirFlow f ∷ t) ≡ allowance t }
    ensures transfer { (t : Session) → allowance (OurTransfer ∷ t) ≡ allowance t }
{}

/// A range of a disposition has the ids from its first on, one by one modulo 2^32, up to its last, and no other.
pub fn ranges_are_counted_from_their_first()
    ensures counted { (first last k : ℕ) → first < 2 ^ 32 → distance first last < 2 ^ 31 → k ≤ distance first last → in_range first last ((first + k) % 2 ^ 32) ≡ true }
    ensures reached { (first last id : ℕ) → first < 2 ^ 32 → id < 2 ^ 32 → in_range first last id ≡ true → (first + distance first id) % 2 ^ 32 ≡ id }
    ensures no_further { (first last id : ℕ) → in_range first last id ≡ true → distance first id ≤ distance first last }
    ensures none { (first last id : ℕ) → 2 ^ 31 ≤ distance first last → in_range first last id ≡ false }
{}
