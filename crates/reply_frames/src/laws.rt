//! Laws of all delivery frames. The functions do nothing: their contracts are the laws.
ghost use Rattle.std.specs.Prelude.{◌≡◌, Bool, ◌≤◌, ◌+◌, ◌↔◌, ℕ, List, [], length, true, false, is_some, Some};
ghost use Rattle.amqp_model.specs.PerfSpelling.{state_spelling};
ghost use Rattle.amqp_model.specs.declared.perf.Role.{Role as ARole};
ghost use Rattle.amqp_model.specs.declared.state.DeliveryState.{DeliveryState as AState};
ghost use Rattle.amqp_model.specs.declared.perf.Transfer.{Transfer as ATransfer};
ghost use Rattle.amqp_model.specs.ItemSpelling.{item_spelling};
ghost use Rattle.amqp_model.specs.Room.{transfer_frame};
ghost use Rattle.router_trace.specs.Deliveries.{Delivery, settles, terminal};
ghost use Rattle.router_trace.specs.LinkFrames.{fits};
ghost use Rattle.router_trace.specs.DeliveryFrames.{kept_outcome, outcome_item, first_transfer, later_transfer, next_frame, part_frame, with_more};
ghost use Rattle.reply_frames.specs.Filling.{payload_in, has_more, IsBeginning};
ghost use Rattle.reply_frames.specs.Resumption.{beside_of};

/// A frame of a delivery is no longer than the peer accepts, provided that an empty one isn't. It carries the first bytes that remain to be
/// sent: as many as possible, and all of them exactly if it doesn't say that more is to come (AMQP 1.0 part 2, section 2.7.5).
pub fn frames_are_filled()
    ensures within { (largest own : ℕ) (x : ATransfer) (rest : List ℕ)
        → fits largest (transfer_frame own (with_more x) []) ≡ true → fits largest (next_frame largest own x rest) ≡ true }
    ensures beginning { (largest own : ℕ) (x : ATransfer) (rest : List ℕ) → IsBeginning (payload_in (next_frame largest own x rest)) rest }
    ensures most { (largest own n : ℕ) (x : ATransfer) (rest : List ℕ)
        → n ≤ length rest → fits largest (part_frame own x rest n) ≡ true → n ≤ length (payload_in (next_frame largest own x rest)) }
    ensures all { (largest own : ℕ) (x : ATransfer) (rest : List ℕ)
        → fits largest (transfer_frame own (with_more x) []) ≡ true → x.more ≡ false
        → (has_more (next_frame largest own x rest) ≡ false) ↔ (payload_in (next_frame largest own x rest) ≡ rest) }
{}

/// Beside its payload a frame of a delivery has at most 42 bytes, 45 if the delivery is resumed, and at most 24 if it
/// isn't the first. (For the one that only settles a delivery see [`settling_is_one_frame`].) So a frame that says that
/// more is to come fills all but that many of the bytes that the peer accepts, which are 512 or more (AMQP 1.0 part 2,
/// section 2.7.1).
pub fn frames_have_room()
    ensures first { (largest own handle id : ℕ) (d : Delivery) (rest : List ℕ)
        → settles d ≡ false → beside_of d ≤ largest → has_more (next_frame largest own (first_transfer handle id d) rest) ≡ true
        → largest ≤ beside_of d + length (payload_in (next_frame largest own (first_transfer handle id d) rest)) }
    ensures later { (largest own handle : ℕ) (d : Delivery) (rest : List ℕ)
        → 24 ≤ largest → has_more (next_frame largest own (later_transfer handle d) rest) ≡ true
        → largest ≤ 24 + length (payload_in (next_frame largest own (later_transfer handle d) rest)) }
    ensures first_size { (own handle id : ℕ) (d : Delivery) (payload : List ℕ)
        → settles d ≡ false → length (item_spelling (transfer_frame own (with_more (first_transfer handle id d)) payload)) ≤ beside_of d + length payload }
    ensures later_size { (own handle : ℕ) (d : Delivery) (payload : List ℕ)
        → length (item_spelling (transfer_frame own (with_more (later_transfer handle d)) payload)) ≤ 24 + length payload }
{}

/// A frame that only settles a delivery, with an outcome as the router keeps it and without payload, has at most 452
/// bytes. So every peer accepts it, and no other frame of the delivery follows (AMQP 1.0 part 2, sections 2.6.13 and
/// 2.7.1).
pub fn settling_is_one_frame()
    ensures size { (own handle id : ℕ) (d : Delivery) (s : AState)
        → d.resumed ≡ true → d.outcome ≡ Some s → length (state_spelling s) ≤ 400 → length (item_spelling (transfer_frame own (first_transfer handle id d) [])) ≤ 452 }
    ensures whole { (largest own handle id : ℕ) (d : Delivery)
        → fits largest (transfer_frame own (first_transfer handle id d) []) ≡ true → has_more (next_frame largest own (first_transfer handle id d) []) ≡ false }
{}

/// An outcome as the router keeps it has at most 400 bytes, and the frame that reports it at most 429: every peer accepts 512 (AMQP 1.0
/// part 2, section 2.7.1).
pub fn outcomes_are_short()
    ensures kept { (s : AState) → is_some (terminal (Some s)) ≡ true → length (state_spelling (kept_outcome s)) ≤ 400 }
    ensures told { (own id : ℕ) (role : ARole) (settled : Bool) (s : AState)
        → is_some (terminal (Some s)) ≡ true → length (item_spelling (outcome_item own role id settled s)) ≤ 429 }
{}
