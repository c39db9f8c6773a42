//! What holds of every leg, and of the ids of every link. These functions do nothing: their contracts are the laws.
ghost use Rattle.std.specs.Prelude.{◌≡◌, ◌<◌, ◌≤◌, ◌++◌, ◌∷◌, ℕ, List, Some, true, take, drop};
ghost use Rattle.std.specs.Option.{is_some};
ghost use Rattle.amqp_model.specs.declared.perf.Transfer.{Transfer};
ghost use Rattle.route_links.specs.declared.allowed.Allowed.{Allowed};
ghost use Rattle.route_links.specs.declared.allowed.Turn.TheVariants.{Passed};
ghost use Rattle.route_links.specs.declared.middle.Middle.{Middle};
ghost use Rattle.route_links.specs.declared.passing.Passing.{Passing};
ghost use Rattle.route_links.specs.declared.passing.Passing.TheVariants as pass;
ghost use Rattle.route_links.specs.declared.passing.StartNumber.{StartNumber};
ghost use Rattle.amqp_model.specs.declared.perf.Disposition.{Disposition};
ghost use Rattle.route_links.specs.Parts.{Part, parts, transfer_parts, after};
ghost use Rattle.route_links.specs.Cutting.{with_more, later};
ghost use Rattle.route_links.specs.Legs.{Held, Mirrors};
ghost use Rattle.route_links.specs.Turns.{turn, behind};
ghost use Rattle.route_links.specs.Frames.{from_sender, from_receiver, to_receiver, to_sender, starts_in, Counts, NamesStarted, NamesOne};
ghost use Rattle.route_links.specs.Naming.{History, Settled, IsLawful, started, gone, known, waiting, claimed, number_out, open_in, out_of, open_out};

/// Wherever a transfer is cut, the two pieces have its parts.
pub fn a_cut_changes_no_part()
    ensures { (m : Middle) (x : Transfer) (payload : List ℕ) (n : ℕ) → transfer_parts m x payload ≡ transfer_parts m (with_more x) (take n payload) ++ transfer_parts (after m (transfer_parts m (with_more x) (take n payload))) (later x) (drop n payload) }
{}

/// Where a turn lets a frame go, what went out grows by exactly its parts, and then what is held is still what came.
pub fn a_turn_mirrors()
    ensures { (a : Allowed) (leg : Held) (f : Passing) (came went : List Part) → turn a leg ≡ Passed f → Mirrors leg came went → Mirrors (behind a leg) came (went ++ parts leg.went f) }
{}

/// An id names a delivery that is unsettled, and has that id.
#[tactic(auto, using(crate::proofs::Kept::named_in, crate::proofs::Kept::named_out))]
pub fn an_id_names_its_delivery()
    ensures sender { (h : History) (i n : ℕ) → claimed h i ≡ Some n → open_in (known h n) ≡ Some i }
    ensures receiver { (h : History) (o n : ℕ) → number_out h o ≡ Some n → open_out (known h n) ≡ Some o }
{}

/// Where no delivery comes, or goes, under an id that is in use, the ids of an unsettled delivery name it.
#[tactic(auto, using(crate::proofs::Lawful::names_in, crate::proofs::Lawful::names_out))]
pub fn an_unsettled_delivery_is_named()
    ensures sender { (h : History) (n i : ℕ) → IsLawful h → open_in (known h n) ≡ Some i → claimed h i ≡ Some n }
    ensures receiver { (h : History) (n o : ℕ) → IsLawful h → open_out (known h n) ≡ Some o → number_out h o ≡ Some n }
{}

/// So no two unsettled deliveries have one id, on either end.
#[tactic(auto, using(crate::proofs::Lawful::one_in, crate::proofs::Lawful::one_out))]
pub fn no_two_have_one_id()
    ensures sender { (h : History) (m n i : ℕ) → IsLawful h → open_in (known h m) ≡ Some i → open_in (known h n) ≡ Some i → m ≡ n }
    ensures receiver { (h : History) (m n o : ℕ) → IsLawful h → open_out (known h m) ≡ Some o → open_out (known h n) ≡ Some o → m ≡ n }
{}

/// No id names a delivery that is settled, whatever comes later.
#[tactic(auto, using(crate::proofs::Lawful::settled_not_in, crate::proofs::Lawful::settled_not_out))]
pub fn an_id_names_no_settled_delivery()
    ensures sender { (later h : History) (n i : ℕ) → n < started h → claimed (later ++ Settled n ∷ h) i ≡ Some n → ⊥ }
    ensures receiver { (later h : History) (n o : ℕ) → n < started h → number_out (later ++ Settled n ∷ h) o ≡ Some n → ⊥ }
{}

/// A delivery that went, and of which anything is known still, has an id there: so a disposition that waited behind it
/// can be written.
#[tactic(auto, using(crate::proofs::Lawful::went_under_an_id))]
pub fn a_delivery_that_went_has_an_id()
    ensures { (h : History) (n : ℕ) → IsLawful h → n < gone h → is_some (known h n) ≡ true → is_some (out_of (known h n)) ≡ true }
{}

/// What the frames do to the ids counts the deliveries that came and went.
#[tactic(auto, using(crate::proofs::Counted::sender_counts, crate::proofs::Counted::receiver_counts, crate::proofs::Counted::heard_counts, crate::proofs::Counted::put_counts))]
pub fn ids_count_what_came_and_went()
    ensures from_sender { (h : History) (came went : List Part) (m : Middle) (f : Passing) → Counts h came went → Counts (from_sender m f h) (came ++ parts m f) went }
    ensures to_receiver { (h : History) (a : Allowed) (leg : Held) (came went : List Part) (f : Passing) → turn a leg ≡ Passed f → Counts h came went → Counts (to_receiver f h) came (went ++ parts leg.went f) }
    ensures from_receiver { (h : History) (came went : List Part) (f : Passing) → Counts h came went → Counts (from_receiver f h) came went }
    ensures to_sender { (h : History) (came went : List Part) (f : Passing) → Counts h came went → Counts (to_sender f h) came went }
{}

/// A disposition that comes names a delivery that came before it.
#[tactic(auto, using(crate::proofs::Lawful::in_came, crate::proofs::Lawful::out_went, crate::proofs::Counted::still_names))]
pub fn a_disposition_names_what_came()
    ensures sender { (h : History) (i n : ℕ) → claimed h i ≡ Some n → n < started h }
    ensures receiver { (h : History) (o n : ℕ) → number_out h o ≡ Some n → n < gone h }
    ensures kept { (came : List Part) (m : Middle) (f : Passing) → NamesStarted 0 came → NamesOne (starts_in came) f → NamesStarted 0 (came ++ parts m f) }
{}

/// So one that is first of what is held has the id of a delivery that went: where it was counted as held,
/// `for_receiver` knows that id.
#[tactic(auto, using(crate::proofs::Counted::has_its_id))]
pub fn a_held_disposition_has_its_id()
    ensures { (leg : Held) (h : History) (came went : List Part) (n : StartNumber) (d : Disposition) (fs : List Passing) → Mirrors leg came went → Counts h came went → NamesStarted 0 came → IsLawful h → leg.queue ≡ pass.Disposition n d ∷ fs → 1 ≤ waiting h n.0 → is_some (out_of (known h n.0)) ≡ true }
{}
