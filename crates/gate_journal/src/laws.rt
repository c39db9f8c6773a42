//! Laws of the journal's definitions. Each is the clause of a function that does nothing.
ghost use Rattle.std.specs.Prelude.{◌≡◌, ◌≢◌, ◌⊎◌, ◌↔◌, ◌+◌, ◌<◌, ◌≤◌, [], List, ℕ, true, None, Some, get_or, sum_by, length};
ghost use Rattle.amqp_model.specs.declared.state.DeliveryState.{DeliveryState};
ghost use Rattle.amqp_perf.specs.Fitting.{FitsState};
ghost use Rattle.amqp_model.specs.PerfSpelling.{state_spelling};
ghost use Rattle.book_model.specs.declared.act.Act.{Act};
ghost use Rattle.book_model.specs.Book.{empty_book, first_fault, effects};
ghost use Rattle.journal_codec.specs.Batches.{AllApply, Holds, IsTerminal, IsOutcome, book_after};
ghost use Rattle.gate_journal.specs.Opening.{Explains, IsDamagedAt};
ghost use Rattle.journal_codec.specs.Outcome.{kept_outcome};
ghost use Rattle.gate_journal.specs.Ordered.{IsOrdered};
ghost use Rattle.gate_journal.specs.Reserve.{OnlyRelease, Costs, IsFull, is_full, reserve, growth, release};
ghost use Rattle.gate_journal.specs.declared.fault.OpenFault.TheVariants.{NotAJournal};

/// A file holds only one list of batches.
pub fn one_list()
    ensures { (file : List ℕ) (first second : List (List Act)) → Holds file first → Holds file second → first ≡ second }
{}

/// For a file exactly one is true: it holds batches, it is damaged at a place, it is no journal. And it is damaged at only
/// one place.
pub fn one_judgement()
    ensures some { (file : List ℕ) → ((place : ℕ) → get_or file place 0 < 256)
        → ((bs : List (List Act)) × Holds file bs) ⊎ (((place : ℕ) × IsDamagedAt file place) ⊎ Explains file NotAJournal) }
    ensures holds_or_damaged { (file : List ℕ) (bs : List (List Act)) (place : ℕ) → Holds file bs → IsDamagedAt file place → ⊥ }
    ensures holds_or_none { (file : List ℕ) (bs : List (List Act)) → Holds file bs → Explains file NotAJournal → ⊥ }
    ensures damaged_or_none { (file : List ℕ) (place : ℕ) → IsDamagedAt file place → Explains file NotAJournal → ⊥ }
    ensures one_place { (file : List ℕ) (first second : ℕ) → IsDamagedAt file first → IsDamagedAt file second → first ≡ second }
{}

/// A batch changes what a journal keeps free by its formula: what the book's rows and termini need
/// afterwards is what they needed before, and the growth of the acts, less what they release.
pub fn reserve_follows()
    ensures { (bs : List (List Act)) (acts : List Act) → AllApply empty_book bs → first_fault (book_after empty_book bs) acts ≡ None
        → reserve (effects (book_after empty_book bs) acts) + sum_by release acts ≡ reserve (book_after empty_book bs) + sum_by growth acts }
{}

/// A book that batches leave, or acts that apply to the empty one, has numbers that rise.
pub fn books_are_ordered()
    ensures batches { (bs : List (List Act)) → AllApply empty_book bs → IsOrdered (book_after empty_book bs) }
    ensures acts { (acts : List Act) → first_fault empty_book acts ≡ None → IsOrdered (effects empty_book acts) }
{}

/// A batch costs more than nothing, and more than the room, exactly where the test says so.
pub fn fullness_is_tested()
    ensures { (used kept : ℕ) (acts : List Act) → IsFull used kept acts ↔ (is_full used kept acts ≡ true) }
{}

/// A batch that only decides, forgets and drops, with outcomes of at most 400 bytes, costs nothing: it is never refused as
/// `Full`.
pub fn releases_fit()
    ensures { (acts : List Act) → acts ≢ [] → OnlyRelease acts → Costs acts → ⊥ }
{}

/// A terminal state whose numbers, texts and sizes are within the limits of their types is an outcome, as `append` needs
/// it: its canonical encoding gives it back.
pub fn terminal_states_are_outcomes()
    ensures { (state : DeliveryState) → IsTerminal state → FitsState 32 state → IsOutcome state }
{}

/// What a batch keeps of a state is an outcome, as `append` and a book need it, with the encoding of that state; and it is the
/// state itself where that is such an outcome.
pub fn outcomes_are_kept()
    ensures outcome { (state kept : DeliveryState) → kept_outcome state ≡ Some kept → IsOutcome kept }
    ensures short { (state kept : DeliveryState) → kept_outcome state ≡ Some kept → length (state_spelling kept) ≤ 400 }
    ensures spelling { (state kept : DeliveryState) → kept_outcome state ≡ Some kept → state_spelling kept ≡ state_spelling state }
    ensures itself { (state : DeliveryState) → IsOutcome state → length (state_spelling state) ≤ 400 → kept_outcome state ≡ Some state }
{}
