//! Laws of the store's definitions. Each is the clause of a function that does nothing.
ghost use Rattle.std.specs.Prelude.{◌≡◌, ◌≢◌, ◌≤◌, [], List, ℕ, None, length};
ghost use Rattle.disk_core.specs.Twin.{Contents};
ghost use Rattle.amqp_model.specs.declared.state.DeliveryState.{DeliveryState};
ghost use Rattle.amqp_perf.specs.Fitting.{FitsState};
ghost use Rattle.amqp_model.specs.PerfSpelling.{state_spelling};
ghost use Rattle.book_model.specs.declared.act.Decision.{Decision};
ghost use Rattle.book_model.specs.declared.row.Row.{Row};
ghost use Rattle.book_model.specs.declared.row.RowNumber.{RowNumber};
ghost use Rattle.book_model.specs.Book.{BookView, first_fault, effects};
ghost use Rattle.book_model.specs.Sound.{IsSound};
ghost use Rattle.book_core.specs.Rising.{Rises};
ghost use Rattle.journal_codec.specs.Batches.{HaveOutcomes, IsOutcome, IsTerminal};
ghost use Rattle.journal_codec.specs.Format.{acts_bytes};
ghost use Rattle.gate_journal.specs.declared.fault.OpenFault.TheVariants.{NotAJournal, Damaged};
ghost use Rattle.twin_journal.specs.Judging.{Explains};
ghost use Rattle.twin_journal.specs.Room.{IsFull};
ghost use Rattle.journal_store.specs.Acting.{journal_outcome, settles, rows_after};
ghost use Rattle.journal_store.specs.Store.{OpensTo};
ghost use Rattle.journal_store.specs.Lost.{start_acts};

/// Two files open to one book only, and then they are a journal without damage: opening them answers that book, or that
/// the device failed or memory was refused.
pub fn opens_to_one_book()
    ensures one { (contents : Contents) (first second : BookView) → OpensTo contents first → OpensTo contents second → first ≡ second }
    ensures is_journal { (contents : Contents) (book : BookView) → OpensTo contents book → Explains contents NotAJournal → ⊥ }
    ensures is_whole { (contents : Contents) (book : BookView) (place : ℕ) → OpensTo contents book → Explains contents (Damaged place) → ⊥ }
{}

/// What a router decides at its start can be written: the acts apply to the book that two files open to, they fit one
/// batch, and each outcome is one that its encoding gives back; and a journal is never too full for them.
pub fn start_can_be_written()
    ensures applies { (contents : Contents) (book : BookView) → OpensTo contents book → first_fault book (start_acts book) ≡ None }
    ensures small { (contents : Contents) (book : BookView) → OpensTo contents book → length (acts_bytes (start_acts book)) ≤ 4194304 }
    ensures outcomes { (book : BookView) → HaveOutcomes (start_acts book) }
    ensures never_full { (book : BookView) → IsSound book → start_acts book ≢ [] → IsFull book (start_acts book) → ⊥ }
{}

/// What is written of an outcome can be written: it is a terminal state that its encoding gives back, of at most 400 bytes. Each
/// terminal state whose numbers, texts and sizes are within the limits of their types is written as it is, if it is that short.
pub fn outcomes_are_written()
    ensures outcome { (state : DeliveryState) → IsOutcome (journal_outcome state) }
    ensures short { (state : DeliveryState) → length (state_spelling (journal_outcome state)) ≤ 400 }
    ensures itself { (state : DeliveryState) → IsTerminal state → FitsState 32 state → length (state_spelling state) ≤ 400 → journal_outcome state ≡ state }
{}

/// After what an event decides and forgets only the rows differ: each is what became of that row.
pub fn settled_rows_are_known()
    ensures { (book : BookView) (ds : List Decision) (numbers : List RowNumber) → Rises (λ (r : Row). r.number.0) book.rows
        → effects book (settles book ds numbers) ≡ record book { rows = rows_after ds numbers book.rows } }
{}
