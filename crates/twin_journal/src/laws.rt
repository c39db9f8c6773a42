//! Laws of the journal's definitions. Each is the clause of a function that does nothing.
ghost use Rattle.std.specs.Prelude.{◌≡◌, ◌≢◌, ◌<◌, ◌≤◌, ◌+◌, ◌⊎◌, ◌↔◌, ℕ, List, [], true, None, get_or, length};
ghost use Rattle.disk_core.specs.declared.side.Side.{Side};
ghost use Rattle.disk_core.specs.Twin.{Contents};
ghost use Rattle.book_model.specs.declared.act.Act.{Act};
ghost use Rattle.book_model.specs.Book.{BookView, empty_book, first_fault, effects};
ghost use Rattle.book_model.specs.Sound.{IsSound};
ghost use Rattle.journal_codec.specs.Format.{acts_bytes};
ghost use Rattle.gate_journal.specs.Reserve.{OnlyRelease, journal_limit, reserve};
ghost use Rattle.gate_journal.specs.declared.fault.OpenFault.TheVariants.{NotAJournal};
ghost use Rattle.twin_journal.specs.Format.{checkpoint_size};
ghost use Rattle.twin_journal.specs.Holding.{TwinHolds, OpensTo};
ghost use Rattle.twin_journal.specs.Judging.{Explains, IsDamagedAt};
ghost use Rattle.twin_journal.specs.Room.{IsFull, is_full, renewed_bytes};
ghost use Rattle.twin_journal.specs.Sides.{IsActive};

/// At most one side is active.
pub fn one_side()
    ensures { (contents : Contents) (first second : Side) → IsActive contents first → IsActive contents second → first ≡ second }
{}

/// Two files hold one list of batches only, after one base and above one book.
pub fn one_list()
    ensures base { (contents : Contents) (base other : ℕ) (start book : BookView) (bs cs : List (List Act))
        → TwinHolds contents base start bs → TwinHolds contents other book cs → base ≡ other }
    ensures start { (contents : Contents) (base other : ℕ) (start book : BookView) (bs cs : List (List Act))
        → TwinHolds contents base start bs → TwinHolds contents other book cs → start ≡ book }
    ensures batches { (contents : Contents) (base other : ℕ) (start book : BookView) (bs cs : List (List Act))
        → TwinHolds contents base start bs → TwinHolds contents other book cs → bs ≡ cs }
{}

/// Two files open to one book only, and it is sound.
pub fn opens_to_one_book()
    ensures one { (contents : Contents) (first second : BookView) → OpensTo contents first → OpensTo contents second → first ≡ second }
    ensures sound { (contents : Contents) (book : BookView) → OpensTo contents book → IsSound book }
{}

/// For two files of bytes exactly one is true: they open to a book, they are damaged at a place, or they are no
/// journal. And they are damaged at only one place.
pub fn one_judgement()
    ensures some { (contents : Contents) → ((side : Side) (place : ℕ) → get_or (contents side) place 0 < 256)
        → ((book : BookView) × OpensTo contents book)
        ⊎ (((place : ℕ) × IsDamagedAt contents place) ⊎ Explains contents NotAJournal) }
    ensures opens_or_damaged { (contents : Contents) (book : BookView) (place : ℕ) → OpensTo contents book → IsDamagedAt contents place → ⊥ }
    ensures opens_or_none { (contents : Contents) (book : BookView) → OpensTo contents book → Explains contents NotAJournal → ⊥ }
    ensures damaged_or_none { (contents : Contents) (place : ℕ) → IsDamagedAt contents place → Explains contents NotAJournal → ⊥ }
    ensures one_place { (contents : Contents) (first second : ℕ) → IsDamagedAt contents first → IsDamagedAt contents second → first ≡ second }
{}

/// A checkpoint grows by no more than the bytes of the acts: so a batch for which there is room finds it after a
/// checkpoint.
pub fn checkpoints_grow_by_acts()
    ensures { (b : BookView) (acts : List Act) → IsSound b → first_fault b acts ≡ None
        → checkpoint_size (effects b acts) ≤ checkpoint_size b + length (acts_bytes acts) }
{}

/// A batch that only decides, forgets and drops, with outcomes of at most 400 bytes, is never too much.
pub fn releases_fit()
    ensures { (b : BookView) (acts : List Act) → IsSound b → first_fault b acts ≡ None → acts ≢ [] → OnlyRelease acts
        → IsFull b acts → ⊥ }
{}

/// Room is never below 0 where it wasn't before: it isn't in a journal that `format` and `append` made.
pub fn room_stays()
    ensures new { renewed_bytes empty_book + reserve empty_book ≤ journal_limit }
    ensures batch { (b : BookView) (acts : List Act) → IsSound b → first_fault b acts ≡ None → (IsFull b acts → ⊥)
        → renewed_bytes b + reserve b ≤ journal_limit → renewed_bytes (effects b acts) + reserve (effects b acts) ≤ journal_limit }
{}

/// A batch costs more than nothing, and more than the room, exactly where the test says so.
pub fn fullness_is_tested()
    ensures { (b : BookView) (acts : List Act) → IsFull b acts ↔ (is_full b acts ≡ true) }
{}
