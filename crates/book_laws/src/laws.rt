//! Laws of lists of acts (`docs/book.md`). The functions do nothing: their contracts are the laws. Lists are oldest
//! first, and apply to the empty book; `older` and `newer` are the two parts of one that is cut anywhere.
ghost use Rattle.std.specs.Prelude.{◌≡◌, ◌<◌, ◌≤◌, ◌||◌, ℕ, true, false, List, ◌∷◌, ◌++◌, Some, None, is_some};
ghost use Rattle.std.specs.List.{AllPairs};
ghost use Rattle.std.specs.Option.{option_or};
ghost use Rattle.amqp_model.specs.declared.state.DeliveryState.{DeliveryState};
ghost use Rattle.book_model.specs.declared.act.Act.{Act};
ghost use Rattle.book_model.specs.declared.act.Act.TheVariants.{Admit, Decide, Forget, Drop};
ghost use Rattle.book_model.specs.declared.act.Admission.{Admission};
ghost use Rattle.book_model.specs.declared.act.Decision.{Decision};
ghost use Rattle.book_model.specs.declared.row.Row.{Row};
ghost use Rattle.book_model.specs.declared.row.RowNumber.{RowNumber};
ghost use Rattle.book_model.specs.declared.terminus.LinkKey.{LinkKey};
ghost use Rattle.book_model.specs.declared.terminus.LinkRole.TheVariants.{Producer};
ghost use Rattle.book_model.specs.declared.terminus.Terminus.{Terminus};
ghost use Rattle.book_model.specs.declared.terminus.TerminusNumber.{TerminusNumber};
ghost use Rattle.book_model.specs.Book.{effects, first_fault, has_role, may_bind, row_at, row_named, terminus_at, terminus_of};
ghost use Rattle.book_laws.specs.Said.{Apply, book_of};
ghost use Rattle.book_laws.specs.Said.{times_admitted, times_decided, times_forgotten, times_made, times_dropped};
ghost use Rattle.book_laws.specs.Said.{admission, decision, is_forgotten, row_said, rows_said, standing_row, times_standing};
ghost use Rattle.book_laws.specs.Said.{made, makes_in, is_dropped, terminus_said, termini_said, standing_terminus, termini_standing};

/// No two acts admit, decide or forget one row.
pub fn rows_are_decided_once()
    ensures admitted { (acts : List Act) (n : ℕ) → Apply acts → times_admitted acts n ≤ 1 }
    ensures decided { (acts : List Act) (n : ℕ) → Apply acts → times_decided acts n ≤ 1 }
    ensures forgotten { (acts : List Act) (n : ℕ) → Apply acts → times_forgotten acts n ≤ 1 }
{}

/// No two acts make or drop one terminus.
pub fn termini_are_made_once()
    ensures made { (acts : List Act) (n : ℕ) → Apply acts → times_made acts n ≤ 1 }
    ensures dropped { (acts : List Act) (n : ℕ) → Apply acts → times_dropped acts n ≤ 1 }
{}

/// The rows of the book are those that are admitted and not both decided and forgotten, in the order of their Admits.
/// Each has the fields of its Admit and the outcome of its Decide, and is forgotten exactly if a Forget names it.
pub fn a_book_has_what_is_open()
    ensures rows { (acts : List Act) → Apply acts → (book_of acts).rows ≡ rows_said acts }
    ensures row { (acts : List Act) (n : ℕ) → Apply acts → row_at n (book_of acts).rows ≡ row_said acts n }
{}

/// The termini of the book are those that are made and not dropped, in the order of their Makes. At most one has a key.
pub fn a_book_has_standing_termini()
    ensures termini { (acts : List Act) → Apply acts → (book_of acts).termini ≡ termini_said acts }
    ensures number { (acts : List Act) (n : ℕ) → Apply acts
        → terminus_at n (book_of acts).termini ≡ terminus_said acts n }
    ensures key { (acts : List Act) (key : LinkKey) → Apply acts
        → terminus_of key (book_of acts).termini ≡ standing_terminus acts key }
    ensures one { (acts : List Act) (key : LinkKey) → Apply acts → termini_standing acts key ≤ 1 }
{}

/// The row that the book has at a tag of a producer's terminus is the one that is admitted there under it and not
/// forgotten. There is at most one, and it is what acts say of the row of its number.
pub fn tags_name_one_row()
    ensures row { (acts : List Act) (producer : ℕ) (tag : List ℕ) → Apply acts
        → row_named producer tag (book_of acts).rows ≡ standing_row acts producer tag }
    ensures one { (acts : List Act) (producer : ℕ) (tag : List ℕ) → Apply acts → times_standing acts producer tag ≤ 1 }
    ensures number { (acts : List Act) (producer : ℕ) (tag : List ℕ) (r : Row) → Apply acts
        → standing_row acts producer tag ≡ Some r → row_said acts r.number.0 ≡ Some r }
{}

/// No act names a number from the book's next one on; and the numbers of rows and of termini rise.
pub fn numbers_stay_below()
    ensures admitted { (acts : List Act) (n : ℕ) → Apply acts → (book_of acts).next_row ≤ n
        → times_admitted acts n ≡ 0 }
    ensures decided { (acts : List Act) (n : ℕ) → Apply acts → (book_of acts).next_row ≤ n → times_decided acts n ≡ 0 }
    ensures forgotten { (acts : List Act) (n : ℕ) → Apply acts → (book_of acts).next_row ≤ n
        → times_forgotten acts n ≡ 0 }
    ensures made { (acts : List Act) (n : ℕ) → Apply acts → (book_of acts).next_terminus ≤ n → times_made acts n ≡ 0 }
    ensures dropped { (acts : List Act) (n : ℕ) → Apply acts → (book_of acts).next_terminus ≤ n
        → times_dropped acts n ≡ 0 }
    ensures rows_rise { (acts : List Act) → Apply acts
        → AllPairs (λ (r s : Row). r.number.0 < s.number.0) (book_of acts).rows }
    ensures termini_rise { (acts : List Act) → Apply acts
        → AllPairs (λ (t u : Terminus). t.number.0 < u.number.0) (book_of acts).termini }
{}

/// Acts come in order: a Decide and a Forget after the Admit of their row, a Drop after the Make of its terminus, and
/// an Admit while its termini stand, each in its role.
pub fn acts_come_in_order()
    ensures decides { (older newer : List Act) (d : Decision) → Apply (older ++ Decide d ∷ newer)
        → is_some (admission older d.row.0) ≡ true }
    ensures forgets { (older newer : List Act) (n : RowNumber) → Apply (older ++ Forget n ∷ newer)
        → is_some (admission older n.0) ≡ true }
    ensures drops { (older newer : List Act) (n : TerminusNumber) → Apply (older ++ Drop n ∷ newer)
        → is_some (made older n.0) ≡ true }
    ensures producers { (older newer : List Act) (a : Admission) → Apply (older ++ Admit a ∷ newer)
        → has_role Producer (terminus_said older a.producer.0) ≡ true }
    ensures consumers { (older newer : List Act) (a : Admission) → Apply (older ++ Admit a ∷ newer)
        → may_bind a.consumer (termini_said older) ≡ true }
{}

/// The termini that an Admit names are made, each in its role.
pub fn an_admission_has_its_termini()
    ensures producer { (acts : List Act) (n : ℕ) (a : Admission) → Apply acts → admission acts n ≡ Some a
        → has_role Producer (made acts a.producer.0) ≡ true }
    ensures consumer { (acts : List Act) (n : ℕ) (a : Admission) → Apply acts → admission acts n ≡ Some a
        → may_bind a.consumer (makes_in acts) ≡ true }
{}

/// A row keeps its termini: its producer's stands until it is forgotten, its consumer's until it is decided.
pub fn rows_keep_their_termini()
    ensures producer { (acts : List Act) (n : ℕ) (a : Admission) → Apply acts → admission acts n ≡ Some a
        → is_forgotten acts n ≡ false → has_role Producer (terminus_said acts a.producer.0) ≡ true }
    ensures consumer { (acts : List Act) (n : ℕ) (a : Admission) → Apply acts → admission acts n ≡ Some a
        → decision acts n ≡ None → may_bind a.consumer (termini_said acts) ≡ true }
{}

/// The search of a longer list finds what that of a shorter one found: Admits, Makes, Decides, Forgets and Drops are
/// kept. Newer acts are searched only if the older ones say nothing.
pub fn longer_lists_keep_what_was_said()
    ensures admissions { (older newer : List Act) (n : ℕ)
        → admission (older ++ newer) n ≡ option_or (admission older n) (admission newer n) }
    ensures decisions { (older newer : List Act) (n : ℕ)
        → decision (older ++ newer) n ≡ option_or (decision older n) (decision newer n) }
    ensures forgets { (older newer : List Act) (n : ℕ)
        → is_forgotten (older ++ newer) n ≡ (is_forgotten older n || is_forgotten newer n) }
    ensures makes { (older newer : List Act) (n : ℕ)
        → made (older ++ newer) n ≡ option_or (made older n) (made newer n) }
    ensures drops { (older newer : List Act) (n : ℕ)
        → is_dropped (older ++ newer) n ≡ (is_dropped older n || is_dropped newer n) }
{}

/// What older acts did isn't done again: after older acts that decide a row no newer ones decide it, so its outcome
/// stays; and so with Admits, Forgets, Makes and Drops.
pub fn a_decided_row_stays_decided()
    ensures outcome { (older newer : List Act) (n : ℕ) (s : DeliveryState) → decision older n ≡ Some s
        → decision (older ++ newer) n ≡ Some s }
    ensures decided { (older newer : List Act) (n : ℕ) → Apply (older ++ newer) → is_some (decision older n) ≡ true
        → times_decided newer n ≡ 0 }
    ensures admitted { (older newer : List Act) (n : ℕ) → Apply (older ++ newer) → is_some (admission older n) ≡ true
        → times_admitted newer n ≡ 0 }
    ensures forgotten { (older newer : List Act) (n : ℕ) → Apply (older ++ newer) → is_forgotten older n ≡ true
        → times_forgotten newer n ≡ 0 }
    ensures made { (older newer : List Act) (n : ℕ) → Apply (older ++ newer) → is_some (made older n) ≡ true
        → times_made newer n ≡ 0 }
    ensures dropped { (older newer : List Act) (n : ℕ) → Apply (older ++ newer) → is_dropped older n ≡ true
        → times_dropped newer n ≡ 0 }
{}

/// Acts that are cut anywhere: the older part applies and leaves a book, to which the newer part applies and which it
/// makes the book of all; and the other way round.
pub fn a_prefix_makes_its_book()
    ensures older { (older newer : List Act) → Apply (older ++ newer) → Apply older }
    ensures newer { (older newer : List Act) → Apply (older ++ newer) → first_fault (book_of older) newer ≡ None }
    ensures joined { (older newer : List Act) → Apply older → first_fault (book_of older) newer ≡ None
        → Apply (older ++ newer) }
    ensures book { (older newer : List Act) → book_of (older ++ newer) ≡ effects (book_of older) newer }
{}
