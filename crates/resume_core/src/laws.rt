//! Laws of all plans. The functions do nothing: their contracts are the laws.
ghost use Rattle.std.specs.Prelude.{◌≡◌, ◌≤◌, ◌^◌, ℕ, Bool, true, false, not, is_some, List, [], map, filter, All, Some, None, length};
ghost use Rattle.std.specs.List.{IsDistinct};
ghost use Rattle.amqp_model.specs.PerfSpelling.{state_spelling};
ghost use Rattle.amqp_model.specs.declared.state.DeliveryState.{DeliveryState as AState};
ghost use Rattle.amqp_model.specs.declared.state.UnsettledDelivery.{UnsettledDelivery as AnEntry};
ghost use Rattle.book_model.specs.Book.{same_bytes};
ghost use Rattle.book_model.specs.declared.row.Row.{Row as ARow};
ghost use Rattle.book_core.specs.Rising.{Rises, AllBelow};
ghost use Rattle.resume_core.specs.Resuming.{is_unforgotten, is_unsettled_after, is_decided_by, is_listed, is_sent, forgotten_rows, producer_map, due_tags, producer_entry, row_tag, decision_of, outcome_after, decisions, consumer_map, sendings};

/// An incomplete map says nothing of the tags that it lacks: it forgets no row, and all unforgotten rows stay in the router's map (AMQP 1.0
/// part 2, section 2.7.3, incomplete-unsettled).
pub fn incomplete_maps_forget_nothing()
    ensures forgotten { (theirs : List AnEntry) (rows : List ARow) → forgotten_rows false theirs rows ≡ [] }
    ensures mapped { (theirs : List AnEntry) (rows : List ARow) → producer_map false theirs rows ≡ map producer_entry (filter is_unforgotten rows) }
{}

/// A complete map without entries, as a null one is, forgets all rows.
pub fn empty_maps_forget_all()
    ensures forgotten { (rows : List ARow) → forgotten_rows true [] rows ≡ map (λ r. r.number) (filter is_unforgotten rows) }
    ensures mapped { (rows : List ARow) → producer_map true [] rows ≡ [] }
{}

/// After a complete map the producer may resume all that the router's map has: the two have the same deliveries.
pub fn complete_maps_agree()
    ensures { (theirs : List AnEntry) (rows : List ARow) → due_tags true theirs rows ≡ map (λ d. d.tag) (producer_map true theirs rows) }
{}

/// A row is decided once: an attach gives no outcome to a decided row, which keeps its own.
pub fn decided_rows_stay()
    ensures undecided { (theirs : List AnEntry) (r : ARow) (outcome : AState) → r.outcome ≡ Some outcome → decision_of theirs r ≡ None }
    ensures same { (theirs : List AnEntry) (r : ARow) (outcome : AState) → r.outcome ≡ Some outcome → outcome_after theirs r ≡ Some outcome }
{}

/// An attach forgets, decides, lists and sends rows of its own terminus alone, each once, in the order of the rows.
pub fn rows_are_of_the_terminus()
    ensures kept { (complete : Bool) (theirs : List AnEntry) (rows : List ARow)
        → map (λ d. d.tag.items) (producer_map complete theirs rows) ≡ map (λ r. r.tag.items) (filter (is_unsettled_after complete theirs) rows) }
    ensures decided { (theirs : List AnEntry) (rows : List ARow) → map (λ d. d.row) (decisions theirs rows) ≡ map (λ r. r.number) (filter (is_decided_by theirs) rows) }
    ensures listed { (theirs : List AnEntry) (rows : List ARow) → map (λ d. d.tag.items) (consumer_map theirs rows) ≡ map row_tag (filter (is_listed theirs) rows) }
    ensures sent { (complete : Bool) (theirs : List AnEntry) (rows : List ARow)
        → map (λ s. s.row) (sendings complete theirs rows) ≡ map (λ r. r.number) (filter (is_sent complete theirs) rows) }
{}

/// Entries of other tags change nothing: each list is the same if only `own` entries are left, where those with the tags of the rows are among
/// them.
pub fn other_entries_change_nothing()
    ensures forgotten { (own : AnEntry → Bool) (complete : Bool) (theirs : List AnEntry) (rows : List ARow)
        → All (λ r. (d : AnEntry) → d.tag.items ≡ r.tag.items → own d ≡ true) rows → forgotten_rows complete (filter own theirs) rows ≡ forgotten_rows complete theirs rows }
    ensures kept { (own : AnEntry → Bool) (complete : Bool) (theirs : List AnEntry) (rows : List ARow)
        → All (λ r. (d : AnEntry) → d.tag.items ≡ r.tag.items → own d ≡ true) rows → producer_map complete (filter own theirs) rows ≡ producer_map complete theirs rows }
    ensures due { (own : AnEntry → Bool) (complete : Bool) (theirs : List AnEntry) (rows : List ARow)
        → All (λ r. (d : AnEntry) → d.tag.items ≡ r.tag.items → own d ≡ true) rows → due_tags complete (filter own theirs) rows ≡ due_tags complete theirs rows }
    ensures decided { (own : AnEntry → Bool) (theirs : List AnEntry) (rows : List ARow)
        → All (λ r. (d : AnEntry) → d.tag.items ≡ row_tag r → own d ≡ true) rows → decisions (filter own theirs) rows ≡ decisions theirs rows }
    ensures listed { (own : AnEntry → Bool) (theirs : List AnEntry) (rows : List ARow)
        → All (λ r. (d : AnEntry) → d.tag.items ≡ row_tag r → own d ≡ true) rows → consumer_map (filter own theirs) rows ≡ consumer_map theirs rows }
    ensures sent { (own : AnEntry → Bool) (complete : Bool) (theirs : List AnEntry) (rows : List ARow)
        → All (λ r. (d : AnEntry) → d.tag.items ≡ row_tag r → own d ≡ true) rows → sendings complete (filter own theirs) rows ≡ sendings complete theirs rows }
{}

/// An outcome that an attach gives has at most 400 bytes, as a book takes it.
pub fn outcomes_given_are_short()
    ensures { (theirs : List AnEntry) (rows : List ARow) → All (λ d. length (state_spelling d.outcome) ≤ 400) (decisions theirs rows) }
{}

/// After a complete map the router sends what its map has, and no more.
pub fn complete_maps_send_what_is_listed()
    ensures { (theirs : List AnEntry) (rows : List ARow) → map row_tag (filter (is_sent true theirs) rows) ≡ map (λ d. d.tag.items) (consumer_map theirs rows) }
{}

/// Each tag stands once in the router's map (AMQP 1.0 part 2, section 2.7.3): of a producer's rows, if no two that are unforgotten have the
/// same tag; of a consumer's, if their numbers rise, as those of a book do.
pub fn each_tag_stands_once()
    ensures producer { (complete : Bool) (theirs : List AnEntry) (rows : List ARow)
        → IsDistinct same_bytes (map (λ r. r.tag.items) (filter is_unforgotten rows))
        → IsDistinct same_bytes (map (λ d. d.tag.items) (producer_map complete theirs rows)) }
    ensures consumer { (theirs : List AnEntry) (rows : List ARow)
        → Rises (λ (r : ARow). r.number.0) rows → AllBelow (λ (r : ARow). r.number.0) (2 ^ 64) rows
        → IsDistinct same_bytes (map (λ d. d.tag.items) (consumer_map theirs rows)) }
{}
