//! What holds of every stream, and of all that is written. The functions do nothing: their contracts are the laws.
ghost use Rattle.std.specs.Prelude.{◌≡◌, ◌++◌, ◌<◌, ◌↔◌, ℕ, length, Bool, List, []};
ghost use Rattle.amqp_frames.specs.Cuts.{Cuts, Leads};
ghost use Rattle.amqp_frames.specs.Frames.{front, found, more, wrong};
ghost use Rattle.amqp_model.specs.ItemSpelling.{item_spelling};
ghost use Rattle.amqp_frames.specs.Laws.{Feeds, HasOneCut, joined};
ghost use Rattle.amqp_frames.specs.SpellsItem.{SpellsItem, IsSpelt};
ghost use Rattle.amqp_frames.specs.Within.{IsWithin};
ghost use Rattle.amqp_model.specs.declared.frame_fault.FrameFault.{FrameFault as AFault};
ghost use Rattle.amqp_model.specs.declared.item.Item.{Item as AnItem};

/// A stream is cut into items and a rest in one way, however it comes: what readers give piece by piece, and what they
/// keep at the end, is the cut of the whole.
pub fn streams_have_one_cut()
    ensures one { (stream : List ℕ) → HasOneCut stream }
    ensures any { (pieces : List (List ℕ)) (items : List AnItem) (ended : Bool) (rest : List ℕ) → Feeds [] pieces items ended rest → Cuts ended (joined pieces) items rest }
{}

/// An item is found where it is encoded, whatever follows, and nowhere else: so the items of a cut are those whose
/// encodings make up the stream. Bytes that begin no item begin none however they go on. Less than an item is fewer
/// than 16,384 bytes, so no reader keeps more before it fails.
pub fn items_are_found_where_spelt()
    ensures found { (text behind : List ℕ) (x : AnItem) → SpellsItem text x → front (text ++ behind) ≡ found x behind }
    ensures spelt { (bytes : List ℕ) (x : AnItem) (after : List ℕ) → front bytes ≡ found x after → (text : List ℕ) × (bytes ≡ text ++ after) × SpellsItem text x }
    ensures items { (stream : List ℕ) (items : List AnItem) (rest : List ℕ) → Leads stream items rest ↔ IsSpelt stream items rest }
    ensures wrong { (bytes behind : List ℕ) (f : AFault) → front bytes ≡ wrong f → front (bytes ++ behind) ≡ wrong f }
    ensures more { (bytes : List ℕ) → front bytes ≡ more → length bytes < 16384 }
{}

/// What is written within the limits is encoded rightly, and so is found again, whatever follows.
pub fn written_items_are_found()
    ensures spelt { (x : AnItem) → IsWithin x → SpellsItem (item_spelling x) x }
    ensures found { (x : AnItem) (behind : List ℕ) → IsWithin x → front (item_spelling x ++ behind) ≡ found x behind }
{}
