//! Laws of the model's definitions. Each is the clause of a function that does nothing.
ghost use Rattle.std.specs.Prelude.{◌≡◌, ◌∷◌, List, ℕ};
ghost use Rattle.disk_core.specs.Event.{Event, Wrote, Shortened, ImagesNow};

/// What a crash may leave doesn't depend on the order of what was done since the last sync: of two writes, and of a write
/// and a cut, the second might as well have come first.
pub fn order_is_nothing()
    ensures writes { (first : List ℕ) (es : List Event) (at other : ℕ) (bytes others c : List ℕ)
        → ImagesNow first (Wrote at bytes ∷ Wrote other others ∷ es) c → ImagesNow first (Wrote other others ∷ Wrote at bytes ∷ es) c }
    ensures write_and_cut { (first : List ℕ) (es : List Event) (at len : ℕ) (bytes c : List ℕ)
        → ImagesNow first (Wrote at bytes ∷ Shortened len ∷ es) c → ImagesNow first (Shortened len ∷ Wrote at bytes ∷ es) c }
    ensures cut_and_write { (first : List ℕ) (es : List Event) (at len : ℕ) (bytes c : List ℕ)
        → ImagesNow first (Shortened len ∷ Wrote at bytes ∷ es) c → ImagesNow first (Wrote at bytes ∷ Shortened len ∷ es) c }
{}
