//! Laws of books that are read back (`docs/book.md`). The functions do nothing: their contracts are the laws.
ghost use Rattle.std.specs.Prelude.{◌≡◌, ℕ, List, None};
ghost use Rattle.book_model.specs.declared.act.Act.{Act};
ghost use Rattle.book_model.specs.Book.{BookView, empty_book, effects, first_fault};
ghost use Rattle.book_model.specs.Restoring.{acts_of_book, restore_fault, restored};
ghost use Rattle.book_model.specs.Sound.{IsSound};

/// The empty book is sound, and a sound book stays so through acts that apply.
pub fn acts_keep_a_book_sound()
    ensures empty { IsSound empty_book }
    ensures acts { (b : BookView) (acts : List Act) → IsSound b → first_fault b acts ≡ None → IsSound (effects b acts) }
{}

/// A book that is read back is sound, whatever the acts are.
pub fn what_is_read_back_is_sound()
    ensures { (next_terminus next_row : ℕ) (acts : List Act) → restore_fault next_terminus next_row acts ≡ None
        → IsSound (restored next_terminus next_row acts) }
{}

/// A sound book is read back from the acts that it lists: they are read, as this book.
pub fn what_a_book_lists_restores_it()
    ensures reads { (b : BookView) → IsSound b → restore_fault b.next_terminus b.next_row (acts_of_book b) ≡ None }
    ensures book { (b : BookView) → IsSound b → restored b.next_terminus b.next_row (acts_of_book b) ≡ b }
{}
