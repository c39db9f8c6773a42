//! Holds batches, and forgets them once they are written.
ghost use Rattle.std.specs.Prelude.{◌≡◌, ◌≢◌, ◌+◌, ◌↔◌, ◌++◌, [], ◌∷◌, List, true, IsTrue, IfOk, OnOk, OnErr};
ghost use Rattle.book_model.specs.declared.act.Act.{Act};
ghost use Rattle.journal_codec.specs.Format.{batch};
ghost use Rattle.twin_journal.specs.declared.figures.Figures.{Figures as TheFigures};
ghost use Rattle.twin_journal.specs.Held.{IsHeld, IsFillOf};

use crate::figures::Figures;
use crate::held::Held;
use std::alloc::{AllocError, Global};

impl Held {
    /// None are held behind what has these figures.
    pub(crate) fn none(alloc: Global, figures: Figures) -> Result<Held, AllocError>
        ensures bytes { IfOk result (λ held. held.bytes.items ≡ 0 ∷ []) }
        ensures ahead { IfOk result (λ held. held.ahead ≡ figures) }
    {
        let bytes = vec![in alloc; 0u8; 1]?;
        Ok(Held {
            bytes,
            ahead: figures,
        })
    }

    /// Whether none are held.
    pub(crate) fn is_empty(&self) -> bool
        ensures told { (figures : TheFigures) (lists : List (List Act)) → IsHeld figures self.now lists → IsTrue result ↔ (lists ≡ []) }
        ensures bytes { self.now.bytes.items ≡ 0 ∷ [] → result ≡ true }
    {
        self.bytes.len() == 1
    }

    /// Adds a batch, given as its bytes with a closed gate after it. At an `Err`, for want of memory, nothing is changed.
    pub(crate) fn add(&mut self, block: &[u8]) -> Result<(), AllocError>
        ensures added { OnOk result ((figures : TheFigures) (lists : List (List Act)) (acts : List Act) → IsHeld figures self.old lists
            → block.now ≡ batch acts ++ 0 ∷ [] → IsHeld figures self.new (lists ++ acts ∷ [])) }
        ensures last { OnOk result (self.new.ahead.last ≡ self.old.ahead.last + 1) }
        ensures same { OnErr result (self.new.bytes.items ≡ self.old.bytes.items) }
        ensures same_ahead { OnErr result (self.new.ahead ≡ self.old.ahead) }
    {
        let Some(ahead) = self.ahead.longer(block.len()) else {
            return Err(AllocError);
        };
        let gate = self.bytes.len() - 1;
        self.bytes.extend_from_slice(block)?;
        self.bytes[gate] = 1;
        self.ahead = ahead;
        Ok(())
    }

    /// Forgets those that are held, once the files have these figures.
    pub(crate) fn clear(&mut self, figures: Figures)
        ensures bytes { (before : TheFigures) (lists : List (List Act)) → IsHeld before self.old lists → self.new.bytes.items ≡ 0 ∷ [] }
        ensures ahead { self.new.ahead ≡ figures }
    {
        self.bytes.truncate(1);
        self.bytes[0] = 0;
        self.ahead = figures;
    }

    /// What the active side gets behind the gate that ends it.
    pub(crate) fn fill(&self) -> &[u8]
        ensures { (figures : TheFigures) (lists : List (List Act)) → IsHeld figures self.now lists → lists ≢ [] → IsFillOf lists result.now }
    {
        &self.bytes[1..]
    }
}
