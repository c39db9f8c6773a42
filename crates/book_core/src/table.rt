//! A list that keeps what its changes replaced, so that they can be undone without allocation.
ghost use Rattle.std.specs.Prelude.{◌≡◌, ◌<◌, [], ◌∷◌, ◌++◌, OnOk, OnErr, slice_set, vec_len};
ghost use Rattle.book_core.specs.Table.{before};

use std::alloc::{AllocError, Global};

/// A change of a table.
#[derive(Drop)]
pub(crate) enum Change<S> {
    /// This was at that place.
    Replaced(usize, S),
    /// The slot at that place was added after all others.
    Added(usize),
}

/// A list of slots, and their changes since the last commit, the oldest change first.
#[derive(Drop)]
pub(crate) struct Table<S> {
    pub(crate) slots: Vec<S>,
    log: Vec<Change<S>>,
}

impl<S: Drop> Table<S> {
    #[tactic(auto, using(crate::proofs::Before::before_none))]
    pub(crate) fn new(alloc: Global) -> Table<S>
        ensures slots { result.slots.items ≡ [] }
        ensures was { before result.log.items result.slots.items ≡ [] }
    {
        Table {
            slots: Vec::new(alloc),
            log: Vec::new(alloc),
        }
    }

    /// Adds a slot after all others.
    #[tactic(auto, using(crate::proofs::Before::before_added))]
    pub(crate) fn add(&mut self, slot: S) -> Result<(), AllocError>
        ensures ok { OnOk result (self.new.slots.items ≡ self.old.slots.items ++ slot ∷ []) }
        ensures was { before self.new.log.items self.new.slots.items ≡ before self.old.log.items self.old.slots.items }
    {
        self.log.reserve(1)?;
        let at = self.slots.len();
        self.slots.push(slot)?;
        self.log.push(Change::Added(at)).unwrap();
        Ok(())
    }

    /// Puts a slot in the place of another.
    #[tactic(auto, using(crate::proofs::Before::before_replaced))]
    pub(crate) fn replace(&mut self, at: usize, slot: S) -> Result<(), AllocError>
        requires { at < vec_len self.old.slots }
        ensures ok { OnOk result (self.new.slots.items ≡ slice_set self.old.slots.items at slot) }
        ensures was { before self.new.log.items self.new.slots.items ≡ before self.old.log.items self.old.slots.items }
    {
        self.log.reserve(1)?;
        let old = std::mem::replace(&mut self.slots[at], slot);
        self.log.push(Change::Replaced(at, old)).unwrap();
        Ok(())
    }

    /// Undoes each change since the last commit.
    #[tactic(auto, using(crate::proofs::Before::before_more, crate::proofs::Before::before_none, std::proofs::lemmas::List::set_past))]
    pub(crate) fn rollback(&mut self)
        ensures back { self.new.slots.items ≡ before self.old.log.items self.old.slots.items }
        ensures was { before self.new.log.items self.new.slots.items ≡ before self.old.log.items self.old.slots.items }
    {
        while let Some(change) = self.log.pop() {
            match change {
                Change::Replaced(at, old) => {
                    if at < self.slots.len() {
                        self.slots[at] = old;
                    }
                }
                Change::Added(at) => self.slots.truncate(at),
            }
        }
    }

    /// Makes each change since the last commit permanent.
    #[tactic(auto, using(crate::proofs::Before::before_none))]
    pub(crate) fn commit(&mut self)
        ensures slots { self.new.slots.items ≡ self.old.slots.items }
        ensures was { before self.new.log.items self.new.slots.items ≡ self.new.slots.items }
    {
        self.log.clear();
    }
}
