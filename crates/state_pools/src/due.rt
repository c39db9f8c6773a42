//! The addresses that may have grants.
ghost use Rattle.std.specs.Prelude.{◌≡◌, ◌==◌, ◌||◌, ℕ, List, Option, Bool, true, false, None, Some, OnOk, IfNone, IfSome, length, ◌<◌, ◌≤◌, ◌+◌, if◌then◌else◌};
ghost use Rattle.std.specs.Cmp.Lexicographic.{slice_cmp};
ghost use Rattle.std.specs.Ordering.{nat_cmp};
ghost use Rattle.std.specs.declared.cmp.Ordering.TheVariants.{Less};
ghost use Rattle.std.specs.Str.{bytes_eq};
ghost use Rattle.state_pools.specs.Due.{count, is_copied, is_in, is_number};

use std::alloc::{AllocError, Global};
use std::collections::BTreeSet;

/// Addresses that may have grants. Mostly there is one, and the number of a link that is there stands for it. What
/// comes beyond it is copied into a set, which is ordered by the addresses' bytes.
#[derive(Drop)]
pub(crate) struct Due {
    alloc: Global,
    link: Option<u64>,
    more: BTreeSet<Vec<u8>>,
}

impl Due {
    pub(crate) fn new(alloc: Global) -> Due
        ensures { (place : ℕ → Option (List ℕ)) (a : List ℕ) → is_in result place a ≡ false }
    {
        Due {
            alloc,
            link: None,
            more: BTreeSet::new(alloc),
        }
    }

    /// Adds a copy of an address, if there is none.
    pub(crate) fn add(&mut self, address: &[u8]) -> Result<(), AllocError>
        ensures added { OnOk result (is_copied self.new address.now ≡ true) }
        ensures others { OnOk result ((a : List ℕ) → is_copied self.new a ≡ false → is_copied self.old a ≡ false) }
        ensures link { OnOk result (self.new.link ≡ self.old.link) }
        ensures one { OnOk result (length self.new.more.keys ≤ length self.old.more.keys + 1) }
    {
        if self.more.contains(address) {
            return Ok(());
        }
        let key = address.to_vec(self.alloc)?;
        let _ = self.more.insert(key)?;
        Ok(())
    }

    /// Lets a link stand for the address that it is at, and none for another one.
    #[inline]
    pub(crate) fn set(&mut self, number: u64)
        ensures link { self.new.link ≡ Some number }
        ensures more { self.new.more ≡ self.old.more }
    {
        self.link = Some(number);
    }

    /// Adds the address that a link leaves.
    pub(crate) fn add_left(&mut self, number: u64, address: &[u8]) -> Result<(), AllocError>
        ensures added { OnOk result (is_copied self.new address.now ≡ true) }
        ensures others { OnOk result ((a : List ℕ) → is_copied self.new a ≡ false → is_copied self.old a ≡ false) }
        ensures left { OnOk result (self.new.link ≡ (if is_number number self.old.link then None else self.old.link)) }
    {
        self.add(address)?;
        if let Some(link) = self.link {
            if number == link {
                self.link = None;
            }
        }
        Ok(())
    }

    /// The link whose address is there alone.
    #[inline]
    pub(crate) fn single(&self) -> Option<u64>
        ensures link { IfSome result (λ number. self.now.link ≡ Some number) }
        ensures alone { IfSome result (λ number. (a : List ℕ) → is_copied self.now a ≡ false) }
    {
        if !self.more.is_empty() {
            return None;
        }
        self.link
    }

    /// The link that stands for its address.
    pub(crate) fn link(&self) -> Option<u64>
        ensures { result ≡ self.now.link }
    {
        self.link
    }

    /// Removes the link that stands for its address.
    #[inline]
    pub(crate) fn forget(&mut self)
        ensures link { self.new.link ≡ None }
        ensures more { self.new.more ≡ self.old.more }
    {
        self.link = None;
    }

    /// Removes and returns the first of the addresses that are copied.
    pub(crate) fn pop(&mut self) -> Option<Vec<u8>>
        ensures none { IfNone result ((a : List ℕ) → is_copied self.old a ≡ false) }
        ensures kept { IfNone result ((a : List ℕ) → is_copied self.new a ≡ false) }
        ensures first { IfSome result (λ first. (a : List ℕ) → slice_cmp nat_cmp a first.items ≡ Less → is_copied self.old a ≡ false) }
        ensures others { IfSome result (λ first. (a : List ℕ) → bytes_eq first.items a ≡ false → is_copied self.new a ≡ false → is_copied self.old a ≡ false) }
        ensures link { self.new.link ≡ self.old.link }
        ensures fewer { IfSome result (λ first. count self.new < count self.old) }
    {
        self.more.pop_first()
    }
}
