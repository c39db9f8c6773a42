//! Values by the bytes of addresses, of which there is mostly one.
ghost use Rattle.std.specs.Prelude.{◌≡◌, ◌==◌, ℕ, List, Bool, true, false, None, Some, OnOk, option_map, is_some, if◌then◌else◌};
ghost use Rattle.std.specs.Borrow.{sem};
ghost use Rattle.std.specs.Option.{option_copied_mut};
ghost use Rattle.std.specs.Str.{bytes_eq};
ghost use Rattle.state_pools.specs.ByBytes.{at, first_at, has_none, LendsAt, LendsThere};

use crate::same::same;
use state_collections::Boxed;
use std::alloc::{AllocError, Global};
use std::collections::BTreeMap;

/// A value with the address that it is at.
#[derive(Drop)]
struct Place<V> {
    address: Vec<u8>,
    value: V,
}

/// Values by the bytes of their addresses. One stands in a box of its own, and only what comes beyond it in an ordered map: where there is one alone, a
/// look-up compares its bytes once. If that one is removed its place stays empty until another is put. Each call costs a logarithm of the
/// count at most. If an operation fails to allocate, the contents are unspecified.
#[derive(Drop)]
pub(crate) struct ByBytes<V> {
    alloc: Global,
    first: Option<Boxed<Place<V>>>,
    more: BTreeMap<Vec<u8>, V>,
}

impl<V: Drop> ByBytes<V> {
    /// No value.
    pub(crate) fn new(alloc: Global) -> ByBytes<V>
        ensures { (a : List ℕ) → at result a ≡ None }
    {
        ByBytes {
            alloc,
            first: None,
            more: BTreeMap::new(alloc),
        }
    }

    /// The value at an address.
    #[inline]
    pub(crate) fn get(&self, address: &[u8]) -> Option<&V>
        ensures { option_map (λ v. v.now) result ≡ at self.now address.now }
    {
        if self.is_first(address) {
            let first = self.first.as_ref()?;
            return Some(&first.as_ref().value);
        }
        self.more.get(address)
    }

    /// The value at an address, to change it.
    #[inline]
    pub(crate) fn get_mut(&mut self, address: &[u8]) -> Option<&mut V>
        ensures* lends { sem 𝓛 (LendsAt V.row self.entry address.now result) }
        ensures value { option_copied_mut result ≡ at self.old address.now }
    {
        if self.is_first(address) {
            let Some(first) = &mut self.first else {
                return None;
            };
            return Some(&mut first.as_mut().value);
        }
        self.more.get_mut(address)
    }

    /// The value at an address that has one. If one stands alone in place, it is that one, and no bytes are compared.
    #[inline]
    pub(crate) fn get_there(&self, address: &[u8]) -> Option<&V>
        ensures { is_some (at self.now address.now) ≡ true → option_map (λ v. v.now) result ≡ at self.now address.now }
    {
        if !self.more.is_empty() {
            return self.get(address);
        }
        let first = self.first.as_ref()?;
        Some(&first.as_ref().value)
    }

    /// The value at an address that has one, to change it. If one stands alone in place, it is that one, and no bytes
    /// are compared.
    #[inline]
    pub(crate) fn get_there_mut(&mut self, address: &[u8]) -> Option<&mut V>
        ensures* lends { sem 𝓛 (LendsThere V.row self.entry address.now result) }
        ensures value { is_some (at self.old address.now) ≡ true → option_copied_mut result ≡ at self.old address.now }
    {
        if !self.more.is_empty() {
            return self.get_mut(address);
        }
        let Some(first) = &mut self.first else {
            return None;
        };
        Some(&mut first.as_mut().value)
    }

    /// Puts a value at an address, in place of the one that is there, if there is one.
    pub(crate) fn put(&mut self, address: Vec<u8>, value: V) -> Result<(), AllocError>
        ensures { OnOk result ((a : List ℕ) → at self.new a ≡ (if bytes_eq address.items a then Some value else at self.old a)) }
    {
        let place = address.as_slice();
        self.remove(place);
        if self.first.is_none() {
            self.first = Some(Boxed::new(self.alloc, Place { address, value })?);
            return Ok(());
        }
        match self.more.insert(address, value) {
            Ok(_) => Ok(()),
            Err(_) => Err(AllocError),
        }
    }

    /// Removes the value at an address.
    pub(crate) fn remove(&mut self, address: &[u8])
        ensures { (a : List ℕ) → at self.new a ≡ (if bytes_eq address.now a then None else at self.old a) }
    {
        self.take_first(address);
        if !self.more.is_empty() {
            let _ = self.more.remove(address);
        }
    }

    /// Removes the value in place, if it is at this address.
    #[inline]
    fn take_first(&mut self, address: &[u8])
        ensures first { (a : List ℕ) → first_at self.new.first a ≡ (if bytes_eq address.now a then None else first_at self.old.first a) }
        ensures more { self.new.more ≡ self.old.more }
    {
        if self.is_first(address) {
            self.first = None;
        }
    }

    /// Whether the value in place is at this address.
    #[inline]
    fn is_first(&self, address: &[u8]) -> bool
        ensures { result ≡ is_some (first_at self.now.first address.now) }
    {
        match &self.first {
            None => false,
            Some(first) => same(address, first.as_ref().address.as_slice()),
        }
    }

    /// Whether there are none.
    #[inline]
    pub(crate) fn is_empty(&self) -> bool
        ensures { result ≡ has_none self.now }
    {
        self.first.is_none() && self.more.is_empty()
    }
}
