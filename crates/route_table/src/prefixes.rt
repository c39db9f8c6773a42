// A map from prefixes to values, searched for the longest prefix of an address.
ghost use Rattle.std.specs.Prelude.{◌≡◌, ℕ, List, [], ◌∷◌, ◌++◌, ◌≤◌, length, OnOk, map, option_map};
ghost use Rattle.std.specs.Option.{option_copied};
ghost use Rattle.route_table.specs.Prefixes.{best, FindSame, goes_on, value_at};

use std::alloc::{AllocError, Global};
use std::collections::BTreeMap;
use std::marker::Model;

/// Values by prefix. Contracts see the list of prefixes with their values, in the order of the bytes.
#[derive(Drop)]
pub struct Prefixes<V> {
    places: BTreeMap<Vec<u8>, V>,
}

impl<V> Model for Prefixes<V> {
    ghost Value = { List (List ℕ × V) };

    ghost view = { λ a. map (λ e. (e.0.items, e.1)) a.places.entries };
}

impl<V> Prefixes<V> {
    pub fn new(alloc: Global) -> Prefixes<V>
        ensures { result ≡ [] }
    {
        Prefixes {
            places: BTreeMap::new(alloc),
        }
    }

    /// Adds a value at a prefix; where the prefix is there already, the older value stays.
    pub fn add(&mut self, alloc: Global, prefix: &str, value: V) -> Result<(), AllocError>
    where
        V: Drop,
        ensures { OnOk result (FindSame self.new (self.old ++ (prefix.now, value) ∷ [])) }
    {
        if !self.places.contains_key(prefix.as_bytes()) {
            let key = prefix.as_bytes().to_vec(alloc)?;
            drop(self.places.insert(key, value)?);
        }
        Ok(())
    }

    /// The value of the longest prefix that matches the address.
    pub fn longest(&self, address: &str) -> Option<&V>
        ensures { option_copied result ≡ option_map (λ e. e.1) (best self.now address.now) }
    {
        let bytes = address.as_bytes();
        let mut end = bytes.len();
        loop {
            if let Some(value) = self.value_at(bytes, end) {
                return Some(value);
            }
            if end == 0 {
                return None;
            }
            end -= 1;
        }
    }

    // The value of the prefix that ends there, where the address may go on after it.
    #[tactic(auto, using(crate::proofs::Entries::lookup_seen))]
    fn value_at(&self, address: &[u8], end: usize) -> Option<&V>
        requires { end ≤ length address.now }
        ensures { option_copied result ≡ value_at self.now address.now end }
    {
        let (prefix, rest) = address.split_at(end);
        if goes_on(rest) {
            self.places.get(prefix)
        } else {
            None
        }
    }
}

// Whether an address with these bytes after a prefix goes on after it.
fn goes_on(rest: &[u8]) -> bool
    ensures { result ≡ goes_on rest.now }
{
    match rest.first() {
        None => true,
        Some(byte) => *byte == b'.' || *byte == b'/',
    }
}
