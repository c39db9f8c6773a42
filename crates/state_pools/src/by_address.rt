//! Pools by address.
ghost use Rattle.std.specs.Prelude.{◌≡◌, ◌==◌, ℕ, List, [], map, Bool, true, false, if◌then◌else◌, None, Some, OnOk, IfOk, IfSome, option_map, is_some};
ghost use Rattle.route_table.specs.declared.sections.Distribution.{Distribution};
ghost use Rattle.route_table.specs.Places.{distribution_of};
ghost use Rattle.route_credit.specs.Granting.{all_granted, choice, grants_of};
ghost use Rattle.route_credit.specs.Pool.{by_id, chose, copies, has_no_links, no_links, offered, wanted, without_consumer, without_producer};
ghost use Rattle.state_collections.specs.NumberMap.{at_number};
ghost use Rattle.state_pools.specs.Addresses.{rested, with_pool, without};
ghost use Rattle.state_pools.specs.Digest.{digest_of};
ghost use Rattle.state_pools.specs.Fits.{has_no_pools, in_row, pool_in, row_of};

use crate::digest::digest;
use crate::row::Row;
use route_credit::{ConsumerId, ProducerId};
use route_table::Table;
use state_collections::NumberMap;
use std::alloc::{AllocError, Global};

/// So many places stand for rows, each for those of the digests whose remainder it is.
const PLACES: usize = 1024;

/// Pools by address: first by the address's digest, then by its bytes. So a look-up compares bytes about once, and addresses that were
/// chosen to have one digest cost no more than a map by bytes does. A pool without links is removed, and a row without pools.
/// What is told of a link again and again is told with the digest of its address.
#[derive(Drop)]
pub(crate) struct ByAddress {
    alloc: Global,
    rows: NumberMap<Row>,
}

impl ByAddress {
    pub(crate) fn new(alloc: Global) -> ByAddress
        ensures { (share : List ℕ → Distribution) (a : List ℕ) → pool_in share result a ≡ no_links (share a) }
    {
        ByAddress {
            alloc,
            rows: NumberMap::new(alloc, PLACES),
        }
    }

    /// Puts the row of a digest.
    fn put(&mut self, digest: u64, row: Row) -> Result<(), AllocError>
        ensures { OnOk result ((d : ℕ) → at_number self.new.rows d ≡ (if digest == d then Some row else at_number self.old.rows d)) }
    {
        let _ = self.rows.insert(digest, row)?;
        Ok(())
    }

    /// Sets what a consumer offers to an address, whose pool is shared as this table says. It is no producer there.
    /// Returns whether the address may have grants then.
    #[inline]
    pub(crate) fn offer(
        &mut self,
        table: &Table,
        digest: u64,
        address: &str,
        number: u64,
        free: u64,
        undecided: u64,
    ) -> Result<bool, AllocError>
        requires { digest ≡ digest_of address.now }
        ensures quiet { IfOk result (λ may. may ≡ false → (share : List ℕ → Distribution) → grants_of (pool_in share self.new address.now) ≡ []) }
        ensures changed { OnOk result ((share : List ℕ → Distribution) → distribution_of table.now address.now ≡ share address.now → (a : List ℕ) → pool_in share self.new a ≡ with_pool (pool_in share self.old) address.now (λ pool. offered (without_producer pool number) number free undecided) a) }
    {
        if let Some(row) = self.rows.get_mut(digest) {
            return row.offer(table, address, number, free, undecided);
        }
        let mut row = Row::new(self.alloc);
        row.offer(table, address, number, free, undecided)?;
        self.put(digest, row)?;
        Ok(true)
    }

    /// Sets what a consumer offers to an address that has a pool. It is no producer there. Returns whether the address
    /// may have grants then.
    #[inline]
    pub(crate) fn offer_there(
        &mut self,
        digest: u64,
        address: &[u8],
        number: u64,
        free: u64,
        undecided: u64,
    ) -> Result<bool, AllocError>
        requires { digest ≡ digest_of address.now }
        ensures quiet { IfOk result (λ may. may ≡ false → is_some (in_row (row_of self.old address.now) address.now) ≡ true → (share : List ℕ → Distribution) → grants_of (pool_in share self.new address.now) ≡ []) }
        ensures changed { OnOk result (is_some (in_row (row_of self.old address.now) address.now) ≡ true → (share : List ℕ → Distribution) (a : List ℕ) → pool_in share self.new a ≡ with_pool (pool_in share self.old) address.now (λ pool. offered (without_producer pool number) number free undecided) a) }
    {
        match self.rows.get_mut(digest) {
            None => Ok(true),
            Some(row) => row.offer_there(address, number, free, undecided),
        }
    }

    /// Sets what a producer wants of an address, whose pool is shared as this table says. It is no consumer there.
    /// Returns whether the address may have grants then.
    #[inline]
    pub(crate) fn want(
        &mut self,
        table: &Table,
        digest: u64,
        address: &str,
        number: u64,
        unused: u32,
        due: u32,
        held: u32,
    ) -> Result<bool, AllocError>
        requires { digest ≡ digest_of address.now }
        ensures quiet { IfOk result (λ may. may ≡ false → (share : List ℕ → Distribution) → grants_of (pool_in share self.new address.now) ≡ []) }
        ensures changed { OnOk result ((share : List ℕ → Distribution) → distribution_of table.now address.now ≡ share address.now → (a : List ℕ) → pool_in share self.new a ≡ with_pool (pool_in share self.old) address.now (λ pool. wanted (without_consumer pool number) number unused due held) a) }
    {
        if let Some(row) = self.rows.get_mut(digest) {
            return row.want(table, address, number, unused, due, held);
        }
        let mut row = Row::new(self.alloc);
        row.want(table, address, number, unused, due, held)?;
        self.put(digest, row)?;
        Ok(true)
    }

    /// Sets what a producer wants of an address that has a pool. It is no consumer there. Returns whether the address
    /// may have grants then.
    #[inline]
    pub(crate) fn want_there(
        &mut self,
        digest: u64,
        address: &[u8],
        number: u64,
        unused: u32,
        due: u32,
        held: u32,
    ) -> Result<bool, AllocError>
        requires { digest ≡ digest_of address.now }
        ensures quiet { IfOk result (λ may. may ≡ false → is_some (in_row (row_of self.old address.now) address.now) ≡ true → (share : List ℕ → Distribution) → grants_of (pool_in share self.new address.now) ≡ []) }
        ensures changed { OnOk result (is_some (in_row (row_of self.old address.now) address.now) ≡ true → (share : List ℕ → Distribution) (a : List ℕ) → pool_in share self.new a ≡ with_pool (pool_in share self.old) address.now (λ pool. wanted (without_consumer pool number) number unused due held) a) }
    {
        match self.rows.get_mut(digest) {
            None => Ok(true),
            Some(row) => row.want_there(address, number, unused, due, held),
        }
    }

    /// Removes a link from the pool of an address.
    pub(crate) fn leave(&mut self, digest: u64, address: &[u8], number: u64)
        requires { digest ≡ digest_of address.now }
        ensures { (share : List ℕ → Distribution) (a : List ℕ) → pool_in share self.new a ≡ with_pool (pool_in share self.old) address.now (λ pool. without pool number) a }
    {
        if let Some(row) = self.rows.get_mut(digest) {
            row.leave(address, number);
        }
    }

    /// Removes the pool of an address if it has no links, and its row if no other pool is there.
    pub(crate) fn forget(&mut self, digest: u64, address: &[u8])
        requires { digest ≡ digest_of address.now }
        ensures rested { (share : List ℕ → Distribution) → (pool_in share self.old address.now).distribution ≡ share address.now → (a : List ℕ) → pool_in share self.new a ≡ with_pool (pool_in share self.old) address.now rested a }
        ensures gone { (share : List ℕ → Distribution) → has_no_links (pool_in share self.old address.now) ≡ true → is_some (in_row (row_of self.new address.now) address.now) ≡ false }
        ensures swept { IfSome (row_of self.new address.now) (λ row. has_no_pools row ≡ false) }
    {
        if let Some(row) = self.rows.get_mut(digest) {
            row.forget(address);
            if row.is_empty() {
                let _ = self.rows.remove(digest);
            }
        }
    }

    /// The consumer that would be chosen for the next delivery of an address that has a pool.
    #[inline]
    pub(crate) fn peek(&self, digest: u64, address: &[u8]) -> Option<ConsumerId>
        requires { digest ≡ digest_of address.now }
        ensures { is_some (in_row (row_of self.now address.now) address.now) ≡ true → (share : List ℕ → Distribution) → option_map (λ c. c.0) result ≡ choice (pool_in share self.now address.now) }
    {
        match self.rows.get(digest) {
            None => None,
            Some(row) => row.peek(address),
        }
    }

    /// The consumers that get a copy of a message of an address that has a pool.
    #[inline]
    pub(crate) fn copies(&self, digest: u64, address: &[u8]) -> Result<Vec<ConsumerId>, AllocError>
        requires { digest ≡ digest_of address.now }
        ensures { IfOk result (λ to. is_some (in_row (row_of self.now address.now) address.now) ≡ true → (share : List ℕ → Distribution) → map (λ c. c.0) to.items ≡ copies (pool_in share self.now address.now)) }
    {
        match self.rows.get(digest) {
            None => Ok(Vec::new(self.alloc)),
            Some(row) => row.copies(address),
        }
    }

    /// Chooses the consumer of the next delivery of an address that has a pool.
    #[inline]
    pub(crate) fn choose(&mut self, digest: u64, address: &[u8]) -> Option<ConsumerId>
        requires { digest ≡ digest_of address.now }
        ensures chosen { is_some (in_row (row_of self.old address.now) address.now) ≡ true → (share : List ℕ → Distribution) → option_map (λ c. c.0) result ≡ choice (pool_in share self.old address.now) }
        ensures noted { is_some (in_row (row_of self.old address.now) address.now) ≡ true → (share : List ℕ → Distribution) (a : List ℕ) → pool_in share self.new a ≡ with_pool (pool_in share self.old) address.now (λ pool. chose pool (option_map (λ c. c.0) result)) a }
    {
        match self.rows.get_mut(digest) {
            None => None,
            Some(row) => row.choose(address),
        }
    }

    /// Notes that this consumer is chosen for the next delivery of an address that has a pool.
    #[inline]
    pub(crate) fn note(&mut self, digest: u64, address: &[u8], consumer: ConsumerId)
        requires { digest ≡ digest_of address.now }
        ensures { is_some (in_row (row_of self.old address.now) address.now) ≡ true → (share : List ℕ → Distribution) (a : List ℕ) → pool_in share self.new a ≡ with_pool (pool_in share self.old) address.now (λ pool. chose pool (Some consumer.0)) a }
    {
        if let Some(row) = self.rows.get_mut(digest) {
            row.note(address, consumer);
        }
    }

    /// The grants of an address.
    #[inline]
    pub(crate) fn grants(&mut self, address: &[u8]) -> Result<Vec<(ProducerId, u32)>, AllocError>
        ensures sums { IfOk result (λ sums. (share : List ℕ → Distribution) → by_id sums.items ≡ grants_of (pool_in share self.old address.now)) }
        ensures filled { OnOk result ((share : List ℕ → Distribution) (a : List ℕ) → pool_in share self.new a ≡ with_pool (pool_in share self.old) address.now all_granted a) }
    {
        let place = digest(address);
        match self.rows.get_mut(place) {
            None => Ok(Vec::new(self.alloc)),
            Some(row) => row.grants(address),
        }
    }

    /// The grants of an address that has a pool.
    #[inline]
    pub(crate) fn grants_there(
        &mut self,
        digest: u64,
        address: &[u8],
    ) -> Result<Vec<(ProducerId, u32)>, AllocError>
        requires { digest ≡ digest_of address.now }
        ensures sums { IfOk result (λ sums. is_some (in_row (row_of self.old address.now) address.now) ≡ true → (share : List ℕ → Distribution) → by_id sums.items ≡ grants_of (pool_in share self.old address.now)) }
        ensures filled { OnOk result (is_some (in_row (row_of self.old address.now) address.now) ≡ true → (share : List ℕ → Distribution) (a : List ℕ) → pool_in share self.new a ≡ with_pool (pool_in share self.old) address.now all_granted a) }
    {
        match self.rows.get_mut(digest) {
            None => Ok(Vec::new(self.alloc)),
            Some(row) => row.grants_there(address),
        }
    }
}
