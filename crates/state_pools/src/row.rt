//! The pools of the addresses of one digest, by the bytes of the addresses.
ghost use Rattle.std.specs.Prelude.{◌≡◌, ℕ, List, [], map, Bool, true, false, None, Some, OnOk, IfOk, option_map, is_some};
ghost use Rattle.route_table.specs.declared.sections.Distribution.{Distribution};
ghost use Rattle.route_table.specs.Places.{distribution_of};
ghost use Rattle.route_credit.specs.Granting.{all_granted, choice, grants_of};
ghost use Rattle.route_credit.specs.Pool.{by_id, chose, copies, has_no_links, no_links, offered, wanted, without_consumer, without_producer};
ghost use Rattle.state_pools.specs.Addresses.{rested, with_pool, without};
ghost use Rattle.state_pools.specs.ByBytes.{at};
ghost use Rattle.state_pools.specs.Fits.{has_no_pools, pool_in_row};

use crate::by_bytes::ByBytes;
use route_credit::{ConsumerId, Pool, ProducerId};
use route_table::Table;
use std::alloc::{AllocError, Global};

/// Pools by the bytes of their addresses, which have the same digest. A pool without links is removed.
#[derive(Drop)]
pub(crate) struct Row {
    alloc: Global,
    pools: ByBytes<Pool>,
}

impl Row {
    pub(crate) fn new(alloc: Global) -> Row
        ensures { (share : List ℕ → Distribution) (a : List ℕ) → pool_in_row share result a ≡ no_links (share a) }
    {
        Row {
            alloc,
            pools: ByBytes::new(alloc),
        }
    }

    /// Puts a pool at an address, in place of the one that is there, if there is one.
    fn put(&mut self, address: &[u8], pool: Pool) -> Result<(), AllocError>
        ensures { OnOk result ((share : List ℕ → Distribution) (a : List ℕ) → pool_in_row share self.new a ≡ with_pool (pool_in_row share self.old) address.now (λ old. pool) a) }
    {
        let key = address.to_vec(self.alloc)?;
        self.pools.put(key, pool)
    }

    /// Sets what a consumer offers to an address, whose pool is shared as this table says. It is no producer there.
    /// Returns whether the address may have grants then.
    pub(crate) fn offer(
        &mut self,
        table: &Table,
        address: &str,
        number: u64,
        free: u64,
        undecided: u64,
    ) -> Result<bool, AllocError>
        ensures quiet { IfOk result (λ may. may ≡ false → (share : List ℕ → Distribution) → grants_of (pool_in_row share self.new address.now) ≡ []) }
        ensures changed { OnOk result ((share : List ℕ → Distribution) → distribution_of table.now address.now ≡ share address.now → (a : List ℕ) → pool_in_row share self.new a ≡ with_pool (pool_in_row share self.old) address.now (λ pool. offered (without_producer pool number) number free undecided) a) }
    {
        let place = address.as_bytes();
        if let Some(there) = self.pools.get_mut(place) {
            there.drop_producer(ProducerId(number));
            there.offer(ConsumerId(number), free, undecided)?;
            return Ok(there.is_short());
        }
        let mut pool = Pool::new(self.alloc, table.distribution(address));
        pool.offer(ConsumerId(number), free, undecided)?;
        self.put(place, pool)?;
        Ok(true)
    }

    /// Sets what a consumer offers to an address that has a pool. It is no producer there. Returns whether the address
    /// may have grants then.
    pub(crate) fn offer_there(
        &mut self,
        address: &[u8],
        number: u64,
        free: u64,
        undecided: u64,
    ) -> Result<bool, AllocError>
        ensures quiet { IfOk result (λ may. may ≡ false → is_some (at self.old.pools address.now) ≡ true → (share : List ℕ → Distribution) → grants_of (pool_in_row share self.new address.now) ≡ []) }
        ensures changed { OnOk result (is_some (at self.old.pools address.now) ≡ true → (share : List ℕ → Distribution) (a : List ℕ) → pool_in_row share self.new a ≡ with_pool (pool_in_row share self.old) address.now (λ pool. offered (without_producer pool number) number free undecided) a) }
    {
        let Some(found) = self.pools.get_there_mut(address) else {
            return Ok(true);
        };
        found.drop_producer(ProducerId(number));
        found.offer(ConsumerId(number), free, undecided)?;
        Ok(found.is_short())
    }

    /// Sets what a producer wants of an address, whose pool is shared as this table says. It is no consumer there.
    /// Returns whether the address may have grants then.
    pub(crate) fn want(
        &mut self,
        table: &Table,
        address: &str,
        number: u64,
        unused: u32,
        due: u32,
        held: u32,
    ) -> Result<bool, AllocError>
        ensures quiet { IfOk result (λ may. may ≡ false → (share : List ℕ → Distribution) → grants_of (pool_in_row share self.new address.now) ≡ []) }
        ensures changed { OnOk result ((share : List ℕ → Distribution) → distribution_of table.now address.now ≡ share address.now → (a : List ℕ) → pool_in_row share self.new a ≡ with_pool (pool_in_row share self.old) address.now (λ pool. wanted (without_consumer pool number) number unused due held) a) }
    {
        let place = address.as_bytes();
        if let Some(there) = self.pools.get_mut(place) {
            there.drop_consumer(ConsumerId(number));
            there.want(ProducerId(number), unused, due, held)?;
            return Ok(there.is_short());
        }
        let mut pool = Pool::new(self.alloc, table.distribution(address));
        pool.want(ProducerId(number), unused, due, held)?;
        self.put(place, pool)?;
        Ok(true)
    }

    /// Sets what a producer wants of an address that has a pool. It is no consumer there. Returns whether the address
    /// may have grants then.
    pub(crate) fn want_there(
        &mut self,
        address: &[u8],
        number: u64,
        unused: u32,
        due: u32,
        held: u32,
    ) -> Result<bool, AllocError>
        ensures quiet { IfOk result (λ may. may ≡ false → is_some (at self.old.pools address.now) ≡ true → (share : List ℕ → Distribution) → grants_of (pool_in_row share self.new address.now) ≡ []) }
        ensures changed { OnOk result (is_some (at self.old.pools address.now) ≡ true → (share : List ℕ → Distribution) (a : List ℕ) → pool_in_row share self.new a ≡ with_pool (pool_in_row share self.old) address.now (λ pool. wanted (without_consumer pool number) number unused due held) a) }
    {
        let Some(found) = self.pools.get_there_mut(address) else {
            return Ok(true);
        };
        found.drop_consumer(ConsumerId(number));
        found.want(ProducerId(number), unused, due, held)?;
        Ok(found.is_short())
    }

    /// Removes a link from the pool of an address.
    pub(crate) fn leave(&mut self, address: &[u8], number: u64)
        ensures { (share : List ℕ → Distribution) (a : List ℕ) → pool_in_row share self.new a ≡ with_pool (pool_in_row share self.old) address.now (λ pool. without pool number) a }
    {
        if let Some(pool) = self.pools.get_mut(address) {
            pool.drop_consumer(ConsumerId(number));
            pool.drop_producer(ProducerId(number));
        }
    }

    /// Removes the pool of an address if it has no links.
    pub(crate) fn forget(&mut self, address: &[u8])
        ensures rested { (share : List ℕ → Distribution) → (pool_in_row share self.old address.now).distribution ≡ share address.now → (a : List ℕ) → pool_in_row share self.new a ≡ with_pool (pool_in_row share self.old) address.now rested a }
        ensures gone { (share : List ℕ → Distribution) → has_no_links (pool_in_row share self.old address.now) ≡ true → is_some (at self.new.pools address.now) ≡ false }
    {
        if let Some(pool) = self.pools.get(address) {
            if pool.is_empty() {
                self.pools.remove(address);
            }
        }
    }

    /// Whether it has no pool.
    #[inline]
    pub(crate) fn is_empty(&self) -> bool
        ensures { result ≡ has_no_pools self.now }
    {
        self.pools.is_empty()
    }

    /// The consumer that would be chosen for the next delivery of an address that has a pool.
    #[inline]
    pub(crate) fn peek(&self, address: &[u8]) -> Option<ConsumerId>
        ensures { is_some (at self.now.pools address.now) ≡ true → (share : List ℕ → Distribution) → option_map (λ c. c.0) result ≡ choice (pool_in_row share self.now address.now) }
    {
        match self.pools.get_there(address) {
            None => None,
            Some(pool) => pool.peek(),
        }
    }

    /// The consumers that get a copy of a message of an address that has a pool.
    #[inline]
    pub(crate) fn copies(&self, address: &[u8]) -> Result<Vec<ConsumerId>, AllocError>
        ensures { IfOk result (λ to. is_some (at self.now.pools address.now) ≡ true → (share : List ℕ → Distribution) → map (λ c. c.0) to.items ≡ copies (pool_in_row share self.now address.now)) }
    {
        match self.pools.get_there(address) {
            None => Ok(Vec::new(self.alloc)),
            Some(pool) => pool.copies(),
        }
    }

    /// Chooses the consumer of the next delivery of an address that has a pool.
    #[inline]
    pub(crate) fn choose(&mut self, address: &[u8]) -> Option<ConsumerId>
        ensures chosen { is_some (at self.old.pools address.now) ≡ true → (share : List ℕ → Distribution) → option_map (λ c. c.0) result ≡ choice (pool_in_row share self.old address.now) }
        ensures noted { is_some (at self.old.pools address.now) ≡ true → (share : List ℕ → Distribution) (a : List ℕ) → pool_in_row share self.new a ≡ with_pool (pool_in_row share self.old) address.now (λ pool. chose pool (option_map (λ c. c.0) result)) a }
    {
        match self.pools.get_there_mut(address) {
            None => None,
            Some(pool) => pool.choose(),
        }
    }

    /// Notes that this consumer is chosen for the next delivery of an address that has a pool.
    #[inline]
    pub(crate) fn note(&mut self, address: &[u8], consumer: ConsumerId)
        ensures { is_some (at self.old.pools address.now) ≡ true → (share : List ℕ → Distribution) (a : List ℕ) → pool_in_row share self.new a ≡ with_pool (pool_in_row share self.old) address.now (λ pool. chose pool (Some consumer.0)) a }
    {
        if let Some(pool) = self.pools.get_there_mut(address) {
            pool.note(consumer);
        }
    }

    /// The grants of an address.
    #[inline]
    pub(crate) fn grants(&mut self, address: &[u8]) -> Result<Vec<(ProducerId, u32)>, AllocError>
        ensures sums { IfOk result (λ sums. (share : List ℕ → Distribution) → by_id sums.items ≡ grants_of (pool_in_row share self.old address.now)) }
        ensures filled { OnOk result ((share : List ℕ → Distribution) (a : List ℕ) → pool_in_row share self.new a ≡ with_pool (pool_in_row share self.old) address.now all_granted a) }
    {
        match self.pools.get_mut(address) {
            None => Ok(Vec::new(self.alloc)),
            Some(pool) => pool.grants(),
        }
    }

    /// The grants of an address that has a pool.
    #[inline]
    pub(crate) fn grants_there(
        &mut self,
        address: &[u8],
    ) -> Result<Vec<(ProducerId, u32)>, AllocError>
        ensures sums { IfOk result (λ sums. is_some (at self.old.pools address.now) ≡ true → (share : List ℕ → Distribution) → by_id sums.items ≡ grants_of (pool_in_row share self.old address.now)) }
        ensures filled { OnOk result (is_some (at self.old.pools address.now) ≡ true → (share : List ℕ → Distribution) (a : List ℕ) → pool_in_row share self.new a ≡ with_pool (pool_in_row share self.old) address.now all_granted a) }
    {
        match self.pools.get_there_mut(address) {
            None => Ok(Vec::new(self.alloc)),
            Some(pool) => pool.grants(),
        }
    }
}
