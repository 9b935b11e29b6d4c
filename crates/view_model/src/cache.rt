//! The cache of blocks.
ghost use Rattle.std.specs.Prelude.{◌≡◌, ◌≤◌, ◌<◌, ◌-◌, ◌^◌, IfOk, OnOk};
ghost use Rattle.view_model.specs.Blocks.{without_blocks_of, nothing_kept};
ghost use Rattle.view_model.specs.Caches.{FindsBlock, blocks_of, cache_of};
ghost use Rattle.view_model.specs.Viewed.{missed_by};

use crate::key::BlockKey;
use lru::LruCache;
use sftp_model::TryCopy;
use sftp_values::{ByteText, Items};
use ssh_encoding::OutOfMemory;
use std::alloc::Global;
use std::marker::Model;
use std::num::NonZeroUsize;

/// The blocks that were used last, with their bytes, the number of hits and the number of misses. A contract sees the
/// capacity and the blocks that the definitions keep.
///
/// Example: `crates/sftp_view/src/ops.rt`.
#[derive(Drop)]
pub struct BlockCache {
    blocks: LruCache<BlockKey, ByteText>,
    hits: u64,
    misses: u64,
}

impl Model for BlockCache {
    ghost use Rattle.view_model.specs.Caches.{CacheValue, cache_of};

    ghost Value = { CacheValue };

    ghost view = { λ c. cache_of c.blocks.cap (record { entries = c.blocks.entries; hits = c.hits; misses = c.misses }) };
}

impl BlockCache {
    /// Returns an empty cache of at most `capacity` blocks.
    ///
    /// # Errors
    ///
    /// `OutOfMemory` if an allocation fails.
    pub fn new(alloc: Global, capacity: u32) -> Result<BlockCache, OutOfMemory>
        requires { 1 ≤ capacity }
        ensures { IfOk result (λ cache. cache ≡ cache_of capacity nothing_kept) }
    {
        let Some(capacity) = NonZeroUsize::new(capacity as usize) else {
            unreachable!()
        };
        let blocks = LruCache::sparse(alloc, capacity)?;
        Ok(BlockCache {
            blocks,
            hits: 0,
            misses: 0,
        })
    }

    /// Returns the number of lookups that found their block in the cache.
    pub fn hits(&self) -> u64
        ensures { result ≡ self.now.kept.hits }
    {
        self.hits
    }

    /// Returns the number of lookups that did not find their block in the cache.
    pub fn misses(&self) -> u64
        ensures { result ≡ self.now.kept.misses }
    {
        self.misses
    }

    /// Returns the bytes of a block that is kept; the block moves to the front, and a hit is counted. Returns `None` if
    /// it isn't kept, and then nothing changes.
    ///
    /// # Errors
    ///
    /// `OutOfMemory` if an allocation fails.
    pub fn find(&mut self, alloc: Global, key: &BlockKey) -> Result<Option<ByteText>, OutOfMemory>
        requires { self.old.kept.hits < 2 ^ 64 - 1 }
        ensures { IfOk result (λ found. FindsBlock key.now found self.old self.new) }
    {
        match self.blocks.get(key) {
            Some(bytes) => {
                let bytes = bytes.try_copy(alloc)?;
                self.hits += 1;
                Ok(Some(bytes))
            }
            None => Ok(None),
        }
    }

    /// Counts a miss, and puts a block that was read to the front. The last one is removed if the cache is full. A
    /// block that was refused isn't kept.
    ///
    /// # Errors
    ///
    /// `OutOfMemory` if an allocation fails.
    pub fn keep(
        &mut self,
        alloc: Global,
        key: &BlockKey,
        found: &Result<ByteText, u32>,
    ) -> Result<(), OutOfMemory>
        requires { self.old.kept.misses < 2 ^ 64 - 1 }
        ensures { OnOk result (self.new ≡ cache_of self.old.capacity (missed_by self.old.capacity key.now self.old.kept found.now).kept) }
    {
        let Ok(bytes) = found else {
            self.misses += 1;
            return Ok(());
        };
        let name = key.name.try_copy(alloc)?;
        let bytes = bytes.try_copy(alloc)?;
        let block = key.block;
        self.blocks.put(BlockKey { name, block }, bytes)?;
        self.misses += 1;
        Ok(())
    }

    /// Drops all blocks of a name.
    ///
    /// # Errors
    ///
    /// `OutOfMemory` if an allocation fails.
    pub fn forget(&mut self, alloc: Global, name: &Items<ByteText>) -> Result<(), OutOfMemory>
        ensures { OnOk result (self.new ≡ cache_of self.old.capacity (without_blocks_of name.now self.old.kept)) }
    {
        let numbers = blocks_of(alloc, &self.blocks, name)?;
        let mut key = BlockKey {
            name: name.try_copy(alloc)?,
            block: 0,
        };
        for block in numbers {
            key.block = block;
            self.blocks.pop(&key);
        }
        Ok(())
    }
}

/// Returns the numbers of the blocks of a name that are kept, in their order.
fn blocks_of(
    alloc: Global,
    blocks: &LruCache<BlockKey, ByteText>,
    name: &Items<ByteText>,
) -> Result<Vec<u64>, OutOfMemory>
    ensures { IfOk result (λ numbers. numbers.items ≡ blocks_of name.now blocks.now.entries) }
{
    let mut numbers = Vec::new(alloc);
    for (key, _) in blocks.iter() {
        if key.name == *name {
            numbers.push(key.block)?;
        }
    }
    Ok(numbers)
}
