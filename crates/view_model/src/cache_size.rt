//! The size of a cache, by the arguments of the command line.
ghost use Rattle.std.specs.Prelude.{◌≡◌, map, IfOk, IfSome};
ghost use Rattle.std.specs.String.{string_bytes};
ghost use Rattle.view_model.specs.CacheSizes.{IsCacheSize, cache_size_in, view_of};

use script_grammar::{Reason, number_in};

/// The greatest length of a block.
const MAX_BLOCK: u64 = 65536;

/// The most blocks that may be kept.
const MAX_CAPACITY: u64 = 4096;

/// The length of blocks, and the number that are kept.
///
/// Used in `crates/sftp_view/src/reply.rt`.
#[derive(Clone, Copy, Debug, PartialEq, Eq)]
pub struct CacheSize {
    /// The length of a block in bytes, from 1 to 65536.
    pub block: u32,
    /// The number of blocks that may be kept, from 1 to 4096.
    pub capacity: u32,
}

/// Returns two numbers, each within its range.
fn cache_size_in(block: &[u8], capacity: &[u8]) -> Result<CacheSize, Reason>
    ensures value { result ≡ cache_size_in block.now capacity.now }
    ensures ranges { IfOk result IsCacheSize }
{
    let block = number_in(1, MAX_BLOCK, block)?;
    let capacity = number_in(1, MAX_CAPACITY, capacity)?;
    Ok(CacheSize {
        block: block as u32,
        capacity: capacity as u32,
    })
}

/// Returns the size, if the arguments are `view` and two permitted numbers.
pub fn view_size(words: &[String]) -> Option<CacheSize>
    ensures value { result ≡ view_of (map string_bytes words.now) }
    ensures ranges { IfSome result IsCacheSize }
{
    match words {
        [word, block, capacity] => {
            if word.as_str() == "view" {
                cache_size_in(block.as_bytes(), capacity.as_bytes()).ok()
            } else {
                None
            }
        }
        _ => None,
    }
}
