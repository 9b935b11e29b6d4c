//! Shares of the files of a tree.
ghost use Rattle.std.specs.Prelude.{◌≡◌};
ghost use Rattle.transfer_filter.specs.Shards.{first_number, is_in_shard, share_of};

use sha2::{Digest, Sha256};

/// One of several shares of the files of a tree, for runs that copy one share each.
///
/// Example: `crates/sftp_transfer/src/tree.rt`.
#[derive(Clone, Copy, Debug, PartialEq, Eq)]
pub struct Shard {
    /// The number of this share, from 1.
    pub index: u32,
    /// The number of shares.
    pub count: u32,
}

/// Returns the number that the first four bytes write, the most significant one first; 0 if there are fewer.
fn first_number(bytes: &[u8]) -> u32
    ensures { result ≡ first_number bytes.now }
{
    match bytes {
        [a, b, c, d, ..] => {
            let upper = u32::from(*a) * 256 + u32::from(*b);
            let lower = u32::from(*c) * 256 + u32::from(*d);
            upper * 65536 + lower
        }
        _ => 0,
    }
}

/// Returns the number of the share that a path is in, if there are `count` shares, or `None` if there are none.
fn share_of(count: u32, path: &[u8]) -> Option<u32>
    ensures { result ≡ share_of count path.now }
{
    if count == 0 {
        return None;
    }
    let digest = Sha256::digest(path);
    Some(first_number(&digest) % count + 1)
}

impl Shard {
    /// Returns true if a path is in the share. Each path is in exactly one of the shares, by the first four bytes of its
    /// SHA-256 digest (FIPS 180-4).
    pub fn has(self, path: &[u8]) -> bool
        ensures { result ≡ is_in_shard self path.now }
    {
        share_of(self.count, path) == Some(self.index)
    }
}
