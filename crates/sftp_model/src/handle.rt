//! Handles of open files and directories.
ghost use Rattle.std.specs.Prelude.{◌≡◌, ◌==◌, ◌<◌, ◌≤◌, List, ℕ, length, take, IfSome, IfNone};
ghost use Rattle.std.proofs.Common.{rules};
ghost use Rattle.std.specs.Cmp.Lexicographic.{pointwise};
ghost use Rattle.std.specs.Cmp.Rules.{comparing};
ghost use Rattle.sftp_model.specs.Numbers.{MAX_HANDLE_LEN};

use crate::copy::TryCopy;
use crate::numbers;
use ssh_encoding::OutOfMemory;
use std::alloc::Global;
use std::marker::Model;

/// The name that a server assigns to an open file or directory: at most `MAX_HANDLE_LEN` bytes, stored inline. A
/// contract sees it as their list (draft-ietf-secsh-filexfer-02, section 7).
///
/// Example: `crates/bench_core/src/main.rt`.
#[derive(Debug, Drop)]
pub struct Handle {
    bytes: [u8; numbers::MAX_HANDLE_LEN],
    len: usize,
}

impl Model for Handle {
    ghost use Rattle.std.specs.Prelude.{List, ℕ, take, ◌≤◌};
    ghost use Rattle.sftp_model.specs.Numbers.{MAX_HANDLE_LEN};

    ghost Value = { List ℕ };

    ghost view = { λ h. take h.len h.bytes };

    ghost invariant = { λ h. h.len ≤ MAX_HANDLE_LEN };
}

impl Handle {
    /// Creates the handle of these bytes. Returns `None` exactly if there are more than `MAX_HANDLE_LEN`.
    pub fn new(bytes: &[u8]) -> Option<Handle>
        ensures value { IfSome result (λ h. h ≡ bytes.now) }
        ensures fits { IfSome result (λ h. length h ≤ MAX_HANDLE_LEN) }
        ensures none { IfNone result (MAX_HANDLE_LEN < length bytes.now) }
    {
        if bytes.len() > numbers::MAX_HANDLE_LEN {
            return None;
        }
        let mut held = [0u8; numbers::MAX_HANDLE_LEN];
        let prefix = &mut held[..bytes.len()];
        prefix.copy_from_slice(bytes);
        Some(Handle {
            bytes: held,
            len: bytes.len(),
        })
    }

    /// Returns a copy of the handle. Does not allocate.
    pub fn copied(&self) -> Handle
        ensures { result ≡ self.now }
    {
        Handle {
            bytes: self.bytes,
            len: self.len,
        }
    }

    /// Returns the bytes, at most `MAX_HANDLE_LEN`.
    pub fn as_bytes(&self) -> &[u8]
        ensures value { result.now ≡ self.now }
        ensures fits { length self.now ≤ MAX_HANDLE_LEN }
    {
        &self.bytes[..self.len]
    }
}

impl PartialEq for Handle {
    ghost eq = { pointwise ◌==◌ };

    ghost laws = { Prim.search (comparing, rules) };

    fn eq(&self, other: &Handle) -> bool {
        self.as_bytes() == other.as_bytes()
    }
}

impl Eq for Handle {
    ghost laws = { Prim.search (comparing, rules) };
}

impl TryCopy for Handle {
    fn try_copy(&self, _alloc: Global) -> Result<Handle, OutOfMemory> {
        Ok(self.copied())
    }
}
