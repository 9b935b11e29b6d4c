//! Bytes that contracts see as a list.
ghost use Rattle.std.specs.Prelude.{◌≡◌, ◌==◌, ◌++◌, IfOk, List, ℕ};
ghost use Rattle.std.proofs.Common.{rules};
ghost use Rattle.std.specs.Cmp.Lexicographic.{pointwise};
ghost use Rattle.std.specs.Cmp.Rules.{comparing};
ghost use Rattle.sftp_values.specs.Store.{bytes_in};

use bytes::Bytes;
use std::alloc::{AllocError, Global};
use std::marker::Model;

/// Where the bytes are: in a vector of their own, or in a buffer that others read too.
#[derive(Debug, Drop)]
pub(crate) enum Store {
    Owned(Vec<u8>),
    Shared(Bytes),
}

/// Bytes. A contract sees them as their list, independent of their address and capacity in memory, and of whether
/// others share them.
///
/// Example: `crates/example_threads/src/receipts.rt`.
#[derive(Debug)]
pub struct ByteText {
    store: Store,
}

impl Model for ByteText {
    ghost use Rattle.std.specs.Prelude.{List, ℕ};
    ghost use Rattle.sftp_values.specs.Store.{bytes_in};

    ghost Value = { List ℕ };

    ghost view = { λ t. bytes_in t.store };
}

impl Drop for ByteText {
    /// Releases the bytes.
    fn drop(self) {
        let ByteText { store: _store } = self;
    }
}

impl ByteText {
    /// Creates it from the bytes of a vector. Does not allocate.
    pub fn new(bytes: Vec<u8>) -> ByteText
        ensures { result ≡ bytes.items }
    {
        ByteText {
            store: Store::Owned(bytes),
        }
    }

    /// Creates it from bytes that others may share. Its copies share them too. Does not allocate.
    pub fn shared(bytes: Bytes) -> ByteText
        ensures { result ≡ bytes }
    {
        ByteText {
            store: Store::Shared(bytes),
        }
    }

    /// Returns the bytes.
    pub fn as_slice(&self) -> &[u8]
        ensures { result.now ≡ self.now }
    {
        match &self.store {
            Store::Owned(bytes) => bytes.as_slice(),
            Store::Shared(bytes) => bytes.as_slice(),
        }
    }

    /// Returns a copy. Shared bytes aren't copied: the copy shares them.
    ///
    /// # Errors
    ///
    /// `AllocError` if an allocation fails.
    pub fn try_clone(&self, alloc: Global) -> Result<ByteText, AllocError>
        ensures { IfOk result (λ copy. copy ≡ self.now) }
    {
        match &self.store {
            Store::Owned(bytes) => Ok(ByteText::new(Vec::from_slice(alloc, bytes.as_slice())?)),
            Store::Shared(bytes) => Ok(ByteText::shared(bytes.clone()?)),
        }
    }

    /// Returns the bytes as a vector. Copies them only if others share them.
    ///
    /// # Errors
    ///
    /// `AllocError` if an allocation fails.
    pub fn into_vec(self, alloc: Global) -> Result<Vec<u8>, AllocError>
        ensures { IfOk result (λ bytes. bytes.items ≡ self) }
    {
        let ByteText { store } = self;
        match store {
            Store::Owned(bytes) => Ok(bytes),
            Store::Shared(bytes) => match bytes.try_into_mut() {
                Ok(bytes) => Ok(bytes.into_vec()?),
                Err(bytes) => Vec::from_slice(alloc, bytes.as_slice()),
            },
        }
    }
}

impl PartialEq for ByteText {
    ghost eq = { pointwise ◌==◌ };

    ghost laws = { Prim.search (comparing, rules) };

    fn eq(&self, other: &ByteText) -> bool {
        self.as_slice() == other.as_slice()
    }
}

impl Eq for ByteText {
    ghost laws = { Prim.search (comparing, rules) };
}
