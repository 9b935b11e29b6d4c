//! Paths on the server.
ghost use Rattle.std.specs.Prelude.{◌≡◌, ◌==◌, List, ℕ, IfOk};
ghost use Rattle.std.proofs.Common.{rules};
ghost use Rattle.std.specs.Cmp.Lexicographic.{pointwise};
ghost use Rattle.std.specs.Cmp.Rules.{comparing};
ghost use Rattle.sftp_model.specs.Paths.{is_absolute_path, joined_path, with_separator};

use crate::copy::TryCopy;
use sftp_values::ByteText;
use ssh_encoding::OutOfMemory;
use std::alloc::Global;
use std::marker::Model;

/// A path on the server, of any bytes. A contract sees it as their list (draft-ietf-secsh-filexfer-02, section 6.2).
///
/// Example: `crates/example_client/src/sizes.rt`.
#[derive(Debug, Drop)]
pub struct RemotePath {
    text: ByteText,
}

impl Model for RemotePath {
    ghost Value = { List ℕ };

    ghost view = { λ p. p.text };
}

impl RemotePath {
    /// Creates the path of these bytes. Does not allocate.
    pub fn new(bytes: Vec<u8>) -> RemotePath
        ensures { result ≡ bytes.items }
    {
        RemotePath {
            text: ByteText::new(bytes),
        }
    }

    /// Returns the bytes.
    pub fn as_bytes(&self) -> &[u8]
        ensures { result.now ≡ self.now }
    {
        self.text.as_slice()
    }

    /// Returns true if the first byte is `/`; an empty path is not absolute.
    pub fn is_absolute(&self) -> bool
        ensures { result ≡ is_absolute_path self.now }
    {
        is_absolute(self.as_bytes())
    }

    /// Returns the path that `path` names from this directory.
    ///
    /// An absolute `path` is returned as it is. Otherwise the result is this path and `path` with one `/` between them.
    /// No `/` is added if this path is empty or ends in `/`.
    ///
    /// # Errors
    ///
    /// `OutOfMemory` if an allocation fails.
    pub fn join(&self, alloc: Global, path: &[u8]) -> Result<RemotePath, OutOfMemory>
        ensures { IfOk result (λ p. p ≡ joined_path self.now path.now) }
    {
        if is_absolute(path) {
            return Ok(RemotePath::new(Vec::from_slice(alloc, path)?));
        }
        let mut joined = with_separator(alloc, self.as_bytes())?;
        joined.extend_from_slice(path)?;
        Ok(RemotePath::new(joined))
    }
}

/// Returns a copy of a directory, with a `/` at its end if it is not empty. Fails only if an allocation fails.
fn with_separator(alloc: Global, directory: &[u8]) -> Result<Vec<u8>, OutOfMemory>
    ensures { IfOk result (λ bytes. bytes.items ≡ with_separator directory.now) }
{
    let mut bytes = Vec::from_slice(alloc, directory)?;
    match directory.last() {
        Some(b'/') | None => Ok(bytes),
        Some(_) => {
            bytes.push(b'/')?;
            Ok(bytes)
        }
    }
}

/// Returns true if the first byte is `/`.
fn is_absolute(path: &[u8]) -> bool
    ensures { result ≡ is_absolute_path path.now }
{
    match path {
        [first, ..] => *first == b'/',
        [] => false,
    }
}

impl PartialEq for RemotePath {
    ghost eq = { pointwise ◌==◌ };

    ghost laws = { Prim.search (comparing, rules) };

    fn eq(&self, other: &RemotePath) -> bool {
        self.text == other.text
    }
}

impl Eq for RemotePath {
    ghost laws = { Prim.search (comparing, rules) };
}

impl TryCopy for RemotePath {
    fn try_copy(&self, alloc: Global) -> Result<RemotePath, OutOfMemory> {
        Ok(RemotePath {
            text: self.text.try_copy(alloc)?,
        })
    }
}
