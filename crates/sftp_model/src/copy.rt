//! A trait for values that are copied with fallible allocation.
ghost use Rattle.std.specs.Prelude.{◌≡◌, IfOk};

use bytes::Bytes;
use sftp_values::{ByteText, Items};
use ssh_encoding::OutOfMemory;
use std::alloc::Global;

/// A type whose values can be copied if an allocation succeeds.
///
/// Example: `crates/test_wire/src/model.rt`.
pub trait TryCopy: Sized {
    /// Returns a value equal to this one.
    ///
    /// # Errors
    ///
    /// `OutOfMemory` if an allocation fails; nothing remains of the copy then.
    fn try_copy(&self, alloc: Global) -> Result<Self, OutOfMemory>
        ensures { IfOk result (λ copy. copy ≡ self.now) };
}

/// Returns copies of the values of a slice, in order. Fails only if an allocation fails.
pub(crate) fn copies_of<T: TryCopy + Drop>(
    alloc: Global,
    items: &[T],
) -> Result<Vec<T>, OutOfMemory>
    ensures { IfOk result (λ copies. copies.items ≡ items.now) }
{
    let mut copies = Vec::new(alloc);
    for item in items {
        copies.push(item.try_copy(alloc)?)?;
    }
    Ok(copies)
}

impl TryCopy for ByteText {
    fn try_copy(&self, alloc: Global) -> Result<ByteText, OutOfMemory> {
        Ok(self.try_clone(alloc)?)
    }
}

impl<T: TryCopy + Drop> TryCopy for Items<T> {
    fn try_copy(&self, alloc: Global) -> Result<Items<T>, OutOfMemory> {
        Ok(Items::new(copies_of(alloc, self.as_slice())?))
    }
}

impl TryCopy for Bytes {
    fn try_copy(&self, _alloc: Global) -> Result<Bytes, OutOfMemory> {
        Ok(self.clone()?)
    }
}
