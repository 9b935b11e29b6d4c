//! Copies of many values.
ghost use Rattle.std.specs.Prelude.{◌≡◌, IfOk};

use sftp_model::TryCopy;
use ssh_encoding::OutOfMemory;
use std::alloc::Global;

/// Returns copies of the values, in order. Fails if an allocation fails.
pub(crate) fn copies_of<T: TryCopy + Drop>(
    alloc: Global,
    items: &[T],
) -> Result<Vec<T>, OutOfMemory>
    ensures { IfOk result (λ copies. copies.items ≡ items.now) }
{
    let mut copies = Vec::new(alloc);
    for item in items {
        copies.push(item.try_copy(alloc)?)?;
    }
    Ok(copies)
}
