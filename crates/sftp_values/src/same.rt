//! Equality tests that decide equality.
ghost use Rattle.std.specs.Prelude.{◌≡◌, IsTrue, ◌↔◌, ◌==◌};
ghost use Rattle.std.specs.Bool.{Decides};
ghost use Rattle.std.specs.Cmp.Lexicographic.{bytes_decides};
ghost use Rattle.sftp_values.specs.Same.{items_decides};

use crate::byte_text::ByteText;
use crate::items::Items;

/// A type whose `==` is true exactly if a contract sees the two values as equal.
///
/// Example: `crates/test_wire/src/model.rt`.
pub trait Same: PartialEq {
    /// `==` decides equality.
    ghost decides: { (a b : Self) → Decides (Self.PartialEq.eq a b) (a ≡ b) };
}

impl Same for ByteText {
    ghost decides = { bytes_decides };
}

impl<T: Same> Same for Items<T> {
    ghost decides = { items_decides T.PartialEq.eq T.decides };
}

/// Returns true if a contract sees the two values as equal.
pub fn is_same<T: Same>(a: &T, b: &T) -> bool
    ensures { IsTrue result ↔ (a.now ≡ b.now) }
{
    a == b
}
