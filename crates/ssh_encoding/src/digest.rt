//! Writers whose bytes are absorbed, as a digest does.
ghost use Rattle.std.specs.Prelude.{◌≡◌, ℕ, List, ◌++◌, OnOk, OnErr};
ghost use Rattle.std.proofs.Common.{◌∙◌, refl};
ghost use Rattle.ssh_encoding.specs.Writing.{IsPart, WritesValue};

use crate::encode::Encode;
use crate::error::Error;
use crate::out_of_memory::OutOfMemory;
use crate::writer::Writer;

/// A type that takes bytes one after another, as a digest does.
///
/// Example: `crates/test_wire/src/encoding/writers.rt`.
pub trait Absorb {
    /// The bytes that it took.
    ghost absorbed: { Self → List ℕ };

    /// Takes the bytes.
    ///
    /// # Errors
    ///
    /// `OutOfMemory` if an allocation fails. It may have taken a prefix of the bytes.
    fn absorb(&mut self, bytes: &[u8]) -> Result<(), OutOfMemory>
        ensures ok { OnOk result (absorbed self.new ≡ absorbed self.old ++ bytes.now) }
        ensures err { OnErr result (IsPart (absorbed self.old) (absorbed self.new) bytes.now) };
}

/// A writer that passes its bytes to an [`Absorb`].
///
/// Used in `crates/ssh_encoding/src/lib.rt`.
#[derive(Drop)]
pub struct DigestWriter<'d, D: Absorb>(pub &'d mut D);

impl<'d, D: Absorb> Writer for DigestWriter<'d, D> {
    ghost wrote = { λ w. D.absorbed w.0.now };

    ghost goes_to = { λ a b. a.0.ghost_name ≡ b.0.ghost_name };

    fn write(&mut self, bytes: &[u8]) -> Result<(), Error> {
        match self.0.absorb(bytes) {
            Ok(()) => Ok(()),
            Err(_) => Err(Error::OutOfMemory),
        }
    }

    ghost stays = { λ a. refl };

    ghost goes_on = { λ a b c p q. p ∙ q };
}

/// Writes a value into an [`Absorb`].
///
/// # Errors
///
/// `Length` or `Overflow` for a value that cannot be written, and `OutOfMemory` if an allocation fails. The digest may
/// have taken a prefix of the value's bytes.
pub fn absorb_value<D: Absorb, T: Encode>(value: &T, digest: &mut D) -> Result<(), Error>
    ensures { WritesValue (D.absorbed digest.old) (D.absorbed digest.new) result (T.written value.now) (T.refusal value.now) }
{
    let mut writer = DigestWriter(digest);
    value.encode(&mut writer)
}
