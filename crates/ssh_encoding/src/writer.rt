//! Writers of bytes.
ghost use Rattle.std.specs.Prelude.{◌≡◌, ⊤, ℕ, List, ◌++◌, OnOk, IfErr};
ghost use Rattle.ssh_encoding.specs.Writing.{IsPart};

use crate::error::Error;
use bytes::BytesMut;

/// A target to which bytes are written. `Vec<u8>`, `BytesMut` and [`crate::DigestWriter`] are writers.
///
/// Used in `crates/sftp_wire/src/fields.rt`.
pub trait Writer: Sized {
    /// The bytes that it holds.
    ghost wrote: { Self → List ℕ };

    /// Both write to one place. This matters for a writer that holds a `&mut`.
    ghost goes_to: { Self → Self → Type 0 };

    /// Appends the bytes.
    ///
    /// # Errors
    ///
    /// `OutOfMemory` only; a prefix of the bytes may have been written.
    fn write(&mut self, bytes: &[u8]) -> Result<(), Error>
        ensures ok { OnOk result (wrote self.new ≡ wrote self.old ++ bytes.now) }
        ensures err { IfErr result (λ e. (e ≡ Error.OutOfMemory) × IsPart (wrote self.old) (wrote self.new) bytes.now) }
        ensures same { goes_to self.old self.new };

    /// A writer writes to its own place.
    ghost stays: { (a : Self) → goes_to a a };

    /// Writing continues at one place.
    ghost goes_on: { (a b c : Self) → goes_to a b → goes_to b c → goes_to a c };
}

impl Writer for Vec<u8> {
    ghost wrote = { λ v. v.items };

    ghost goes_to = { λ _ _. ⊤ };

    #[tactic(auto, using(crate::proofs::Parts::parts))]
    fn write(&mut self, bytes: &[u8]) -> Result<(), Error> {
        self.extend_from_slice(bytes)?;
        Ok(())
    }

    ghost stays = { λ a. tt };

    ghost goes_on = { λ a b c p q. tt };
}

impl Writer for BytesMut {
    ghost wrote = { λ b. b.items };

    ghost goes_to = { λ _ _. ⊤ };

    #[tactic(auto, using(crate::proofs::Parts::parts))]
    fn write(&mut self, bytes: &[u8]) -> Result<(), Error> {
        self.extend_from_slice(bytes)?;
        Ok(())
    }

    ghost stays = { λ a. tt };

    ghost goes_on = { λ a b c p q. tt };
}
