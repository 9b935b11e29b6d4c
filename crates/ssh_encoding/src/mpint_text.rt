//! Numbers as text, in hexadecimal digits.
ghost use Rattle.std.specs.Prelude.{Some, true, ◌∷◌, []};
ghost use Rattle.std.specs.Fmt.{WritesOnOk};
ghost use Rattle.ssh_encoding.specs.Canonical.{hex_text};

use crate::mpint::Mpint;
use std::fmt;

/// Writes a byte as two upper-case hexadecimal digits.
#[tactic(auto, using(std::proofs::lemmas::Fmt::hex_byte))]
fn write_byte<W: fmt::Write>(byte: u8, f: &mut fmt::Formatter<W>) -> fmt::Result
    ensures { WritesOnOk W.write_str_gives f.old result (hex_text true (byte ∷ [])) f.new }
{
    write!(f, "{byte:02X}")
}

/// The canonical bytes in upper-case hexadecimal digits.
impl fmt::Display for Mpint {
    ghost output = { λ m. Some (hex_text true m) };

    fn fmt<W: fmt::Write>(&self, f: &mut fmt::Formatter<W>) -> fmt::Result {
        for byte in self.as_bytes() {
            write_byte(*byte, f)?;
        }
        Ok(())
    }
}

/// The canonical bytes in upper-case hexadecimal digits.
impl fmt::UpperHex for Mpint {
    fn fmt<W: fmt::Write>(&self, f: &mut fmt::Formatter<W>) -> fmt::Result {
        fmt::Display::fmt(self, f)
    }
}

/// The canonical bytes in lower-case hexadecimal digits.
impl fmt::LowerHex for Mpint {
    fn fmt<W: fmt::Write>(&self, f: &mut fmt::Formatter<W>) -> fmt::Result {
        for byte in self.as_bytes() {
            write!(f, "{byte:02x}")?;
        }
        Ok(())
    }
}

/// `Mpint(DIGITS)`, with the digits of `Display`.
impl fmt::Debug for Mpint {
    fn fmt<W: fmt::Write>(&self, f: &mut fmt::Formatter<W>) -> fmt::Result {
        write!(f, "Mpint({self})")
    }
}
