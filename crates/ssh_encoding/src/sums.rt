//! Sums that are checked for overflow.
ghost use Rattle.std.specs.Prelude.{◌≡◌, ◌<◌, ◌+◌, ℕ, List, Some, IfOk, IfErr, sum};
ghost use Rattle.std.specs.Iterator.{IsFinite, Drains, YieldsThen};
ghost use Rattle.ssh_encoding.specs.Writing.{CountsBytes};

use crate::error::Error;

/// Values that can be added up within the range of the sum.
///
/// Used in `crates/ssh_encoding/src/lib.rt`.
pub trait CheckedSum<A>: Sized {
    /// The values end.
    ghost ends: { Self → Type 0 };

    /// The sum of all values.
    ghost adds: { Self → A → Type 0 };

    /// The values, from the first up to some, have a sum over the greatest `A`.
    ghost passes: { Self → Type 0 };

    /// Returns the sum.
    ///
    /// # Errors
    ///
    /// `Length` only if it is over the greatest `A`.
    fn checked_sum(self) -> Result<A, Error>
        requires { ends self }
        ensures ok { IfOk result (adds self) }
        ensures err { IfErr result (λ e. (e ≡ Error.Length) × passes self) };
}

impl<I: IntoIterator<Item = usize>> CheckedSum<usize> for I
where
    I::IntoIter: Drop,
{
    ghost ends = { λ s. (it : I.IntoIter) → I.into_iter_gives s it → I.IntoIter.can_next it × IsFinite (I.IntoIter.remaining it) };

    ghost adds = { λ s n. (it : I.IntoIter) × (xs : List ℕ) × I.into_iter_gives s it × Drains I.IntoIter.next_gives it xs × (n ≡ sum xs) };

    ghost passes = { λ s. (it : I.IntoIter) × (xs : List ℕ) × (n : ℕ) × (rest : I.IntoIter) × I.into_iter_gives s it × YieldsThen I.IntoIter.next_gives it xs (Some n) rest × (18446744073709551615 < sum xs + n) };

    fn checked_sum(self) -> Result<usize, Error> {
        let mut total: usize = 0;
        for n in self {
            total = total.checked_add(n).ok_or(Error::Length)?;
        }
        Ok(total)
    }
}

/// Returns the sum of two lengths. `Length` if it is over `usize::MAX`.
pub(crate) fn add_lens(a: usize, b: usize) -> Result<usize, Error>
    ensures { CountsBytes result (a + b) }
{
    a.checked_add(b).ok_or(Error::Length)
}
