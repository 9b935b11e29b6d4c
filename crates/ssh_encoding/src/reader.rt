//! Readers of bytes.
ghost use Rattle.std.specs.Prelude.{◌≡◌, [], ◌==◌, ℕ, List, ◌<◌, ◌≤◌, length, take, drop, IfOk, IfErr, OnOk};
ghost use Rattle.std.specs.Fn.{FnOnceReturnsAtMut};
ghost use Rattle.ssh_encoding.specs.Reading.{ReadsTo, ReadsPrefixed, FindsPrefix, IsSuffix, prefix_at, string_within, text_within, string_len_at};

use crate::error::Error;

/// The greatest length that is read, in bytes. It bounds the memory that a length from the environment can ask for.
pub(crate) const MAX_LEN: usize = 1_048_575;

/// A source from which bytes are read, the first one first.
///
/// An implementation provides the first four calls; the others are based on these. `&[u8]` is a reader of the bytes
/// that it holds.
///
/// Example: `crates/example_encoding/src/values.rt`.
pub trait Reader: Sized + Drop {
    /// The bytes that are left.
    ghost left: { Self → List ℕ };

    /// Returns the number of bytes left.
    fn remaining_len(&self) -> usize
        ensures { result ≡ length (left self.now) };

    /// Fills `out` with the next bytes.
    ///
    /// # Errors
    ///
    /// `Length` if fewer bytes are left; no bytes are read, and `out` is unchanged.
    fn fill(&mut self, out: &mut [u8]) -> Result<(), Error>
        ensures ok { OnOk result ((length out.old ≤ length (left self.old)) × (out.new ≡ take (length out.old) (left self.old)) × (left self.new ≡ drop (length out.old) (left self.old))) }
        ensures err { IfErr result (λ e. (e ≡ Error.Length) × (length (left self.old) < length out.old) × (left self.new ≡ left self.old) × (out.new ≡ out.old)) }
        ensures rest { IsSuffix (left self.new) (left self.old) };

    /// Returns the next `n` bytes as a reader of their own. No bytes are read.
    fn prefix(&self, n: usize) -> Self
        requires { n ≤ length (left self.now) }
        ensures { left result ≡ take n (left self.now) };

    /// Passes over `n` bytes.
    fn skip(&mut self, n: usize)
        requires { n ≤ length (left self.old) }
        ensures moved { left self.new ≡ drop n (left self.old) }
        ensures rest { IsSuffix (left self.new) (left self.old) };

    /// Returns true if no bytes are left.
    final fn is_finished(&self) -> bool
        ensures { result ≡ (length (left self.now) == 0) }
    {
        self.remaining_len() == 0
    }

    /// Fills `out` with the next bytes, and lends it.
    ///
    /// # Errors
    ///
    /// `Length` if fewer bytes are left; no bytes are read then.
    final fn read<'o>(&mut self, out: &'o mut [u8]) -> Result<&'o [u8], Error>
        ensures ok { IfOk result (λ got. (length out.old ≤ length (left self.old)) × (got.now ≡ take (length out.old) (left self.old)) × (left self.new ≡ drop (length out.old) (left self.old))) }
        ensures err { IfErr result (λ e. (e ≡ Error.Length) × (length (left self.old) < length out.old) × (left self.new ≡ left self.old)) }
        ensures rest { IsSuffix (left self.new) (left self.old) }
    {
        self.fill(out)?;
        Ok(out)
    }

    /// Passes over `n_bytes` bytes.
    ///
    /// # Errors
    ///
    /// `Length` if fewer are left; no bytes are left then.
    final fn drain(&mut self, n_bytes: usize) -> Result<(), Error>
        ensures ok { OnOk result ((n_bytes ≤ length (left self.old)) × (left self.new ≡ drop n_bytes (left self.old))) }
        ensures err { IfErr result (λ e. (e ≡ Error.Length) × (length (left self.old) < n_bytes) × (left self.new ≡ [])) }
        ensures rest { IsSuffix (left self.new) (left self.old) }
    {
        let len = self.remaining_len();
        if len < n_bytes {
            self.skip(len);
            return Err(Error::Length);
        }
        self.skip(n_bytes);
        Ok(())
    }

    /// Passes over a string, and returns the number of its bytes.
    ///
    /// # Errors
    ///
    /// The errors of [`Reader::read_prefixed`].
    #[tactic(auto, unfolding(crate::specs::Reading::string_len_at), using(crate::proofs::Suffix::suffixes))]
    final fn drain_prefixed(&mut self) -> Result<usize, Error>
        ensures read { ReadsTo (λ n. n) (left self.new) result (string_len_at (left self.old)) }
        ensures rest { IsSuffix (left self.new) (left self.old) }
    {
        let inner = self.read_prefix()?;
        let len = inner.remaining_len();
        self.skip(len);
        Ok(len)
    }

    /// Checks that no bytes are left.
    ///
    /// # Errors
    ///
    /// `TrailingData` with the number of bytes, exactly if bytes are left.
    final fn ensure_finished(&self) -> Result<(), Error>
        ensures ok { OnOk result (left self.now ≡ []) }
        ensures err { IfErr result (λ e. (e ≡ Error.TrailingData (length (left self.now))) × (0 < length (left self.now))) }
    {
        let remaining = self.remaining_len();
        if remaining > 0 {
            return Err(Error::TrailingData { remaining });
        }
        Ok(())
    }

    /// Returns the value if no bytes are left.
    ///
    /// # Errors
    ///
    /// `TrailingData` exactly if bytes are left; the value is dropped then.
    final fn finish<T: Drop>(self, value: T) -> Result<T, Error>
        ensures ok { IfOk result (λ v. (v ≡ value) × (left self ≡ [])) }
        ensures err { IfErr result (λ e. (e ≡ Error.TrailingData (length (left self))) × (0 < length (left self))) }
    {
        self.ensure_finished()?;
        Ok(value)
    }

    /// Reads a string into a prefix of `out`, and lends that prefix.
    ///
    /// # Errors
    ///
    /// The errors of [`Reader::read_prefixed`], and `Length` if `out` is shorter than the string; the reader is then
    /// after the length.
    #[tactic(auto, unfolding(crate::specs::Reading::string_within), using(crate::proofs::Suffix::suffixes))]
    final fn read_byten<'o>(&mut self, out: &'o mut [u8]) -> Result<&'o [u8], Error>
        ensures read { ReadsTo (λ s. s.now) (left self.new) result (string_within (length out.old) (left self.old)) }
        ensures rest { IsSuffix (left self.new) (left self.old) }
    {
        let inner = self.read_prefix()?;
        let len = inner.remaining_len();
        if out.len() < len {
            return Err(Error::Length);
        }
        self.read(&mut out[..len])
    }

    /// Reads a text into a prefix of `buf`, and lends it.
    ///
    /// # Errors
    ///
    /// The errors of [`Reader::read_byten`], and `CharacterEncoding` if the string is not UTF-8; the reader is then
    /// after the string.
    #[tactic(auto, unfolding(crate::specs::Reading::text_within), using(crate::proofs::Text::utf8_tests))]
    final fn read_string<'o>(&mut self, buf: &'o mut [u8]) -> Result<&'o str, Error>
        ensures read { ReadsTo (λ s. s.now) (left self.new) result (text_within (length buf.old) (left self.old)) }
        ensures rest { IsSuffix (left self.new) (left self.old) }
    {
        let bytes = self.read_byten(buf)?;
        match str::from_utf8(bytes) {
            Ok(text) => Ok(text),
            Err(_) => Err(Error::CharacterEncoding),
        }
    }

    /// Returns the bytes that a length counts as a reader of their own. This reader is then after the length.
    ///
    /// # Errors
    ///
    /// The errors of [`Reader::read_prefixed`].
    #[tactic(auto, unfolding(crate::specs::Reading::prefix_at), using(crate::proofs::Suffix::suffixes))]
    final fn read_prefix(&mut self) -> Result<Self, Error>
        ensures read { FindsPrefix left (left self.old) result (left self.new) (prefix_at (left self.old)) }
        ensures rest { IsSuffix (left self.new) (left self.old) }
    {
        let mut buf = [0u8; 4];
        self.fill(&mut buf)?;
        let n = u32::from_be_bytes(buf) as usize;
        if n > MAX_LEN {
            return Err(Error::Overflow);
        }
        if self.remaining_len() < n {
            return Err(Error::Length);
        }
        Ok(self.prefix(n))
    }

    /// Reads a length of four bytes and lends that many bytes to `f`. After Ok this reader is after them, whatever `f`
    /// left.
    ///
    /// # Errors
    ///
    /// `Length` if fewer than four bytes are left; no bytes are read then. Otherwise `Overflow` if the length is over
    /// 1048575, `Length` if fewer bytes follow, or the error of `f`. After each of these three the reader is after the
    /// length.
    final fn read_prefixed<T, E: From<Error>, F: FnOnce(&mut Self) -> Result<T, E>>(
        &mut self,
        f: F,
    ) -> Result<T, E>
        requires { F.IsAlwaysCallable f }
        ensures read { ReadsPrefixed F.FnOnce left E.from_gives f (left self.old) result (left self.new) (prefix_at (left self.old)) }
        ensures rest { IsSuffix (left self.new) (left self.old) }
    {
        let mut inner = self.read_prefix()?;
        let n = inner.remaining_len();
        let result = call_with(f, &mut inner);
        if result.is_ok() {
            self.skip(n);
        }
        result
    }
}

/// Returns the result of `f` for `x`.
fn call_with<S, T, F: FnOnce(&mut S) -> T>(f: F, x: &mut S) -> T
    requires { F.IsAlwaysCallable f }
    ensures { FnOnceReturnsAtMut F.FnOnce f x.old result x.new }
{
    f(x)
}

impl<'a> Reader for &'a [u8] {
    ghost left = { λ s. s.now };

    fn remaining_len(&self) -> usize {
        self.len()
    }

    #[tactic(auto, using(crate::proofs::Suffix::suffixes))]
    fn fill(&mut self, out: &mut [u8]) -> Result<(), Error> {
        let all: &'a [u8] = *self;
        if all.len() < out.len() {
            return Err(Error::Length);
        }
        let (read, rest) = all.split_at(out.len());
        *self = rest;
        out.copy_from_slice(read);
        Ok(())
    }

    fn prefix(&self, n: usize) -> &'a [u8] {
        let all: &'a [u8] = *self;
        &all[..n]
    }

    #[tactic(auto, using(crate::proofs::Suffix::suffixes))]
    fn skip(&mut self, n: usize) {
        let all: &'a [u8] = *self;
        let (_, rest) = all.split_at(n);
        *self = rest;
    }
}
