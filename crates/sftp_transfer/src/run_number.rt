//! The number of a run.
ghost use Rattle.std.specs.Prelude.{◌≡◌};

use std::io;
use std::random::RandomSource;

/// The number of a run, in hexadecimal digits. The name of each part file that the run writes has it, so that two runs
/// never write one part file.
#[derive(Clone, Copy)]
pub(crate) struct RunNumber {
    digits: [u8; 16],
}

impl RunNumber {
    /// Returns a number of 64 bits that the system chose at random.
    ///
    /// # Errors
    ///
    /// The error of the system if it has no random bytes.
    pub(crate) fn random(rt: &HostRuntime) -> io::Result<RunNumber> {
        let mut bytes = [0; 8];
        rt.fill_bytes(&mut bytes)?;
        let mut digits = [b'0'; 16];
        // 8 bytes have 16 digits, so it can't fail.
        let _ = hex::encode_to_slice(bytes, &mut digits);
        Ok(RunNumber { digits })
    }

    /// Returns its 16 digits.
    pub(crate) fn as_bytes(&self) -> &[u8]
        ensures { result.now ≡ self.now.digits }
    {
        &self.digits
    }
}
