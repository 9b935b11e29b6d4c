//! The test for paths that are too long.
ghost use Rattle.std.specs.Prelude.{◌≡◌};
ghost use Rattle.view_model.specs.ViewOps.{passes_length};

use sftp_model::numbers::MAX_BODY_LEN;

/// The length of an OPEN's body without its path: type, id, the path's length, flags, and those of no attributes
/// (draft-ietf-secsh-filexfer-02, section 6.3).
const OPEN_LEN: u64 = 17;

/// Returns true if the OPEN of a path is too long for a frame.
#[tactic(auto, using(crate::proofs::LengthLaws::passes_by))]
pub fn passes_length(path: &[u8]) -> bool
    ensures { result ≡ passes_length path.now }
{
    path.len() as u64 + OPEN_LEN > u64::from(MAX_BODY_LEN)
}
