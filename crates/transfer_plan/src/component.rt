//! The test for names that are safe to use as they are.
ghost use Rattle.std.specs.Prelude.{◌≡◌, ◌==◌, ◌||◌};
ghost use Rattle.std.specs.List.{list_any};
ghost use Rattle.sftp_model.specs.Paths.{slash};
ghost use Rattle.transfer_plan.specs.Names.{is_component, is_entry_name};

/// The name by which a directory has itself.
const SELF: &[u8] = b".";

/// The name by which a directory has its parent.
const ABOVE: &[u8] = b"..";

/// The greatest length of a name that a file system takes, in bytes.
const MAX_NAME_LEN: usize = 255;

/// Returns true if a name contains a slash or a zero byte.
fn has_ending(name: &[u8]) -> bool
    ensures { result ≡ list_any (λ b. b == slash || b == 0) name.now }
{
    name.iter().any(|byte| *byte == b'/' || *byte == 0)
}

/// Returns true if a name, given for an entry of a directory, leads to an entry of that directory and nowhere else.
/// Such a name isn't empty, `.` or `..`, and has no slash and no zero byte.
#[tactic(auto, unfolding(crate::specs::Names::is_component))]
pub fn is_component(name: &[u8]) -> bool
    ensures { result ≡ is_component name.now }
{
    !name.is_empty() && name != SELF && name != ABOVE && !has_ending(name)
}

/// Returns true if an entry of a directory can have a name: it is a component of at most 255 bytes.
pub(crate) fn is_entry_name(name: &[u8]) -> bool
    ensures { result ≡ is_entry_name name.now }
{
    is_component(name) && name.len() <= MAX_NAME_LEN
}
