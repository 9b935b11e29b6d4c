//! The parts of a path: its directory and its last component.
ghost use Rattle.std.specs.Option.{option_copied};
ghost use Rattle.transfer_plan.specs.Cuts.{EndsFolder, EndsText, IsLastPart, NamesLast};

use crate::component::is_component;

/// Returns the length of a path up to and including its last slash, or 0 if it has none.
pub(crate) fn folder_len(path: &[u8]) -> usize
    ensures { EndsFolder path.now result }
{
    let mut len = path.len();
    while len > 0 {
        if path[len - 1] == b'/' {
            return len;
        }
        len -= 1;
    }
    0
}

/// Returns the length of a path without the slashes at its end.
fn text_len(path: &[u8]) -> usize
    ensures { EndsText path.now result }
{
    let mut len = path.len();
    while len > 0 {
        if path[len - 1] != b'/' {
            return len;
        }
        len -= 1;
    }
    0
}

/// Returns the part after the last slash of a path, when the slashes at its end are left out.
fn last_part(path: &[u8]) -> &[u8]
    ensures { IsLastPart path.now result.now }
{
    let text = &path[..text_len(path)];
    &text[folder_len(text)..]
}

/// Returns the last component of a path, ignoring the slashes after it. Returns `None` if that part is no component, as
/// in `a/..`, `.` and `/`.
pub fn last_component(path: &[u8]) -> Option<&[u8]>
    ensures { NamesLast path.now (option_copied result) }
{
    let last = last_part(path);
    if is_component(last) { Some(last) } else { None }
}
