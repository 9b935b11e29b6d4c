//! The directories that a path goes through.
ghost use Rattle.std.specs.Prelude.{◌≡◌};
ghost use Rattle.sftp_client.specs.DirPaths.{is_dir_end, is_name_end};
ghost use Rattle.sftp_model.specs.Paths.{is_absolute_path, last_byte};

/// Returns true if a path is cut after the last byte of a name and before a slash.
pub(crate) fn is_dir_end(before: &[u8], after: &[u8]) -> bool
    ensures { result ≡ is_dir_end before.now after.now }
{
    ends_name(before) && starts_with_slash(after)
}

/// Returns true if the last byte belongs to a name.
fn ends_name(path: &[u8]) -> bool
    ensures { result ≡ is_name_end (last_byte path.now) }
{
    match path.last() {
        Some(last) => *last != b'/',
        None => false,
    }
}

/// Returns true if the first byte is a slash.
fn starts_with_slash(path: &[u8]) -> bool
    ensures { result ≡ is_absolute_path path.now }
{
    match path {
        [first, ..] => *first == b'/',
        [] => false,
    }
}
