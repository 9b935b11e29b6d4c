//! The matcher of patterns.
//!
//! The row of a text has a cell for each place of a pattern: true if the rest of the pattern from there on matches the
//! whole text. A row follows from that of the text without its first byte. So each byte of a path is visited once, from
//! the last one to the first.
ghost use Rattle.std.specs.Prelude.{◌≡◌, ◌<◌, ◌≤◌, ◌∷◌, ℕ, List, [], length};
ghost use Rattle.transfer_filter.specs.Matches.{is_rooted, matches_entry, matches_path};
ghost use Rattle.transfer_filter.specs.Rows.{IsRow, cell_of};

/// The byte between the components of a path. At the end of a pattern it says that directories alone match.
const SLASH: &[u8] = b"/";

/// The wildcard that also matches slashes.
const TWO_STARS: &[u8] = b"**";

/// Returns the cell of `byte` and a text, for the rest of a pattern. `later` has their cells for the places after this
/// one; `here` and `after` are the cells of the text alone, for this place and the next one.
fn cell(rest: &[u8], later: &[bool], here: bool, after: bool, byte: u8) -> bool
    requires { length rest.now ≤ length later.now }
    ensures { result ≡ cell_of rest.now later.now here after byte }
{
    match rest {
        [b'*', b'*', ..] => later[1] || here,
        [b'*', ..] => later[0] || (byte != b'/' && here),
        [b'?', ..] => byte != b'/' && after,
        [other, ..] => byte == *other && after,
        [] => false,
    }
}

/// Computes the row of the empty text.
fn start_row(glob: &[u8], row: &mut [bool])
    requires { length glob.now < length row.old }
    ensures row { IsRow glob.now row.new [] }
    ensures len { length row.new ≡ length row.old }
{
    let mut at = glob.len();
    row[at] = true;
    while at > 0 {
        at -= 1;
        row[at] = glob[at] == b'*' && row[at + 1];
    }
}

/// Computes the row of `byte` and a text from the row of the text.
fn step_row(glob: &[u8], row: &mut [bool], byte: u8)
    requires { length glob.now < length row.old }
    ensures row { (text : List ℕ) → IsRow glob.now row.old text → IsRow glob.now row.new (byte ∷ text) }
    ensures len { length row.new ≡ length row.old }
{
    let mut at = glob.len();
    let mut after = row[at];
    row[at] = false;
    while at > 0 {
        at -= 1;
        let here = row[at];
        row[at] = cell(&glob[at..], &row[at + 1..], here, after, byte);
        after = here;
    }
}

/// Returns true if a pattern is compared with the whole path: it begins with a slash or with `**`.
fn is_rooted(glob: &[u8]) -> bool
    ensures { result ≡ is_rooted glob.now }
{
    glob.starts_with(SLASH) || glob.starts_with(TWO_STARS)
}

/// Returns true if a pattern without a slash at its end matches a path.
fn matches_path(glob: &[u8], row: &mut [bool], path: &[u8]) -> bool
    requires { length glob.now < length row.old }
    ensures is { result ≡ matches_path glob.now path.now }
    ensures len { length row.new ≡ length row.old }
{
    start_row(glob, row);
    let mut found = false;
    let mut at = path.len();
    while at > 0 {
        at -= 1;
        let byte = path[at];
        found = (byte == b'/' && row[0]) || found;
        step_row(glob, row, byte);
    }
    if is_rooted(glob) {
        step_row(glob, row, b'/');
        row[0]
    } else {
        row[0] || found
    }
}

/// Returns true if a pattern matches an entry of a tree.
pub(crate) fn matches_entry(
    pattern: &[u8],
    row: &mut [bool],
    path: &[u8],
    is_directory: bool,
) -> bool
    requires { length pattern.now < length row.old }
    ensures is { result ≡ matches_entry pattern.now path.now is_directory }
    ensures len { length row.new ≡ length row.old }
{
    if !pattern.ends_with(SLASH) {
        return matches_path(pattern, row, path);
    }
    is_directory && matches_path(&pattern[..pattern.len() - 1], row, path)
}
