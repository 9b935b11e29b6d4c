//! The number of requests in flight for a file.
ghost use Rattle.std.specs.Prelude.{◌≤◌, ◌*◌, max};

use transfer_plan::{Found, Task};

/// Returns the number of files copied at once: the number of files among the jobs, but at most `most` and at least one.
pub(crate) fn count_files(jobs: &[Found], most: u32) -> u32
    ensures some { 1 ≤ result }
    ensures few { result ≤ max 1 most }
{
    let mut files = 0;
    for found in jobs {
        if found.task == Task::CopyFile && files < most {
            files += 1;
        }
    }
    files.max(1)
}

/// Returns the number of requests for at most `len` bytes that are in flight for each of this many files. It is at most
/// `most`, and small enough that all of them together carry at most `limit` bytes. It is at least one in any case.
pub(crate) fn window_for(most: u32, limit: u32, files: u32, len: u32) -> u32
    ensures some { 1 ≤ result }
    ensures few { result ≤ max 1 most }
    ensures bytes { result * (files * len) ≤ max limit (files * len) }
{
    let each = (u64::from(files) * u64::from(len)).max(1);
    let fits = u64::from(limit) / each;
    fits.min(u64::from(most)).max(1) as u32
}
