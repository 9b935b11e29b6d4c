//! Places between the frames of a chunk.

/// A place between two frames of a chunk: the number of its pieces and of its frames before it.
///
/// Used in `crates/sftp_tasks/src/rounds.rt`.
#[derive(Clone, Copy, Debug)]
pub struct Place {
    pub pieces: usize,
    pub frames: usize,
}
