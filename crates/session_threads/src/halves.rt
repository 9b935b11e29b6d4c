//! The halves of a link that a run is given, and the value that ends the waits inside their calls.

/// Ends the waits of other threads inside `recv` and `send`. The only guarantee is that a call returns.
///
/// Example: `crates/example_threads/src/socket.rt`.
pub trait Stop {
    /// Makes each `recv` and `send` that waits return. It is called after the session was given up, by each thread that
    /// ends with an error.
    fn stop(&self);
}

/// Ends no wait: a thread that waits inside `recv` or `send` waits for its peer.
///
/// Used in `crates/session_threads/src/run.rt`.
#[derive(Drop)]
pub struct NoStop;

impl Stop for NoStop {
    /// Does nothing.
    fn stop(&self) {}
}

/// The two halves of a link, and a value that ends the waits inside their calls.
///
/// Example: `crates/example_threads/src/socket.rt`.
#[derive(Drop)]
pub struct Halves<O, I, S> {
    /// The half to which requests are sent.
    pub out: O,
    /// The half from which replies come.
    pub input: I,
    /// It ends the waits inside calls of both halves.
    pub stop: S,
}
