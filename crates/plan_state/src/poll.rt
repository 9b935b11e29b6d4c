//! Results that may have to be awaited.
/// The result of polling a call: a value, or the fact that the awaited reply was not taken yet.
///
/// Example: `crates/example_client/src/sizes.rt`.
#[derive(Debug, Drop, PartialEq, Eq)]
pub enum Poll<T> {
    /// The value.
    Ready(T),
    /// The reply was not taken yet, and no fault is kept.
    Pending,
}
