//! Examples of the use of the libraries, each example proved.
#![tactic(auto)]

mod frames;
mod values;

pub use frames::through_bytes;
pub use values::{read_host, write_host};

#[cfg(test)]
mod tests;
