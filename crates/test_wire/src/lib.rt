//! Tests of the codecs by their public calls: vectors of the standards in both directions, one error of each kind, and
//! the texts of errors.
#![tactic(auto)]

#[cfg(test)]
mod encoding;
#[cfg(test)]
mod metadata;
#[cfg(test)]
mod model;
#[cfg(test)]
mod wire;
