//! The data types of RFC 4251, section 5, read from and written to bytes.
//!
//! [`Decode`] reads a value from a [`Reader`], [`Encode`] writes one to a [`Writer`]. The ghost members of each type
//! say which list of bytes is written for a value and which lists spell it.
#![tactic(auto)]

mod decode;
mod digest;
mod encode;
mod encode_lists;
mod encode_strings;
mod error;
mod label;
mod label_error;
mod laws;
mod mpint;
mod mpint_text;
mod out_of_memory;
mod reader;
mod strings;
mod sums;
mod writer;

pub use decode::{Decode, decode_exact};
pub use digest::{Absorb, DigestWriter, absorb_value};
pub use encode::Encode;
pub use encode_strings::Rfc4251String;
pub use error::Error;
pub use label::Label;
pub use label_error::LabelError;
pub use laws::{Codec, OneSpelling, one_spelling, round_trip};
pub use mpint::Mpint;
pub use out_of_memory::OutOfMemory;
pub use reader::Reader;
pub use sums::CheckedSum;
pub use writer::Writer;

/// The result of the calls of this crate.
pub type Result<T> = std::result::Result<T, Error>;
