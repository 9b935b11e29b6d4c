//! The metadata of a file: permissions, the kind of file, times, owners and length, under the names of the Rust crate
//! `openssh-sftp-client`.
#![tactic(auto)]

mod file_type;
mod laws;
mod metadata;
mod metadata_builder;
mod permissions;
mod raw_permissions;
mod same;
mod unix_timestamp;

pub use file_type::{FileType, RawFileType};
pub use laws::{permissions_by_bit, permissions_of_modes, readonly_by_bits};
pub use metadata::MetaData;
pub use metadata_builder::MetaDataBuilder;
pub use permissions::Permissions;
pub use raw_permissions::RawPermissions;
pub use unix_timestamp::{UnixTimeStamp, UnixTimeStampError};
