//! Equality of the values of metadata.
ghost use Rattle.sftp_meta.specs.Same.{raw_permissions_decides, permissions_decides, raw_file_type_decides, file_type_decides, timestamp_decides, metadata_decides};

use crate::file_type::{FileType, RawFileType};
use crate::metadata::MetaData;
use crate::permissions::Permissions;
use crate::raw_permissions::RawPermissions;
use crate::unix_timestamp::UnixTimeStamp;
use sftp_values::Same;

impl Same for RawPermissions {
    ghost decides = { raw_permissions_decides };
}

impl Same for Permissions {
    ghost decides = { permissions_decides };
}

impl Same for RawFileType {
    ghost decides = { raw_file_type_decides };
}

impl Same for FileType {
    ghost decides = { file_type_decides };
}

impl Same for UnixTimeStamp {
    ghost decides = { timestamp_decides };
}

impl Same for MetaData {
    ghost decides = { metadata_decides };
}
