//! Equality of the values of requests and replies.
ghost use Rattle.std.specs.Cmp.Lexicographic.{bytes_decides};
ghost use Rattle.sftp_model.specs.Same.{flags_decides, extensions_decides, attrs_decides, entry_decides, reply_decides, choice_decides, limits_decides, config_decides, open_options_decides};
ghost use Rattle.sftp_model.specs.SameErrors.{io_kind_decides, format_kind_decides, frame_error_decides, fault_decides, error_decides, outcome_decides};
ghost use Rattle.sftp_model.specs.SameRequest.{request_decides};

use crate::config::{Choice, Limits, ServerConfig};
use crate::content::Content;
use crate::error::{Error, Fault, IoKind};
use crate::file_attrs::FileAttrs;
use crate::flags::{Extensions, OpenFlags};
use crate::frame_error::{FormatKind, FrameError};
use crate::handle::Handle;
use crate::open_options::OpenOptions;
use crate::outcome::Outcome;
use crate::remote_path::RemotePath;
use crate::reply::{NameEntry, Reply};
use crate::request::Request;
use sftp_values::Same;

impl Same for Handle {
    ghost decides = { bytes_decides };
}

impl Same for Content {
    ghost decides = { bytes_decides };
}

impl Same for RemotePath {
    ghost decides = { bytes_decides };
}

impl Same for OpenFlags {
    ghost decides = { flags_decides };
}

impl Same for Extensions {
    ghost decides = { extensions_decides };
}

impl Same for FileAttrs {
    ghost decides = { attrs_decides };
}

impl Same for NameEntry {
    ghost decides = { entry_decides };
}

impl Same for Reply {
    ghost decides = { reply_decides };
}

impl Same for Request {
    ghost decides = { request_decides };
}

impl Same for FormatKind {
    ghost decides = { format_kind_decides };
}

impl Same for FrameError {
    ghost decides = { frame_error_decides };
}

impl Same for IoKind {
    ghost decides = { io_kind_decides };
}

impl Same for Fault {
    ghost decides = { fault_decides };
}

impl Same for Error {
    ghost decides = { error_decides };
}

impl Same for Outcome {
    ghost decides = { outcome_decides };
}

impl Same for Choice {
    ghost decides = { choice_decides };
}

impl Same for Limits {
    ghost decides = { limits_decides };
}

impl Same for ServerConfig {
    ghost decides = { config_decides };
}

impl Same for OpenOptions {
    ghost decides = { open_options_decides };
}
