//! Frames of SFTP version 3 in both directions: requests and replies as bytes, bytes as requests and replies, and a
//! reader of frames that come in any pieces (draft-ietf-secsh-filexfer-02). The definitions that the contracts name are
//! in `sftp_model`.
#![tactic(auto)]

mod body;
mod body_shapes;
mod extension_bodies;
mod field_readers;
mod fields;
mod frame_reader;
mod head;
mod measure;
mod names;
mod reply_bodies;
mod request_bodies;
mod write;

pub use frame_reader::{FrameReader, Reservation, body_len};
pub use head::write_request_head;
pub use reply_bodies::{read_limits, read_reply};
pub use request_bodies::read_request;
pub use sftp_model::{
    Choice, Content, Expected, Extensions, FileAttrs, FormatKind, FrameError, Handle, Limits,
    NameEntry, OpenFlags, RemotePath, Reply, Request, ServerConfig, TryCopy, frames_read_back,
    numbers,
};
pub use sftp_values::{ByteText, Items};
pub use ssh_encoding::OutOfMemory;
pub use write::{Message, request_len, write_body, write_reply, write_request};
