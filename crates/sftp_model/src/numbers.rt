//! The numbers of draft-ietf-secsh-filexfer-02 under its names, and the bounds of this client.
//!
//! Each number is stated again in `specs/Numbers.antt`: the proofs fail for a wrong one here.

// ---- types of packets (section 3)

/// The hello of a client, with its version (section 4).
pub const SSH_FXP_INIT: u8 = 1;

/// The hello of a server, with its version and its extensions (section 4).
pub const SSH_FXP_VERSION: u8 = 2;

/// Opens or creates a file (section 6.3).
pub const SSH_FXP_OPEN: u8 = 3;

/// Closes the handle of a file or a directory (section 6.3).
pub const SSH_FXP_CLOSE: u8 = 4;

/// Reads bytes of a file (section 6.4).
pub const SSH_FXP_READ: u8 = 5;

/// Writes bytes of a file (section 6.4).
pub const SSH_FXP_WRITE: u8 = 6;

/// Asks for the attributes of a path; for a link, those of the link itself (section 6.8).
pub const SSH_FXP_LSTAT: u8 = 7;

/// Asks for the attributes of an open file (section 6.8).
pub const SSH_FXP_FSTAT: u8 = 8;

/// Sets attributes of a path (section 6.9).
pub const SSH_FXP_SETSTAT: u8 = 9;

/// Sets attributes of an open file (section 6.9).
pub const SSH_FXP_FSETSTAT: u8 = 10;

/// Opens a directory (section 6.7).
pub const SSH_FXP_OPENDIR: u8 = 11;

/// Asks for further entries of an open directory (section 6.7).
pub const SSH_FXP_READDIR: u8 = 12;

/// Removes a file (section 6.5).
pub const SSH_FXP_REMOVE: u8 = 13;

/// Creates a directory (section 6.6).
pub const SSH_FXP_MKDIR: u8 = 14;

/// Removes a directory (section 6.6).
pub const SSH_FXP_RMDIR: u8 = 15;

/// Asks for the absolute form of a path (section 6.11).
pub const SSH_FXP_REALPATH: u8 = 16;

/// Asks for the attributes of a path; for a link, those of its target (section 6.8).
pub const SSH_FXP_STAT: u8 = 17;

/// Renames a file or a directory (section 6.5).
pub const SSH_FXP_RENAME: u8 = 18;

/// Asks for the target of a symbolic link (section 6.10).
pub const SSH_FXP_READLINK: u8 = 19;

/// Creates a symbolic link (section 6.10).
pub const SSH_FXP_SYMLINK: u8 = 20;

/// The status of a request (section 7).
pub const SSH_FXP_STATUS: u8 = 101;

/// The handle of an opened file or directory (section 7).
pub const SSH_FXP_HANDLE: u8 = 102;

/// Bytes that were read (section 7).
pub const SSH_FXP_DATA: u8 = 103;

/// Names with their attributes (section 7).
pub const SSH_FXP_NAME: u8 = 104;

/// Attributes (section 7).
pub const SSH_FXP_ATTRS: u8 = 105;

/// A request of an extension, by its name (section 8).
pub const SSH_FXP_EXTENDED: u8 = 200;

/// The reply of an extension (section 8).
pub const SSH_FXP_EXTENDED_REPLY: u8 = 201;

// ---- codes of a STATUS (section 7)

/// The request succeeded.
pub const SSH_FX_OK: u32 = 0;

/// No bytes or names are left to read.
pub const SSH_FX_EOF: u32 = 1;

/// The file does not exist.
pub const SSH_FX_NO_SUCH_FILE: u32 = 2;

/// The user does not have the permission.
pub const SSH_FX_PERMISSION_DENIED: u32 = 3;

/// A failure without a code of its own.
pub const SSH_FX_FAILURE: u32 = 4;

/// A request that cannot be read.
pub const SSH_FX_BAD_MESSAGE: u32 = 5;

/// No connection to the server exists; only a client reports it.
pub const SSH_FX_NO_CONNECTION: u32 = 6;

/// The connection to the server was lost; only a client reports it.
pub const SSH_FX_CONNECTION_LOST: u32 = 7;

/// The server does not support the request.
pub const SSH_FX_OP_UNSUPPORTED: u32 = 8;

// ---- flags of an OPEN (section 6.3)

/// The file is opened to read.
pub const SSH_FXF_READ: u32 = 1;

/// The file is opened to write.
pub const SSH_FXF_WRITE: u32 = 2;

/// Each write goes to the end of the file.
pub const SSH_FXF_APPEND: u32 = 4;

/// A file is created if it does not exist.
pub const SSH_FXF_CREAT: u32 = 8;

/// A file that exists is truncated.
pub const SSH_FXF_TRUNC: u32 = 16;

/// The request fails if the file exists.
pub const SSH_FXF_EXCL: u32 = 32;

// ---- flags of attributes: the fields that are present (section 5)

/// The size is present.
pub const SSH_FILEXFER_ATTR_SIZE: u32 = 1;

/// The ids of user and group are present.
pub const SSH_FILEXFER_ATTR_UIDGID: u32 = 2;

/// The permissions are present.
pub const SSH_FILEXFER_ATTR_PERMISSIONS: u32 = 4;

/// The times of the last access and the last change are present.
pub const SSH_FILEXFER_ATTR_ACMODTIME: u32 = 8;

/// A count and pairs of strings are present.
pub const SSH_FILEXFER_ATTR_EXTENDED: u32 = 0x8000_0000;

// ---- bounds of this client

/// The greatest length of a frame's body and of a string in it, in bytes.
pub const MAX_BODY_LEN: u32 = 1_048_575;

/// The greatest length of a handle, in bytes (section 7).
pub const MAX_HANDLE_LEN: usize = 256;

/// The most bytes that one READ asks for or one WRITE carries. 300 bytes of a body are left for its other fields.
pub const MAX_TRANSFER_LEN: u32 = 1_048_275;
