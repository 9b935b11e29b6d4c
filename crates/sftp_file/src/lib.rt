//! Files of an SFTP server and the states of their calls.
#![tactic(auto)]

mod copies;
mod facts;
mod file;
mod laws;
mod looks;
mod on_file;
mod opens;
mod parts;
mod reads;
mod short_calls;
mod slices;
mod whole_reads;
mod whole_writes;
mod writes;

pub use copies::{CopyCall, Copying, PollCopy};
pub use file::File;
pub use laws::opened_files_are_brought;
pub use looks::sought;
pub use on_file::{OnFile, PollFile};
pub use opens::{OpenCall, Opening, StartOpen};
pub use parts::{cut, one_piece};
pub use plan_state::Poll;
pub use reads::{ReadCall, Reading};
pub use sftp_model::{Error, IoKind};
pub use short_calls::{
    AttrsCall, CloseCall, Settling, StatusCall, Telling, attrs_call, close_call, status_call,
};
pub use slices::{take_bytes, take_io_slices};
pub use ssh_encoding::OutOfMemory;
pub use whole_reads::{
    Gathering, PollReadAll, ReadAllCall, ReadAllError, cancel_read_all, read_all_answer,
};
pub use whole_writes::{WriteAllCall, WritingAll};
pub use writes::{Sending, WriteCall};
