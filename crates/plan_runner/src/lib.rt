//! The plans of calls as runners over plain values: the first request of a call, and its continuation with each reply.
//! This crate sends and receives nothing: the lane that runs a call submits its requests and passes in each reply.
#![tactic(auto)]

mod buffer_flush;
mod buffer_read;
mod buffer_seek;
mod buffer_write;
mod close_call;
mod continuation;
mod file_calls;
mod laws;
mod local_calls;
mod next;
mod open_call;
mod own;
mod path_calls;
mod read_all_call;
mod read_call;
mod replies;
mod single;
pub mod site;
mod turn;
mod whole;
mod whole_read;
mod write_call;

pub use buffer_flush::{begin_buf_flush, take_oldest};
pub use buffer_read::begin_buf_read;
pub use buffer_seek::begin_buf_seek;
pub use buffer_write::{begin_buf_write, begin_buf_write_all};
pub use close_call::begin_close;
pub use continuation::go_on;
pub use file_calls::{begin_copy, begin_meta, begin_set_len, begin_set_perm, begin_sync};
pub use laws::{
    calls_go_on_by_awaited_replies, cancelled_calls_leave_by_awaited_replies,
    cancelled_flushes_take_oldest_first, own_calls_leave_their_site,
};
pub use local_calls::{begin_buffer, begin_clone, begin_cwd, begin_seek, begin_unbuffer, sought};
pub use next::{Asked, EndsBy, Next, Running};
pub use open_call::{begin_open, opened_file};
pub use path_calls::{
    begin_canonicalize, begin_hard_link, begin_lstat, begin_mkdir, begin_read_link, begin_remove,
    begin_rename, begin_rmdir, begin_set_stat, begin_stat, begin_symlink,
};
pub use read_all_call::{begin_read_all, read_rest};
pub use read_call::begin_read;
pub use replies::is_good;
pub use turn::Turn;
pub use whole::{begin_fs_write, begin_list};
pub use whole_read::{begin_fs_read, widen};
pub use write_call::{begin_write, begin_write_all, begin_write_parts, write_rest};
