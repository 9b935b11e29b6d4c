//! A session that runs lanes: it is opened, its lanes work over one core, and it reports the contents of its journal.
#![tactic(auto)]

mod counts;
mod driver;
mod events;
mod given;
mod greeting;
mod laws;
mod report;
mod server_report;
mod session;

pub use driver::run_lanes;
pub use laws::serving_links_keep_files;
pub use script_grammar::{Reason, Script, ScriptError, read_script};
pub use script_text::{write_dir, write_file, write_text};
pub use session::Session;
pub use session_driver::{Phase, Stepped};
pub use session_model::{Call, Entry, Event, Lane, Owner, Report, Turn, lanes_ok};
pub use sftp_core::{Chunk, Fault, Info, TakeError};
pub use sftp_model::{Error, Outcome, SftpOptions};
pub use ssh_encoding::OutOfMemory;
