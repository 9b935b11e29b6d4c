//! The common part of programs that read a source, run its content over a server in memory or over a link, and write an
//! answer: the run itself, the exit statuses, the lines of a refusal and of an error, and the files and directories
//! that a server in memory has left.
#![tactic(auto)]

mod answer;
mod commands;
mod ending;
mod in_memory;
mod left;
mod over_link;
mod printed;
mod program;
mod refusal;
mod server;
mod system;

pub use answer::{Answer, answer_to};
pub use commands::{Command, CommandOption, Misfit, Operand, misfit_of, tell_refusal};
pub use ending::{Answered, NO_LINK, OUT_OF_MEMORY, ProgramFailure, STOPPED, cause_of, status_of};
pub use in_memory::{answer_in_memory, new_server_of, text_in_memory};
pub use left::{write_dirs, write_files};
pub use over_link::answer_over_link;
pub use printed::{Printed, read_bytes, refuse, write_answer};
pub use program::{LinkProgram, Program};
pub use refusal::{error_line, error_name, out_of_memory_from, refusal_line, stop_reply};
pub use server::{ServerAt, TIMEOUT, server_at};
pub use system::{exit_over, exit_with, words_given};
