//! Parses the command line of `sftp_transfer`.
#![tactic(auto)]

mod acts;
mod args_error;
mod asked;
mod flags;
mod links;
mod misfit;
mod numbers;
mod options;
mod parser;
mod values;

pub use args_error::ArgsError;
pub use asked::{Act, Asked, Direction, Job, LinkAt, Listing, Mirror, Pattern, Transfer, Work};
pub use misfit::{Misfit, misfit_of};
pub use options::{Changed, MirrorRules, Options};
pub use parser::read_words;
