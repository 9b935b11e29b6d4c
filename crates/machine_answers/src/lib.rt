//! Files and directories in memory, as an SFTP version 3 server serves them (draft-ietf-secsh-filexfer-02, sections 6
//! and 7). The reply to each request and its effect are defined in `machine_model`.
#![tactic(auto)]

mod answer;
mod answered;
mod change;
mod commit;
mod counts;
mod handle_requests;
mod laws;
mod listing;
mod machine;
mod name_requests;
mod outbox;
mod store;

pub use answered::Answered;
pub use handle_requests::gives_within;
pub use laws::grants_are_new;
pub use machine::Machine;
pub use machine_tree::{TreeName, components, may_begin};
pub use outbox::Outbox;
