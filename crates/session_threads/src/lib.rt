//! A whole run of lanes in threads: one for each lane, one that sends, and one that reads, each with a seat at one
//! session.
#![tactic(auto)]

mod crew;
mod ends;
mod failure;
mod halves;
mod laws;
mod run;
mod seats;
mod shared_run;

pub use crew::Crew;
pub use failure::spend_refused;
pub use halves::{Halves, NoStop, Stop};
pub use laws::{invalid_ids_are_unawaited, link_faults_are_counted};
pub use run::{run_shared, run_stoppable};
pub use seats::{open_session, run_home, run_reader, run_sender, start, stop};
pub use sftp_tasks::SharedReport;
pub use shared_run::{SharedRun, Signals};
