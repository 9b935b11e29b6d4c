//! The lanes and options that a session was made of.
ghost use Rattle.std.specs.Prelude.{◌≡◌};
ghost use Rattle.session_seats.specs.Sights.{inputs_of};

use session_model::Lane;
use sftp_model::SftpOptions;
use sftp_values::Items;
use std::marker::Model;
use std::snapshot::Snapshot;

/// The lanes and the options that a session was made of. Only contracts read it: no lane is copied.
///
/// Used in `crates/sftp_tasks/src/shared_sftp.rt`.
#[derive(Drop)]
pub struct Origin {
    options: SftpOptions,
    lanes: Snapshot<Items<Lane>>,
}

impl Model for Origin {
    ghost use Rattle.session_seats.specs.Sights.{SessionInputs, inputs_of};

    ghost Value = { SessionInputs };

    ghost view = { λ g. inputs_of g.lanes.value g.options };
}

impl Origin {
    /// Returns the record of these lanes and options.
    pub fn of(lanes: &Items<Lane>, options: &SftpOptions) -> Origin
        ensures { result ≡ inputs_of lanes.now options.now }
    {
        Origin {
            options: *options,
            lanes: Snapshot::of(lanes),
        }
    }
}
