//! Laws of the definitions. The functions do nothing: their postconditions hold of all values.
ghost use Rattle.std.specs.Prelude.{List, Some};
ghost use Rattle.sftp_model.specs.declared.options.SftpOptions.{SftpOptions};
ghost use Rattle.sftp_model.specs.declared.config.Choice.{Choice};
ghost use Rattle.sftp_model.specs.declared.config.ServerConfig.{ServerConfig};
ghost use Rattle.machine_model.specs.Changes.{IsWellFormed};
ghost use Rattle.machine_model.specs.FileTree.{FileTree};
ghost use Rattle.sftp_link.specs.declared.piece.Piece.{Piece};
ghost use Rattle.plan_model.specs.declared.call.Lane.{Lane};
ghost use Rattle.session_model.specs.declared.report.Report.{Report};
ghost use Rattle.session_model.specs.declared.turn.Turn.{Turn};
ghost use Rattle.session_model.specs.Settings.{setting_of};
ghost use Rattle.run_laws.specs.KeepsFiles.{KeepsFiles};
ghost use Rattle.sftp_lanes.specs.Reported.{IsReport};
ghost use Rattle.sftp_lanes.specs.ServesFiles.{ServesFiles};

/// If `run_lanes` reports a run over a link that served files, according to its log, the report has what was written,
/// and the files are left so.
pub fn serving_links_keep_files()
    ensures { (lanes : List Lane) (options : SftpOptions) (schedule : List Turn) (before log : List Piece) (report : Report)
        (config : ServerConfig) (choices : List Choice) (tree left : FileTree)
        → (run : IsReport lanes options schedule (Some before) (Some log) report) → IsWellFormed tree
        → ServesFiles lanes options config choices tree left before log
        → KeepsFiles lanes config choices tree (setting_of lanes options run.extensions run.past) run.past left report.outcomes }
{}
