//! Laws of the definitions; the functions do nothing, and their ensures clauses hold for all values.
ghost use Rattle.std.specs.Prelude.{◌≡◌, ◌≤◌, ◌∷◌, ℕ, List, length, true};
ghost use Rattle.std.specs.List.{list_all};
ghost use Rattle.sftp_model.specs.Paths.{slash};
ghost use Rattle.sftp_model.specs.declared.config.Choice.{Choice};
ghost use Rattle.sftp_model.specs.declared.config.ServerConfig.{ServerConfig};
ghost use Rattle.sftp_model.specs.declared.flags.Extensions.{Extensions};
ghost use Rattle.sftp_model.specs.declared.options.SftpOptions.{SftpOptions};
ghost use Rattle.sftp_model.specs.declared.outcome.Outcome.{Outcome};
ghost use Rattle.machine_model.specs.Changes.{IsWellFormed};
ghost use Rattle.machine_model.specs.Components.{Name, components, text_of_name};
ghost use Rattle.machine_model.specs.FileTree.{FileTree};
ghost use Rattle.session_model.specs.declared.entry.Entry.{Entry};
ghost use Rattle.session_model.specs.Calls.{Setting};
ghost use Rattle.session_model.specs.Readings.{outcomes_below};
ghost use Rattle.session_model.specs.Runs.{IsRun};
ghost use Rattle.session_model.specs.Served.{ServesJournal};
ghost use Rattle.session_model.specs.Settings.{setting_of};
ghost use Rattle.run_laws.specs.KeepsFiles.{KeepsFiles};
ghost use Rattle.mirror_jobs.specs.declared.job.Job.{Job};
ghost use Rattle.mirror_jobs.specs.Jobs.{are_ok};
ghost use Rattle.mirror_jobs.specs.JobLanes.{lanes_of, turns_of};
ghost use Rattle.mirror_jobs.specs.Verdicts.{verdicts_of};
ghost use Rattle.mirror_jobs.specs.CopiesFiles.{CopiesFiles};
ghost use Rattle.mirror_jobs.specs.GoodJobs.{CopiesGood};
ghost use Rattle.mirror_jobs.specs.PlainNames.{is_plain};

/// States that the components of a path are plain: none is empty, a dot or two dots, and none has a slash. The written
/// form of a name of plain components denotes that name, with or without a leading slash.
pub fn written_names_denote_themselves()
    ensures plain { (path : List ℕ) → list_all is_plain (components path) ≡ true }
    ensures written { (name : Name) → list_all is_plain name ≡ true → components (text_of_name name) ≡ name }
    ensures led { (path : List ℕ) → components (slash ∷ path) ≡ components path }
{}

/// States that reports on copied files are true if the lanes that copy them are served by a file machine. A file
/// reported as copied holds its content at the end, for all choices. The bytes reported as read are those that the file
/// had at first, if no choice feigns an end.
pub fn copies_keep_files()
    ensures { (width : ℕ) (jobs : List Job) (config : ServerConfig) (choices : List Choice) (tree left : FileTree)
        (s : Setting) (past : List Entry) (outcomes : List (List Outcome)) → 1 ≤ width → are_ok jobs ≡ true
        → KeepsFiles (lanes_of width jobs) config choices tree s past left outcomes
        → CopiesFiles jobs choices tree left (verdicts_of width jobs outcomes) }
{}

/// States that each good file is copied or read. This holds in each run of the lanes that copy files under their turns,
/// if a file machine that refuses nothing by choice serves it. A good upload has directories that exist or may be
/// created, and a name that no directory has. Its path fits in a frame, and there is room for its bytes together with
/// those of all uploads. A good download exists, by a path that fits in a frame, and has fewer bytes than its bound.
pub fn good_files_are_copied()
    ensures { (width rounds : ℕ) (jobs : List Job) (options : SftpOptions) (extensions : Extensions) (past : List Entry)
        (config : ServerConfig) (choices : List Choice) (tree left : FileTree) → 1 ≤ width → are_ok jobs ≡ true
        → IsRun (setting_of (lanes_of width jobs) options extensions past) (turns_of width rounds jobs) past
        → IsWellFormed tree → ServesJournal config choices tree past left
        → CopiesGood jobs choices tree
        (verdicts_of width jobs (outcomes_below past (length (lanes_of width jobs)))) }
{}
