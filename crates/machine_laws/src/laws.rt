//! Laws of runs over a server of files in memory. The functions do nothing: what they ensure holds for all values.
ghost use Rattle.std.specs.Prelude.{◌≡◌, ℕ, [], Bool, List, Option, Some, true, Ok, Err};
ghost use Rattle.sftp_model.specs.declared.error.Error.{Error};
ghost use Rattle.sftp_model.specs.declared.error.Error.TheVariants as error;
ghost use Rattle.sftp_model.specs.declared.reply.Reply.{Reply};
ghost use Rattle.sftp_link.specs.Told.{IfLogged};
ghost use Rattle.sftp_link.specs.declared.piece.Piece.{Piece};
ghost use Rattle.session_model.specs.declared.entry.Entry.{Entry};
ghost use Rattle.session_model.specs.declared.turn.Turn.{Turn};
ghost use Rattle.session_model.specs.Calls.{Setting};
ghost use Rattle.plan_model.specs.Lanes.{are_ok};
ghost use Rattle.session_model.specs.Runs.{IsRun};
ghost use Rattle.link_frames.specs.Causes.{CountsLinkFault};
ghost use Rattle.session_driver.specs.Logs.{EndsSession, ShowsJournal};
ghost use Rattle.session_driver.specs.Session.{SessionInputs, IsFixed};
ghost use Rattle.sftp_map_server.specs.Serving.{Serving, IsServing, config_of, tree_left, version_reply};
ghost use Rattle.session_driver.specs.ServingLinks.{ServesLanes};
ghost use Rattle.machine_laws.specs.ServedRuns.{IsServedRun};
ghost use Rattle.sftp_map_server.specs.Unopened.{IsUnopened};

/// Runs over a server that nothing was sent to, by any code that runs a session as `run_session` does. VERSION reports
/// what the server offers.
///
/// If the lanes are ok, the replies are those of one sequential run of the file machine in the order of the picks,
/// under handles that are numbered by the grants, and the run stops early only if memory runs out.
pub fn runs_are_served()
    ensures version { (given : SessionInputs) (version : Option Reply) (s : Setting) (past : List Entry) (server : Serving)
        → IsUnopened server.first
        → IsServing server.first server.now server.log server.ended → IsFixed given version past s
        → IfLogged (ShowsJournal version past) (Some []) (Some server.log)
        → version ≡ Some (version_reply (config_of server)) }
    ensures serves { (given : SessionInputs) (version : Option Reply) (s : Setting) (turns : List Turn) (past : List Entry)
        (server : Serving) → IsUnopened server.first
        → IsServing server.first server.now server.log server.ended → are_ok given.lanes ≡ true → IsRun s turns past
        → IsFixed given version past s → IfLogged (ShowsJournal version past) (Some []) (Some server.log)
        → IsServedRun server.first past (tree_left server) }
    ensures only { (given : SessionInputs) (turns : List Turn) (server : Serving) (e : Error) → are_ok given.lanes ≡ true
        → IsUnopened server.first → IsServing server.first server.now server.log server.ended
        → EndsSession given turns server.ended e [] server.log
        → CountsLinkFault {T = Unit {0}} 0 0 (Err e) → e ≡ error.OutOfMemory }
{}

/// Runs over any link that serves the lanes of a session, by any code that runs a session as `run_session` does. If the
/// link counted no fault, the run stops early only if memory runs out. The server in memory is such a link if the lanes
/// are ok.
pub fn links_that_serve_end_well()
    ensures only { (given : SessionInputs) (turns : List Turn) (ended : Bool) (e : Error) (log : List Piece)
        → ServesLanes given log ended → EndsSession given turns ended e [] log → CountsLinkFault {T = Unit {0}} 0 0 (Err e) → e ≡ error.OutOfMemory }
    ensures server { (given : SessionInputs) (server : Serving) → are_ok given.lanes ≡ true → IsUnopened server.first
        → IsServing server.first server.now server.log server.ended → ServesLanes given server.log server.ended }
{}
