//! Laws over whole runs of calls.
ghost use Rattle.std.specs.Prelude.{◌≡◌, ◌≤◌, ℕ, List, Option, Some, None, false};
ghost use Rattle.sftp_model.specs.Answers.{expected_of, MayAnswer};
ghost use Rattle.sftp_model.specs.Lengths.{session_len};
ghost use Rattle.sftp_model.specs.declared.request.Request.{Request};
ghost use Rattle.sftp_model.specs.declared.reply.Reply.{Reply};
ghost use Rattle.sftp_model.specs.declared.options.SftpOptions.{SftpOptions};
ghost use Rattle.sftp_core.specs.Core.{Core, record_at, fresh};
ghost use Rattle.sftp_core.specs.Table.{expected_at};
ghost use Rattle.sftp_core.specs.Take.{wrong_at};
ghost use Rattle.sftp_core.specs.Turns.{CoreCall, MayAll, TakeTurns, all_signs};

/// Over any list of calls of a new core, requests and replies of one id take turns. No two unanswered requests have one
/// id, and an id becomes free only after its reply, for an abandoned request too.
pub fn one_request_an_id()
    ensures { (options : SftpOptions) (calls : List CoreCall) (id : ℕ)
        → MayAll (fresh options) calls → TakeTurns id false (all_signs (fresh options) calls) }
{}

/// An option for a length can only lower it.
pub fn options_only_lower()
    ensures { (most : Option ℕ) (len : ℕ) → session_len most len ≤ session_len None len }
{}

/// A reply that is accepted under an id is one that may answer the request under that id.
pub fn takes_what_may_answer()
    ensures { (core : Core) (id : ℕ) (request : Request) (reply : Reply)
        → expected_at (record_at core id) ≡ Some (expected_of request)
        → wrong_at id reply (record_at core id) ≡ None → MayAnswer request reply }
{}
