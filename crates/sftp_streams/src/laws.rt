//! Laws of the definitions. The functions do nothing: their postconditions hold of all values.
ghost use Rattle.std.specs.Prelude.{◌≡◌, ◌≤◌, ◌<◌, ◌+◌, ◌++◌, ℕ, suc, List, length, take, drop, Option, None, Some, Ok};
ghost use Rattle.sftp_model.specs.declared.reply.Reply.{Reply};
ghost use Rattle.sftp_core.specs.Core.{Core};
ghost use Rattle.plan_state.specs.declared.poll.Poll.TheVariants.{Pending, Ready};
ghost use Rattle.sftp_streams.specs.Downloads.{DownloadValue, GivesFirst, first_reply};
ghost use Rattle.sftp_streams.specs.Streams.{AreOfFile, PiecesAt, ReachesOffset, data_at, unbroken_run};

/// A piece at the offset that a run has reached extends the run by it. If no piece begins there, the run is unbroken as
/// far as it goes.
pub fn pieces_are_the_run()
    ensures grows { (n : ℕ) (pieces : PiecesAt) (first next : ℕ) (given bytes : List ℕ)
        → ReachesOffset n pieces first given next → pieces next ≡ Some bytes
        → ReachesOffset (suc n) pieces first (given ++ bytes) (next + length bytes) }
    ensures whole { (n most : ℕ) (pieces : PiecesAt) (first next : ℕ) (given : List ℕ) → n < most
        → ReachesOffset n pieces first given next → pieces next ≡ None → unbroken_run most pieces first ≡ given }
{}

/// The bytes that a download has returned are the run of the DATA that its READs got. A poll that returns bytes extends
/// the run by them; at `Pending` it is the run by the replies so far, and at the end the run by all replies.
pub fn polls_follow_the_run()
    ensures grows { (n : ℕ) (replies : ℕ → Option Reply) (first : ℕ) (given bytes : List ℕ) (core after : Core)
        (d new : DownloadValue) → ReachesOffset n (data_at replies) first given d.offset
        → replies d.offset ≡ first_reply core d → GivesFirst core after d new (Ready (Ok (Some bytes)))
        → ReachesOffset (suc n) (data_at replies) first (given ++ bytes) new.offset }
    ensures waits { (n most : ℕ) (replies : ℕ → Option Reply) (first : ℕ) (given : List ℕ) (core after : Core)
        (d new : DownloadValue) → n < most → ReachesOffset n (data_at replies) first given d.offset
        → replies d.offset ≡ first_reply core d → GivesFirst core after d new Pending
        → unbroken_run most (data_at replies) first ≡ given }
    ensures ends { (n most : ℕ) (replies : ℕ → Option Reply) (first : ℕ) (given : List ℕ) (core after : Core)
        (d new : DownloadValue) → n < most → ReachesOffset n (data_at replies) first given d.offset
        → replies d.offset ≡ first_reply core d → GivesFirst core after d new (Ready (Ok None))
        → unbroken_run most (data_at replies) first ≡ given }
{}

/// If the pieces are those of a file that nobody changes, a run has the file's bytes, and all of them once it has come
/// to the file's end.
pub fn files_are_given_whole()
    ensures run { (n : ℕ) (file : List ℕ) (pieces : PiecesAt) (first next : ℕ) (given : List ℕ)
        → AreOfFile file pieces → ReachesOffset n pieces first given next → given ≡ take (length given) (drop first file) }
    ensures whole { (n : ℕ) (file : List ℕ) (pieces : PiecesAt) (first next : ℕ) (given : List ℕ)
        → AreOfFile file pieces → ReachesOffset n pieces first given next → length file ≤ next → given ≡ drop first file }
{}
