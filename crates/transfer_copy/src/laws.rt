//! Laws of the definitions; the functions do nothing, and their ensures clauses hold for all values.
ghost use Rattle.std.specs.Prelude.{◌≡◌, ◌≢◌, ◌≤◌, ◌∷◌, ◌++◌, ℕ, Bool, List, Option, Some, Ok};
ghost use Rattle.sftp_model.specs.Pieces.{joined_pieces};
ghost use Rattle.sftp_core.specs.Core.{Core};
ghost use Rattle.sftp_model.specs.declared.file_attrs.FileAttrs.{FileAttrs};
ghost use Rattle.transfer_copy.specs.Local.{Created, Reopened, all_done, naming_acts, writes_of};
ghost use Rattle.transfer_copy.specs.Acts.{GotAfter, GotSoFar, SentAfter, SentSoFar};
ghost use Rattle.transfer_copy.specs.Disks.{Disk, IsCopied, after_act};
ghost use Rattle.transfer_copy.specs.Gets.{GetStepDid, get_begun};
ghost use Rattle.transfer_copy.specs.Legs.{IsWholeCopy, CopyStep};
ghost use Rattle.transfer_copy.specs.Asides.{aside_of, name_len_from};
ghost use Rattle.transfer_copy.specs.KeptFiles.{AreAtStage, Files, IsApart, IsKept, after_request, files_after};
ghost use Rattle.transfer_copy.specs.PutEnds.{PutStepDid};
ghost use Rattle.transfer_copy.specs.PutRequests.{naming_request};
ghost use Rattle.transfer_copy.specs.Puts.{MayPut, put_begun};
ghost use Rattle.transfer_copy.specs.WholeGets.{GotWhole, IsGetLeg};
ghost use Rattle.transfer_copy.specs.WholePuts.{IsPutLeg, SentWhole};
ghost use Rattle.transfer_copy.specs.declared.get.FileGet.{FileGet};
ghost use Rattle.transfer_copy.specs.declared.put.FilePut.{FilePut};
ghost use Rattle.transfer_copy.specs.declared.put.PutStage.{PutStage};
ghost use Rattle.transfer_copy.specs.declared.put.PutStage.TheVariants as put;
ghost use Rattle.transfer_copy.specs.declared.get.GetStage.TheVariants as get;
ghost use Rattle.transfer_copy.specs.declared.progress.Progress.{Progress};

use crate::LocalFile;

/// States the operations of a copy from the server on its local file, over each of its steps. If the copy ends with a
/// count, the part file was created, or reopened with the bytes before the start offset. It was written to until it had
/// that many bytes, and nothing else was done, and then it was renamed. With `sync` it was written through to the disk
/// before the rename, and the directory after it. With an error, no file was renamed to the final name, unless only the
/// directory could not be written through.
pub fn gets_write_their_part<F: LocalFile>()
    ensures begins { (part : List ℕ) (sync : Bool) (most from : ℕ) (first : F.History)
        → GotSoFar F.done part sync from (get_begun most from sync) first first get.Starting }
    ensures goes { (remote part name : List ℕ) (sync : Bool) (from : ℕ) (core after : Core) (old new : FileGet) (first before now : F.History)
        (result : Progress) → GotSoFar F.done part sync from old first before old.stage
        → GetStepDid F.done remote part name core old after new before now result old.stage
        → GotAfter F.done part name sync from new first now result }
{}

/// States the operations of a copy to the server on its local file, over each of its steps. If the copy ends with a
/// count, the file was opened at the start offset and its bytes were read up to that count and to its end. In any case
/// it was only read.
pub fn puts_read_their_file<F: LocalFile>()
    ensures begins { (name : List ℕ) (window from : ℕ) (mode : Option ℕ) (attrs : Option FileAttrs) (sync : Bool) (first : F.History)
        → SentSoFar F.done name from (put_begun window from mode attrs sync) first first put.Starting }
    ensures goes { (name part remote : List ℕ) (from : ℕ) (core after : Core) (old new : FilePut) (first before now : F.History)
        (result : Progress) → MayPut core old → SentSoFar F.done name from old first before old.stage
        → PutStepDid F.done name part remote core old after new before now result old.stage
        → SentAfter F.done name from new first now result }
{}

/// States the result of all steps of a copy from the server that returned a count. The bytes that were written are
/// those of the DATA to its READs, each at its offset. They go from the start offset up to the READ that was answered
/// by EOF. With `sync` they were written through to the disk before the part file was renamed, and the directory after
/// that.
pub fn gets_are_whole<F: LocalFile>()
    ensures { (remote part name : List ℕ) (sync : Bool) (most from len : ℕ) (first : F.History)
        (earlier : List (CopyStep FileGet F.History)) (last : CopyStep FileGet F.History)
        → IsWholeCopy (IsGetLeg F.done remote part name) (get_begun most from sync) first earlier last (Ok len)
        → GotWhole F.done remote part name sync from len first last.now (last ∷ earlier) }
{}

/// States the result of all steps of a copy to the server that returned a count. The bytes that were read were each
/// carried by a WRITE at its offset, from the start offset up to the count. Each WRITE had OK before the file was
/// closed. With `sync`, if the server offered the fsync when the file was closed, one had OK after all WRITEs and before
/// the CLOSE.
pub fn puts_are_whole<F: LocalFile>()
    ensures { (name part remote : List ℕ) (sync : Bool) (window from len : ℕ) (mode : Option ℕ) (attrs : Option FileAttrs)
        (first : F.History) (earlier : List (CopyStep FilePut F.History)) (last : CopyStep FilePut F.History)
        → IsWholeCopy (IsPutLeg F.done name part remote) (put_begun window from mode attrs sync) first earlier last (Ok len)
        → SentWhole F.done name part remote sync from len first last.now (last ∷ earlier) }
{}

/// States the effect of a copy from the server on a disk on which each operation does its work. Its pieces, joined, are
/// under the name, after the bytes that the part file had if it was reopened. Nothing is under the name of the part
/// file, and everything else is unchanged. This holds with `sync` and without.
pub fn one_name_is_changed()
    ensures anew { (part name : List ℕ) (sync : Bool) (pieces : List (List ℕ)) (d mid : Disk) → part ≢ name
        → mid ≡ all_done after_act (Created part ∷ writes_of pieces) d
        → IsCopied part name (joined_pieces pieces) d (all_done after_act (naming_acts sync part name) mid) }
    ensures behind { (part name had : List ℕ) (sync : Bool) (len : ℕ) (pieces : List (List ℕ)) (d mid : Disk) → part ≢ name
        → d.files part ≡ Some had
        → mid ≡ all_done after_act (Reopened part len ∷ writes_of pieces) d
        → IsCopied part name (had ++ joined_pieces pieces) d (all_done after_act (naming_acts sync part name) mid) }
{}

/// States that no copy to the server loses a file, whatever the server answers. At every moment from the CLOSE on, the
/// old file has its name, or the name of the part with `.old` after it, or the new file has the name: before the
/// request that is in flight is carried out, and after it. This holds on a server that carries out a request before it
/// answers with OK, and does not carry out one that it refuses.
pub fn no_file_is_lost<F: LocalFile>()
    ensures goes { (name part remote : List ℕ) (core after : Core) (old new : FilePut) (before now : F.History) (result : Progress)
        (closed files : Files) → IsApart part remote
        → PutStepDid F.done name part remote core old after new before now result old.stage
        → AreAtStage part remote closed files old.stage
        → AreAtStage part remote closed (files_after part remote core old files) new.stage }
    ensures kept { (part remote : List ℕ) (closed files : Files) (s : PutStage) → IsApart part remote
        → AreAtStage part remote closed files s
        → IsKept part remote closed files
        × IsKept part remote closed (after_request (naming_request part remote s) files) }
{}

/// States that the name of an old file fits if that of the part does: it has at most 255 bytes then, too.
pub fn old_names_fit()
    ensures { (part : List ℕ) → name_len_from 0 part ≤ 255 → name_len_from 0 (aside_of part) ≤ 255 }
{}
