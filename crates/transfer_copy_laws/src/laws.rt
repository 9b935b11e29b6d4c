//! Laws of the definitions; the functions do nothing, and their ensures clauses hold for all values.
ghost use Rattle.std.specs.Prelude.{◌≡◌, ◌≢◌, ◌≤◌, ℕ, Bool, List, Some, drop, length, take};
ghost use Rattle.machine_model.specs.declared.opened.Held.{Held};
ghost use Rattle.machine_model.specs.FileTree.{FileTree, bytes_of, size_of};
ghost use Rattle.machine_model.specs.HandleRequests.{after_read};
ghost use Rattle.sftp_model.specs.Numbers.{SSH_FX_EOF};
ghost use Rattle.sftp_model.specs.Pieces.{joined_pieces};
ghost use Rattle.sftp_model.specs.declared.reply.Reply.TheVariants as reply;
ghost use Rattle.transfer_copy_laws.specs.UnchangedFiles.{ArePiecesOf, HasFirst, written_to};
ghost use Rattle.transfer_copy.specs.Disks.{Disk, IsCopied, after_act};
ghost use Rattle.transfer_copy.specs.Legs.{CopyStep};
ghost use Rattle.transfer_copy.specs.WholeGets.{GotWhole};
ghost use Rattle.transfer_copy.specs.WholePuts.{SentWhole, carried_by};
ghost use Rattle.transfer_copy.specs.declared.get.FileGet.{FileGet};
ghost use Rattle.transfer_copy.specs.declared.put.FilePut.{FilePut};

use transfer_copy::LocalFile;

/// States the effect of a whole copy from the server. The server's file is under the local name, nothing is under the
/// name of the part file, everything else is unchanged, and the copy returned the file's length. This holds under three
/// conditions. The pieces that came belong to the file. The end was reported no earlier than at its end. A part file
/// after which the copy continued had the file's first bytes. It holds with `sync` and without.
pub fn files_come_down_whole()
    ensures { (remote part name file : List ℕ) (sync : Bool) (from len : ℕ) (before after : Disk) (legs : List (CopyStep FileGet Disk))
        → part ≢ name → from ≤ length file → HasFirst part from file before
        → (whole : GotWhole after_act remote part name sync from len before after legs) → ArePiecesOf file whole.pieces
        → length file ≤ whole.last_read.offset → IsCopied part name file before after × (len ≡ length file) }
{}

/// States the effect of a whole copy to the server. Its WRITEs make the local file if they are applied, in the order in
/// which they were asked, to the first bytes of the file after which it continued. The copy returned the length of the
/// local file. This holds if the local file returned its bytes from there on.
pub fn files_go_up_whole<F: LocalFile>()
    ensures { (name part remote file : List ℕ) (sync : Bool) (from len : ℕ) (first now : F.History) (legs : List (CopyStep FilePut F.History))
        → from ≤ length file → (whole : SentWhole F.done name part remote sync from len first now legs)
        → joined_pieces (carried_by whole.writes) ≡ drop from file
        → (written_to (take from file) whole.writes ≡ file) × (len ≡ length file) }
{}

/// States that the file machine answers a READ with bytes of the file from its offset on, and chooses how many. It
/// answers with the end of the file only if the file has no bytes there.
pub fn machine_gives_pieces()
    ensures data { (tree : FileTree) (held : Held) (cap offset len : ℕ) (bytes : List ℕ)
        → (after_read tree cap offset len (Some held)).0 ≡ reply.Content bytes
        → (n : ℕ) × (bytes ≡ take n (drop offset (bytes_of tree held.file))) }
    ensures end { (tree : FileTree) (held : Held) (cap offset len : ℕ) (message language : List ℕ)
        → (after_read tree cap offset len (Some held)).0 ≡ reply.Status SSH_FX_EOF message language
        → size_of tree held.file ≤ offset }
{}
