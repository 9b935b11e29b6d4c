//! Laws of the definitions; the functions do nothing, and their clauses hold for all values.
ghost use Rattle.std.specs.Prelude.{◌≡◌, ◌<◌, ◌≤◌, ℕ, Bool, List, [], ◌∷◌, ◌++◌, None, Option, Some, length};
ghost use Rattle.sftp_model.specs.declared.config.Choice.{Choice};
ghost use Rattle.sftp_model.specs.declared.config.ServerConfig.{ServerConfig};
ghost use Rattle.sftp_model.specs.declared.error.Error.TheVariants as error;
ghost use Rattle.sftp_model.specs.declared.outcome.Outcome.{Outcome};
ghost use Rattle.sftp_model.specs.declared.outcome.Outcome.TheVariants as outcome;
ghost use Rattle.sftp_model.specs.declared.reply.NameEntry.{NameEntry};
ghost use Rattle.sftp_model.specs.declared.request.Request.{Request};
ghost use Rattle.sftp_model.specs.declared.slot.Buffer.{Buffer};
ghost use Rattle.sftp_model.specs.declared.slot.Facts.{Facts};
ghost use Rattle.sftp_model.specs.declared.slot.FileAt.{FileAt};
ghost use Rattle.sftp_model.specs.declared.slot.Site.{Site};
ghost use Rattle.sftp_model.specs.declared.slot.Slot.TheVariants.{Buffered};
ghost use Rattle.sftp_model.specs.Slots.{slot_at};
ghost use Rattle.machine_model.specs.Changes.{IsWellFormed};
ghost use Rattle.machine_model.specs.Components.{Name, components};
ghost use Rattle.machine_model.specs.FileTree.{FileTree, bytes_of, node_at, opened_at, written_at};
ghost use Rattle.machine_model.specs.NameRequests.{entries_at};
ghost use Rattle.machine_model.specs.declared.opened.Held.{Held};
ghost use Rattle.machine_model.specs.declared.opened.Opened.TheVariants as opened;
ghost use Rattle.machine_model.specs.Trees.{IsTree, ListOnce};
ghost use Rattle.plan_model.specs.declared.call.Call.TheVariants as call;
ghost use Rattle.plan_model.specs.Moves.{Answers, Own};
ghost use Rattle.plan_model.specs.PathPlans.{from_directory};
ghost use Rattle.plan_model.specs.declared.call.Call.{Call};
ghost use Rattle.session_model.specs.declared.entry.Entry.{Entry};
ghost use Rattle.session_model.specs.declared.entry.Entry.TheVariants as entry;
ghost use Rattle.session_model.specs.declared.event.Event.TheVariants.{End};
ghost use Rattle.session_model.specs.Calls.{Setting, current, site_of};
ghost use Rattle.session_model.specs.Journals.{IsJournal};
ghost use Rattle.session_model.specs.Readings.{answer, count_ended, last_cancel, own};
ghost use Rattle.session_model.specs.Served.{ServesJournal};
ghost use Rattle.run_laws.specs.CallsAmong.{GivesContent, HasEnded, HasNoFile, StandsOnDirectory, StandsOnName, ToWrite, asked_by, refusal_of};
ghost use Rattle.run_laws.specs.DeferredWrites.{AreWrites, AreWritten, StandAlone, carried_bytes, places};
ghost use Rattle.run_laws.specs.GrantUses.{AllPassBy, IsCallOn, IsRunOn};
ghost use Rattle.run_laws.specs.Steps.{Step, after, AllSpare, AreServed, ChooseOnly, FeignsNoEnd, HasBytes, IsAnyChoice, RefusesNone, RunOf};

/// A journal that a file machine serves is a run of the machine: its requests are the steps, each at its place.
pub fn served_journals_are_runs()
    ensures { (config : ServerConfig) (choices : List Choice) (first : FileTree) (past : List Entry) (now : FileTree)
        → ServesJournal config choices first past now → RunOf config choices first past now }
{}

/// A call of a lane that ended by its plan made the requests that its plan asked by the replies of that time. It ended
/// by these, regardless of the entries after its end.
pub fn ended_calls_went_by_their_plans()
    ensures { (s : Setting) (past more : List Entry) (lane : ℕ) (c : Call) (o : Outcome)
        → IsJournal s (more ++ entry.Event (End lane (count_ended past lane) o) ∷ past) → last_cancel past ≡ None
        → current s past lane ≡ Some c
        → HasEnded c (site_of s past lane) s.facts
        (own (more ++ entry.Event (End lane (count_ended past lane) o) ∷ past) lane (count_ended past lane))
        (answer (more ++ entry.Event (End lane (count_ended past lane) o) ∷ past)) o }
{}

/// Steps that spare a name leave what it has unchanged, be it a file, a directory or nothing, and the bytes of its
/// file.
pub fn spared_names_stay()
    ensures node { (config : ServerConfig) (name : Name) (tree : FileTree) (steps : List Step)
        → AllSpare config name tree steps → node_at (after config tree steps) name ≡ node_at tree name }
    ensures bytes { (config : ServerConfig) (name : Name) (content : List ℕ) (tree : FileTree) (steps : List Step)
        → IsWellFormed tree → AllSpare config name tree steps → HasBytes tree name content
        → HasBytes (after config tree steps) name content }
{}

/// A listing that ends with names returns the first of the entries that its directory had when its OPENDIR was
/// answered, in their order: all of them, if no choice feigns an end to one of its requests. In a tree it returns each
/// of them once.
pub fn listings_give_directories()
    ensures begins { (config : ServerConfig) (answers : Answers) (path : List ℕ) (bound : ℕ) (site : Site)
        (facts : Facts) (later : Own) (entries : List NameEntry) (tree : FileTree) (first : Step) (steps : List Step)
        → StandsOnDirectory IsAnyChoice config answers later tree first steps
        → HasEnded (call.List path bound) site facts (asked_by first ∷ later) answers (outcome.Names entries)
        → (rest : List NameEntry) × (entries_at tree (components (from_directory site path)) ≡ entries ++ rest) }
    ensures in_order { (config : ServerConfig) (answers : Answers) (path : List ℕ) (bound : ℕ) (site : Site)
        (facts : Facts) (later : Own) (entries : List NameEntry) (tree : FileTree) (first : Step) (steps : List Step)
        → StandsOnDirectory FeignsNoEnd config answers later tree first steps
        → HasEnded (call.List path bound) site facts (asked_by first ∷ later) answers (outcome.Names entries)
        → entries ≡ entries_at tree (components (from_directory site path)) }
    ensures once { (config : ServerConfig) (answers : Answers) (path : List ℕ) (bound : ℕ) (site : Site)
        (facts : Facts) (later : Own) (entries : List NameEntry) (tree : FileTree) (first : Step) (steps : List Step)
        → IsTree tree → StandsOnDirectory IsAnyChoice config answers later tree first steps
        → HasEnded (call.List path bound) site facts (asked_by first ∷ later) answers (outcome.Names entries)
        → ListOnce entries }
{}

/// A whole write that ended well left a file with its bytes under its name. Others may make requests between its own
/// and after them if these spare the name.
pub fn whole_writes_leave_their_bytes()
    ensures { (config : ServerConfig) (answers : Answers) (name : Name) (path bytes : List ℕ) (site : Site)
        (facts : Facts) (later : Own) (tree : FileTree) (first : Step) (steps : List Step)
        → IsWellFormed tree → components (from_directory site path) ≡ name
        → StandsOnName config answers name later tree first steps
        → HasEnded (call.FsWrite path bytes) site facts (asked_by first ∷ later) answers outcome.Done
        → HasBytes (after config tree (first ∷ steps)) name bytes }
{}

/// A whole read ends with the bytes that its name's file had when it was opened, or it has reached its bound. If the
/// name has no file, it ends with the refusal of its OPEN. Several of its READs may be in flight, and between them
/// others may make requests that spare the name.
pub fn whole_reads_give_the_file()
    ensures gives { (config : ServerConfig) (answers : Answers) (name : Name) (path bytes : List ℕ) (bound : ℕ)
        (site : Site) (facts : Facts) (later : Own) (ended : Outcome) (tree : FileTree) (first : Step)
        (steps : List Step) → ChooseOnly RefusesNone (first ∷ steps) → IsWellFormed tree → HasBytes tree name bytes
        → 1 ≤ facts.read_len
        → components (from_directory site path) ≡ name
        → StandsOnName config answers name later tree first steps
        → HasEnded (call.FsRead path bound) site facts (asked_by first ∷ later) answers ended
        → GivesContent ended bytes }
    ensures refused { (config : ServerConfig) (answers : Answers) (name : Name) (path : List ℕ) (bound : ℕ)
        (site : Site) (facts : Facts) (later : Own) (ended : Outcome) (tree : FileTree) (first : Step)
        (steps : List Step) → ChooseOnly RefusesNone (first ∷ steps) → HasNoFile (node_at tree name)
        → 1 ≤ facts.read_len → components (from_directory site path) ≡ name
        → AreServed config answers tree (first ∷ steps)
        → HasEnded (call.FsRead path bound) site facts (asked_by first ∷ later) answers ended
        → ended ≡ outcome.Refused (error.SftpError (refusal_of (node_at tree name)) [] []) }
{}

/// Bytes that were written are read back.
///
/// In a run whose requests have handles by grants, a whole write with the first step `w` ended well. After it a whole
/// read with the first step `r` ended. Each other step from `w` on passes the name by. Then the read ended with the
/// bytes of the write, or has reached its bound.
pub fn writes_are_read_back()
    ensures { (config : ServerConfig) (answers : Answers) (grant_of : ℕ → Option ℕ) (elsewhere : ℕ → Bool)
        (name : Name) (tree : FileTree) (before between rest : List Step) (w r : Step)
        (write_path read_path bytes : List ℕ) (bound : ℕ) (write_site read_site : Site)
        (write_facts read_facts : Facts) (written read : Own) (ended : Outcome)
        → ChooseOnly RefusesNone (r ∷ rest) → IsWellFormed tree
        → IsRunOn config answers grant_of elsewhere name tree (before ++ ((w ∷ between) ++ r ∷ rest))
        → components (from_directory write_site write_path) ≡ name
        → IsCallOn answers grant_of elsewhere name written w between
        → HasEnded (call.FsWrite write_path bytes) write_site write_facts (asked_by w ∷ written) answers outcome.Done
        → components (from_directory read_site read_path) ≡ name → 1 ≤ read_facts.read_len
        → IsCallOn answers grant_of elsewhere name read r rest
        → HasEnded (call.FsRead read_path bound) read_site read_facts (asked_by r ∷ read) answers ended
        → GivesContent ended bytes }
{}

/// A whole read before which each step of the run passes its name by returns what the name had at first: the bytes of
/// its file, unless it has reached its bound, or the refusal of its OPEN if the name has no file.
pub fn reads_give_what_was_there()
    ensures gives { (config : ServerConfig) (answers : Answers) (grant_of : ℕ → Option ℕ) (elsewhere : ℕ → Bool)
        (name : Name) (tree : FileTree) (before rest : List Step) (r : Step) (path bytes : List ℕ) (bound : ℕ)
        (site : Site) (facts : Facts) (read : Own) (ended : Outcome)
        → ChooseOnly RefusesNone (r ∷ rest) → IsWellFormed tree → HasBytes tree name bytes
        → IsRunOn config answers grant_of elsewhere name tree (before ++ r ∷ rest)
        → AllPassBy answers grant_of elsewhere name before
        → components (from_directory site path) ≡ name → 1 ≤ facts.read_len
        → IsCallOn answers grant_of elsewhere name read r rest
        → HasEnded (call.FsRead path bound) site facts (asked_by r ∷ read) answers ended → GivesContent ended bytes }
    ensures refused { (config : ServerConfig) (answers : Answers) (grant_of : ℕ → Option ℕ) (elsewhere : ℕ → Bool)
        (name : Name) (tree : FileTree) (before rest : List Step) (r : Step) (path : List ℕ) (bound : ℕ)
        (site : Site) (facts : Facts) (read : Own) (ended : Outcome)
        → ChooseOnly RefusesNone (r ∷ rest) → IsWellFormed tree → HasNoFile (node_at tree name)
        → IsRunOn config answers grant_of elsewhere name tree (before ++ r ∷ rest)
        → AllPassBy answers grant_of elsewhere name before
        → components (from_directory site path) ≡ name → 1 ≤ facts.read_len
        → IsCallOn answers grant_of elsewhere name read r rest
        → HasEnded (call.FsRead path bound) site facts (asked_by r ∷ read) answers ended
        → ended ≡ outcome.Refused (error.SftpError (refusal_of (node_at tree name)) [] []) }
{}

/// WRITEs carry the parts of some bytes one after another, and each is answered by a STATUS 0. If no other request
/// changes the file between them, they leave the bytes in the file at the offset of the first; zeros fill a gap.
pub fn deferred_writes_are_joined()
    ensures { (config : ServerConfig) (answers : Answers) (h : List ℕ) (held : Held) (offset : ℕ) (steps : List Step)
        (first : ℕ × Request) (later : Own) (tree : FileTree) → IsWellFormed tree
        → opened_at tree h ≡ Some (opened.File held) → ToWrite held → AreServed config answers tree steps
        → StandAlone config held.file h (first ∷ later) tree steps → AreWrites h offset (first ∷ later)
        → AreWritten answers (places (first ∷ later))
        → bytes_of (after config tree steps) held.file
        ≡ written_at (bytes_of tree held.file) offset (carried_bytes (first ∷ later)) }
{}

/// Bytes that were written to a buffered file and flushed are in the file, at the file's offset; zeros fill a gap. The
/// conditions are that a call writes all of them, and that a flush of what it left ended well. No other request may
/// change the file from the first of the call's WRITEs to the last.
pub fn flushed_writes_are_in_the_file()
    ensures { (config : ServerConfig) (answers : Answers) (slot : ℕ) (file : FileAt) (buffer : Buffer)
        (bytes : List ℕ) (site flush_site : Site) (facts flush_facts : Facts) (own flush_own : Own) (h : List ℕ)
        (held : Held) (tree : FileTree) (steps : List Step) → IsWellFormed tree
        → opened_at tree h ≡ Some (opened.File held) → ToWrite held → AreServed config answers tree steps
        → StandAlone config held.file h own tree steps → 0 < length bytes
        → slot_at site slot ≡ Buffered file buffer
        → (written : HasEnded (call.BufWriteAll slot bytes) site facts own answers outcome.Done)
        → slot_at flush_site slot ≡ slot_at written.left slot
        → HasEnded (call.BufFlush slot) flush_site flush_facts flush_own answers outcome.Done
        → bytes_of (after config tree steps) held.file ≡ written_at (bytes_of tree held.file) file.offset bytes }
{}
