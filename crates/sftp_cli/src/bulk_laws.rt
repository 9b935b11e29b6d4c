//! Laws of the definitions; the functions do nothing, and their ensures clauses hold for all values.
ghost use Rattle.std.specs.Prelude.{◌≡◌, ◌<◌, ◌≤◌, ◌*◌, ◌^◌, ℕ, [], List, All, IfSome, length, true};
ghost use Rattle.sftp_model.specs.Fits.{FitsLimits, FitsNumber, FitsSet};
ghost use Rattle.machine_model.specs.FirstTree.{may_begin};
ghost use Rattle.session_model.specs.declared.entry.Entry.{Entry};
ghost use Rattle.plan_model.specs.Lanes.{are_ok};
ghost use Rattle.session_model.specs.Readings.{count_sent, trace_of};
ghost use Rattle.sftp_cli.specs.Bulk.{bulk_script, count_of};
ghost use Rattle.sftp_cli.specs.Summary.{requests_in};

/// States that a session can be given the lanes of each such script.
pub fn bulk_lanes_are_ok()
    ensures { (start lanes calls : ℕ) → lanes ≤ 256 → lanes * calls ≤ 16384
        → are_ok (bulk_script start lanes calls).lanes ≡ true }
{}

/// States that each such script has the given number of lanes, and each lane the given number of calls. For each call
/// the script has four turns, four choices and four picks.
pub fn bulk_scripts_are_whole()
    ensures lanes { (start lanes calls : ℕ) → length (bulk_script start lanes calls).lanes ≡ lanes }
    ensures calls { (start lanes calls : ℕ) →
        All (λ lane. length lane.calls ≡ calls) (bulk_script start lanes calls).lanes }
    ensures turns { (start lanes calls : ℕ) → length (bulk_script start lanes calls).turns ≡ count_of lanes calls }
    ensures choices { (start lanes calls : ℕ) → length (bulk_script start lanes calls).choices ≡ count_of lanes calls }
    ensures picks { (start lanes calls : ℕ) → length (bulk_script start lanes calls).picks ≡ count_of lanes calls }
{}

/// States that a server may start with each such script, which is without files, and that its extensions, its limits
/// and the codes of its choices fit their fields.
pub fn bulk_servers_may_begin()
    ensures files { (start lanes calls : ℕ) → (bulk_script start lanes calls).files ≡ [] }
    ensures dirs { (start lanes calls : ℕ) → (bulk_script start lanes calls).dirs ≡ [] }
    ensures may { (start lanes calls : ℕ) →
        may_begin (bulk_script start lanes calls).files (bulk_script start lanes calls).dirs ≡ true }
    ensures known { (start lanes calls : ℕ) → FitsSet (bulk_script start lanes calls).server.extensions.0 }
    ensures limits { (start lanes calls : ℕ) → IfSome (bulk_script start lanes calls).server.limits FitsLimits }
    ensures codes { (start lanes calls : ℕ) →
        All (λ choice. FitsNumber choice.refuse) (bulk_script start lanes calls).choices }
{}

/// States that the number of requests reported for a journal's trace is the number of requests sent in the journal.
pub fn traces_keep_requests()
    ensures { (past : List Entry) → requests_in (trace_of past) ≡ count_sent past }
{}
