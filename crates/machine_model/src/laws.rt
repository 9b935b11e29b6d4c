//! Laws of the definitions. The functions do nothing: what they ensure holds for all values.
ghost use Rattle.std.specs.Prelude.{◌≡◌, ◌≢◌, ◌<◌, ◌≤◌, ◌⊎◌, ℕ, List, None, Some, false, length, true};
ghost use Rattle.sftp_model.specs.Answers.{MayAnswer, is_handle, IsAfterHello};
ghost use Rattle.sftp_model.specs.Fits.{FitsHandle, FitsNumber, FitsReply};
ghost use Rattle.sftp_model.specs.Frames.{reply_body};
ghost use Rattle.sftp_model.specs.Numbers.{MAX_BODY_LEN};
ghost use Rattle.sftp_model.specs.declared.config.Choice.{Choice};
ghost use Rattle.sftp_model.specs.declared.config.ServerConfig.{ServerConfig};
ghost use Rattle.sftp_model.specs.declared.request.Request.{Request};
ghost use Rattle.machine_model.specs.Changes.{AsksToOpen, IsWellFormed, LeavesChanged, HasOpen};
ghost use Rattle.machine_model.specs.Components.{Name, is_within};
ghost use Rattle.machine_model.specs.FileTree.{FileTree, node_at, opened_at};
ghost use Rattle.machine_model.specs.FirstTree.{FirstFile, first_tree, may_begin};
ghost use Rattle.machine_model.specs.FitTrees.{GivesWithin, IsFit};
ghost use Rattle.machine_model.specs.HandleRequests.{capped_at};
ghost use Rattle.machine_model.specs.NameRequests.{entries_at};
ghost use Rattle.machine_model.specs.Refusals.{KeepsWhereRefused};
ghost use Rattle.machine_model.specs.TreeAnswers.{apply};
ghost use Rattle.machine_model.specs.Trees.{IsTree, ListOnce};
ghost use Rattle.machine_model.specs.declared.node.Node.TheVariants as node;
ghost use Rattle.machine_model.specs.declared.node.Node.{Node};

/// The reply to any request except the hello may answer it, and a request that is refused changes nothing.
pub fn replies_may_answer()
    ensures allowed { (tree : FileTree) (config : ServerConfig) (r : Request) (choice : Choice)
        (handle : List ℕ) → IsAfterHello r → MayAnswer r (apply tree config r choice handle).0 }
    ensures keeps { (tree : FileTree) (config : ServerConfig) (r : Request) (choice : Choice)
        (handle : List ℕ) → KeepsWhereRefused tree (apply tree config r choice handle).0
        (apply tree config r choice handle).1 }
{}

/// Each request makes one of the changes to which it may lead. The reply is a HANDLE, with the handle that was to be
/// granted, exactly if that change grants one.
pub fn answers_leave_changes()
    ensures { (tree : FileTree) (config : ServerConfig) (r : Request) (choice : Choice)
        (handle : List ℕ) → LeavesChanged tree r handle (apply tree config r choice handle) }
{}

/// If each file has a number that at most one name has, this stays so.
pub fn trees_stay_well_formed()
    ensures { (tree : FileTree) (config : ServerConfig) (r : Request) (choice : Choice)
        (handle : List ℕ) → IsWellFormed tree → IsWellFormed (apply tree config r choice handle).1 }
{}

/// If files and names are within their bounds, this stays so.
pub fn trees_stay_fit()
    ensures { (tree : FileTree) (config : ServerConfig) (r : Request) (choice : Choice)
        (handle : List ℕ) → IsFit tree → IsFit (apply tree config r choice handle).1 }
{}

/// A tree that a server may start with is within its bounds: no file and no name's last component is too long.
pub fn first_trees_are_fit()
    ensures { (files : List FirstFile) (dirs : List (List ℕ)) → may_begin files dirs ≡ true
        → IsFit (first_tree files dirs) }
{}

/// If each name occurs once and beneath a directory, this stays so.
pub fn trees_stay_trees()
    ensures { (tree : FileTree) (config : ServerConfig) (r : Request) (choice : Choice)
        (handle : List ℕ) → IsTree tree → IsTree (apply tree config r choice handle).1 }
{}

/// A tree that a server may start with is a tree: each name occurs once, and beneath a directory.
pub fn first_trees_are_trees()
    ensures { (files : List FirstFile) (dirs : List (List ℕ)) → may_begin files dirs ≡ true
        → IsTree (first_tree files dirs) }
{}

/// In a tree that a server may start with, each file has a number, which at most one name has.
pub fn first_trees_are_well_formed()
    ensures { (files : List FirstFile) (dirs : List (List ℕ)) → may_begin files dirs ≡ true
        → IsWellFormed (first_tree files dirs) }
{}

/// In a tree, each name within which another one lies is a directory's.
pub fn prefixes_are_directories()
    ensures { (tree : FileTree) (directory name : Name) (n : Node) → IsTree tree
        → is_within directory name ≡ true → directory ≢ name → node_at tree name ≡ Some n
        → node_at tree directory ≡ Some node.Directory }
{}

/// In a tree, the entries of a directory have each filename once.
pub fn listings_name_each_once()
    ensures { (tree : FileTree) (name : Name) → IsTree tree → ListOnce (entries_at tree name) }
{}

/// The reply fits a frame, and its body is within the bound, if the tree is within its bounds and the handle, the
/// choice and a READ's length fit.
pub fn replies_fit_frames()
    ensures fits { (tree : FileTree) (config : ServerConfig) (r : Request) (choice : Choice)
        (handle : List ℕ) → IsFit tree → FitsHandle handle → FitsNumber choice.refuse
        → GivesWithin choice.cap r → FitsReply (apply tree config r choice handle).0 }
    ensures within { (tree : FileTree) (config : ServerConfig) (r : Request) (choice : Choice)
        (handle : List ℕ) (id : ℕ) → IsFit tree → FitsHandle handle → FitsNumber choice.refuse
        → GivesWithin choice.cap r
        → length (reply_body (apply tree config r choice handle).0 id) ≤ MAX_BODY_LEN }
{}

/// A handle that is not open is open after a request only if the request was granted it.
pub fn handles_open_where_granted()
    ensures { (tree : FileTree) (config : ServerConfig) (r : Request) (choice : Choice)
        (handle key : List ℕ) → opened_at tree key ≡ None
        → (handle ≢ key) ⊎ (is_handle (apply tree config r choice handle).0 ≡ false)
        → opened_at (apply tree config r choice handle).1 key ≡ None }
{}

/// A request that is no OPEN of a name opens its file by no further handle.
pub fn files_open_by_opens()
    ensures { (tree : FileTree) (config : ServerConfig) (r : Request) (choice : Choice)
        (handle : List ℕ) (name : Name) (file : ℕ) (h : List ℕ) → IsWellFormed tree
        → (AsksToOpen r name → ⊥) → node_at tree name ≡ Some (node.File file)
        → HasOpen (apply tree config r choice handle).1 h file → HasOpen tree h file }
{}

/// A choice can make a DATA and a NAME of any length that its row of the definition allows.
pub fn replies_of_any_length()
    ensures { (cap most : ℕ) → 0 < cap → cap ≤ most → capped_at cap most ≡ cap }
{}
