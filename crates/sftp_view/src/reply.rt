//! Does the operations of a list through a cache, over a server in memory, and returns the text.
ghost use Rattle.view_model.specs.CacheSizes.{IsCacheSize};
ghost use Rattle.view_model.specs.CanView.{CanView};
ghost use Rattle.view_model.specs.Lists.{list_of};
ghost use Rattle.sftp_view.specs.Left.{LeavesServer};
ghost use Rattle.sftp_view.specs.Printed.{IsViewed};

use crate::printed::{view_served, view_text};
use program_shell::Program;
use script_grammar::{Script, ScriptError};
use sftp_map_server::MapServer;
use ssh_encoding::OutOfMemory;
use std::alloc::Global;
use view_model::{CacheSize, ViewList, read_list};

/// A view through a cache of this size.
#[derive(Clone, Copy, Debug, PartialEq, Eq)]
pub(crate) struct CachedView {
    pub(crate) size: CacheSize,
}

impl Program for CachedView {
    type Value = ViewList;

    ghost may = { λ view. IsCacheSize view.size };

    ghost reads = { λ view. list_of view.size.block };

    ghost can = { λ view. CanView view.size.block };

    ghost setup = { λ list. list.script };

    ghost leaves = { λ view. LeavesServer view.size };

    ghost right = { λ view. IsViewed view.size };

    #[tactic(auto, using(crate::proofs::Exits::long_refused))]
    fn read(&self, alloc: Global, bytes: &[u8]) -> Result<ViewList, ScriptError> {
        read_list(alloc, self.size.block, bytes)
    }

    fn setup_of<'a>(&self, list: &'a ViewList) -> &'a Script {
        &list.script
    }

    /// Does the operations, and returns the text of the answer to each and of the files and directories that are left.
    /// Fails only if an allocation fails.
    #[tactic(auto, using(crate::proofs::Running::may_view))]
    fn text_over(
        &self,
        alloc: Global,
        server: &mut MapServer,
        list: &ViewList,
    ) -> Result<Vec<u8>, OutOfMemory> {
        let ops = list.ops.as_slice();
        let report = view_served(alloc, server, self.size, ops, &list.script.options)?;
        view_text(alloc, &report, server)
    }
}
