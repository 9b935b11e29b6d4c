//! A server of files and directories whose VERSION can list its offer.
ghost use Rattle.std.specs.Prelude.{◌≡◌, All, IfOk, true};
ghost use Rattle.sftp_model.specs.Fits.{FitsNumber, FitsSet};
ghost use Rattle.machine_model.specs.FirstTree.{may_begin};
ghost use Rattle.sftp_map_server.specs.Unopened.{IsUnopened, unopened_server};

use crate::map_server::MapServer;
use sftp_model::{Choice, ServerConfig};
use sftp_values::{ByteText, Items};
use ssh_encoding::OutOfMemory;
use std::alloc::Global;

/// Creates a server of these files, each a path and its bytes, and these directories, each a path. Its k-th request
/// takes the k-th choice, and it sends its replies by these picks. It offers no unknown extension.
///
/// # Errors
///
/// `OutOfMemory` if an allocation fails.
pub fn new_server(
    alloc: Global,
    files: &[(ByteText, ByteText)],
    dirs: &[ByteText],
    config: ServerConfig,
    choices: Items<Choice>,
    picks: Items<u32>,
) -> Result<MapServer, OutOfMemory>
    requires may { may_begin files.now dirs.now ≡ true }
    requires known { FitsSet config.extensions.0 }
    ensures ok { IfOk result (λ server. server ≡ unopened_server files.now dirs.now config choices picks) }
    ensures unopened { IfOk result (λ server. IsUnopened server.first) }
{
    // For the contract: the code of each choice is a u32.
    codes_fit(choices.as_slice());
    MapServer::new_tree(alloc, files, dirs, config, choices, picks)
}

/// The code of each choice fits its field.
fn codes_fit(choices: &[Choice])
    ensures { All (λ choice. FitsNumber choice.refuse) choices.now }
{
    for choice in choices {
        code_fits(*choice);
    }
}

/// The code of a choice fits its field.
fn code_fits(_choice: Choice)
    ensures { FitsNumber _choice.refuse }
{}
