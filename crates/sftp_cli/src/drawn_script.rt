//! The script that three numbers make.
ghost use Rattle.std.specs.Prelude.{◌≡◌, ◌≤◌, ◌*◌, IfOk};
ghost use Rattle.sftp_cli.specs.Bulk.{bulk_server, bulk_script};

use crate::draws::Draws;
use bitflags::Flags;
use script_grammar::Script;
use sftp_model::{Extensions, Limits, ServerConfig, SftpOptions};
use sftp_values::Items;
use ssh_encoding::OutOfMemory;
use std::alloc::Global;

/// Returns the extensions and limits that the server reports.
fn bulk_server() -> ServerConfig
    ensures { result ≡ bulk_server }
{
    ServerConfig {
        extensions: Extensions::from_bits_retain(0),
        limits: Some(Limits {
            packet_len: 262144,
            read_len: 1000,
            write_len: 1000,
            open_handles: 0,
        }),
        cut: 0,
    }
}

/// Returns a script of this many lanes with this many calls each. The calls, the turns, and the server's choices and
/// picks are drawn, one after the other.
///
/// # Errors
///
/// `OutOfMemory` if an allocation fails.
pub fn bulk_script(alloc: Global, start: u64, lanes: u32, calls: u32) -> Result<Script, OutOfMemory>
    requires lanes { lanes ≤ 256 }
    requires calls { calls ≤ 4096 }
    requires all { lanes * calls ≤ 16384 }
    ensures { IfOk result (λ script. script ≡ bulk_script start lanes calls) }
{
    let count = 4 * (lanes * calls);
    let mut draws = Draws::new(start);
    let made = draws.lanes(alloc, lanes, calls)?;
    let turns = draws.turns(alloc, lanes, count)?;
    let choices = draws.choices(alloc, count)?;
    let picks = draws.picks(alloc, count)?;
    Ok(Script {
        options: SftpOptions::new(),
        server: bulk_server(),
        files: Items::new(Vec::new(alloc)),
        dirs: Items::new(Vec::new(alloc)),
        choices,
        picks,
        lanes: made,
        turns,
    })
}
