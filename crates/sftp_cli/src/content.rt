//! The names of files, and the content that is written to them.
ghost use Rattle.std.specs.Prelude.{◌≡◌, ◌<◌, IfOk};
ghost use Rattle.sftp_cli.specs.Bulk.{content_of, counting_bytes, name_of};

use sftp_values::ByteText;
use ssh_encoding::OutOfMemory;
use std::alloc::Global;

/// Returns the name of a file: four bytes for the lane, and one for the third and fourth lowest bits of a value.
#[tactic(auto, unfolding(ssh_encoding::specs::Writing::uint32))]
pub(crate) fn name_of(alloc: Global, lane: u32, v: u32) -> Result<ByteText, OutOfMemory>
    ensures { IfOk result (λ name. name ≡ name_of lane v) }
{
    let mut name = Vec::from_slice(alloc, &lane.to_be_bytes())?;
    name.push((v / 4 % 4) as u8)?;
    Ok(ByteText::new(name))
}

/// Returns bytes that count up from a number.
#[tactic(auto, using(crate::proofs::Steps::counts_on, crate::proofs::Steps::counts_end))]
fn counting(alloc: Global, w: u32, count: u32) -> Result<ByteText, OutOfMemory>
    requires first { w < 2147483648 }
    requires count { count < 2147483648 }
    ensures { IfOk result (λ bytes. bytes ≡ counting_bytes w count) }
{
    let mut bytes = Vec::new(alloc);
    for i in 0..count {
        bytes.push(((w + i) % 256) as u8)?;
    }
    Ok(ByteText::new(bytes))
}

/// Returns the content that is written to a file.
pub(crate) fn content_of(alloc: Global, w: u32) -> Result<ByteText, OutOfMemory>
    requires { w < 2147483648 }
    ensures { IfOk result (λ bytes. bytes ≡ content_of w) }
{
    counting(alloc, w, w % 10000)
}
