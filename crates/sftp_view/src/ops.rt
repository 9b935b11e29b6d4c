//! The operations of a view.
ghost use Rattle.std.specs.Prelude.{◌≡◌, ◌≤◌, ◌<◌, ◌+◌, ◌*◌, ◌^◌, ◌/◌, ◌-◌, [], None, Ok, Some, true};
ghost use Rattle.std.specs.Map.{lookup};
ghost use Rattle.session_driver.specs.Ongoing.{run_state};
ghost use Rattle.sftp_lanes.specs.Seen.{seen_of};
ghost use Rattle.machine_model.specs.Components.{components};
ghost use Rattle.view_model.specs.Blocks.{block_count, first_block};
ghost use Rattle.view_model.specs.Keys.{key_of, same_key};
ghost use Rattle.view_model.specs.Viewed.{answered_with, block_by, gather_blocks, get_by, op_by, pure, put_at, put_by, write_bytes};
ghost use Rattle.view_model.specs.ViewOps.{is_within};
ghost use Rattle.sftp_view.specs.Doings.{IsIdle, MayDo, DoesBySession};
ghost use Rattle.sftp_view.specs.Working.{MayWork, DoesByView, count_lookups};

use crate::blocks::fetch_block;
use crate::call::Found;
use crate::puts::write_file;
use machine_answers::components;
use sftp_lanes::Session;
use sftp_link::Link;
use sftp_model::Error;
use sftp_values::ByteText;
use std::alloc::Global;
use view_model::{Answer, BlockCache, BlockKey, ViewOp, cut, passes_length};

/// A session of one lane, and the blocks that are kept.
///
/// Used in `crates/sftp_view/src/all.rt`.
#[derive(Drop)]
pub struct View {
    pub session: Session,
    pub cache: BlockCache,
    pub block: u32,
}

impl View {
    /// Returns a block of a file: the one that is kept, or one that is read now. A block that is read is kept, unless
    /// it was refused.
    fn get_block<L: Link>(
        &mut self,
        alloc: Global,
        link: &mut L,
        path: &ByteText,
        key: &BlockKey,
    ) -> Result<Found, Error>
        requires idle { IsIdle (run_state (seen_of self.old.session) (L.LinkState.state link.old)) }
        requires may { MayDo (block_by self.old.block self.old.cache.capacity path.now key.now.block self.old.cache.kept
            (lookup (same_key key.now) self.old.cache.kept.entries)) (seen_of self.old.session).progress.past }
        requires of { key.now ≡ key_of (components path.now) key.now.block }
        requires fits { key.now.block * self.old.block < 2 ^ 64 }
        requires counts { self.old.cache.kept.hits + self.old.cache.kept.misses < 2 ^ 64 - 1 }
        ensures { DoesByView (block_by self.old.block self.old.cache.capacity path.now key.now.block self.old.cache.kept
            (lookup (same_key key.now) self.old.cache.kept.entries)) (λ found. pure (record { found = found; kept = self.new.cache.kept })) 1
            self.old (L.LinkState.state link.old) self.new (L.LinkState.state link.new) result }
    {
        match self.cache.find(alloc, key) {
            Ok(Some(bytes)) => return Ok(Ok(bytes)),
            Ok(None) => {}
            Err(_) => return Err(Error::OutOfMemory),
        }
        let found = fetch_block(alloc, &mut self.session, link, self.block, path, key.block)?;
        match self.cache.keep(alloc, key, &found) {
            Ok(()) => Ok(found),
            Err(_) => Err(Error::OutOfMemory),
        }
    }

    /// Returns the bytes of `count` blocks of a file from the one with the number `first` on, up to one that isn't
    /// whole; or the status of the first that is refused.
    fn gather<L: Link>(
        &mut self,
        alloc: Global,
        link: &mut L,
        path: &ByteText,
        first: u64,
        count: u64,
    ) -> Result<Found, Error>
        requires idle { IsIdle (run_state (seen_of self.old.session) (L.LinkState.state link.old)) }
        requires may { MayDo (gather_blocks self.old.block self.old.cache.capacity path.now first count [] self.old.cache.kept)
            (seen_of self.old.session).progress.past }
        requires fits { (first + count) * self.old.block < 2 ^ 64 }
        requires some { 1 ≤ self.old.block }
        requires counts { count_lookups self.old.cache + count < 2 ^ 64 - 1 }
        ensures { DoesByView (gather_blocks self.old.block self.old.cache.capacity path.now first count [] self.old.cache.kept)
            (λ found. pure (record { found = found; kept = self.new.cache.kept })) count
            self.old (L.LinkState.state link.old) self.new (L.LinkState.state link.new) result }
    {
        let name = match components(alloc, path.as_slice()) {
            Ok(name) => name,
            Err(_) => return Err(Error::OutOfMemory),
        };
        let mut key = BlockKey { name, block: first };
        let mut bytes = Vec::new(alloc);
        for _block in 0..count {
            match self.get_block(alloc, link, path, &key)? {
                Err(code) => return Ok(Err(code)),
                Ok(more) => {
                    let more = more.as_slice();
                    if bytes.extend_from_slice(more).is_err() {
                        return Err(Error::OutOfMemory);
                    }
                    if more.len() < self.block as usize {
                        return Ok(Ok(ByteText::new(bytes)));
                    }
                }
            }
            key.block += 1;
        }
        Ok(Ok(ByteText::new(bytes)))
    }

    /// Returns at most `len` bytes of a file from an offset on, from its blocks.
    fn get<L: Link>(
        &mut self,
        alloc: Global,
        link: &mut L,
        path: &ByteText,
        offset: u64,
        len: u32,
    ) -> Result<Answer, Error>
        requires may { MayWork (get_by self.old.block self.old.cache.capacity path.now offset len self.old.cache.kept) self.old (L.LinkState.state link.old) }
        requires some { 1 ≤ len }
        requires most { len ≤ 1048576 }
        requires far { offset ≤ 1099511627776 }
        ensures { DoesByView (get_by self.old.block self.old.cache.capacity path.now offset len self.old.cache.kept)
            (λ a. pure (answered_with a self.new.cache.kept)) 2097152
            self.old (L.LinkState.state link.old) self.new (L.LinkState.state link.new) result }
    {
        let block = u64::from(self.block);
        let first = offset / block;
        let last = (offset + u64::from(len) - 1) / block;
        match self.gather(alloc, link, path, first, last - first + 1)? {
            Ok(bytes) => match cut(alloc, bytes.as_slice(), offset - first * block, len) {
                Ok(part) => Ok(Answer::Got(part)),
                Err(_) => Err(Error::OutOfMemory),
            },
            Err(code) => Ok(Answer::Refused { code }),
        }
    }

    /// Writes bytes to a file, and drops the blocks of its name, whether or not the write succeeded.
    fn put<L: Link>(
        &mut self,
        alloc: Global,
        link: &mut L,
        path: &ByteText,
        offset: u64,
        content: &ByteText,
    ) -> Result<Answer, Error>
        requires { MayWork (put_by path.now offset content.now self.old.cache.kept) self.old (L.LinkState.state link.old) }
        ensures { DoesByView (put_by path.now offset content.now self.old.cache.kept) (λ a. pure (answered_with a self.new.cache.kept)) 2097152
            self.old (L.LinkState.state link.old) self.new (L.LinkState.state link.new) result }
    {
        let answer = write_file(alloc, &mut self.session, link, path, offset, content)?;
        let name = match components(alloc, path.as_slice()) {
            Ok(name) => name,
            Err(_) => return Err(Error::OutOfMemory),
        };
        match self.cache.forget(alloc, &name) {
            Ok(()) => Ok(answer),
            Err(_) => Err(Error::OutOfMemory),
        }
    }

    /// Does an operation.
    pub(crate) fn run<L: Link>(
        &mut self,
        alloc: Global,
        link: &mut L,
        op: &ViewOp,
    ) -> Result<Answer, Error>
        requires may { MayWork (op_by self.old.block self.old.cache.capacity op.now self.old.cache.kept) self.old (L.LinkState.state link.old) }
        requires within { is_within op.now ≡ true }
        ensures { DoesByView (op_by self.old.block self.old.cache.capacity op.now self.old.cache.kept) (λ a. pure (answered_with a self.new.cache.kept)) 2097152
            self.old (L.LinkState.state link.old) self.new (L.LinkState.state link.new) result }
    {
        match op {
            ViewOp::Get { name, offset, len } => {
                if *len == 0 {
                    return Ok(Answer::Got(ByteText::new(Vec::new(alloc))));
                }
                if passes_length(name.as_slice()) {
                    return Ok(Answer::TooLong);
                }
                self.get(alloc, link, name, *offset, *len)
            }
            ViewOp::Put {
                name,
                offset,
                content,
            } => {
                if passes_length(name.as_slice()) {
                    return Ok(Answer::TooLong);
                }
                self.put(alloc, link, name, *offset, content)
            }
        }
    }
}
