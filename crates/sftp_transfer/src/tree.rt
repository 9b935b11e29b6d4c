//! The trees on both sides, as they are compared.
ghost use Rattle.transfer_pool.specs.Sessions.{IsGoing};

use crate::courier::{Courier, text_of};
use crate::resume::may_be_part;
use crate::sources::{copied, ends_walk};
use crate::transfer_error::{TransferError, refusal_of, tell_of};
use sftp_link::Link;
use sftp_model::FileAttrs;
use sftp_values::ByteText;
use std::alloc::Global;
use std::fs;
use transfer_args::Direction;
use transfer_filter::{Filter, Shard};
use transfer_plan::{Found, Task, Walk, last_component, leads_out, path_in};
use transfer_remote::read_remote_link;
use transfer_sync::{Entry, FileFacts, Kind, Listing, ListingError};

/// The side on which a tree is.
#[derive(Clone, Copy, Debug, PartialEq, Eq)]
pub(crate) enum Side {
    /// The local side.
    Here,
    /// The server.
    There,
}

impl Side {
    /// Returns the side that is copied from.
    pub(crate) fn source_of(way: Direction) -> Side {
        match way {
            Direction::Get => Side::There,
            Direction::Put => Side::Here,
        }
    }

    /// Returns the side that is copied to.
    pub(crate) fn target_of(way: Direction) -> Side {
        match way {
            Direction::Get => Side::Here,
            Direction::Put => Side::There,
        }
    }
}

/// The entries that a run neither reads nor changes.
#[derive(Drop)]
pub(crate) struct Untouched<'a> {
    filter: &'a mut Filter,
    /// The source, if the entries are those of the target: what is passed over there stays here.
    source: Option<&'a Listing>,
    /// True if part files of earlier runs stay, to be continued.
    parts: bool,
    /// The share of the files that is copied.
    shard: Shard,
}

impl<'a> Untouched<'a> {
    /// Returns the entries that a filter leaves out, and the files that are not in a share.
    pub(crate) fn by(filter: &'a mut Filter, shard: Shard) -> Untouched<'a> {
        Untouched {
            filter,
            source: None,
            parts: false,
            shard,
        }
    }

    /// Returns the entries of a target that stay as they are, whatever is removed: those that the filter leaves out,
    /// the files that are not in the share, those that are passed over in the source, and with `parts` the part files
    /// that the source doesn't have.
    pub(crate) fn in_target(
        filter: &'a mut Filter,
        shard: Shard,
        source: &'a Listing,
        parts: bool,
    ) -> Untouched<'a> {
        Untouched {
            filter,
            source: Some(source),
            parts,
            shard,
        }
    }

    /// Returns true if an entry is no directory and not in the share.
    fn is_in_other_share(&self, path: &[u8], is_directory: bool) -> bool {
        !is_directory && self.shard.count > 1 && !self.shard.has(path)
    }

    /// Returns true if the entry with this path below the root is one of them. The root is none.
    pub(crate) fn has(&mut self, path: &[u8], is_directory: bool) -> bool {
        if path.is_empty() {
            return false;
        }
        if self.is_in_other_share(path, is_directory)
            || self.filter.leaves_out(path, is_directory)
        {
            return true;
        }
        let Some(source) = self.source else {
            return false;
        };
        match source.find(path) {
            Some(entry) => match entry.kind {
                Kind::Other => true,
                _ => entry.excluded,
            },
            None => self.parts && !is_directory && is_part_path(path),
        }
    }
}

/// Returns true if the last component of a path has the form of a part file's name.
fn is_part_path(path: &[u8]) -> bool {
    match last_component(path) {
        Some(name) => may_be_part(name),
        None => false,
    }
}

/// How far the trees were read.
#[derive(Clone, Copy)]
pub(crate) struct Reading {
    /// True if every directory was listed to its end.
    pub(crate) whole: bool,
    /// True if an entry of the source was passed over, besides those that the filter leaves out.
    pub(crate) skips: bool,
}

/// Returns the path of an entry below the root of its walk, where the root's path has this many bytes in it.
pub(crate) fn path_below(found: &Found, root_len: usize) -> &[u8] {
    let path = found.source.as_slice();
    let (_, below) = path.split_at(root_len.min(path.len()));
    below
}

/// Returns the permissions of owner, group and others.
fn mode_of(attrs: &FileAttrs) -> Option<u32> {
    match attrs.permissions {
        Some(mode) => Some(mode & 0o777),
        None => None,
    }
}

/// Returns what is known of a file by its attributes. Without a size its time isn't known either, so that it is never
/// taken for unchanged.
fn facts_of(attrs: &FileAttrs) -> FileFacts {
    let modified = match (attrs.size, attrs.time) {
        (Some(_), Some((_, modified))) => Some(modified),
        _ => None,
    };
    FileFacts {
        len: attrs.size.unwrap_or(0),
        modified,
        mode: mode_of(attrs),
    }
}

/// Returns an entry without a text.
fn plain_entry(
    alloc: Global,
    found: &Found,
    path: &[u8],
    excluded: bool,
) -> Result<Entry, TransferError> {
    let kind = match found.task {
        Task::CopyFile => Kind::File(facts_of(&found.attrs)),
        Task::MakeFolder => Kind::Directory(mode_of(&found.attrs)),
        Task::CopyLink => Kind::Link(ByteText::new(Vec::new(alloc))),
        _ => Kind::Other,
    };
    Ok(Entry {
        path: ByteText::new(copied(alloc, path)?),
        kind,
        excluded,
        depth: found.depth,
        attrs: found.attrs,
    })
}

/// Returns a listing of these entries.
///
/// # Errors
///
/// A `TransferError` if a directory was listed with the same entry twice, or an allocation fails.
fn listing_of(alloc: Global, entries: Vec<Entry>, whole: bool) -> Result<Listing, TransferError> {
    match Listing::new(alloc, entries, whole) {
        Ok(listing) => Ok(listing),
        Err(ListingError::OutOfMemory) => Err(TransferError::OutOfMemory),
        Err(_) => Err(TransferError::Refused("two entries of one name were listed")),
    }
}

impl<'a, L: Link> Courier<'a, L> {
    /// Returns the target of a symbolic link.
    fn link_text(&mut self, side: Side, path: &[u8]) -> Result<Vec<u8>, TransferError>
        requires { IsGoing L.LinkState.state self.old.sftp }
        ensures { IsGoing L.LinkState.state self.new.sftp }
    {
        let alloc = self.rt.alloc();
        match side {
            Side::There => match read_remote_link(alloc, &mut self.sftp, path) {
                Ok(names) => copied(alloc, names.as_bytes()),
                Err(e) => Err(e.into()),
            },
            Side::Here => {
                let names = fs::read_link(self.rt, text_of(path)?)?;
                copied(alloc, names.as_path().as_str().as_bytes())
            }
        }
    }

    /// Returns the target of a symbolic link of the source.
    ///
    /// # Errors
    ///
    /// A `TransferError` if it can't be read, or leads out of the tree and such links are not copied.
    fn source_link(&mut self, found: &Found) -> Result<Vec<u8>, TransferError>
        requires { IsGoing L.LinkState.state self.old.sftp }
        ensures { IsGoing L.LinkState.state self.new.sftp }
    {
        let side = Side::source_of(self.manner.way);
        let text = self.link_text(side, found.source.as_slice())?;
        let depth = found.depth.saturating_sub(1) as usize;
        if side == Side::There && !self.manner.options.links_as_is && leads_out(depth, &text) {
            return Err(TransferError::Refused(
                "skipped: the link leads out of the tree (--links as-is copies it)",
            ));
        }
        Ok(text)
    }

    /// Reports that an entry of the source is passed over. Fails only if nothing else can be done.
    fn pass_over(
        &mut self,
        found: &Found,
        reason: TransferError,
        reading: &mut Reading,
    ) -> Result<(), TransferError>
        requires { IsGoing L.LinkState.state self.old.sftp }
        ensures { IsGoing L.LinkState.state self.new.sftp }
    {
        if ends_walk(&reason) || self.sftp.core().fault().is_some() {
            return Err(reason);
        }
        tell_of(self.rt, found.source.as_slice(), &reason);
        reading.skips = true;
        Ok(())
    }

    /// Returns the entry for what the walk of the source found, or `None` if it can't be one, so that the source isn't
    /// read as a whole. What is passed over is reported.
    fn source_entry(
        &mut self,
        found: &Found,
        path: &[u8],
        excluded: bool,
        reading: &mut Reading,
    ) -> Result<Option<Entry>, TransferError>
        requires { IsGoing L.LinkState.state self.old.sftp }
        ensures { IsGoing L.LinkState.state self.new.sftp }
    {
        let alloc = self.rt.alloc();
        let mut entry = plain_entry(alloc, found, path, excluded)?;
        match found.task {
            Task::CopyFile | Task::MakeFolder => {}
            Task::CopyLink if excluded => {}
            Task::CopyLink => match self.source_link(found) {
                Ok(text) => entry.kind = Kind::Link(ByteText::new(text)),
                Err(reason) => {
                    self.pass_over(found, reason, reading)?;
                    entry.kind = Kind::Other;
                }
            },
            Task::PassOver => {
                if !excluded {
                    let reason = TransferError::Refused(refusal_of(found));
                    self.pass_over(found, reason, reading)?;
                }
            }
            _ => {
                let reason = TransferError::Refused(refusal_of(found));
                self.pass_over(found, reason, reading)?;
                reading.whole = false;
                return Ok(None);
            }
        }
        Ok(Some(entry))
    }

    /// Reads the source from a walk that has its root.
    ///
    /// # Errors
    ///
    /// A `TransferError` if the walk can't continue or the session failed.
    pub(crate) fn source_tree(
        &mut self,
        walk: Walk,
        filter: &mut Filter,
        shard: Shard,
        reading: &mut Reading,
    ) -> Result<Listing, TransferError>
        requires { IsGoing L.LinkState.state self.old.sftp }
        ensures { IsGoing L.LinkState.state self.new.sftp }
    {
        let alloc = self.rt.alloc();
        let side = Side::source_of(self.manner.way);
        let root_len = path_in(alloc, walk.folder().source.as_slice(), b"")?.len();
        let mut untouched = Untouched::by(filter, shard);
        let found = self.walk_tree(side, walk, &mut untouched, &mut reading.whole)?;
        let mut entries = Vec::new(alloc);
        for one in found.iter().skip(1) {
            let path = path_below(one, root_len);
            let excluded = untouched.has(path, is_folder(one));
            if let Some(entry) = self.source_entry(one, path, excluded, reading)? {
                push_entry(&mut entries, entry)?;
            }
        }
        listing_of(alloc, entries, reading.whole)
    }

    /// Returns the entry for what the walk of the target found. The target of a symbolic link is read if the source has
    /// a link at the path.
    fn target_entry(
        &mut self,
        found: &Found,
        path: &[u8],
        excluded: bool,
        source: &Listing,
    ) -> Result<Entry, TransferError>
        requires { IsGoing L.LinkState.state self.old.sftp }
        ensures { IsGoing L.LinkState.state self.new.sftp }
    {
        let mut entry = plain_entry(self.rt.alloc(), found, path, excluded)?;
        if found.task != Task::CopyLink || excluded || !has_link(source, path) {
            return Ok(entry);
        }
        let side = Side::target_of(self.manner.way);
        match self.link_text(side, found.source.as_slice()) {
            Ok(text) => entry.kind = Kind::Link(ByteText::new(text)),
            // A link whose target can't be read counts as changed.
            Err(reason) => {
                if ends_walk(&reason) || self.sftp.core().fault().is_some() {
                    return Err(reason);
                }
            }
        }
        Ok(entry)
    }

    /// Reads the target from a walk that has its root. An entry that can't be a path here, such as one with a name that
    /// is not UTF-8, stays.
    ///
    /// # Errors
    ///
    /// A `TransferError` if the walk can't continue or the session failed.
    pub(crate) fn target_tree(
        &mut self,
        walk: Walk,
        filter: &mut Filter,
        shard: Shard,
        source: &Listing,
        reading: &mut Reading,
    ) -> Result<Listing, TransferError>
        requires { IsGoing L.LinkState.state self.old.sftp }
        ensures { IsGoing L.LinkState.state self.new.sftp }
    {
        let alloc = self.rt.alloc();
        let side = Side::target_of(self.manner.way);
        let root_len = path_in(alloc, walk.folder().source.as_slice(), b"")?.len();
        let parts = self.manner.options.resume;
        let mut untouched = Untouched::in_target(filter, shard, source, parts);
        let found = self.walk_tree(side, walk, &mut untouched, &mut reading.whole)?;
        let mut entries = Vec::new(alloc);
        for one in found.iter().skip(1) {
            let path = path_below(one, root_len);
            if one.task != Task::RefuseName {
                let excluded = is_refused(one.task) || untouched.has(path, is_folder(one));
                let entry = self.target_entry(one, path, excluded, source)?;
                push_entry(&mut entries, entry)?;
            }
        }
        listing_of(alloc, entries, reading.whole)
    }
}

/// Returns true if an entry is a directory.
fn is_folder(found: &Found) -> bool {
    match found.task {
        Task::MakeFolder | Task::RefuseDepth => true,
        _ => false,
    }
}

/// Returns true if an entry of the target can't be changed by its path.
fn is_refused(task: Task) -> bool {
    match task {
        Task::CopyFile | Task::MakeFolder | Task::CopyLink | Task::PassOver => false,
        _ => true,
    }
}

/// Returns true if a listing has a symbolic link at a path.
fn has_link(listing: &Listing, path: &[u8]) -> bool {
    match listing.find(path) {
        Some(entry) => match entry.kind {
            Kind::Link(_) => true,
            _ => false,
        },
        None => false,
    }
}

/// Adds an entry after others.
fn push_entry(entries: &mut Vec<Entry>, entry: Entry) -> Result<(), TransferError> {
    match entries.push(entry) {
        Ok(()) => Ok(()),
        Err(_) => Err(TransferError::OutOfMemory),
    }
}
