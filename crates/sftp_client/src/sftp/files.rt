//! Calls on files, each of which runs to its end.
ghost use Rattle.std.specs.Prelude.{◌<◌};
ghost use Rattle.sftp_core.specs.Core.{IsGrant};
ghost use Rattle.sftp_client.specs.Calls.{ClosesHandle, CopiesFile, IsCallable, IsNoneOfFile, OpensPath, ReadsFile, ReadsPath, ReleasesHandle, WritesFile, WritesPath};
ghost use Rattle.sftp_client.specs.Opening.{to_create, to_read};
ghost use Rattle.sftp_file.specs.Closes.{ReleasesFile};

use super::Sftp;
use bytes::{Bytes, BytesMut};
use sftp_file::File;
use sftp_fs_read::StartRead;
use sftp_link::Link;
use sftp_model::Error;

/// The calls on files. Each of them sends what is queued and takes frames until its replies come; the replies to other
/// calls are kept for them. A file cannot be dropped: `close_file` or `release_file` consumes it.
impl<L: Link> Sftp<L> {
    /// Opens a file for reading (draft-ietf-secsh-filexfer-02, section 6.3). Its offset is 0.
    ///
    /// # Errors
    ///
    /// A recorded fault is reported first. `OutOfMemory` if 2147483648 ids are in use or an allocation fails;
    /// `IOError(PathTooLong)` if the path has more than 1048558 bytes; `SftpError` with the server's status and message
    /// if it refuses; otherwise the errors of `flush` and `take`.
    pub fn open(&mut self, path: &[u8]) -> Result<File, Error>
        requires { IsCallable L.LinkState.state self.old }
        ensures { OpensPath to_read path.now L.LinkState.state self.old self.new result }
    {
        self.check_start()?;
        let call = self.start_open(path)?;
        self.finish(call)
    }

    /// Opens a file for writing: it is created if it is missing, and truncated if it exists
    /// (draft-ietf-secsh-filexfer-02, section 6.3). Its offset is 0.
    ///
    /// # Errors
    ///
    /// Those of `open`.
    pub fn create(&mut self, path: &[u8]) -> Result<File, Error>
        requires { IsCallable L.LinkState.state self.old }
        ensures { OpensPath to_create path.now L.LinkState.state self.old self.new result }
    {
        self.check_start()?;
        let call = self.start_create(path)?;
        self.finish(call)
    }

    /// Reads at most `len` bytes at the offset of the file, by one READ (draft-ietf-secsh-filexfer-02, section 6.4).
    /// Returns `None` at the end of the file. The offset is after the bytes that came. At most `max_read_len` bytes
    /// come at a time.
    ///
    /// # Errors
    ///
    /// `IOError(NotReadable)` if the file was not opened for reading; otherwise those of `open`.
    pub fn read(&mut self, file: &mut File, len: u32) -> Result<Option<Bytes>, Error>
        requires usable { IsCallable L.LinkState.state self.old }
        requires held { IsGrant self.old.core file.old.grant }
        ensures { ReadsFile len L.LinkState.state file.old file.new self.old self.new result }
    {
        self.check_start()?;
        let call = file.start_read(&mut self.core, len)?;
        self.finish_on(call, file)
    }

    /// Writes all bytes at the offset of the file, by as many WRITEs as they need (draft-ietf-secsh-filexfer-02,
    /// section 6.4). The offset is after the bytes that were written, also after an error.
    ///
    /// # Errors
    ///
    /// `IOError(NotWritable)` if the file was not opened for writing; otherwise those of `open`.
    pub fn write_all(&mut self, file: &mut File, bytes: &[u8]) -> Result<(), Error>
        requires usable { IsCallable L.LinkState.state self.old }
        requires held { IsGrant self.old.core file.old.grant }
        ensures { WritesFile bytes.now L.LinkState.state file.old file.new self.old self.new result }
    {
        self.check_start()?;
        let call = file.start_write_all(&mut self.core, bytes)?;
        self.finish_on(call, file)
    }

    /// Closes a file, and waits until the server has closed it (draft-ietf-secsh-filexfer-02, section 6.3). If the file
    /// has clones, nothing is sent, and the last of them closes it.
    ///
    /// # Errors
    ///
    /// `SftpError` if the server refuses, or the errors of `flush` and `take`. The file is given up in any case.
    pub fn close_file(&mut self, file: File) -> Result<(), Error>
        requires usable { IsCallable L.LinkState.state self.old }
        requires held { IsGrant self.old.core file.grant }
        ensures { ClosesHandle (ReleasesFile file) (IsNoneOfFile file) L.LinkState.state self.old self.new result }
    {
        let call = file.start_close(&mut self.core);
        self.finish_close(call)
    }

    /// Closes a file without waiting: the CLOSE is queued, and its reply is dropped. This is the way out of a function
    /// after an error.
    pub fn release_file(&mut self, file: File)
        requires { IsGrant self.old.core file.grant }
        ensures { ReleasesHandle (ReleasesFile file) (IsNoneOfFile file) self.old self.new }
    {
        file.start_close(&mut self.core).cancel(&mut self.core);
    }

    /// Opens a file, reads all of it, and closes it. Up to `SftpOptions::read_window` READs are under way at once.
    ///
    /// # Errors
    ///
    /// Those of `open`. The file is closed then, and the bytes that came are dropped.
    pub fn read_file(&mut self, path: &[u8]) -> Result<BytesMut, Error>
        requires { IsCallable L.LinkState.state self.old }
        ensures { ReadsPath path.now L.LinkState.state self.old self.new result }
    {
        self.check_start()?;
        let call = self.fs().start_read(self.alloc, &mut self.core, path)?;
        self.finish_read(call)
    }

    /// Creates or truncates a file, writes all of its content, and closes it. The CLOSE is queued at the end, and not
    /// awaited: the next call that sends, sends it.
    ///
    /// # Errors
    ///
    /// Those of `open`. The file is closed then, and has the bytes that were written before.
    pub fn write_file(&mut self, path: &[u8], content: &[u8]) -> Result<(), Error>
        requires { IsCallable L.LinkState.state self.old }
        ensures { WritesPath path.now content.now L.LinkState.state self.old self.new result }
    {
        self.check_start()?;
        let call = self
            .fs()
            .start_write(self.alloc, &mut self.core, path, content)?;
        self.finish_write(call)
    }

    /// Asks the server to copy `n` bytes at the offset of one file to the offset of another (`copy-data`,
    /// draft-ietf-secsh-filexfer-extensions-00, section 7). `n` is at least 1. Both offsets are after the bytes that
    /// were copied.
    ///
    /// # Errors
    ///
    /// `UnsupportedExtension` if the server doesn't offer it; `IOError` if a file was not opened for it or an offset
    /// would pass 18446744073709551615; otherwise those of `open`.
    pub fn copy(&mut self, from: &mut File, to: &mut File, n: u64) -> Result<(), Error>
        requires usable { IsCallable L.LinkState.state self.old }
        requires source { IsGrant self.old.core from.old.grant }
        requires target { IsGrant self.old.core to.old.grant }
        requires some { 0 < n }
        ensures { CopiesFile n L.LinkState.state from.old from.new to.old to.new self.old self.new result }
    {
        self.check_start()?;
        let call = from.start_copy_to(&mut self.core, to, n)?;
        self.finish_copy(call, from, to)
    }

    /// Asks the server to copy a file, from its offset to its end, to the offset of another, as `copy` does. Both
    /// offsets stay.
    ///
    /// # Errors
    ///
    /// Those of `copy`.
    pub fn copy_all(&mut self, from: &mut File, to: &mut File) -> Result<(), Error>
        requires usable { IsCallable L.LinkState.state self.old }
        requires source { IsGrant self.old.core from.old.grant }
        requires target { IsGrant self.old.core to.old.grant }
        ensures { CopiesFile 0 L.LinkState.state from.old from.new to.old to.new self.old self.new result }
    {
        self.check_start()?;
        let call = from.start_copy_all_to(&mut self.core, to)?;
        self.finish_copy(call, from, to)
    }
}
