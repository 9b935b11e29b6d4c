//! The options of a session.
ghost use Rattle.std.specs.Prelude.{◌≡◌, ◌≤◌, Some};
ghost use Rattle.sftp_model.specs.Options.{default_options};

/// The options of a session.
///
/// Example: `crates/example_threads/src/receipts.rt`.
#[derive(Clone, Copy, Debug, PartialEq, Eq)]
pub struct SftpOptions {
    flush_interval: u64,
    max_pending_requests: u16,
    requests_buffer_size: usize,
    responses_buffer_size: usize,
    tokio_compat_file_write_limit: usize,
    max_read_len: Option<u32>,
    max_write_len: Option<u32>,
    read_window: u32,
}

impl SftpOptions {
    /// Returns the defaults: a flush interval of 500 microseconds, 100 pending requests, an initial capacity for 100
    /// requests and for 1024 bytes of a reply, a write limit of 655360 bytes, no limits on lengths beside the server's,
    /// and a window of one READ.
    pub fn new() -> SftpOptions
        ensures { result ≡ default_options }
    {
        SftpOptions {
            flush_interval: 500,
            max_pending_requests: 100,
            requests_buffer_size: 100,
            responses_buffer_size: 1024,
            tokio_compat_file_write_limit: 655360,
            max_read_len: None,
            max_write_len: None,
            read_window: 1,
        }
    }

    /// Sets for how many microseconds a request may stay unsent. It has no effect in the crates here, which send without
    /// waiting for more.
    pub fn flush_interval(mut self, micros: u64) -> SftpOptions
        ensures { result ≡ record self { flush_interval = micros } }
    {
        self.flush_interval = micros;
        self
    }

    /// Sets how many requests may be unsent before they are flushed at once.
    pub fn max_pending_requests(mut self, max_pending_requests: u16) -> SftpOptions
        requires { 1 ≤ max_pending_requests }
        ensures { result ≡ record self { max_pending_requests = max_pending_requests } }
    {
        self.max_pending_requests = max_pending_requests;
        self
    }

    /// Sets the initial capacity of the queue, in requests. It is no bound.
    pub fn requests_buffer_size(mut self, requests: usize) -> SftpOptions
        requires { 1 ≤ requests }
        ensures { result ≡ record self { requests_buffer_size = requests } }
    {
        self.requests_buffer_size = requests;
        self
    }

    /// Sets the initial capacity for a reply, in bytes. It is no bound.
    pub fn responses_buffer_size(mut self, bytes: usize) -> SftpOptions
        requires { 1 ≤ bytes }
        ensures { result ≡ record self { responses_buffer_size = bytes } }
    {
        self.responses_buffer_size = bytes;
        self
    }

    /// Sets the most bytes of a buffered file's writes whose status was not taken.
    pub fn tokio_compat_file_write_limit(mut self, bytes: usize) -> SftpOptions
        requires { 1 ≤ bytes }
        ensures { result ≡ record self { tokio_compat_file_write_limit = bytes } }
    {
        self.tokio_compat_file_write_limit = bytes;
        self
    }

    /// Sets the most bytes that one READ asks for. It can only lower the session's read length.
    pub fn max_read_len(mut self, bytes: u32) -> SftpOptions
        requires { 1 ≤ bytes }
        ensures { result ≡ record self { max_read_len = Some bytes } }
    {
        self.max_read_len = Some(bytes);
        self
    }

    /// Sets the most bytes that one WRITE carries. It can only lower the session's write length.
    pub fn max_write_len(mut self, bytes: u32) -> SftpOptions
        requires { 1 ≤ bytes }
        ensures { result ≡ record self { max_write_len = Some bytes } }
    {
        self.max_write_len = Some(bytes);
        self
    }

    /// Sets how many READs of a whole read may be in flight at once.
    pub fn read_window(mut self, reads: u32) -> SftpOptions
        requires { (1 ≤ reads) × (reads ≤ 64) }
        ensures { result ≡ record self { read_window = reads } }
    {
        self.read_window = reads;
        self
    }

    /// Returns the flush interval, in microseconds.
    pub fn get_flush_interval(&self) -> u64
        ensures { result ≡ self.now.flush_interval }
    {
        self.flush_interval
    }

    /// Returns the most requests that stay unsent.
    pub fn get_max_pending_requests(&self) -> u16
        ensures { result ≡ self.now.max_pending_requests }
    {
        self.max_pending_requests
    }

    /// Returns the queue's initial capacity, in requests.
    pub fn get_requests_buffer_size(&self) -> usize
        ensures { result ≡ self.now.requests_buffer_size }
    {
        self.requests_buffer_size
    }

    /// Returns the initial capacity for a reply, in bytes.
    pub fn get_responses_buffer_size(&self) -> usize
        ensures { result ≡ self.now.responses_buffer_size }
    {
        self.responses_buffer_size
    }

    /// Returns the write limit of a buffered file, in bytes.
    pub fn get_tokio_compat_file_write_limit(&self) -> usize
        ensures { result ≡ self.now.tokio_compat_file_write_limit }
    {
        self.tokio_compat_file_write_limit
    }

    /// Returns the most bytes that one READ asks for, if a limit was chosen.
    pub fn get_max_read_len(&self) -> Option<u32>
        ensures { result ≡ self.now.max_read_len }
    {
        self.max_read_len
    }

    /// Returns the most bytes that one WRITE carries, if a limit was chosen.
    pub fn get_max_write_len(&self) -> Option<u32>
        ensures { result ≡ self.now.max_write_len }
    {
        self.max_write_len
    }

    /// Returns the window of a whole read, in READs.
    pub fn get_read_window(&self) -> u32
        ensures { result ≡ self.now.read_window }
    {
        self.read_window
    }
}

impl Default for SftpOptions {
    ghost is_default = { λ options. options ≡ default_options };

    /// Returns the same options as `new`.
    fn default() -> SftpOptions {
        SftpOptions::new()
    }
}
