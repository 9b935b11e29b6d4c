//! The values that the threads of a run share.
use crate::halves::Stop;
use sftp_tasks::SharedSftp;
use std::sync::{Condvar, CondvarTimeouts, Mutex, Wait};
use std::time::{Clock, Duration};

/// The number of workers: one sends and one reads.
const WORKERS: u64 = 2;

/// The time in seconds that the threads of the lanes wait for those of the workers to start.
const START_LIMIT: u64 = 5;

/// The signals that the threads of a run give each other beside the session.
///
/// Example: `crates/example_threads/src/calls.rt`.
#[derive(Drop)]
pub struct Signals<S> {
    stop: S,
    // The number of workers whose threads have started.
    workers: Mutex<u64>,
    started: Condvar,
}

/// The session of a run, and the signals of its threads. It is lent to each of them.
///
/// Example: `crates/example_threads/src/calls.rt`.
#[derive(Drop)]
pub struct SharedRun<S> {
    pub shared: SharedSftp,
    pub signals: Signals<S>,
}

impl<S: Stop> Signals<S> {
    /// Returns the signals of a run of which no worker has started.
    pub fn new(stop: S) -> Signals<S> {
        Signals {
            stop,
            workers: Mutex::new(0),
            started: Condvar::new(),
        }
    }

    /// Ends the waits of other threads inside calls of the halves.
    pub(crate) fn stop_waits(&self) {
        self.stop.stop();
    }

    /// Notes that the thread of a worker has started.
    pub(crate) fn note_start<R: Wait>(&self, rt: &R) {
        let mut workers = self.workers.lock(rt);
        *workers = (*workers).saturating_add(1);
        drop(workers);
        self.started.notify_all();
    }

    /// Waits until the threads of both workers have started. Returns false if they have not within five seconds: no
    /// thread can be created for one of them, which then starts only after the others have ended.
    pub(crate) fn have_started<R: Wait + Clock>(&self, rt: &R) -> bool {
        let workers = self.workers.lock(rt);
        let limit = Duration::from_secs(START_LIMIT);
        let (workers, waited) = self
            .started
            .wait_timeout_while(rt, workers, limit, |count| *count < WORKERS);
        drop(workers);
        !waited.timed_out()
    }
}
