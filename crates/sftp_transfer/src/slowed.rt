//! A link that is kept to a rate.
ghost use Rattle.std.specs.Prelude.{◌≡◌, ◌<◌, ◌-◌, ◌^◌, length};
ghost use Rattle.sftp_link.specs.Moves.{HasReceived, HasSent};

use crate::connection::Connection;
use sftp_link::{DeviceError, Link, LinkIn, LinkOut, LinkState};
use std::thread;
use std::time::{Duration, Instant};

/// The time that a link may have been idle and still make up for, in milliseconds.
const BURST: u64 = 100;

/// A link over which a limited number of bytes passes in a second, in both directions together.
#[derive(Drop)]
pub(crate) struct Slowed<'a, L> {
    rt: &'a HostRuntime,
    link: L,
    /// The bytes of a second; 0 if there is no limit.
    rate: u32,
    /// The time at which all bytes that passed were due.
    due: Option<Instant>,
}

/// Returns the time at which bytes are due that take this many nanoseconds, after those that were due last. Idle time is
/// made up for, but no more than `BURST` of it.
fn due_after(now: Instant, last: Option<Instant>, nanos: u64) -> Option<Instant> {
    let earliest = now.checked_sub(Duration::from_millis(BURST)).unwrap_or(now);
    let begun = match last {
        Some(last) if last > earliest => last,
        _ => earliest,
    };
    begun.checked_add(Duration::from_nanos(nanos))
}

/// Waits until a time, if it is after now.
fn wait_until(rt: &HostRuntime, now: Instant, due: Option<Instant>) {
    if let Some(due) = due {
        if due > now {
            let _ = thread::sleep(rt, due.duration_since(now));
        }
    }
}

impl<'a, L> Slowed<'a, L> {
    /// Returns a link that is kept to a rate in bytes a second; 0 if there is no limit.
    pub(crate) fn new(rt: &'a HostRuntime, link: L, rate: u32) -> Slowed<'a, L>
        ensures { result.link ≡ link }
    {
        Slowed {
            rt,
            link,
            rate,
            due: None,
        }
    }

    /// Waits until these bytes are due. If the system has no clock, the link is not slowed.
    fn wait_for(&mut self, bytes: usize)
        ensures { self.new.link ≡ self.old.link }
    {
        if self.rate == 0 {
            return;
        }
        let Ok(now) = Instant::now(self.rt) else {
            return;
        };
        let nanos = (bytes as u64).saturating_mul(1_000_000_000) / u64::from(self.rate);
        let due = due_after(now, self.due, nanos);
        self.due = due;
        wait_until(self.rt, now, due);
    }
}

impl<'a, L: Link> LinkState for Slowed<'a, L> {
    ghost Service = { L.LinkState.Service };

    ghost state = { λ l. L.LinkState.state l.link };
}

impl<'a, L: Link> LinkOut for Slowed<'a, L> {
    fn send(&mut self, bytes: &[u8]) -> Result<usize, DeviceError> {
        let sent = self.link.send(bytes)?;
        self.wait_for(sent);
        Ok(sent)
    }
}

impl<'a, L: Link> LinkIn for Slowed<'a, L> {
    fn recv(&mut self, room: &mut [u8]) -> Result<usize, DeviceError> {
        let received = self.link.recv(room)?;
        self.wait_for(received);
        Ok(received)
    }
}

impl<'a, L: Link> Link for Slowed<'a, L> {}

impl<'a, L: Connection> Connection for Slowed<'a, L> {
    fn report(&self, rt: &HostRuntime, seconds: u32) {
        self.link.report(rt, seconds);
    }
}
