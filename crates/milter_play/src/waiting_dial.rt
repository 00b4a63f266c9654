//! Connections to a filter that may not listen yet.

use crate::socket_dial::Connect;
use milter_mta_client::{Dial, DialFault};
use std::io::ErrorKind;
use std::thread;
use std::time::{Duration, Instant};

/// How many milliseconds pass between two tries.
const PAUSE: u64 = 50;

/// The most tries, in one hour and more.
const TRIES_MAX: u32 = 100_000;

/// Makes connections as another does. The first of them is tried again for a while; where it is not made, none is.
#[derive(Drop)]
pub struct WaitingDial<'r, D: Connect> {
    clock: &'r HostRuntime,
    dial: D,
    // For how long the first connection is tried again; none once it was tried, or where it is tried once.
    wait: Option<Duration>,
    has_failed: bool,
    // Why the first connection was not made at the last try, as far as the system said it.
    refusal: Option<ErrorKind>,
}

impl<'r, D: Connect> WaitingDial<'r, D> {
    /// Makes connections as `dial` does, and tries the first again for so many seconds; only once where that is 0.
    pub fn new(clock: &'r HostRuntime, dial: D, seconds: u32) -> Self {
        let wait = match seconds {
            0 => None,
            _ => Some(Duration::from_secs(u64::from(seconds))),
        };
        WaitingDial {
            clock,
            dial,
            wait,
            has_failed: false,
            refusal: None,
        }
    }

    /// Whether the first connection was waited for and not made.
    pub fn has_failed(&self) -> bool {
        self.has_failed
    }

    /// Why the first connection was not made at the last try; none where it was made at once, or where
    /// [`Dial::dial`] tried it once.
    pub fn refusal(&self) -> Option<ErrorKind> {
        self.refusal
    }

    /// Makes the first connection, also where it is tried once.
    pub fn connect_first(&mut self) -> Result<D::Link, DialFault> {
        let wait = self.wait.take().unwrap_or(Duration::from_secs(0));
        self.connect_within(wait)
    }

    /// Tries to connect for so long, and once at least.
    fn connect_within(&mut self, wait: Duration) -> Result<D::Link, DialFault> {
        let Ok(start) = Instant::now(self.clock) else {
            return Err(DialFault);
        };
        for _ in 0..TRIES_MAX {
            match self.dial.connect() {
                Ok(link) => return Ok(link),
                Err(error) => self.refusal = Some(error.kind()),
            }
            match start.elapsed(self.clock) {
                Ok(elapsed) if elapsed < wait => {}
                _ => return Err(DialFault),
            }
            thread::sleep(self.clock, Duration::from_millis(PAUSE));
        }
        Err(DialFault)
    }
}

impl<'r, D: Connect> Dial for WaitingDial<'r, D> {
    type Link = D::Link;

    fn dial(&mut self) -> Result<D::Link, DialFault> {
        if self.has_failed {
            return Err(DialFault);
        }
        let Some(wait) = self.wait.take() else {
            return self.dial.dial();
        };
        let link = self.connect_within(wait);
        self.has_failed = link.is_err();
        link
    }
}
