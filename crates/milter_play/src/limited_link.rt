//! Connections to a filter that are lost once so many bytes were sent.

ghost use Rattle.std.specs.Prelude.{◌≤◌, IfOk, length};
ghost use Rattle.std.specs.Io.KnownBytes.{WriteAppends};
ghost use Rattle.milter_play.specs.LimitedLinks.{IsAllowed, Spends};

use milter_mta_client::{Dial, DialFault};
use std::cmp::min;
use std::io::{self, ErrorKind, Read, Write};

/// Makes connections as another does. The first that is made is lost once so many bytes were sent, where that is
/// wanted.
#[derive(Drop)]
pub struct LimitedDial<D> {
    dial: D,
    // The number for the first connection; none once it was made, or where it isn't lost.
    limit: Option<u32>,
}

/// A connection that is lost once so many bytes were sent, where that is wanted: each read and each write fails then.
#[derive(Drop)]
pub struct LimitedLink<L> {
    link: L,
    // How many bytes may still be sent, where it is lost after them.
    left: Option<usize>,
}

impl<D> LimitedDial<D> {
    /// One over the connections of `dial`; without a number of bytes they are as `dial` makes them.
    pub fn new(dial: D, limit: Option<u32>) -> Self {
        LimitedDial { dial, limit }
    }

    /// What makes the connections.
    pub fn dial_below(&self) -> &D {
        &self.dial
    }
}

impl<D: Dial> Dial for LimitedDial<D> {
    type Link = LimitedLink<D::Link>;

    fn dial(&mut self) -> Result<LimitedLink<D::Link>, DialFault> {
        let link = self.dial.dial()?;
        let left = match self.limit.take() {
            Some(limit) => Some(limit as usize),
            None => None,
        };
        Ok(LimitedLink { link, left })
    }
}

impl<L> LimitedLink<L> {
    /// How many of so many bytes may be sent now. The error has the kind `ConnectionReset`: the connection is lost.
    fn allowed(&self, count: usize) -> io::Result<usize>
        ensures { IsAllowed self.now.left count result }
    {
        match self.left {
            None => Ok(count),
            Some(0) => Err(io::Error::from(ErrorKind::ConnectionReset)),
            Some(left) => Ok(min(count, left)),
        }
    }
}

impl<L: Write> LimitedLink<L> {
    /// Sends some of these bytes, and no more than may still be sent.
    fn send(&mut self, bytes: &[u8]) -> io::Result<usize>
        ensures bound { IfOk result (λ count. count ≤ length bytes.now) }
        ensures bytes { WriteAppends (L.contents self.old.link) (L.contents self.new.link) result bytes.now }
        ensures spends { Spends self.old.left self.new.left result }
    {
        let most = self.allowed(bytes.len())?;
        let count = self.link.write(&bytes[..most])?;
        if let Some(left) = self.left {
            self.left = Some(left - count);
        }
        Ok(count)
    }
}

impl<L: Read> Read for LimitedLink<L> {
    fn read(&mut self, buf: &mut [u8]) -> io::Result<usize> {
        self.allowed(0)?;
        self.link.read(buf)
    }
}

impl<L: Write> Write for LimitedLink<L> {
    ghost contents = { λ s. L.contents s.link };

    fn write(&mut self, buf: &[u8]) -> io::Result<usize> {
        self.send(buf)
    }

    fn flush(&mut self) -> io::Result<()> {
        self.link.flush()
    }
}
