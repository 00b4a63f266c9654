//! Standard output and standard error, as streams that are written without a wait.

use libc::net::{POLLOUT, poll};
use libc::types::pollfd;
use libc::{STDERR_FILENO, STDOUT_FILENO, write};
use std::io::{self, ErrorKind, Write};

/// The most bytes of one write: a pipe that has room at all has it for as many, and takes them whole. Source: pipe(7)
/// (PIPE_BUF).
const PIECE_MAX: usize = 4_096;

/// Standard output or standard error. A write of it asks the system whether there is room, and is an error of the kind
/// `WouldBlock` where there is none, so that it doesn't wait for who reads a pipe, a socket or a terminal; and where
/// nobody reads any more, it is an error, since the runtime ignores the signal SIGPIPE. A file has room always. Another
/// program that writes to the same pipe may fill it between the question and the write, which then waits.
#[derive(Clone, Copy)]
pub struct StandardStream {
    // The number of its descriptor.
    number: i32,
}

impl StandardStream {
    /// Standard output.
    pub fn output() -> Self {
        StandardStream {
            number: STDOUT_FILENO,
        }
    }

    /// Standard error.
    pub fn errors() -> Self {
        StandardStream {
            number: STDERR_FILENO,
        }
    }

    /// Whether there is room for bytes, or a write fails without a wait.
    fn has_room(self) -> bool {
        let mut asked = [pollfd {
            fd: self.number,
            events: POLLOUT,
            revents: 0,
        }];
        poll(&mut asked, 0) > 0
    }
}

impl Write for StandardStream {
    fn write(&mut self, bytes: &[u8]) -> io::Result<usize> {
        if !self.has_room() {
            return Err(io::Error::from(ErrorKind::WouldBlock));
        }
        let piece = &bytes[..bytes.len().min(PIECE_MAX)];
        match usize::try_from(write(self.number, piece)) {
            Ok(count) => Ok(count.min(piece.len())),
            Err(_) => Err(io::Error::from(ErrorKind::Other)),
        }
    }

    fn flush(&mut self) -> io::Result<()> {
        Ok(())
    }
}
