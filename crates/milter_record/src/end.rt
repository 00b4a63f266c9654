//! An end of a connection that is recorded.

use crate::piece::Piece;
use milter_sockets::Stream;
use mio::event::Event;
use std::alloc::Global;
use std::io::{self, ErrorKind};

/// An end of a connection: its socket, and what is passed on to it.
#[derive(Drop)]
pub(crate) struct End {
    pub(crate) stream: Stream,
    /// What the other end sent last, as far as it isn't written.
    pub(crate) piece: Piece,
    /// Whether there may be something to read.
    pub(crate) is_readable: bool,
    /// Whether something may be written.
    pub(crate) is_writable: bool,
    /// Whether it sends no more.
    pub(crate) is_over: bool,
}

/// What came of a read.
#[derive(Clone, Copy)]
pub(crate) enum Came {
    /// So many bytes.
    Bytes(usize),
    /// The end of what is sent.
    End,
    /// Nothing yet.
    Nothing,
    /// Nothing, and it is to be asked again.
    Again,
}

impl End {
    /// An end with this socket, of which nothing is known yet.
    pub(crate) fn new(alloc: Global, stream: Stream) -> Self {
        End {
            stream,
            piece: Piece::new(alloc),
            is_readable: false,
            is_writable: false,
            is_over: false,
        }
    }

    /// Notes what the system says of its socket.
    pub(crate) fn note(&mut self, event: &Event) {
        let is_closed = event.is_read_closed() || event.is_error();
        self.is_readable |= event.is_readable() || is_closed;
        self.is_writable |= event.is_writable() || event.is_write_closed() || event.is_error();
    }

    /// Whether nothing comes of it any more, and all that it is to get was written.
    pub(crate) fn is_done(&self) -> bool {
        self.is_over && self.piece.is_done()
    }

    /// Reads some of what it sent, where there may be something.
    pub(crate) fn read(&mut self, buffer: &mut [u8]) -> io::Result<Came> {
        if !self.is_readable || self.is_over {
            return Ok(Came::Nothing);
        }
        match self.stream.read(buffer) {
            Ok(0) => {
                self.is_over = true;
                Ok(Came::End)
            }
            Ok(count) => Ok(Came::Bytes(count)),
            Err(error) => match error.kind() {
                ErrorKind::WouldBlock => {
                    self.is_readable = false;
                    Ok(Came::Nothing)
                }
                ErrorKind::Interrupted => Ok(Came::Again),
                _ => Err(error),
            },
        }
    }

    /// Writes some of what it is to get; whether it took some.
    pub(crate) fn write(&mut self) -> io::Result<bool> {
        if !self.is_writable {
            return Ok(false);
        }
        match self.stream.write(self.piece.rest()) {
            Ok(0) => Err(io::Error::from(ErrorKind::WriteZero)),
            Ok(count) => {
                self.piece.sent(count);
                Ok(true)
            }
            Err(error) => match error.kind() {
                ErrorKind::WouldBlock => {
                    self.is_writable = false;
                    Ok(false)
                }
                ErrorKind::Interrupted => Ok(true),
                _ => Err(error),
            },
        }
    }
}
