//! Sockets by which two ends are connected.

use mio::net::{TcpStream, UnixStream};
use mio::{Interest, Registry, Token};
use std::io::{self, Read, Write};
use std::net::Shutdown;

/// A socket by which two ends are connected. It never waits.
#[derive(Drop)]
pub enum Stream {
    /// One of the internet.
    Inet(TcpStream),
    /// One of a path.
    Unix(UnixStream),
}

impl Stream {
    /// Has the system say when there is something to read, and when it is connected or more can be written.
    pub fn watch(&mut self, registry: &Registry, token: Token) -> io::Result<()> {
        let both = Interest::READABLE | Interest::WRITABLE;
        match self {
            Stream::Inet(stream) => registry.register(stream, token, both),
            Stream::Unix(stream) => registry.register(stream, token, both),
        }
    }

    /// The same again, once it was watched; of what can be written only where that is asked for.
    pub fn watch_again(
        &mut self,
        registry: &Registry,
        token: Token,
        writes: bool,
    ) -> io::Result<()> {
        let interest = if writes {
            Interest::READABLE | Interest::WRITABLE
        } else {
            Interest::READABLE
        };
        match self {
            Stream::Inet(stream) => registry.reregister(stream, token, interest),
            Stream::Unix(stream) => registry.reregister(stream, token, interest),
        }
    }

    /// Makes it send without delay, once it is connected; an error where it could not be connected.
    pub fn on_connected(&self) -> io::Result<()> {
        match self {
            Stream::Inet(stream) => match stream.take_error()? {
                Some(error) => Err(error),
                None => stream.set_nodelay(true),
            },
            Stream::Unix(stream) => match stream.take_error()? {
                Some(error) => Err(error),
                None => Ok(()),
            },
        }
    }

    /// Reads some of what has come.
    pub fn read(&self, buffer: &mut [u8]) -> io::Result<usize> {
        match self {
            Stream::Inet(stream) => (&*stream).read(buffer),
            Stream::Unix(stream) => (&*stream).read(buffer),
        }
    }

    /// Writes some of these bytes.
    pub fn write(&self, bytes: &[u8]) -> io::Result<usize> {
        match self {
            Stream::Inet(stream) => (&*stream).write(bytes),
            Stream::Unix(stream) => (&*stream).write(bytes),
        }
    }
    /// Has the far end read that no more comes, and goes on reading what that sends.
    pub fn end_writing(&self) -> io::Result<()> {
        match self {
            Stream::Inet(stream) => stream.shutdown(Shutdown::Write),
            Stream::Unix(stream) => stream.shutdown(Shutdown::Write),
        }
    }
}
