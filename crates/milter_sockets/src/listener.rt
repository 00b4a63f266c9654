//! Sockets on which connections come.

use crate::stream::Stream;
use mio::net::{TcpListener, UnixListener, UnixStream};
use mio::{Interest, Registry, Token};
use std::fs::{self, Permissions};
use std::io;
use std::net::{self, Net};
use std::os::unix::fs::{FileTypeExt, PermissionsExt};
use std::rt::Files;

/// A socket on which connections come. It never waits.
#[derive(Drop)]
pub enum Listener {
    /// One of the internet.
    Inet(TcpListener),
    /// One of a path.
    Unix(UnixListener),
}

impl Listener {
    /// Listens on a port of a host.
    pub fn bind_inet<R: Net<Listener = net::TcpListener, Stream = net::TcpStream>>(
        rt: &R,
        host: &str,
        port: u16,
    ) -> io::Result<Self> {
        let listener = net::TcpListener::bind(rt, (host, port))?;
        listener.set_nonblocking(true)?;
        Ok(Listener::Inet(TcpListener::from_std(listener)))
    }

    /// Listens on a path, whose socket gets this mode. A socket there on which nobody listens any more is replaced; any
    /// other file is an error.
    pub fn bind_unix<R: Net + Files>(rt: &R, path: &str, mode: u32) -> io::Result<Self> {
        let listener = match UnixListener::bind(rt, path) {
            Err(error) if error.kind() == io::ErrorKind::AddrInUse && is_left(rt, path) => {
                fs::remove_file(rt, path)?;
                UnixListener::bind(rt, path)?
            }
            bound => bound?,
        };
        fs::set_permissions(rt, path, Permissions::from_mode(mode))?;
        Ok(Listener::Unix(listener))
    }

    /// Takes a connection that has come.
    pub fn accept(&self) -> io::Result<Stream> {
        match self {
            Listener::Inet(listener) => Ok(Stream::Inet(listener.accept()?.0)),
            Listener::Unix(listener) => Ok(Stream::Unix(listener.accept()?.0)),
        }
    }

    /// Has the system say when a connection has come.
    pub fn watch(&mut self, registry: &Registry, token: Token) -> io::Result<()> {
        match self {
            Listener::Inet(listener) => registry.register(listener, token, Interest::READABLE),
            Listener::Unix(listener) => registry.register(listener, token, Interest::READABLE),
        }
    }
}

/// Whether the path has a socket on which nobody listens any more. It never waits.
fn is_left<R: Net + Files>(rt: &R, path: &str) -> bool {
    let is_socket = match fs::symlink_metadata(rt, path) {
        Ok(found) => found.file_type().is_socket(),
        Err(_) => false,
    };
    is_socket
        && match UnixStream::connect(rt, path) {
            Ok(_) => false,
            Err(error) => error.kind() == io::ErrorKind::ConnectionRefused,
        }
}
