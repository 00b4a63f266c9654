//! Connections to filters over sockets.

use milter_mta_client::{Dial, DialFault};
use std::io;
use std::net::{Net, TcpStream};
use std::os::unix::net::UnixStream;
use std::time::Duration;

/// Makes connections, and says why it doesn't.
pub trait Connect: Dial {
    /// Tries to connect.
    fn connect(&mut self) -> io::Result<Self::Link>;
}

/// Connects to a filter's port over TCP.
#[derive(Drop)]
pub struct TcpDial<'a, R> {
    /// What makes sockets.
    net: &'a R,
    /// The port.
    port: u16,
    /// The name of the host, or its IP address.
    host: &'a str,
    /// How long a read or a write may take, above 0.
    limit: Duration,
}

impl<'a, R> TcpDial<'a, R> {
    /// Connects to this port of this host.
    pub fn new(net: &'a R, port: u16, host: &'a str, limit: Duration) -> Self {
        TcpDial {
            net,
            port,
            host,
            limit,
        }
    }
}

impl<'a, R: Net<Stream = TcpStream>> Dial for TcpDial<'a, R> {
    type Link = TcpStream;

    /// Tries the addresses of the host in turn. Packets are sent without delay, and each read and write has the limit.
    fn dial(&mut self) -> Result<TcpStream, DialFault> {
        connect_tcp(self).map_err(|_| DialFault)
    }
}

impl<'a, R: Net<Stream = TcpStream>> Connect for TcpDial<'a, R> {
    fn connect(&mut self) -> io::Result<TcpStream> {
        connect_tcp(self)
    }
}

fn connect_tcp<R: Net<Stream = TcpStream>>(dial: &TcpDial<'_, R>) -> io::Result<TcpStream> {
    let link = TcpStream::connect(dial.net, (dial.host, dial.port))?;
    link.set_nodelay(true)?;
    link.set_read_timeout(Some(dial.limit))?;
    link.set_write_timeout(Some(dial.limit))?;
    Ok(link)
}

/// Connects to a filter's Unix socket.
#[derive(Drop)]
pub struct UnixDial<'a, R> {
    /// What makes sockets.
    net: &'a R,
    /// The path of the socket.
    path: &'a str,
    /// How long a read or a write may take, above 0.
    limit: Duration,
}

impl<'a, R> UnixDial<'a, R> {
    /// Connects to the socket of this path.
    pub fn new(net: &'a R, path: &'a str, limit: Duration) -> Self {
        UnixDial { net, path, limit }
    }
}

impl<'a, R: Net> Dial for UnixDial<'a, R> {
    type Link = UnixStream;

    /// Each read and write has the limit.
    fn dial(&mut self) -> Result<UnixStream, DialFault> {
        connect_unix(self).map_err(|_| DialFault)
    }
}

impl<'a, R: Net> Connect for UnixDial<'a, R> {
    fn connect(&mut self) -> io::Result<UnixStream> {
        connect_unix(self)
    }
}

fn connect_unix<R: Net>(dial: &UnixDial<'_, R>) -> io::Result<UnixStream> {
    let link = UnixStream::connect(dial.net, dial.path)?;
    link.set_read_timeout(Some(dial.limit))?;
    link.set_write_timeout(Some(dial.limit))?;
    Ok(link)
}
