//! Links over sockets of which this process holds both ends.

use crate::links::filter_ends::{FilterDial, FilterEnd};
use milter_mta_client::{Dial, DialFault};
use std::io::{Read, Write};
use std::net::{TcpListener, TcpStream};
use std::os::unix::net::{UnixListener, UnixStream};
use std::time::Duration;
use std::{fs, io};

/// The most bytes that a write moves: so few that a socket takes them at once.
const PIECE_MAX: usize = 4_096;
/// How long a read or a write of the mail server's end may take.
const LIMIT_SECONDS: u64 = 30;
/// The host of a connection over TCP.
const HOST: &str = "127.0.0.1";
/// The port for which the system chooses one that is free.
const ANY_PORT: u16 = 0;

/// A connection, and the filter's end that answers on it.
#[derive(Drop)]
pub struct SocketLink<'w, S> {
    // The end that was dialled, the mail server's.
    client: S,
    // The end that was accepted, the filter's.
    server: S,
    filter: FilterEnd<'w>,
}

impl<S: Read> Read for SocketLink<'_, S> {
    fn read(&mut self, buf: &mut [u8]) -> io::Result<usize> {
        self.client.read(buf)
    }
}

impl<S: Read + Write> Write for SocketLink<'_, S> {
    /// Writes to the connection. What comes out at its other end goes to the filter's end, whose replies are written
    /// there before this ends.
    fn write(&mut self, buf: &[u8]) -> io::Result<usize> {
        let len = buf.len().min(PIECE_MAX);
        let count = self.client.write(&buf[..len])?;
        let mut piece = [0u8; PIECE_MAX];
        self.server.read_exact(&mut piece[..count])?;
        for byte in &piece[..count] {
            self.filter.write_all(&[*byte])?;
            io::copy(&mut self.filter, &mut self.server)?;
        }
        Ok(count)
    }

    fn flush(&mut self) -> io::Result<()> {
        Ok(())
    }
}

/// A link over these ends of a connection, the mail server's first, to a new filter's end.
fn link_over<'w, S: Drop>(
    ends: io::Result<(S, S)>,
    filters: &mut FilterDial<'w>,
) -> Result<SocketLink<'w, S>, DialFault> {
    let Ok((client, server)) = ends else {
        return Err(DialFault);
    };
    let filter = filters.dial()?;
    Ok(SocketLink {
        client,
        server,
        filter,
    })
}

/// Makes links over TCP.
#[derive(Drop)]
pub struct TcpLinks<'w> {
    /// What makes sockets.
    pub rt: &'w HostRuntime,
    /// What makes the filter's ends.
    pub filters: FilterDial<'w>,
}

impl<'w> Dial for TcpLinks<'w> {
    type Link = SocketLink<'w, TcpStream>;

    fn dial(&mut self) -> Result<SocketLink<'w, TcpStream>, DialFault> {
        link_over(tcp_ends(self.rt), &mut self.filters)
    }
}

/// Both ends of a connection to a port of this machine, the one that was dialled first.
fn tcp_ends(rt: &HostRuntime) -> io::Result<(TcpStream, TcpStream)> {
    let listener = TcpListener::bind(rt, (HOST, ANY_PORT))?;
    let port = listener.local_addr()?.port();
    let limit = Duration::from_secs(LIMIT_SECONDS);
    let client = TcpStream::connect(rt, (HOST, port))?;
    client.set_read_timeout(Some(limit))?;
    client.set_write_timeout(Some(limit))?;
    let (server, _) = listener.accept()?;
    Ok((client, server))
}

/// Makes links over Unix sockets.
#[derive(Drop)]
pub struct UnixLinks<'w> {
    /// What makes sockets and removes their files.
    pub rt: &'w HostRuntime,
    /// The path of the socket of each link, at which nothing is between dials.
    pub path: &'w str,
    /// What makes the filter's ends.
    pub filters: FilterDial<'w>,
}

impl<'w> Dial for UnixLinks<'w> {
    type Link = SocketLink<'w, UnixStream>;

    fn dial(&mut self) -> Result<SocketLink<'w, UnixStream>, DialFault> {
        link_over(unix_ends(self.rt, self.path), &mut self.filters)
    }
}

/// Both ends of a connection to a Unix socket, the one that was dialled first. The socket's file is removed again.
fn unix_ends(rt: &HostRuntime, path: &str) -> io::Result<(UnixStream, UnixStream)> {
    let limit = Duration::from_secs(LIMIT_SECONDS);
    let listener = UnixListener::bind(rt, path)?;
    let dialled = UnixStream::connect(rt, path);
    fs::remove_file(rt, path)?;
    let client = dialled?;
    client.set_read_timeout(Some(limit))?;
    client.set_write_timeout(Some(limit))?;
    let (server, _) = listener.accept()?;
    Ok((client, server))
}
