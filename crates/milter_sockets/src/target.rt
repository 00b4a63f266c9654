//! Where a filter listens.

use crate::stream::Stream;
use mio::net::{TcpStream, UnixStream};
use std::alloc::Global;
use std::io::{self, ErrorKind};
use std::net::{Net, SocketAddr, ToSocketAddrs};

/// Where a filter listens: at one place, or at several of which each is tried in turn, numbered from 0.
#[derive(Debug, Drop)]
pub enum Target<'a> {
    /// At the addresses of a host, each with the port.
    Inet(Vec<SocketAddr>),
    /// At a path.
    Unix(&'a str),
}

impl<'a> Target<'a> {
    /// A filter at a port of a host, whose addresses are looked up: an error where it has none.
    pub fn of_host<R: Net>(rt: &R, alloc: Global, host: &str, port: u16) -> io::Result<Self> {
        let mut addresses = Vec::new(alloc);
        for address in (host, port).to_socket_addrs(rt)? {
            addresses.push(address)?;
        }
        Ok(Target::Inet(addresses))
    }

    /// Whether there is a place of this number.
    pub fn has(&self, number: usize) -> bool {
        match self {
            Target::Inet(addresses) => number < addresses.len(),
            Target::Unix(_) => number == 0,
        }
    }

    /// Begins to connect to the place of this number.
    pub fn connect<R: Net>(&self, rt: &R, number: usize) -> io::Result<Stream> {
        match self {
            Target::Inet(addresses) => match addresses.get(number) {
                Some(address) => Ok(Stream::Inet(TcpStream::connect(rt, *address)?)),
                None => Err(io::Error::from(ErrorKind::AddrNotAvailable)),
            },
            Target::Unix(path) => Ok(Stream::Unix(UnixStream::connect(rt, *path)?)),
        }
    }
}
