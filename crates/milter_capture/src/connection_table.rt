//! The connections of a capture, by the addresses of their sides.

use crate::connection::Connection;
use crate::fault::CaptureFault;
use crate::segment::Segment;
use std::alloc::Global;
use std::collections::BTreeMap;
use std::net::SocketAddr;

/// The addresses of a connection's sides.
#[derive(Clone, Copy, PartialEq, Eq, PartialOrd, Ord, Drop)]
struct Sides {
    client: SocketAddr,
    server: SocketAddr,
}

/// The connections of a capture, in the order in which they begin.
#[derive(Drop)]
pub(crate) struct ConnectionTable<'a> {
    alloc: Global,
    pub(crate) connections: Vec<Connection<'a>>,
    /// The last connection between two addresses.
    places: BTreeMap<Sides, usize>,
}

impl<'a> ConnectionTable<'a> {
    /// Without connections.
    pub(crate) fn new(alloc: Global) -> ConnectionTable<'a> {
        ConnectionTable {
            alloc,
            connections: Vec::new(alloc),
            places: BTreeMap::new(alloc),
        }
    }

    /// Takes a segment that came at this time. One that belongs to no connection, and begins none, is left out.
    pub(crate) fn receive(&mut self, segment: &Segment<'a>, time: u64) -> Result<(), CaptureFault> {
        if let Some(connection) = self.connection_of(segment) {
            return connection.receive(segment, time);
        }
        let Some(sides) = begun_sides(segment) else {
            return Ok(());
        };
        let place = self.connections.len();
        let mut connection = Connection::new(self.alloc, sides.client, sides.server, time);
        connection.receive(segment, time)?;
        self.connections.push(connection)?;
        let _ = self.places.remove(&reversed(sides));
        match self.places.insert(sides, place) {
            Ok(_) => Ok(()),
            Err(_) => Err(CaptureFault::NoMemory),
        }
    }

    /// The connection of a segment, unless the segment begins another one between these addresses.
    fn connection_of(&mut self, segment: &Segment<'a>) -> Option<&mut Connection<'a>> {
        let place = self.place_of(segment)?;
        let connection = self.connections.as_mut_slice().get_mut(place)?;
        let begins = segment.is_first && segment.acknowledged.is_none();
        if begins && !connection.is_begun_by(segment.sequence) {
            return None;
        }
        Some(connection)
    }

    /// The place of the last connection between the addresses of a segment.
    fn place_of(&self, segment: &Segment<'a>) -> Option<usize> {
        let sides = Sides {
            client: segment.source,
            server: segment.destination,
        };
        match self.places.get(&sides) {
            Some(place) => Some(*place),
            None => self.places.get(&reversed(sides)).copied(),
        }
    }
}

/// The sides of the connection that a segment begins. The client is who sends the first segment, or to whom the answer
/// to that goes; or who sends bytes first, where the capture doesn't have these. A segment without either begins none.
fn begun_sides(segment: &Segment<'_>) -> Option<Sides> {
    let sides = Sides {
        client: segment.source,
        server: segment.destination,
    };
    if segment.is_first && segment.acknowledged.is_some() {
        Some(reversed(sides))
    } else if segment.is_first || segment.length > 0 {
        Some(sides)
    } else {
        None
    }
}

/// The same sides the other way round.
fn reversed(sides: Sides) -> Sides {
    Sides {
        client: sides.server,
        server: sides.client,
    }
}
