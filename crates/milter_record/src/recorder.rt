//! The loop that passes connections on and records them.

use crate::directory::create_trace;
use crate::end::End;
use crate::fault::Fault;
use crate::record_error::RecordError;
use crate::recorded_connection::RecordedConnection;
use milter_sockets::{Listener, Stream, Target};
use mio::event::Event;
use mio::{Events, Poll, Token};
use slab::Slab;
use std::alloc::Global;
use std::fs::File;
use std::io::{self, ErrorKind, Write};
use std::time::Duration;

/// The most events that are taken at once.
const EVENTS_MAX: usize = 1_024;
/// The most connections at once: others wait in the queue of the listener.
const AT_ONCE: usize = 200;
/// The most bytes that are read at once.
const READ_MAX: usize = 65_536;
/// How many milliseconds the listener is left alone after the system had no room for a connection.
const RETRY: u64 = 100;
/// The token of the listener. Those of a connection are twice its place and the next one.
const LISTENER: Token = Token(usize::MAX);

/// Connections that are passed on to a filter and recorded.
#[derive(Drop)]
struct Recorder<'r, 's> {
    rt: &'r HostRuntime,
    alloc: Global,
    target: Target<'s>,
    directory: &'s str,
    poll: Poll,
    listener: Listener,
    // Whether a connection may have come.
    is_ready: bool,
    // Whether the system had no room for a connection.
    is_full: bool,
    connections: Slab<RecordedConnection<File>>,
    // How many connections have come.
    came: u64,
    // How many are taken; all where there is no number.
    most: Option<u64>,
}

/// Passes on each connection that comes to the filter, and what either end sends to the other, and writes it to a file
/// of the directory: `1.trace` of the first connection, `2.trace` of the second, and so on. It ends once so many
/// connections have ended; without their number it ends by an error alone. A connection that can't be passed on, or
/// whose file can't be written, is closed, and a line says so.
pub fn record<'s, W: Write>(
    rt: &HostRuntime,
    alloc: Global,
    mut listener: Listener,
    target: Target<'s>,
    directory: &'s str,
    most: Option<u64>,
    errors: &mut W,
) -> Result<(), RecordError> {
    let poll = Poll::new(rt)?;
    listener.watch(poll.registry(), LISTENER)?;
    let mut recorder = Recorder {
        rt,
        alloc,
        target,
        directory,
        poll,
        listener,
        is_ready: true,
        is_full: false,
        connections: Slab::with_capacity(alloc, AT_ONCE)?,
        came: 0,
        most,
    };
    recorder.run(errors)
}

impl<'r, 's> Recorder<'r, 's> {
    /// Takes connections, and passes on what comes.
    fn run<W: Write>(&mut self, errors: &mut W) -> Result<(), RecordError> {
        let mut events = Events::with_capacity(self.alloc, EVENTS_MAX)?;
        let mut buffer = vec![in self.alloc; 0u8; READ_MAX]?;
        for _ in 0..u64::MAX {
            if self.is_over() {
                break;
            }
            let timeout = self.time_to_wait();
            self.poll.poll(&mut events, timeout)?;
            self.on_events(&events, errors);
            self.accept(errors);
            self.run_turns(buffer.as_mut_slice(), errors);
        }
        Ok(())
    }

    /// Whether all connections that are taken have come.
    fn has_all(&self) -> bool {
        match self.most {
            Some(most) => self.came >= most,
            None => false,
        }
    }

    /// Whether all connections that are taken have ended.
    fn is_over(&self) -> bool {
        self.has_all() && self.connections.is_empty()
    }

    /// Whether a connection may have come for which there is room.
    fn can_accept(&self) -> bool {
        self.is_ready && !self.is_full && !self.has_all() && self.connections.len() < AT_ONCE
    }

    /// How long nothing is to be done unless a socket becomes ready; for ever where that is `None`.
    fn time_to_wait(&self) -> Option<Duration> {
        if self.can_accept()
            || self
                .connections
                .iter()
                .any(|(_, connection)| connection.is_due)
        {
            return Some(Duration::from_millis(0));
        }
        if self.is_full {
            return Some(Duration::from_millis(RETRY));
        }
        None
    }

    // ---- what happens

    /// Notes which sockets are ready.
    fn on_events<W: Write>(&mut self, events: &Events, errors: &mut W) {
        for event in events.iter() {
            if event.token() == LISTENER {
                self.is_ready = true;
            } else if let Err((place, fault)) = self.on_event(event) {
                self.lose(place, &fault, errors);
            }
        }
    }

    /// Notes that a socket of a connection is ready; why the connection at which place is lost, if it is.
    fn on_event(&mut self, event: &Event) -> Result<(), (usize, Fault)> {
        let Token(token) = event.token();
        let place = token / 2;
        let Some(connection) = self.connections.get_mut(place) else {
            return Ok(());
        };
        connection.is_due = true;
        if token % 2 == 0 {
            connection.mail_server.note(event);
            return Ok(());
        }
        connection.filter.note(event);
        if connection.is_made {
            return Ok(());
        }
        match connection.filter.stream.on_connected() {
            Ok(()) => {
                connection.is_made = true;
                Ok(())
            }
            Err(error) => match self.connect_again(place, error) {
                Ok(()) => Ok(()),
                Err(fault) => Err((place, fault)),
            },
        }
    }

    /// Gives each connection that is to have a turn one.
    fn run_turns<W: Write>(&mut self, buffer: &mut [u8], errors: &mut W) {
        for place in 0..AT_ONCE {
            self.run_turn(place, buffer, errors);
        }
    }

    /// Gives a connection a turn, if it is to have one.
    fn run_turn<W: Write>(&mut self, place: usize, buffer: &mut [u8], errors: &mut W) {
        let Some(connection) = self.connections.get_mut(place) else {
            return;
        };
        if !connection.is_due {
            return;
        }
        match connection.run_turn(self.alloc, buffer) {
            Ok(false) => {}
            Ok(true) => drop(self.connections.try_remove(place)),
            Err(fault) => self.lose(place, &fault, errors),
        }
    }

    /// Closes a connection, and says why.
    fn lose<W: Write>(&mut self, place: usize, fault: &Fault, errors: &mut W) {
        if let Some(lost) = self.connections.try_remove(place) {
            say(lost.number, fault, errors);
        }
    }

    // ---- connections that come

    /// Takes connections that have come, as far as there is room for them.
    fn accept<W: Write>(&mut self, errors: &mut W) {
        self.is_full = false;
        for _ in 0..AT_ONCE {
            if !self.can_accept() {
                return;
            }
            match self.listener.accept() {
                Ok(stream) => self.add(stream, errors),
                Err(error) => match error.kind() {
                    ErrorKind::WouldBlock => self.is_ready = false,
                    ErrorKind::ConnectionAborted | ErrorKind::ConnectionReset => {}
                    _ => self.is_full = true,
                },
            }
        }
    }

    /// Passes on a connection that has come.
    fn add<W: Write>(&mut self, stream: Stream, errors: &mut W) {
        self.came = self.came.saturating_add(1);
        let number = self.came;
        if let Err(fault) = self.begin(stream, number) {
            say(number, &fault, errors);
        }
    }

    /// Makes the file of a connection, and begins to connect it to the filter.
    fn begin(&mut self, mut stream: Stream, number: u64) -> Result<(), Fault> {
        let file = match create_trace(self.rt, self.alloc, self.directory, number) {
            Ok(file) => file,
            Err(error) => return Err(Fault::Create(error)),
        };
        if let Err(error) = stream.on_connected() {
            return Err(Fault::MailServer(error));
        }
        let (mut to_filter, address) = self.connect(
            0,
            io::Error::from(ErrorKind::AddrNotAvailable),
        )?;
        let place = self.connections.vacant_key();
        self.watch(&mut stream, mail_server_token(place))?;
        self.watch(&mut to_filter, filter_token(place))?;
        let connection = RecordedConnection {
            number,
            file,
            mail_server: End::new(self.alloc, stream),
            filter: End::new(self.alloc, to_filter),
            address,
            is_made: false,
            is_due: false,
        };
        match self.connections.insert(connection) {
            Ok(_) => Ok(()),
            Err(_) => Err(Fault::NoMemory),
        }
    }

    /// Has the system say when a socket is ready.
    fn watch(&self, stream: &mut Stream, token: Token) -> Result<(), Fault> {
        match stream.watch(self.poll.registry(), token) {
            Ok(()) => Ok(()),
            Err(_) => Err(Fault::Watch),
        }
    }

    /// Begins to connect to the first address of the filter, from this number on, for which the system does so; after
    /// this error at the one before.
    fn connect(&self, from: usize, error: io::Error) -> Result<(Stream, usize), Fault> {
        let mut last = error;
        for address in from..usize::MAX {
            if !self.target.has(address) {
                break;
            }
            match self.target.connect(self.rt, address) {
                Ok(stream) => return Ok((stream, address)),
                Err(error) => last = error,
            }
        }
        Err(Fault::Connect(last))
    }

    /// Connects to the next address of the filter, after this error.
    fn connect_again(&mut self, place: usize, error: io::Error) -> Result<(), Fault> {
        let Some(connection) = self.connections.get(place) else {
            return Ok(());
        };
        let next = connection.address.saturating_add(1);
        let (mut stream, address) = self.connect(next, error)?;
        self.watch(&mut stream, filter_token(place))?;
        if let Some(connection) = self.connections.get_mut(place) {
            connection.filter = End::new(self.alloc, stream);
            connection.address = address;
        }
        Ok(())
    }
}

/// The token of the mail server of the connection at this place.
fn mail_server_token(place: usize) -> Token {
    Token(place.saturating_mul(2))
}

/// The token of the filter of the connection at this place.
fn filter_token(place: usize) -> Token {
    Token(place.saturating_mul(2).saturating_add(1))
}

/// Says why a connection isn't passed on any more.
fn say<W: Write>(number: u64, fault: &Fault, errors: &mut W) {
    let _ = writeln!(errors, "connection {number}: {fault}");
}
