//! A service of many connections.

ghost use Rattle.std.specs.Prelude.{◌≡◌, ◌≤◌, ◌<◌, ◌⊎◌, ◌++◌, [], ◌∷◌, length};
ghost use Rattle.milter_filter.specs.Connections.{fresh_connected};
ghost use Rattle.milter_service.specs.declared.service.TheConstants.{SPARE_MAX};

use crate::host::Host;
use crate::key::Key;
use crate::mail_server::{Due, MailServer, Next};
use crate::mail_servers::MailServers;
use crate::service_error::ServiceError;
use crate::shortage::Shortage;
use crate::sources::{LISTENER_TOKENS, Source, sources_of, watching};
use milter_filter::{CommandOrder, Connection, FilterFault, Served, Wants, read_buffer};
use milter_sockets::{Listener, Stream};
use mio::event::Event;
use mio::{Events, Poll, Token};
use std::alloc::Global;
use std::io::ErrorKind;
use std::ops::Range;
use std::time::{Duration, Instant};

/// What a service allows. Times are whole seconds since the service began, without their fractions. While there are
/// mail servers all of them are looked at once in each of these seconds. So each time has bounds of its own, as below,
/// but for the time that a round of the service takes, with what its host does in it.
#[derive(Clone, Copy)]
pub struct Limits {
    /// How many connections are open at once; others wait in the queues of the listeners.
    pub at_once: usize,
    /// After how many seconds a connection is closed that says nothing and takes nothing: up to two seconds later, and
    /// never sooner. While a question is open on it that is no matter.
    pub timeout: u64,
    /// After how many seconds a question that is open gets the verdict of [`Host::default_verdict`]: up to a second
    /// sooner or later.
    ///
    /// [`Host::default_verdict`]: crate::Host::default_verdict
    pub answer: u64,
    /// After how many seconds, and again after as many, progress is reported to the mail server while the end of a
    /// message is asked about: up to a second sooner or later, and never where this is 0. Source: the libmilter
    /// callback documentation (smfi_progress).
    pub progress: u64,
}

/// The most events that are taken at once.
const EVENTS_MAX: usize = 1_024;
/// The most connections that are taken of one listener before the others have their turns.
const ACCEPTS_MAX: u32 = 64;
/// How many milliseconds the listeners are left alone after the system had no room for a connection.
const RETRY: u64 = 100;
/// How many milliseconds pass between two looks at all mail servers.
const CHECK: u64 = 1_000;
/// The most connections that have ended whose memory is kept for others, up to a look at which no mail server is
/// connected: for each of them room for one packet, 65,540 bytes, up to the next look, and what else
/// `Connection::restart` leaves it, which is less than 3 MB.
const SPARE_MAX: usize = 16;
/// A service of many connections, of each of which its host keeps an `S`.
#[derive(Drop)]
pub struct Service<'r, S: Drop> {
    rt: &'r HostRuntime,
    alloc: Global,
    limits: Limits,
    poll: Poll,
    start: Instant,
    sources: Vec<Source>,
    mail_servers: MailServers<S>,
    // Connections that have ended, begun again for those that come. The list has its memory from the start: one that
    // grew behind the memory of many mail servers would keep that from going back to the system.
    spare: Vec<Connection>,
    // Whether none of them has memory for a packet.
    is_released: bool,
    // How many connections have come.
    count: u32,
    // Whether the system had no room for a connection.
    is_full: bool,
    // Whether the host knows that it had none, since connections waited last.
    is_known_full: bool,
    // The second at which all mail servers are looked at again.
    next_check: u64,
}

impl<'r, S: Drop> Service<'r, S> {
    /// A service on these listeners.
    pub fn new(
        rt: &'r HostRuntime,
        alloc: Global,
        limits: Limits,
        listeners: Vec<Listener>,
    ) -> Result<Self, ServiceError> {
        let start = Instant::now(rt)?;
        let spare = Vec::with_capacity(alloc, SPARE_MAX)?;
        let mut sources = sources_of(alloc, listeners)?;
        let poll = watching(rt, sources.as_mut_slice())?;
        Ok(Service {
            rt,
            alloc,
            limits,
            poll,
            start,
            sources,
            mail_servers: MailServers::new(alloc),
            spare,
            is_released: true,
            count: 0,
            is_full: false,
            is_known_full: false,
            next_check: 0,
        })
    }

    /// Serves until it is ended from outside, or by an error.
    pub fn run<H: Host<Session = S>>(&mut self, host: &mut H) -> Result<(), ServiceError> {
        let mut events = Events::with_capacity(self.alloc, EVENTS_MAX)?;
        match read_buffer(self.alloc) {
            Ok(mut buffer) => self.serve(&mut events, buffer.as_mut_slice(), host),
            Err(error) => Err(error.into()),
        }
    }

    /// Serves with these events and this buffer.
    fn serve<H: Host<Session = S>>(
        &mut self,
        events: &mut Events,
        buffer: &mut [u8],
        host: &mut H,
    ) -> Result<(), ServiceError>
        requires { 0 < length buffer.old }
    {
        host.start(self.poll.registry(), self.host_tokens())?;
        for _ in 0..u64::MAX {
            self.serve_once(events, buffer, host)?;
        }
        Ok(())
    }

    /// Waits until something is to be done, and does it.
    fn serve_once<H: Host<Session = S>>(
        &mut self,
        events: &mut Events,
        buffer: &mut [u8],
        host: &mut H,
    ) -> Result<(), ServiceError>
        requires { 0 < length buffer.old }
    {
        let timeout = self.time_to_wait(host.deadline())?;
        self.poll.poll(events, timeout)?;
        let now = Instant::now(self.rt)?;
        let second = now.saturating_duration_since(self.start).as_secs();
        self.on_events(events, host)?;
        self.call_due(now, host)?;
        self.accept(second, host)?;
        self.run_turns(second, buffer, host)?;
        self.look(second, host)
    }

    /// The tokens for sockets of the host: those of mail servers are below them, and those of listeners above.
    fn host_tokens(&self) -> Range<usize> {
        self.limits.at_once..LISTENER_TOKENS - self.sources.len()
    }

    /// How long nothing is to be done unless a socket becomes ready; for ever where that is `None`.
    fn time_to_wait(&self, deadline: Option<Instant>) -> Result<Option<Duration>, ServiceError> {
        let own = self.own_time_to_wait();
        let Some(deadline) = deadline else {
            return Ok(own);
        };
        let of_host = deadline.saturating_duration_since(Instant::now(self.rt)?);
        match own {
            Some(own) if own < of_host => Ok(Some(own)),
            _ => Ok(Some(of_host)),
        }
    }

    /// The same, but for the time that the host asks for.
    fn own_time_to_wait(&self) -> Option<Duration> {
        if self.mail_servers.waiting() > 0 || self.can_accept() {
            return Some(Duration::from_millis(0));
        }
        if self.is_full {
            return Some(Duration::from_millis(RETRY));
        }
        if self.mail_servers.is_empty() && self.is_released {
            return None;
        }
        Some(Duration::from_millis(CHECK))
    }

    /// Whether a connection may be there for which there is room.
    fn can_accept(&self) -> bool {
        !self.is_full
            && self.mail_servers.len() < self.limits.at_once
            && self.sources.iter().any(|source| source.is_ready)
    }

    /// Passes on which sockets are ready.
    fn on_events<H: Host<Session = S>>(
        &mut self,
        events: &Events,
        host: &mut H,
    ) -> Result<(), ServiceError> {
        for event in events.iter() {
            self.on_event(event, host)?;
        }
        Ok(())
    }

    /// Passes on that a socket is ready: to its listener, its mail server or the host.
    fn on_event<H: Host<Session = S>>(
        &mut self,
        event: &Event,
        host: &mut H,
    ) -> Result<(), ServiceError> {
        let Token(place) = event.token();
        if let Some(source) = self.sources.get_mut(LISTENER_TOKENS - place) {
            source.is_ready = true;
            return Ok(());
        }
        if place >= self.limits.at_once {
            return host.ready(Token(place), &mut self.mail_servers);
        }
        if let Some(mail_server) = self.mail_servers.at_mut(place) {
            mail_server.is_closed |= event.is_read_closed()
                || event.is_write_closed()
                || event.is_error();
        }
        self.mail_servers.enqueue(place)
    }

    /// Calls the host, where the time has come that it asked for.
    fn call_due<H: Host<Session = S>>(
        &mut self,
        now: Instant,
        host: &mut H,
    ) -> Result<(), ServiceError> {
        match host.deadline() {
            Some(deadline) if deadline <= now => host.due(now, &mut self.mail_servers),
            _ => Ok(()),
        }
    }

    /// Takes connections that have come, as far as there is room for them.
    fn accept<H: Host<Session = S>>(
        &mut self,
        second: u64,
        host: &mut H,
    ) -> Result<(), ServiceError> {
        self.is_full = false;
        for place in 0..self.sources.len() {
            self.accept_from(place, second, host)?;
        }
        if !self.is_full && !self.sources.iter().any(|source| source.is_ready) {
            self.is_known_full = false;
        }
        Ok(())
    }

    /// Notes that the system has no room for a connection, and has the host know it where it doesn't.
    fn on_full<H: Host<Session = S>>(&mut self, shortage: Shortage, host: &mut H) {
        self.is_full = true;
        if !self.is_known_full {
            self.is_known_full = true;
            host.full(shortage);
        }
    }

    /// Takes connections that have come on one of the listeners.
    fn accept_from<H: Host<Session = S>>(
        &mut self,
        place: usize,
        second: u64,
        host: &mut H,
    ) -> Result<(), ServiceError> {
        for _ in 0..ACCEPTS_MAX {
            if self.mail_servers.len() >= self.limits.at_once {
                return Ok(());
            }
            let Some(source) = self.sources.get_mut(place) else {
                return Ok(());
            };
            if !source.is_ready {
                return Ok(());
            }
            match source.listener.accept() {
                Ok(stream) => self.add(stream, second, host)?,
                Err(error) => match error.kind() {
                    ErrorKind::WouldBlock => source.is_ready = false,
                    ErrorKind::ConnectionAborted | ErrorKind::ConnectionReset => {}
                    _ => {
                        self.on_full(Shortage::of(&error), host);
                        return Ok(());
                    }
                },
            }
        }
        Ok(())
    }

    /// Adds a mail server.
    fn add<H: Host<Session = S>>(
        &mut self,
        stream: Stream,
        second: u64,
        host: &mut H,
    ) -> Result<(), ServiceError> {
        self.count = self.count.wrapping_add(1);
        let key = Key {
            place: self.mail_servers.next_place(),
            number: self.count,
        };
        let Ok((wants, session)) = host.connect(key) else {
            drop(stream);
            return host.refused(key);
        };
        let connection = self.connect(wants);
        let mail_server = MailServer::new(stream, connection, session, key.number, second);
        match self.mail_servers.add(mail_server) {
            Ok(()) => self.watch(key, host),
            Err(mail_server) => {
                let session = mail_server.into_session();
                host.ended(key, session, Served::Failed(FilterFault::NoMemory))
            }
        }
    }

    /// A connection of which nothing has come, in the lenient order, of a filter that wants this; in the memory of one
    /// that has ended where there is one, of which nothing else is left. Doesn't allocate.
    fn connect(&mut self, wants: Wants) -> Connection
        ensures { result ≡ fresh_connected CommandOrder.Lenient wants }
    {
        let Some(mut connection) = self.spare.pop() else {
            return Connection::new(self.alloc, wants, CommandOrder::Lenient);
        };
        connection.restart_with(wants, CommandOrder::Lenient);
        connection
    }

    /// Keeps a connection that has ended for others, begun again so that it gives up much memory, unless there are
    /// enough.
    fn keep(&mut self, mut ended: Connection)
        ensures kept { (self.new.spare.items ≡ self.old.spare.items) ⊎ (self.new.spare.items
            ≡ self.old.spare.items ++ fresh_connected CommandOrder.Lenient ended.conversation.wanted ∷ []) }
        ensures bounded { length self.old.spare.items ≤ SPARE_MAX → length self.new.spare.items ≤ SPARE_MAX }
    {
        if self.spare.len() < SPARE_MAX {
            ended.restart(CommandOrder::Lenient);
            self.is_released = false;
            drop(self.spare.push(ended));
        } else {
            drop(ended);
        }
    }

    /// Has the system say when a mail server is ready.
    fn watch<H: Host<Session = S>>(&mut self, key: Key, host: &mut H) -> Result<(), ServiceError> {
        let Some(mail_server) = self.mail_servers.at_mut(key.place) else {
            return Ok(());
        };
        if mail_server
            .stream
            .watch(self.poll.registry(), key.token())
            .is_err()
        {
            return self.close(key.place, Served::ReadFault, host);
        }
        Ok(())
    }

    /// Closes the connection of a mail server, and says how it ended.
    fn close<H: Host<Session = S>>(
        &mut self,
        place: usize,
        served: Served,
        host: &mut H,
    ) -> Result<(), ServiceError> {
        match self.mail_servers.remove(place) {
            Some(mail_server) => {
                let key = Key {
                    place,
                    number: mail_server.number,
                };
                self.keep(mail_server.connection.inner);
                host.ended(key, mail_server.session, served)
            }
            None => Ok(()),
        }
    }

    /// Gives each mail server that waits for its turn one.
    fn run_turns<H: Host<Session = S>>(
        &mut self,
        second: u64,
        buffer: &mut [u8],
        host: &mut H,
    ) -> Result<(), ServiceError>
        requires { 0 < length buffer.old }
    {
        for _ in 0..self.mail_servers.waiting() {
            if let Some(place) = self.mail_servers.next_in_turn() {
                self.run_turn(place, second, buffer, host)?;
            }
        }
        Ok(())
    }

    /// Gives a mail server its turn.
    fn run_turn<H: Host<Session = S>>(
        &mut self,
        place: usize,
        second: u64,
        buffer: &mut [u8],
        host: &mut H,
    ) -> Result<(), ServiceError>
        requires { 0 < length buffer.old }
    {
        let Some(mail_server) = self.mail_servers.at_mut(place) else {
            return Ok(());
        };
        match mail_server.run_turns(place, second, buffer, host) {
            Next::Turn => self.mail_servers.enqueue(place),
            Next::Wait => Ok(()),
            Next::Close(served) => self.close(place, served, host),
        }
    }

    /// Looks at all mail servers, once a second: at those that are idle, and at questions that are open.
    fn look<H: Host<Session = S>>(
        &mut self,
        second: u64,
        host: &mut H,
    ) -> Result<(), ServiceError> {
        if second < self.next_check {
            return Ok(());
        }
        self.next_check = second.saturating_add(1);
        self.release_spare();
        if self.mail_servers.is_empty() {
            self.give_back();
        }
        for place in 0..self.limits.at_once {
            self.look_at(place, second, host)?;
        }
        Ok(())
    }

    /// Frees the memory for packets of connections that are kept for others.
    fn release_spare(&mut self) {
        for connection in &mut self.spare {
            connection.release();
        }
        self.is_released = true;
    }

    /// Gives back the memory that only mail servers need, where there is none.
    fn give_back(&mut self) {
        self.spare.clear();
        self.mail_servers.shrink();
    }

    /// Does what is due about a mail server.
    fn look_at<H: Host<Session = S>>(
        &mut self,
        place: usize,
        second: u64,
        host: &mut H,
    ) -> Result<(), ServiceError> {
        let Some(mail_server) = self.mail_servers.at_mut(place) else {
            return Ok(());
        };
        match mail_server.due(second, &self.limits) {
            Due::Nothing => Ok(()),
            Due::Release => {
                mail_server.connection.inner.release();
                Ok(())
            }
            Due::Progress => {
                mail_server.report_progress(second);
                self.mail_servers.enqueue(place)
            }
            Due::Default(stage) => {
                let verdict = host.default_verdict(stage);
                self.mail_servers.give_default(self.alloc, place, verdict)
            }
            Due::Close => self.close(place, Served::ReadFault, host),
        }
    }
}
