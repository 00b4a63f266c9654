//! The loop that puts a load on a filter.

use crate::conversation::Conversation;
use crate::load_error::LoadError;
use crate::looks::{LOOK, SECOND, Settings};
use crate::open_connection::{Next, OpenConnection, Work};
use crate::outcome::Cause;
use crate::schedule::Schedule;
use crate::slot::Slot;
use crate::sockets::Sockets;
use crate::spin::Spin;
use crate::totals::Totals;
use milter_mail::Session;
use milter_sockets::{Stream, Target};
use milter_wire::{Options, read_buffer};
use mio::event::Event;
use mio::{Events, Poll, Token};
use std::alloc::Global;
use std::io::{self, ErrorKind, Write};
use std::time::{Duration, Instant};

/// The most events that are taken at once.
const EVENTS_MAX: usize = 1_024;
/// How many microseconds pass before a connection that was not made is tried again.
const RETRY: u64 = 100_000;
/// How many microseconds pass before a connection is tried again that the filter has no room for.
const RETRY_FULL: u64 = 10_000;
/// How many microseconds before a message is due no wait begins: a wait is measured in milliseconds.
const CLOSE: u64 = 2_000;
/// The microseconds of a millisecond.
const MILLI: u64 = 1_000;
/// How many microseconds after the first connection the load begins on those that the filter negotiated on.
pub(crate) const FIRST: u64 = SECOND;

/// A load that is put on a filter.
#[derive(Drop)]
pub(crate) struct Load<'r, 's> {
    pub(crate) rt: &'r HostRuntime,
    pub(crate) alloc: Global,
    pub(crate) settings: Settings,
    pub(crate) offer: Options,
    pub(crate) target: Target<'s>,
    // The number of the filter's address that is connected to.
    pub(crate) address: usize,
    pub(crate) poll: Poll,
    pub(crate) begin: Instant,
    pub(crate) slots: Vec<Slot>,
    // The places whose connections await a message.
    pub(crate) idle: Vec<usize>,
    pub(crate) work: Work<'s>,
    // How many connections are made and open.
    pub(crate) open: usize,
    // When the first connection was made.
    pub(crate) first: u64,
    // When a connection was last open that the filter had negotiated on; before there was one, when the first was made.
    pub(crate) last_negotiated: u64,
    // When the last message was begun, once that is known.
    pub(crate) over: Option<u64>,
    // Why no connection was made, where none ever was.
    pub(crate) refusal: Option<ErrorKind>,
    pub(crate) next_look: u64,
    pub(crate) next_second: u64,
    pub(crate) spin: Spin,
}

/// Puts a load on a filter: plays a session on connections to it, at once as many as is asked for, until the time has
/// passed or all messages are settled. A connection that is lost is made again. The first of them is made before the
/// others; they are what is begun with, up to a second later.
///
/// The filter is lost where nothing comes of it for as long as a reply may take. The load also ends where for a second
/// more no connection is open that the filter negotiated on. A session without messages is no load.
pub fn run_load<'s, W: Write>(
    rt: &HostRuntime,
    alloc: Global,
    settings: Settings,
    offer: Options,
    target: Target<'s>,
    session: &'s Session,
    errors: &mut W,
) -> Result<Totals, LoadError> {
    let totals = Totals::new(alloc)?;
    if session.messages().is_empty() {
        drop(target);
        return Ok(totals);
    }
    let sockets = match Sockets::new(rt, alloc, settings.at_once) {
        Ok(sockets) => sockets,
        Err(error) => {
            drop(totals);
            drop(target);
            return Err(error);
        }
    };
    let Sockets {
        poll,
        begin,
        slots,
        idle,
    } = sockets;
    let load = Load {
        rt,
        alloc,
        settings,
        offer,
        target,
        address: 0,
        poll,
        begin,
        slots,
        idle,
        work: Work {
            session,
            schedule: Schedule::new(settings.rate, settings.messages),
            totals,
        },
        open: 0,
        first: 0,
        last_negotiated: 0,
        over: None,
        refusal: None,
        next_look: 0,
        next_second: SECOND,
        spin: Spin::new(),
    };
    totals_of(load, errors)
}

/// Puts the load on the filter, and what came of it.
fn totals_of<W: Write>(mut load: Load<'_, '_>, errors: &mut W) -> Result<Totals, LoadError> {
    load.run(errors)?;
    if load.work.totals.made == 0 {
        return Err(LoadError::Connect(load.refusal.unwrap_or(ErrorKind::TimedOut)));
    }
    Ok(load.work.totals)
}

impl<'r, 's> Load<'r, 's> {
    /// Puts the load on the filter.
    fn run<W: Write>(&mut self, errors: &mut W) -> Result<(), LoadError> {
        let mut events = Events::with_capacity(self.alloc, EVENTS_MAX)?;
        match read_buffer(self.alloc) {
            Ok(mut buffer) => self.run_with(&mut events, buffer.as_mut_slice(), errors),
            Err(error) => Err(LoadError::from(error)),
        }
    }

    /// The same with these events and this buffer.
    fn run_with<W: Write>(
        &mut self,
        events: &mut Events,
        buffer: &mut [u8],
        errors: &mut W,
    ) -> Result<(), LoadError> {
        let mut now = self.now()?;
        for _ in 0..u64::MAX {
            self.look(now, errors)?;
            self.begin_due(now, buffer)?;
            if self.is_done(now) {
                break;
            }
            let timeout = Some(self.time_to_wait(now));
            self.poll.poll(events, timeout)?;
            now = self.on_events(events, buffer)?;
        }
        self.end()
    }

    /// The time, in microseconds since the load began.
    fn now(&self) -> io::Result<u64> {
        let passed = self.begin.elapsed(self.rt)?;
        Ok(
            passed
                .as_secs()
                .saturating_mul(SECOND)
                .saturating_add(u64::from(passed.subsec_micros())),
        )
    }

    /// How long a reply may take, in microseconds.
    pub(crate) fn timeout(&self) -> u64 {
        u64::from(self.settings.timeout).saturating_mul(SECOND)
    }

    /// How long to wait for sockets at this time: until the next look, or less where a message is due before it; not at
    /// all while the sockets are polled without a wait.
    fn time_to_wait(&mut self, now: u64) -> Duration {
        if self.spin.is_on(now) {
            return Duration::from_millis(0);
        }
        let look = self.next_look.saturating_sub(now).div_ceil(MILLI);
        let due = match self.work.schedule.next_due() {
            Some(due) if !self.idle.is_empty() => due.saturating_sub(now),
            _ => u64::MAX,
        };
        if due < CLOSE {
            return Duration::from_millis(0);
        }
        Duration::from_millis(look.min(due / MILLI - 1))
    }

    /// Whether the load has ended at this time.
    fn is_done(&self, now: u64) -> bool {
        let without = now.saturating_sub(self.last_negotiated);
        if self.refusal.is_some() || without > self.timeout().saturating_add(FIRST) {
            return true;
        }
        match self.over {
            Some(over) => {
                self.work.totals.messages() >= self.work.schedule.begun()
                    || now.saturating_sub(over) > self.timeout()
            }
            None => false,
        }
    }

    // ---- what happens

    /// Goes on with the connections whose sockets are ready; the time at which it did so with the last one.
    fn on_events(&mut self, events: &Events, buffer: &mut [u8]) -> Result<u64, LoadError> {
        let mut now = self.now()?;
        let mut is_first = true;
        for event in events.iter() {
            if !is_first {
                now = self.now()?;
            }
            is_first = false;
            self.on_ready(event, buffer, now)?;
        }
        if !events.is_empty() {
            self.spin.on_event(now);
        }
        self.note_over(now);
        Ok(now)
    }

    /// Goes on with a connection whose socket is ready.
    fn on_ready(&mut self, event: &Event, buffer: &mut [u8], now: u64) -> Result<(), LoadError> {
        let Token(place) = event.token();
        match self.on_event(place, event, now) {
            Some(kind) => self.close(place, kind, now),
            None => self.run_turns(place, buffer, now),
        }
    }

    /// Notes when the last message was begun, once it was.
    pub(crate) fn note_over(&mut self, now: u64) {
        if self.over.is_none() && self.work.schedule.is_over() {
            self.over = Some(now);
        }
    }

    /// Notes what the system says of a socket; why no connection was made, if none was.
    fn on_event(&mut self, place: usize, event: &Event, now: u64) -> Option<ErrorKind> {
        let open = open_at(&mut self.slots, place)?;
        open.is_closed |= event.is_read_closed() || event.is_error();
        open.is_readable |= event.is_readable() || open.is_closed;
        if open.is_made {
            return None;
        }
        match open.stream.on_connected() {
            Ok(()) => {
                open.is_made = true;
                open.since = now;
                self.on_made(now);
                None
            }
            Err(error) => Some(error.kind()),
        }
    }

    /// A connection was made.
    fn on_made(&mut self, now: u64) {
        if self.work.totals.made == 0 {
            self.first = now;
            self.last_negotiated = now;
        }
        self.work.totals.made = self.work.totals.made.saturating_add(1);
        self.open = self.open.saturating_add(1);
    }

    /// Goes on with a connection.
    fn run_turns(&mut self, place: usize, buffer: &mut [u8], now: u64) -> Result<(), LoadError> {
        let Some(open) = open_at(&mut self.slots, place) else {
            return Ok(());
        };
        match open.run_turns(&mut self.work, buffer, now) {
            Next::Wait => self.watch(place, false, now),
            Next::WaitToWrite => self.watch(place, true, now),
            Next::Message => {
                self.add_idle(place)?;
                self.watch(place, false, now)
            }
            Next::Quit => self.reopen(place, now),
            Next::Lost => self.close(place, ErrorKind::Other, now),
        }
    }

    /// Has the system say when more can be written to a connection, or say so no more.
    fn watch(&mut self, place: usize, writes: bool, now: u64) -> Result<(), LoadError> {
        if self.is_watched(place, writes, now) {
            return Ok(());
        }
        self.close(place, ErrorKind::Other, now)
    }

    /// The same; whether the system does. A connection of which it doesn't is lost.
    fn is_watched(&mut self, place: usize, writes: bool, now: u64) -> bool {
        let Some(open) = open_at(&mut self.slots, place) else {
            return true;
        };
        if open.awaits_output == writes {
            return true;
        }
        open.awaits_output = writes;
        let registry = self.poll.registry();
        let watched = open.stream.watch_again(registry, Token(place), writes);
        if watched.is_err() {
            open.lose(Cause::Reset, &mut self.work, now);
        }
        watched.is_ok()
    }

    /// A connection awaits a message.
    fn add_idle(&mut self, place: usize) -> Result<(), LoadError> {
        let Some(slot) = self.slots.get_mut(place) else {
            return Ok(());
        };
        if slot.is_idle {
            return Ok(());
        }
        slot.is_idle = true;
        match self.idle.push(place) {
            Ok(()) => Ok(()),
            Err(_) => Err(LoadError::NoMemory),
        }
    }

    /// Begins the messages that are due, on connections that await one.
    fn begin_due(&mut self, now: u64, buffer: &mut [u8]) -> Result<(), LoadError> {
        for _ in 0..self.idle.len() {
            match self.work.schedule.next_due() {
                Some(due) if due <= now => {}
                _ => break,
            }
            let Some(place) = self.idle.pop() else {
                break;
            };
            if let Some(slot) = self.slots.get_mut(place) {
                slot.is_idle = false;
            }
            self.run_turns(place, buffer, now)?;
        }
        self.note_over(now);
        Ok(())
    }

    // ---- connections that are made and closed

    /// Closes a connection that was quit, and makes the next one.
    fn reopen(&mut self, place: usize, now: u64) -> Result<(), LoadError> {
        self.vacate(place, now);
        self.last_negotiated = now;
        self.connect(place, now)
    }

    /// Closes a connection that was lost, or that was not made for this reason.
    pub(crate) fn close(
        &mut self,
        place: usize,
        kind: ErrorKind,
        now: u64,
    ) -> Result<(), LoadError> {
        let Some(closed) = self.vacate(place, now.saturating_add(RETRY)) else {
            return Ok(());
        };
        if !closed.is_made {
            self.on_failure(kind);
            return Ok(());
        }
        self.work.totals.lost = self.work.totals.lost.saturating_add(1);
        if closed.conversation.is_negotiated() {
            self.last_negotiated = now;
            return self.connect(place, now);
        }
        Ok(())
    }

    /// Takes a connection away, so that the next one is made at this time.
    fn vacate(&mut self, place: usize, retry: u64) -> Option<OpenConnection> {
        let slot = self.slots.get_mut(place)?;
        slot.retry = retry;
        if slot.is_idle {
            slot.is_idle = false;
            self.idle.retain(move |idle| *idle != place);
        }
        let closed = slot.open.take()?;
        if closed.is_made {
            self.open = self.open.saturating_sub(1);
        }
        Some(closed)
    }

    /// A connection was not made. Where none ever was, the next address is tried, or the load ends.
    fn on_failure(&mut self, kind: ErrorKind) {
        if self.work.totals.made > 0 {
            self.work.totals.failed = self.work.totals.failed.saturating_add(1);
            return;
        }
        self.address = self.address.saturating_add(1);
        if !self.target.has(self.address) {
            self.refusal = Some(kind);
        } else if let Some(slot) = self.slots.first_mut() {
            slot.retry = 0;
        }
    }

    /// Begins to make a connection, unless no more messages are begun.
    pub(crate) fn connect(&mut self, place: usize, now: u64) -> Result<(), LoadError> {
        if self.work.schedule.is_over() {
            return Ok(());
        }
        match self.target.connect(self.rt, self.address) {
            Ok(stream) => self.converse(place, stream, now),
            Err(error) => {
                self.on_refusal(place, error.kind(), now);
                Ok(())
            }
        }
    }

    /// Begins a conversation on a connection that is being made.
    fn converse(&mut self, place: usize, mut stream: Stream, now: u64) -> Result<(), LoadError> {
        stream.watch(self.poll.registry(), Token(place))?;
        match Conversation::new(self.alloc, self.offer, place, now) {
            Ok(conversation) => {
                if let Some(slot) = self.slots.get_mut(place) {
                    slot.open = Some(OpenConnection::new(stream, conversation, now));
                }
                Ok(())
            }
            Err(_) => {
                drop(stream);
                Err(LoadError::NoMemory)
            }
        }
    }

    /// The system did not begin to make a connection.
    fn on_refusal(&mut self, place: usize, kind: ErrorKind, now: u64) {
        let is_full = kind == ErrorKind::WouldBlock;
        if let Some(slot) = self.slots.get_mut(place) {
            slot.retry = now.saturating_add(if is_full { RETRY_FULL } else { RETRY });
        }
        self.next_look = self.next_look.min(now.saturating_add(LOOK));
        if !is_full {
            self.on_failure(kind);
        }
    }

    /// Ends all connections: messages that are still under way are settled by default.
    fn end(&mut self) -> Result<(), LoadError> {
        let now = self.now()?;
        for slot in &mut self.slots {
            if let Some(open) = &mut slot.open {
                open.end(&mut self.work, now);
            }
        }
        Ok(())
    }
}

/// The connection at a place, where one is open.
fn open_at(slots: &mut Vec<Slot>, place: usize) -> Option<&mut OpenConnection> {
    slots.get_mut(place)?.open.as_mut()
}
