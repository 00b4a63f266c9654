//! Looks at all connections of a load, from time to time.

use crate::load::{FIRST, Load};
use crate::load_error::LoadError;
use crate::outcome::Cause;
use crate::report::write_progress;
use crate::slot::Need;
use std::io::{ErrorKind, Write};

/// The microseconds of a second.
pub(crate) const SECOND: u64 = 1_000_000;

/// What is asked of a load.
#[derive(Clone, Copy)]
pub struct Settings {
    /// How many connections there are at once.
    pub at_once: usize,
    /// For how many seconds messages are begun; 0 where there is no such limit.
    pub seconds: u32,
    /// How many messages there are; 0 where there is no such limit.
    pub messages: u64,
    /// How many of them are due a second; 0 where each is begun as soon as can be.
    pub rate: u32,
    /// How many seconds a reply may take.
    pub timeout: u32,
    /// Whether progress is written.
    pub reports_progress: bool,
}

/// How many microseconds pass between two looks at all connections.
pub(crate) const LOOK: u64 = 10_000;
/// The same where all are open and messages have begun. The longer a wait may be, the more rarely the system has to set
/// the processor's timer for it.
const LOOK_STEADY: u64 = 100_000;

impl<'r, 's> Load<'r, 's> {
    /// Looks at all connections, where the time for it has come: at those that are late, and those that are to be made.
    pub(crate) fn look<W: Write>(&mut self, now: u64, errors: &mut W) -> Result<(), LoadError> {
        if now < self.next_look {
            return Ok(());
        }
        self.spin.allow();
        if self.is_negotiated() {
            self.last_negotiated = now;
        }
        let places = if self.work.totals.made == 0 {
            self.slots.len().min(1)
        } else {
            self.slots.len()
        };
        for place in 0..places {
            self.look_at(place, now)?;
        }
        self.start(now);
        self.stop(now);
        self.report(now, errors);
        self.note_over(now);
        self.next_look = self.look_after(now);
        Ok(())
    }

    /// When the look after one at this time comes: no later than the time from which no more messages are begun.
    fn look_after(&self, now: u64) -> u64 {
        let is_steady = self.open >= self.slots.len() && self.over.is_none();
        if !is_steady || self.work.schedule.started().is_none() {
            return now.saturating_add(LOOK);
        }
        let steady = now.saturating_add(LOOK_STEADY);
        match self.until() {
            Some(until) => steady.min(until),
            None => steady,
        }
    }

    /// Whether the filter negotiated on a connection that is open.
    fn is_negotiated(&self) -> bool {
        self.slots.iter().any(|slot| slot.is_negotiated())
    }

    /// Gives up a connection that is late, or makes one.
    fn look_at(&mut self, place: usize, now: u64) -> Result<(), LoadError> {
        match self.need_of(place, now) {
            Need::Nothing => Ok(()),
            Need::Close => self.close(place, ErrorKind::TimedOut, now),
            Need::Connect => self.connect(place, now),
        }
    }

    /// What a place needs at a look. The connection of one that is late is lost.
    fn need_of(&mut self, place: usize, now: u64) -> Need {
        let timeout = self.timeout();
        let Some(slot) = self.slots.get_mut(place) else {
            return Need::Nothing;
        };
        let Some(open) = &mut slot.open else {
            return if slot.retry <= now {
                Need::Connect
            } else {
                Need::Nothing
            };
        };
        if !open.is_late(timeout, now) {
            return Need::Nothing;
        }
        open.lose(Cause::Timeout, &mut self.work, now);
        Need::Close
    }

    /// Has the first message be due, once all connections await one, or a second after the first one was made.
    fn start(&mut self, now: u64) {
        let is_ready = self.idle.len() >= self.slots.len()
            || (self.work.totals.made > 0 && now.saturating_sub(self.first) >= FIRST);
        if is_ready && self.work.schedule.started().is_none() {
            self.work.schedule.start(now);
            self.work.totals.start = now;
        }
    }

    /// When no more messages are begun, where there is such a time and the first one was due.
    fn until(&self) -> Option<u64> {
        if self.settings.seconds == 0 {
            return None;
        }
        let start = self.work.schedule.started()?;
        Some(start.saturating_add(u64::from(self.settings.seconds).saturating_mul(SECOND)))
    }

    /// Begins no more messages, where the time for them has passed.
    fn stop(&mut self, now: u64) {
        let Some(until) = self.until() else {
            return;
        };
        if now >= until && self.over.is_none() {
            self.work.totals.waiting = self.work.schedule.waiting(until.saturating_sub(1));
            self.work.schedule.stop();
        }
    }

    /// Writes how far the load is, once a second, where that is asked for.
    fn report<W: Write>(&mut self, now: u64, errors: &mut W) {
        if self.settings.reports_progress && now >= self.next_second {
            self.next_second = self.next_second.saturating_add(SECOND);
            let _ = write_progress(self.alloc, errors, &self.work.totals, now);
        }
    }
}
