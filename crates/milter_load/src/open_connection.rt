//! A connection of a load that is open.

use crate::conversation::{Advance, Conversation, Moment};
use crate::outcome::Cause;
use crate::schedule::Schedule;
use crate::totals::Totals;
use milter_mail::Session;
use milter_mta_connection::Want;
use milter_sockets::Stream;
use std::io::ErrorKind;

/// The most turns of a connection at once.
const TURNS_MAX: u32 = 1_000_000;

/// What all connections share: what is played, when it is due, and what came of it.
#[derive(Drop)]
pub(crate) struct Work<'s> {
    pub(crate) session: &'s Session,
    pub(crate) schedule: Schedule,
    pub(crate) totals: Totals,
}

/// What a connection needs next.
#[derive(Clone, Copy)]
pub(crate) enum Next {
    /// Nothing, until there is something to read.
    Wait,
    /// Nothing, until more can be written.
    WaitToWrite,
    /// A message.
    Message,
    /// It is to be closed: it was quit.
    Quit,
    /// It is to be closed: it was lost.
    Lost,
}

/// A connection that is open.
#[derive(Drop)]
pub(crate) struct OpenConnection {
    pub(crate) stream: Stream,
    pub(crate) conversation: Conversation,
    /// Whether it was made.
    pub(crate) is_made: bool,
    /// Whether there may be something to read.
    pub(crate) is_readable: bool,
    /// Whether the filter sends no more, or has hung up.
    pub(crate) is_closed: bool,
    /// Whether the system says when more can be written.
    pub(crate) awaits_output: bool,
    /// When something was last read or written.
    pub(crate) since: u64,
}

impl OpenConnection {
    /// A connection that is being made, at this time.
    pub(crate) fn new(stream: Stream, conversation: Conversation, now: u64) -> Self {
        OpenConnection {
            stream,
            conversation,
            is_made: false,
            is_readable: false,
            is_closed: false,
            awaits_output: true,
            since: now,
        }
    }

    /// Goes on as far as can be without waiting.
    pub(crate) fn run_turns(&mut self, work: &mut Work<'_>, buffer: &mut [u8], now: u64) -> Next {
        for _ in 0..TURNS_MAX {
            if let Some(next) = self.turn(work, buffer, now) {
                return next;
            }
        }
        self.lose(Cause::Reset, work, now)
    }

    /// Does what is to be done next; what it needs then, where it can't go on at once.
    fn turn(&mut self, work: &mut Work<'_>, buffer: &mut [u8], now: u64) -> Option<Next> {
        match self.conversation.want() {
            Want::Send => self.send(work, now),
            Want::Receive => self.receive(work, buffer, now),
            Want::Command => self.advance(work, buffer, now),
            Want::Nothing => Some(Next::Quit),
        }
    }

    /// Goes on with the next command.
    fn advance(&mut self, work: &mut Work<'_>, buffer: &mut [u8], now: u64) -> Option<Next> {
        if self.is_readable {
            return self.receive(work, buffer, now);
        }
        let moment = Moment {
            session: work.session,
            now,
        };
        match self
            .conversation
            .advance(moment, &mut work.schedule, &mut work.totals)
        {
            Advance::Called | Advance::Quit => None,
            Advance::Idle => Some(Next::Message),
            Advance::Lost => Some(Next::Lost),
        }
    }

    /// Writes some of what is pending.
    fn send(&mut self, work: &mut Work<'_>, now: u64) -> Option<Next> {
        match self.stream.write(self.conversation.pending()) {
            Ok(0) => Some(self.lose(Cause::Reset, work, now)),
            Ok(count) => {
                self.since = now;
                self.conversation.sent(count, &mut work.totals);
                None
            }
            Err(error) => match error.kind() {
                ErrorKind::WouldBlock => Some(Next::WaitToWrite),
                ErrorKind::Interrupted => None,
                _ => Some(self.lose(Cause::Reset, work, now)),
            },
        }
    }

    /// Reads some of what has come, where there may be something.
    fn receive(&mut self, work: &mut Work<'_>, buffer: &mut [u8], now: u64) -> Option<Next> {
        if !self.is_readable {
            return Some(Next::Wait);
        }
        match self.stream.read(buffer) {
            Ok(0) => Some(self.lose(Cause::Reset, work, now)),
            Ok(count) => {
                let (piece, rest) = buffer.split_at(count.min(buffer.len()));
                self.is_readable = rest.is_empty() || self.is_closed;
                self.feed(piece, work, now)
            }
            Err(error) => match error.kind() {
                ErrorKind::WouldBlock => {
                    self.is_readable = false;
                    None
                }
                ErrorKind::Interrupted => None,
                _ => Some(self.lose(Cause::Reset, work, now)),
            },
        }
    }

    /// Takes a piece of what the filter sent.
    fn feed(&mut self, piece: &[u8], work: &mut Work<'_>, now: u64) -> Option<Next> {
        self.since = now;
        match self.conversation.feed(piece, now, &mut work.totals) {
            Ok(()) => None,
            Err(_) => Some(Next::Lost),
        }
    }

    /// The filter is lost.
    pub(crate) fn lose(&mut self, cause: Cause, work: &mut Work<'_>, now: u64) -> Next {
        self.conversation.lost(cause, now, &mut work.totals);
        Next::Lost
    }

    /// Whether something is awaited of the filter for longer than this, at this time.
    pub(crate) fn is_late(&self, timeout: u64, now: u64) -> bool {
        now.saturating_sub(self.since) > timeout
            && (!self.is_made || self.conversation.want() != Want::Command)
    }

    /// Ends it: what is under way is settled by default, and where nothing is it is quit.
    pub(crate) fn end(&mut self, work: &mut Work<'_>, now: u64) {
        if !self.is_made || self.conversation.want() != Want::Command {
            self.conversation
                .lost(Cause::Timeout, now, &mut work.totals);
            return;
        }
        let _ = self.conversation.quit(now, &mut work.totals);
        let _ = self.send(work, now);
    }
}
