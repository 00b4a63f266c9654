//! Who has a service run.

use crate::asked_connection::AskedConnection;
use crate::key::{Key, QuestionKey};
use crate::mail_servers::MailServers;
use crate::service_error::ServiceError;
use crate::shortage::Shortage;
use milter_filter::{Served, Wants};
use milter_wire::{NoMemory, Stage, Verdict};
use mio::{Registry, Token};
use std::ops::Range;
use std::time::Instant;

/// Who has a service run: it answers the questions of connections, each at once or later, and has sockets and times of
/// its own if it needs some. A service calls it from one thread and waits for nothing else meanwhile: no method of a
/// host may wait.
pub trait Host {
    /// What the host keeps of a connection.
    type Session: Drop;

    /// The service begins. Sockets of the host may be registered now, and later by a clone of the registry, under
    /// tokens of this range; the others are those of the service.
    fn start(&mut self, _registry: &Registry, _tokens: Range<usize>) -> Result<(), ServiceError> {
        Ok(())
    }

    /// A mail server has connected: what the filter wants of it, and what the host keeps of it. After `NoMemory` the
    /// connection is closed, and [`Host::refused`] is called.
    fn connect(&mut self, key: Key) -> Result<(Wants, Self::Session), NoMemory>;

    /// A question is open on a connection. It is answered now, by [`AskedConnection::answer`] or
    /// [`AskedConnection::answer_by`], or later, by [`MailServers::give`] with its key; it isn't asked again. After
    /// `NoMemory` the connection is closed.
    fn asked(
        &mut self,
        question: QuestionKey,
        session: &mut Self::Session,
        connection: &mut AskedConnection,
    ) -> Result<(), NoMemory>;

    /// The verdict where a question about this stage isn't answered in time. One that this stage can't have, and one
    /// that can't be sent, is `Tempfail` instead.
    fn default_verdict(&self, _stage: Stage) -> Verdict {
        Verdict::Tempfail
    }

    /// A socket that the host registered under this token may be ready.
    fn ready(
        &mut self,
        _token: Token,
        _mail_servers: &mut MailServers<Self::Session>,
    ) -> Result<(), ServiceError> {
        Ok(())
    }

    /// When [`Host::due`] is to be called; `None` where it isn't. It is asked before each wait.
    fn deadline(&self) -> Option<Instant> {
        None
    }

    /// The time that the host asked for has come. It is called again until [`Host::deadline`] names a later one.
    fn due(
        &mut self,
        _now: Instant,
        _mail_servers: &mut MailServers<Self::Session>,
    ) -> Result<(), ServiceError> {
        Ok(())
    }

    /// A connection has ended, also where the mail server hung up while a question was open: no answer that is given
    /// then is taken.
    fn ended(
        &mut self,
        key: Key,
        session: Self::Session,
        served: Served,
    ) -> Result<(), ServiceError>;

    /// A connection was closed as it came, since memory was refused for it before the host kept anything of it.
    fn refused(&mut self, _key: Key) -> Result<(), ServiceError> {
        Ok(())
    }

    /// The system lacks this for a connection that comes, so that it waits. It is called once for all of them, until
    /// none waits any more.
    fn full(&mut self, _shortage: Shortage) {}
}
