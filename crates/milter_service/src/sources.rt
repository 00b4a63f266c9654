//! The listeners of a service.

use crate::service_error::ServiceError;
use milter_sockets::Listener;
use mio::{Poll, Token};
use std::alloc::Global;

/// The tokens of listeners: the highest is that of the first.
pub(crate) const LISTENER_TOKENS: usize = usize::MAX;

/// A listener, and whether a connection may have come on it.
#[derive(Drop)]
pub(crate) struct Source {
    pub(crate) listener: Listener,
    pub(crate) is_ready: bool,
}

/// These listeners, on each of which a connection may have come.
pub(crate) fn sources_of(
    alloc: Global,
    listeners: Vec<Listener>,
) -> Result<Vec<Source>, ServiceError> {
    let mut sources = Vec::new(alloc);
    for listener in listeners {
        let source = Source {
            listener,
            is_ready: true,
        };
        if sources.push(source).is_err() {
            return Err(ServiceError::NoMemory);
        }
    }
    Ok(sources)
}

/// What says when one of these listeners is ready.
pub(crate) fn watching(rt: &HostRuntime, sources: &mut [Source]) -> Result<Poll, ServiceError> {
    let poll = Poll::new(rt)?;
    match watch_all(&poll, sources) {
        Ok(()) => Ok(poll),
        Err(error) => {
            drop(poll);
            Err(error)
        }
    }
}

/// Has the system say when one of these listeners is ready.
fn watch_all(poll: &Poll, sources: &mut [Source]) -> Result<(), ServiceError> {
    let mut token = LISTENER_TOKENS;
    for source in sources {
        source.listener.watch(poll.registry(), Token(token))?;
        token = token.saturating_sub(1);
    }
    Ok(())
}
