//! The place of a connection of a load.

use crate::open_connection::OpenConnection;

/// What a place needs at a look at all of them.
#[derive(Clone, Copy)]
pub(crate) enum Need {
    /// Nothing.
    Nothing,
    /// Its connection is to be closed: it was late.
    Close,
    /// A connection is to be made.
    Connect,
}

/// The place of a connection: there is one after another in it.
#[derive(Drop)]
pub(crate) struct Slot {
    /// The connection that is open.
    pub(crate) open: Option<OpenConnection>,
    /// When the next one is made, where none is open.
    pub(crate) retry: u64,
    /// Whether the connection awaits a message.
    pub(crate) is_idle: bool,
}

impl Slot {
    /// A place without a connection, which is to be made at once.
    pub(crate) fn new() -> Self {
        Slot {
            open: None,
            retry: 0,
            is_idle: false,
        }
    }

    /// Whether the filter negotiated on its connection.
    pub(crate) fn is_negotiated(&self) -> bool {
        match &self.open {
            Some(open) => open.conversation.is_negotiated(),
            None => false,
        }
    }
}
