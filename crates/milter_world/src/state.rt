//! How far a session has come over connections that fail.

/// How far a connection has come, by bytes counted from its start.
#[derive(Clone, Copy, Debug, PartialEq, Eq)]
pub struct Counts {
    /// Bytes that the mail server's end sent.
    pub sent: u128,
    /// Of these, bytes that the filter's end took.
    pub taken: u128,
    /// Bytes that the filter's end answered.
    pub answered: u128,
    /// Of these, bytes that the mail server's end received.
    pub received: u128,
    /// Whether the filter lives.
    pub lives: bool,
}

/// How far a session has come.
#[derive(Clone, Copy, Debug, PartialEq, Eq)]
pub enum State {
    /// There is no connection, and so many messages are settled.
    Idle(usize),
    /// There is a connection; so many messages were settled when it began.
    Linked(usize, Counts),
    /// Every message is settled, or the end of the last connection was sent.
    Done,
}
