//! What a call answers.

use thiserror::Error;

/// What came of a call.
#[derive(Clone, Copy, Debug, PartialEq, Eq)]
pub enum CallOutcome {
    /// Nothing is sent, and no verdict comes: the mail server goes on.
    LeftOut,
    /// What is pending is to be sent. No verdict comes, and the mail server goes on.
    NoReply,
    /// What is pending is to be sent, and a verdict comes.
    VerdictDue,
}

/// Why a call is refused. Nothing has changed then.
#[derive(Clone, Copy, Debug, PartialEq, Eq, Error)]
pub enum CallFault {
    /// The connection has ended, or the filter was lost.
    #[error("the connection has ended")]
    Closed,
    /// The options have not come, something is still to be sent, or a verdict is due.
    #[error("a packet is to be sent, or a reply is due")]
    Busy,
    /// The command doesn't come here.
    #[error("command out of order")]
    OutOfOrder,
    /// The command or its macros have more bytes than a packet has room for, or a text has a NUL.
    #[error("command doesn't fit a packet")]
    DoesNotFit,
    /// The memory that was asked for was refused.
    #[error("out of memory")]
    NoMemory,
}
