//! How a turn of a connection ended.

use milter_protocol::FilterFault;
use milter_wire::Stage;

/// How serving a connection ended.
#[derive(Clone, Copy, Debug, PartialEq, Eq)]
pub enum Served {
    /// The mail server has quit.
    Quit,
    /// The input is at its end, and its last so many bytes belong to a packet that isn't whole.
    Ended(usize),
    /// The connection was given up for this fault.
    Failed(FilterFault),
    /// A read failed.
    ReadFault,
    /// A write failed, or took nothing.
    WriteFault,
    /// The input was read 1,073,741,824 times, and neither ended nor had the mail server quit.
    TurnLimit,
}

/// How a turn of a connection ended.
#[derive(Clone, Copy, Debug, PartialEq, Eq)]
pub enum Turn {
    /// All replies are written, and there may be more to read.
    Again,
    /// All replies are written, and there is nothing to read now.
    AwaitsInput,
    /// Replies are pending, since nothing more is written now.
    AwaitsOutput,
    /// The question about this stage is open, and all replies before it are written. Nothing is read before the answer.
    AwaitsAnswer(Stage),
    /// The connection is at its end.
    Ended(Served),
}
