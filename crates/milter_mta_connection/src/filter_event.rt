//! What comes of the bytes that a filter sends.

ghost use Rattle.std.specs.Prelude.{◌≡◌};
ghost use Rattle.milter_mta_connection.specs.Received.{latest};

use milter_mta_outcome::Loss;
use milter_wire::Verdict;

/// What came of a piece of what a filter sent. Source: mfdef.h (the codes SMFIR_).
#[derive(Clone, Debug, PartialEq, Eq, Drop)]
pub enum FilterEvent {
    /// No whole reply: what was expected still is.
    Nothing,
    /// An edit, or progress: the filter is at work on the end of the message, and its verdict is still expected. A
    /// limit of time for the verdict begins again.
    InProgress,
    /// The options: commands may be sent from now on.
    Negotiated,
    /// The verdict that was expected.
    Verdict(Verdict),
}

/// What came of a piece, and then the loss where the filter was lost.
#[derive(Debug, Drop)]
pub struct Fed {
    /// The last event; it came before the loss.
    pub event: FilterEvent,
    /// Why the filter was lost, if it was.
    pub loss: Option<Loss>,
}

/// The later of two events.
pub(crate) fn latest(before: FilterEvent, next: Option<FilterEvent>) -> FilterEvent
    ensures { result ≡ latest before next }
{
    match next {
        Some(event) => event,
        None => before,
    }
}
