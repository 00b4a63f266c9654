//! Why an answer isn't taken.

use milter_wire::RefusedMemory;
use thiserror::Error;

/// Why an answer, or word that the filter is still at work, isn't taken.
#[derive(Clone, Copy, Debug, PartialEq, Eq, Error)]
pub enum AnswerFault {
    /// No question is open.
    #[error("no question is open")]
    NotAsked,
    /// There are edits elsewhere than at the end of a message.
    #[error("edits before the end of the message")]
    EditsBeforeEnd,
    /// The verdict is none of this stage.
    #[error("no verdict of this stage")]
    NotGivenThere,
    /// A text has a NUL, or the text of a code doesn't begin with `4` or `5` and two digits.
    #[error("a text that can't be sent")]
    BadText,
    /// A reply has more bytes than a packet.
    #[error("too long for a packet")]
    TooLong,
    /// The packets of the edits have more than 16,777,216 bytes.
    #[error("too much for one message")]
    TooMuch,
    /// The question that is open isn't about the end of a message.
    #[error("not at the end of the message")]
    NotAtEnd,
    /// The memory that was asked for was refused.
    #[error("out of memory")]
    NoMemory,
}

impl<E: RefusedMemory> From<E> for AnswerFault {
    ghost use Rattle.std.specs.Prelude.{◌≡◌};
    ghost use Rattle.milter_filter_stream.specs.declared.answer_fault.AnswerFault.TheVariants as faults;

    ghost from_gives = { λ _ fault. fault ≡ faults.NoMemory };

    fn from(_error: E) -> AnswerFault {
        AnswerFault::NoMemory
    }
}
