//! The two directions of a conversation.

ghost use Rattle.std.specs.Prelude.{◌≡◌, Some, ◌∷◌, []};
ghost use Rattle.milter_trace.specs.PacketText.{mark_of};

use std::fmt;

/// Which end a packet goes to.
#[derive(Clone, Copy, Debug, PartialEq, Eq)]
pub enum Direction {
    /// From the mail server (MTA) to the filter, printed as `>`.
    ToFilter,
    /// From the filter to the mail server, printed as `<`.
    ToMta,
}

impl Direction {
    /// The character of the direction, in a trace and in its text.
    pub fn mark(self) -> u8
        ensures { result ≡ mark_of self }
    {
        match self {
            Direction::ToFilter => b'>',
            Direction::ToMta => b'<',
        }
    }
}

impl fmt::Display for Direction {
    ghost output = { λ direction. Some (mark_of direction ∷ []) };

    fn fmt<W: fmt::Write>(&self, f: &mut fmt::Formatter<W>) -> fmt::Result {
        write!(f, "{}", char::from(self.mark()))
    }
}
