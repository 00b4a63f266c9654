//! The names of connections and of their questions.

ghost use Rattle.std.specs.Prelude.{◌≡◌};

use mio::Token;

/// The name of a connection: its place, which is used again once it has ended, and its number. Two connections of a
/// service have the same name only where a multiple of 4,294,967,296 connections came from the one to the other.
#[derive(Clone, Copy, Debug, PartialEq, Eq)]
pub struct Key {
    /// Its place among the mail servers.
    pub(crate) place: usize,
    /// Its number.
    pub(crate) number: u32,
}

impl Key {
    /// The number of the connection: they are numbered from 1 in the order in which they came, and after 4,294,967,295
    /// from 0.
    pub fn number(self) -> u32
        ensures { result ≡ self.number }
    {
        self.number
    }

    /// The token of its socket.
    pub(crate) fn token(self) -> Token {
        Token(self.place)
    }
}

/// The name of a question: the connection on which it is open, and its number there, from 1. Two questions of a
/// connection have the same name only where a multiple of 18,446,744,073,709,551,616 questions came from the one to the
/// other. So a late answer is taken for the answer to another question only where the names of their connections or of
/// both have come again.
#[derive(Clone, Copy, Debug, PartialEq, Eq)]
pub struct QuestionKey {
    pub(crate) connection: Key,
    pub(crate) count: u64,
}

impl QuestionKey {
    /// The connection on which the question is open.
    pub fn connection(self) -> Key
        ensures { result ≡ self.connection }
    {
        self.connection
    }
}
