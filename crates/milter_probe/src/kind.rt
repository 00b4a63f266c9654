//! The kinds of trials.

ghost use Rattle.std.specs.Prelude.{◌≡◌};
ghost use Rattle.milter_probe.specs.Trials.{kind_number};

/// A kind of trials.
#[derive(Clone, Copy, Debug, PartialEq, Eq)]
pub enum Kind {
    /// The connection is closed after a byte that is sent.
    CutSent,
    /// The connection is closed after a byte that comes.
    CutCame,
    /// All is sent one byte at a time.
    ByteByByte,
    /// Two commands are sent before the reply to the first.
    Ahead,
    /// Another offer is made.
    Offer,
    /// A message is given up after a command, and sent again.
    Abort,
    /// A message is sent twice.
    SecondMessage,
    /// The client comes again on the same connection.
    SecondClient,
    /// A packet is sent otherwise, and nothing after it.
    Mutated,
}

impl Kind {
    /// All of them, in the order in which they are tried.
    pub const ALL: [Kind; 9] = [
        Kind::CutSent,
        Kind::CutCame,
        Kind::ByteByByte,
        Kind::Ahead,
        Kind::Offer,
        Kind::Abort,
        Kind::SecondMessage,
        Kind::SecondClient,
        Kind::Mutated,
    ];

    /// The word of the kind. Doesn't allocate.
    pub fn name(self) -> &'static [u8] {
        match self {
            Kind::CutSent => b"cut-sent",
            Kind::CutCame => b"cut-came",
            Kind::ByteByByte => b"byte-by-byte",
            Kind::Ahead => b"ahead",
            Kind::Offer => b"offer",
            Kind::Abort => b"abort",
            Kind::SecondMessage => b"second-message",
            Kind::SecondClient => b"second-client",
            Kind::Mutated => b"mutated",
        }
    }

    /// Its number, from 1 in the order of [`Kind::ALL`]. Doesn't allocate.
    pub(crate) fn number(self) -> u8
        ensures { result ≡ kind_number self }
    {
        match self {
            Kind::CutSent => 1,
            Kind::CutCame => 2,
            Kind::ByteByByte => 3,
            Kind::Ahead => 4,
            Kind::Offer => 5,
            Kind::Abort => 6,
            Kind::SecondMessage => 7,
            Kind::SecondClient => 8,
            Kind::Mutated => 9,
        }
    }

    /// The kind with this word, matched exactly; none where no kind has it. Doesn't allocate.
    pub fn from_name(name: &[u8]) -> Option<Kind> {
        Kind::ALL.iter().copied().find(|kind| name == kind.name())
    }
}
