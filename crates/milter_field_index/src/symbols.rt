//! Which symbols a sequence has.

ghost use Rattle.std.specs.Prelude.{◌≡◌};
ghost use Rattle.milter_field_index.specs.Symbols.{are_all, with_symbol};

/// Which symbols were ever inserted into a sequence.
#[derive(Clone, Copy, Debug, Drop)]
pub(crate) enum Symbols {
    /// None.
    Absent,
    /// This one alone.
    One(u32),
    /// Several.
    Several,
}

impl Symbols {
    /// Whether no other symbol than this one was inserted.
    pub(crate) fn are_all(self, symbol: u32) -> bool
        ensures { result ≡ are_all symbol self }
    {
        match self {
            Symbols::Absent => true,
            Symbols::One(only) => only == symbol,
            Symbols::Several => false,
        }
    }

    /// The symbols after one more was inserted.
    pub(crate) fn with(self, symbol: u32) -> Symbols
        ensures { result ≡ with_symbol symbol self }
    {
        match self {
            Symbols::Absent => Symbols::One(symbol),
            Symbols::One(only) if only == symbol => Symbols::One(only),
            _ => Symbols::Several,
        }
    }
}
