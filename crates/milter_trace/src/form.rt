//! How packets are printed.

ghost use Rattle.std.specs.Prelude.{◌≡◌};
ghost use Rattle.milter_trace.specs.PacketText.{plain_form};

/// What the lines of packets have beside what they always have.
#[derive(Clone, Copy, Debug, PartialEq, Eq)]
pub struct TraceForm {
    /// Whether each set of bits of an offer, and of the reply to it, is followed by the names of its bits: those that
    /// have one, joined by `|`, or `none`.
    pub names: bool,
    /// With how many of its first bytes a part of a body is printed at most, in quotes after their number. Without it
    /// their number stands alone.
    pub bodies: Option<u32>,
}

impl TraceForm {
    /// The form without names and bodies. Doesn't allocate.
    pub fn plain() -> TraceForm
        ensures { result ≡ plain_form }
    {
        TraceForm {
            names: false,
            bodies: None,
        }
    }
}
