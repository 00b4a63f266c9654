//! The kinds of lists.

ghost use Rattle.std.specs.Prelude.{◌≡◌};
ghost use Rattle.milter_lists.specs.ListKinds.{kind_name};

/// What the entries of a list are.
#[derive(Clone, Copy, Debug, PartialEq, Eq)]
pub enum ListKind {
    /// Addresses, each with its domain, or `<>` for the null sender.
    Addresses,
    /// Domains: `example.org` is itself alone, and `.example.org` is what is below it alone.
    Domains,
    /// IP addresses and networks of them.
    Networks,
    /// Texts, in which the case of ASCII letters doesn't count.
    Texts,
}

impl ListKind {
    /// The word of the kind in rule files. Doesn't allocate.
    pub fn name(self) -> &'static [u8]
        ensures { result.now ≡ kind_name self }
    {
        match self {
            ListKind::Addresses => b"addresses",
            ListKind::Domains => b"domains",
            ListKind::Networks => b"networks",
            ListKind::Texts => b"texts",
        }
    }
}
