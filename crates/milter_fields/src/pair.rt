//! Macros, and their encoding: the names and the values, a string each.

ghost use Rattle.std.specs.Prelude.{◌≡◌, ◌-◌, ◌^◌, ◌++◌, ◌↔◌, All, IfOk, IsTrue, OnOk, length, min};
ghost use Rattle.std.specs.List.{flat_map};
ghost use Rattle.milter_fields.specs.AppendedBytes.{PutsBytes};
ghost use Rattle.milter_fields.specs.Layout.{pair, PairFits};
ghost use Rattle.milter_fields.specs.Borrowed.{pair_of};

use crate::fault::NoMemory;
use crate::strings::{has_no_nul, put_string, string_len};
use crate::text::Text;
use std::alloc::Global;

/// A macro of the mail server: its name and its value. Source: the libmilter documentation (smfi_getsymval).
#[derive(Clone, Debug, PartialEq, Eq, Drop)]
pub struct Pair {
    /// The name, in braces where it has more than one letter.
    pub name: Text,
    /// The value.
    pub value: Text,
}

/// A macro that is borrowed, from a packet or from a [`Pair`].
#[derive(Clone, Copy, Debug, PartialEq, Eq)]
pub struct PairRef<'a> {
    /// The name, in braces where it has more than one letter.
    pub name: &'a [u8],
    /// The value.
    pub value: &'a [u8],
}

impl Pair {
    /// The same macro, borrowed. Doesn't allocate.
    pub fn as_ref(&self) -> PairRef<'_>
        ensures { pair_of result ≡ self.now }
    {
        PairRef {
            name: self.name.as_slice(),
            value: self.value.as_slice(),
        }
    }
}

impl<'a> PairRef<'a> {
    /// A copy of the macro.
    pub fn to_pair(&self, alloc: Global) -> Result<Pair, NoMemory>
        ensures { IfOk result (λ copy. copy ≡ pair_of self.now) }
    {
        let name = Text::copy_of(alloc, self.name)?;
        let value = Text::copy_of(alloc, self.value)?;
        Ok(Pair { name, value })
    }

    /// Whether neither string has a NUL.
    pub fn fits(&self) -> bool
        ensures { IsTrue result ↔ PairFits (pair_of self.now) }
    {
        has_no_nul(self.name) && has_no_nul(self.value)
    }

    /// The number of bytes of the two strings, or the greatest `usize`.
    fn len(&self) -> usize
        ensures { result ≡ min (length (pair (pair_of self.now))) (2 ^ 64 - 1) }
    {
        string_len(self.name).saturating_add(string_len(self.value))
    }

    /// Appends the two strings.
    fn put(&self, out: &mut Vec<u8>) -> Result<(), NoMemory>
        ensures { PutsBytes (pair (pair_of self.now)) out.old.items out.new.items result }
    {
        put_string(out, self.name)?;
        put_string(out, self.value)
    }
}

/// Whether no string of them has a NUL.
pub fn pairs_fit(pairs: &[Pair]) -> bool
    ensures { IsTrue result ↔ All PairFits pairs.now }
{
    pairs.iter().all(|value| value.as_ref().fits())
}

/// The number of bytes of the two strings in a packet, or the greatest `usize` where there are more. Doesn't allocate.
pub fn pair_len(value: &Pair) -> usize
    ensures { result ≡ min (length (pair value.now)) (2 ^ 64 - 1) }
{
    value.as_ref().len()
}

/// The number of bytes of their strings, or the greatest `usize`.
pub fn pairs_len(pairs: &[Pair]) -> usize
    ensures { result ≡ min (length (flat_map pair pairs.now)) (2 ^ 64 - 1) }
{
    let mut total: usize = 0;
    for value in pairs {
        total = total.saturating_add(pair_len(value));
    }
    total
}

/// Appends the strings of each.
pub(crate) fn put_pairs(out: &mut Vec<u8>, pairs: &[Pair]) -> Result<(), NoMemory>
    ensures { PutsBytes (flat_map pair pairs.now) out.old.items out.new.items result }
{
    for value in pairs {
        value.as_ref().put(out)?;
    }
    Ok(())
}
