//! Texts as the protocol carries them: bytes in no particular encoding.

ghost use Rattle.std.specs.Prelude.{◌≡◌, ◌↔◌, [], IfOk, IsTrue, List, OnErr, OnOk, ℕ, nat_eq};
ghost use Rattle.milter_fields.specs.Field.{HasNoNul};
ghost use Rattle.std.specs.Cmp.{partial_equiv_from_equiv};
ghost use Rattle.std.specs.Cmp.Lexicographic.{pointwise, nat_list_eq_equiv};

use crate::fault::NoMemory;
use crate::strings::has_no_nul;
use std::alloc::Global;
use std::convert::AsSlice;
use std::marker::Model;

/// The bytes of a name, an address or a value, from none to the most that a packet has room for. Nothing is read into
/// them: they may be in any encoding, or in none.
#[derive(Clone, Debug, Drop)]
pub struct Text {
    bytes: Vec<u8>,
}

impl Model for Text {
    ghost Value = { List ℕ };

    ghost view = { λ t. t.bytes.items };
}

impl Text {
    /// The text of these bytes. Neither copies nor allocates.
    pub fn new(bytes: Vec<u8>) -> Self
        ensures { result ≡ bytes.items }
    {
        Text { bytes }
    }

    /// The text of a copy of these bytes.
    pub fn copy_of(alloc: Global, bytes: &[u8]) -> Result<Self, NoMemory>
        ensures { IfOk result (λ text. text ≡ bytes.now) }
    {
        Ok(Text {
            bytes: Vec::from_slice(alloc, bytes)?,
        })
    }

    /// Replaces the bytes of the text by a copy of these, in the room that it has where that is enough. After
    /// `NoMemory` it has no bytes.
    pub fn set(&mut self, bytes: &[u8]) -> Result<(), NoMemory>
        ensures ok { OnOk result (self.new ≡ bytes.now) }
        ensures err { OnErr result (self.new ≡ []) }
    {
        self.bytes.clear();
        self.bytes.extend_from_slice(bytes)?;
        Ok(())
    }

    /// The bytes of the text. Doesn't allocate.
    pub fn as_slice(&self) -> &[u8]
        ensures { result.now ≡ self.now }
    {
        self.bytes.as_slice()
    }

    /// Whether a string can carry the text: no byte of it is a NUL. Doesn't allocate.
    pub fn has_no_nul(&self) -> bool
        ensures { IsTrue result ↔ HasNoNul self.now }
    {
        has_no_nul(self.as_slice())
    }
}

impl From<Vec<u8>> for Text {
    ghost from_gives = { λ bytes text. text ≡ bytes.items };

    fn from(bytes: Vec<u8>) -> Text {
        Text { bytes }
    }
}

impl PartialEq for Text {
    ghost eq = { λ x y. pointwise nat_eq x y };

    ghost laws = { partial_equiv_from_equiv nat_list_eq_equiv };

    fn eq(&self, other: &Text) -> bool {
        self.as_slice() == other.as_slice()
    }
}

impl Eq for Text {
    ghost laws = { nat_list_eq_equiv };
}

impl AsSlice<u8> for Text {
    ghost items = { λ t. t };

    fn as_slice(&self) -> &[u8] {
        &self.bytes
    }
}
