//! Lists as packets and ends carry them: each is made of its `Vec`, and borrowed as a slice.

ghost use Rattle.std.specs.Prelude.{◌≡◌, ◌++◌, ◌∷◌, [], OnErr, OnOk};
ghost use Rattle.std.specs.Cmp.Lexicographic.{pointwise, lists_equiv, lists_per};

use crate::fault::NoMemory;
use crate::pair::Pair;
use crate::text::Text;
use std::marker::Model;

/// A list of values, which contracts see as that list.
#[derive(Clone, Debug, Drop)]
pub struct List<T> {
    items: Vec<T>,
}

/// The ESMTP parameters that follow an address, such as `SIZE=1000`, from none to as many as a packet has room for.
/// Source: the libmilter callback documentation (xxfi_envfrom, xxfi_envrcpt).
pub type Params = List<Text>;

/// The macros of a macro packet, from none to as many as a packet has room for; a name may come more than once. Source:
/// mfdef.h (SMFIC_MACRO).
pub type Pairs = List<Pair>;

impl<T> Model for List<T> {
    ghost use Rattle.std.specs.Prelude.{List};

    ghost Value = { List T };

    ghost view = { λ l. l.items.items };
}

impl<T> List<T> {
    /// The list of these values. Neither copies nor allocates.
    pub fn new(items: Vec<T>) -> Self
        ensures { result ≡ items.items }
    {
        List { items }
    }

    /// The values, in order. Doesn't allocate.
    pub fn as_slice(&self) -> &[T]
        ensures { result.now ≡ self.now }
    {
        self.items.as_slice()
    }

    /// The values, in order, each to be taken. Doesn't allocate.
    pub fn into_vec(self) -> Vec<T>
        ensures { result.items ≡ self }
    {
        self.items
    }
}

impl<T: Drop> List<T> {
    /// Adds a value as the last. After `NoMemory` the list is as it was.
    pub fn push(&mut self, item: T) -> Result<(), NoMemory>
        ensures ok { OnOk result (self.new ≡ self.old ++ item ∷ []) }
        ensures err { OnErr result (self.new ≡ self.old) }
    {
        self.items.push(item)?;
        Ok(())
    }

    /// No value: those that were there are dropped. Doesn't allocate.
    pub fn cleared(self) -> Self
        ensures { result ≡ [] }
    {
        let List { mut items } = self;
        items.clear();
        List { items }
    }
}

impl<T> From<Vec<T>> for List<T> {
    ghost from_gives = { λ items list. list ≡ items.items };

    fn from(items: Vec<T>) -> List<T> {
        List { items }
    }
}

impl<T: PartialEq> PartialEq for List<T> {
    ghost eq = { pointwise T.eq };

    ghost laws = { lists_per T.laws };

    fn eq(&self, other: &List<T>) -> bool {
        self.as_slice() == other.as_slice()
    }
}

impl<T: Eq> Eq for List<T> {
    ghost laws = { lists_equiv T.Eq.laws };
}
