//! Lists that have several owners.

ghost use Rattle.std.specs.Prelude.{◌≡◌, IfOk, IsTrue, List, ℕ};
ghost use Rattle.milter_lists.specs.ListValues.{has_value};

use crate::text_list::TextList;
use milter_fields::NoMemory;
use std::alloc::Global;
use std::marker::Model;
use std::sync::Arc;

/// One of the owners of a list, which is given back with the last of them.
#[derive(Debug, Drop)]
pub struct SharedList {
    list: Arc<TextList>,
}

impl Model for SharedList {
    ghost use Rattle.milter_lists.specs.declared.text_list.TextList.{TextList};

    ghost Value = { TextList };

    ghost view = { λ s. s.list.value };
}

impl SharedList {
    /// The first owner of a list; `NoMemory` where memory is refused.
    pub fn new(alloc: Global, list: TextList) -> Result<Self, NoMemory>
        ensures { IfOk result (λ shared. shared ≡ list) }
    {
        Ok(SharedList {
            list: Arc::new(alloc, list)?,
        })
    }

    /// The list. Doesn't allocate.
    pub fn as_list(&self) -> &TextList
        ensures { result.now ≡ self.now }
    {
        self.list.as_ref()
    }

    /// Another owner of the list, which isn't copied; `NoMemory` where it has too many owners.
    pub fn share(&self) -> Result<Self, NoMemory>
        ensures { IfOk result (λ shared. shared ≡ self.now) }
    {
        Ok(SharedList {
            list: self.list.clone()?,
        })
    }

    /// Whether both are lists of one kind with the same entries, so that they have the same values. It takes time in
    /// their bytes, about as much for 4,096 of them as a lookup. Doesn't allocate.
    pub fn has_same_entries(&self, other: &SharedList) -> bool
        ensures { IsTrue result → (value : List ℕ) → has_value self.now value ≡ has_value other.now value }
    {
        self.list.as_ref().has_same_entries(other.list.as_ref())
    }
}
