//! Lists.

ghost use Rattle.std.specs.Prelude.{◌≡◌, ◌↔◌, IfErr, IfOk, IsTrue, List, OnOk, false, length, true, ℕ};
ghost use Rattle.std.specs.List.{list_any};
ghost use Rattle.milter_lists.specs.declared.list_fault.ListFault.TheVariants as faults;
ghost use Rattle.milter_lists.specs.ListFaults.{IsFaultOf, IsSmallFile, has_good_entries};
ghost use Rattle.milter_lists.specs.ListValues.{has_value, kind_of, len_of};
ghost use Rattle.milter_lists.specs.Listed.{entries_in, entry_has};

use crate::domain_keys::has_domain;
use crate::entries::{Entries, are_same, kind_of, len_of};
use crate::key_set::{has_text, is_key};
use crate::list_builder::ListBuilder;
use crate::list_fault::ListFault;
use crate::list_kind::ListKind;
use crate::list_reader::read_entries;
use crate::network_set::has_address_text;
use milter_address::canonical_domain;
use milter_fields::NoMemory;
use std::alloc::Global;

/// A list that stays as it is.
#[derive(Debug, Drop)]
pub struct TextList {
    entries: Entries,
}

impl TextList {
    /// A list of this kind without an entry. Doesn't allocate.
    pub fn empty(alloc: Global, kind: ListKind) -> Self
        ensures kind { kind_of result ≡ kind }
        ensures len { len_of result ≡ 0 }
        ensures has { (value : List ℕ) → has_value result value ≡ false }
    {
        TextList {
            entries: ListBuilder::new(alloc).build(kind),
        }
    }

    /// The list of the entries of a file: those of its lines that are neither blank nor begin with a `#`, without the
    /// blanks around them. It takes time in their number times its logarithm, and memory for a copy of each entry; of a
    /// network 32 bytes.
    pub fn read(alloc: Global, kind: ListKind, bytes: &[u8]) -> Result<Self, ListFault>
        ensures kind { IfOk result (λ list. kind_of list ≡ kind) }
        ensures len { IfOk result (λ list. len_of list ≡ length (entries_in bytes.now)) }
        ensures has { IfOk result (λ list. (value : List ℕ) →
            has_value list value ≡ list_any (entry_has kind value) (entries_in bytes.now)) }
        ensures good { OnOk result (has_good_entries kind bytes.now ≡ true) }
        ensures small { OnOk result (IsSmallFile kind bytes.now) }
        ensures only { has_good_entries kind bytes.now ≡ true → IsSmallFile kind bytes.now →
            IfErr result (λ e. e ≡ faults.NoMemory) }
        ensures fault { IfErr result (IsFaultOf kind bytes.now) }
    {
        let builder = read_entries(alloc, kind, bytes)?;
        Ok(TextList {
            entries: builder.build(kind),
        })
    }

    /// What its entries are. Doesn't allocate.
    pub fn kind(&self) -> ListKind
        ensures { result ≡ kind_of self.now }
    {
        kind_of(&self.entries)
    }

    /// How many entries it has, equal ones counted each. Doesn't allocate.
    pub fn len(&self) -> usize
        ensures { result ≡ len_of self.now }
    {
        len_of(&self.entries)
    }

    /// Whether it has no entries. Doesn't allocate.
    pub fn is_empty(&self) -> bool
        ensures { IsTrue result ↔ (len_of self.now ≡ 0) }
    {
        len_of(&self.entries) == 0
    }

    /// Whether both are lists of one kind with the same entries, in the order in which they are kept, so that they have
    /// the same values. It takes time in their bytes. Doesn't allocate.
    pub fn has_same_entries(&self, other: &TextList) -> bool
        ensures { IsTrue result → (value : List ℕ) → has_value self.now value ≡ has_value other.now value }
    {
        are_same(&self.entries, &other.entries)
    }

    /// Whether some entry has the value: a canonical address, a domain, the text of an IP address, or a text. It is
    /// compared with few entries, about the logarithm of their number; a domain for each of its labels. Allocates the
    /// canonical form of a domain, and that of a text which isn't longer than all entries; `NoMemory` where memory is
    /// refused.
    pub fn has(&self, alloc: Global, value: &[u8]) -> Result<bool, NoMemory>
        ensures { IfOk result (λ has. has ≡ has_value self.now value.now) }
    {
        match &self.entries {
            Entries::Addresses(keys) => Ok(is_key(keys, value)),
            Entries::Domains(keys) => {
                let domain = canonical_domain(alloc, value)?;
                Ok(has_domain(keys, domain.as_slice()))
            }
            Entries::Networks(networks) => Ok(has_address_text(networks, value)),
            Entries::Texts(keys) => has_text(alloc, keys, value),
        }
    }
}
