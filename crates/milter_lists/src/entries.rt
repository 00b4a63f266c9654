//! The entries of lists, as they are searched.

ghost use Rattle.std.specs.Prelude.{◌≡◌, IsTrue};
ghost use Rattle.milter_lists.specs.Collected.{len_by};
ghost use Rattle.milter_lists.specs.ListValues.{collected_in, kind_in};

use crate::list_kind::ListKind;
use crate::network_set::NetworkSet;
use crate::text_set::TextSet;

/// The entries of a list of each kind: the keys of addresses, domains and texts, and the addresses of networks.
#[derive(Debug, Drop)]
pub(crate) enum Entries {
    /// The canonical forms of addresses.
    Addresses(TextSet),
    /// The canonical forms of domains.
    Domains(TextSet),
    /// The addresses of networks.
    Networks(NetworkSet),
    /// Texts in lower case.
    Texts(TextSet),
}

/// What the entries are.
pub(crate) fn kind_of(entries: &Entries) -> ListKind
    ensures { result ≡ kind_in entries.now }
{
    match entries {
        Entries::Addresses(_) => ListKind::Addresses,
        Entries::Domains(_) => ListKind::Domains,
        Entries::Networks(_) => ListKind::Networks,
        Entries::Texts(_) => ListKind::Texts,
    }
}

/// How many entries there are.
pub(crate) fn len_of(entries: &Entries) -> usize
    ensures { result ≡ len_by (kind_in entries.now) (collected_in entries.now) }
{
    match entries {
        Entries::Addresses(keys) => keys.len(),
        Entries::Domains(keys) => keys.len(),
        Entries::Networks(networks) => networks.v4.len() + networks.v6.len(),
        Entries::Texts(keys) => keys.len(),
    }
}

/// Whether both are of one kind, and the same.
pub(crate) fn are_same(a: &Entries, b: &Entries) -> bool
    ensures { IsTrue result → (kind_in a.now ≡ kind_in b.now) × (collected_in a.now ≡ collected_in b.now) }
{
    match (a, b) {
        (Entries::Addresses(a), Entries::Addresses(b)) => a.has_same_entries(b),
        (Entries::Domains(a), Entries::Domains(b)) => a.has_same_entries(b),
        (Entries::Networks(a), Entries::Networks(b)) => {
            a.v4.has_same_ranges(&b.v4) && a.v6.has_same_ranges(&b.v6)
        }
        (Entries::Texts(a), Entries::Texts(b)) => a.has_same_entries(b),
        _ => false,
    }
}
