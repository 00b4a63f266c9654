//! Lists of addresses, domains, networks or texts: read from the bytes of a file, an entry a line, and searched; and
//! the lines `list NAME KIND FILE` of a rule file, by which its conditions refer to them.
//!
//! Addresses, domains and texts have a key, in which equal entries are the same: the canonical form of an address or a
//! domain, or a text in lower case. A list is a [`TextSet`] of the keys, or a [`RangeSet`] of the numbers of the
//! addresses of networks: a lookup takes about as long in a list of a million entries as in a short one.
#![tactic(auto)]

mod domain_keys;
mod entries;
mod entry;
mod entry_fault;
mod file_entries;
mod key;
mod key_set;
mod list_builder;
mod list_fault;
mod list_kind;
mod list_reader;
mod network_range;
mod network_set;
mod number_range;
mod range_set;
mod range_set_builder;
mod shared_list;
mod sort;
mod source_fault;
mod source_words;
mod sources;
mod span;
mod text_list;
mod text_set;
mod text_set_builder;
mod trimmed;

pub use entry_fault::EntryFault;
pub use list_fault::ListFault;
pub use list_kind::ListKind;
pub use number_range::NumberRange;
pub use range_set::RangeSet;
pub use range_set_builder::RangeSetBuilder;
pub use shared_list::SharedList;
pub use source_fault::SourceFault;
pub use source_words::is_list_name;
pub use sources::{LISTS_MAX, ListSource, ListSources, list_lines, source_named, sources_in};
pub use text_list::TextList;
pub use text_set::TextSet;
pub use text_set_builder::{BYTES_MAX, ENTRIES_MAX, TextSetBuilder};
