//! Sets of texts.

ghost use Rattle.std.specs.Prelude.{◌≡◌, ◌↔◌, ◌≤◌, IsTrue, length};
ghost use Rattle.std.specs.List.{All, Contains};

use crate::span::{Span, is_entry, longest_entry};
use std::marker::Model;

/// A set of texts that stays as it is, made by a [`crate::TextSetBuilder`]: its entries, in some order and maybe more
/// than once.
#[derive(Debug, Drop)]
pub struct TextSet {
    bytes: Vec<u8>,
    // In the order of the entries.
    spans: Vec<Span>,
    // No entry has more bytes.
    longest: usize,
}

impl Model for TextSet {
    ghost use Rattle.std.specs.Prelude.{◌≤◌, List, length, ℕ};
    ghost use Rattle.std.specs.Cmp.Lexicographic.{slice_cmp};
    ghost use Rattle.std.specs.List.{All};
    ghost use Rattle.std.specs.List.Sorted.{IsSortedByKey};
    ghost use Rattle.std.specs.Ordering.{nat_cmp};
    ghost use Rattle.milter_lists.specs.Entries.{entries_of, entry_of};

    ghost Value = { List (List ℕ) };

    ghost view = { λ s. entries_of s.bytes.items s.spans.items };

    ghost invariant = { λ s. IsSortedByKey (entry_of s.bytes.items) (slice_cmp nat_cmp) s.spans.items
        × All (λ span. length (entry_of s.bytes.items span) ≤ s.longest) s.spans.items };
}

impl TextSet {
    ghost use Rattle.std.specs.Cmp.Lexicographic.{slice_cmp};
    ghost use Rattle.std.specs.List.Sorted.{IsSortedByKey};
    ghost use Rattle.std.specs.Ordering.{nat_cmp};
    ghost use Rattle.milter_lists.specs.Entries.{entries_of, entry_of};

    /// The set of the entries at these places, which are in order.
    pub(crate) fn new(bytes: Vec<u8>, spans: Vec<Span>) -> Self
        requires { IsSortedByKey (entry_of bytes.items) (slice_cmp nat_cmp) spans.items }
        ensures { result ≡ entries_of bytes.items spans.items }
    {
        let longest = longest_entry(bytes.as_slice(), spans.as_slice());
        TextSet {
            bytes,
            spans,
            longest,
        }
    }

    /// Whether the text is an entry of the set. It is compared with few entries: about the logarithm of their number.
    /// Doesn't allocate.
    pub fn contains(&self, text: &[u8]) -> bool
        ensures { IsTrue result ↔ Contains self.now text.now }
    {
        is_entry(self.bytes.as_slice(), self.spans.as_slice(), text)
    }

    /// A number of bytes that no entry has more of. Doesn't allocate.
    pub fn longest(&self) -> usize
        ensures { All (λ entry. length entry ≤ result) self.now }
    {
        self.longest
    }

    /// Whether both have the same entries, in the same order. It takes time in their bytes. Doesn't allocate.
    pub fn has_same_entries(&self, other: &TextSet) -> bool
        ensures { IsTrue result → self.now ≡ other.now }
    {
        self.spans.as_slice() == other.spans.as_slice()
            && self.bytes.as_slice() == other.bytes.as_slice()
    }

    /// How many entries it has, equal ones counted each.
    pub fn len(&self) -> usize
        ensures { result ≡ length self.now }
    {
        self.spans.len()
    }

    /// Whether it has no entries.
    pub fn is_empty(&self) -> bool
        ensures { IsTrue result ↔ (length self.now ≡ 0) }
    {
        self.spans.len() == 0
    }
}
