//! Where the entries stand among their bytes, and the search among them.

ghost use Rattle.std.specs.Prelude.{◌≡◌, ◌↔◌, ◌≤◌, IsTrue, drop, length};
ghost use Rattle.std.specs.Cmp.Lexicographic.{slice_cmp};
ghost use Rattle.std.specs.List.{All, Contains};
ghost use Rattle.std.specs.List.Sorted.{IsSortedByKey};
ghost use Rattle.std.specs.Ordering.{nat_cmp};
ghost use Rattle.milter_lists.specs.Entries.{entries_of, entry_of};
ghost use Rattle.milter_lists.specs.Keys.{key_of, keyed_cmp};

use crate::key::key_of;
use std::cmp::Ordering;

/// Where the bytes of an entry stand.
#[derive(Clone, Copy, Debug, PartialEq, Eq)]
pub(crate) struct Span {
    /// A number that the spans are sorted by; 0 before.
    pub(crate) key: u64,
    /// The place of the first byte.
    pub(crate) start: u32,
    /// How many bytes there are.
    pub(crate) len: u32,
}

impl Span {
    /// The bytes of the entry.
    pub(crate) fn of(self, bytes: &[u8]) -> &[u8]
        ensures { result.now ≡ entry_of bytes.now self }
    {
        let start = bytes.len().min(self.start as usize);
        let rest = &bytes[start..];
        &rest[..rest.len().min(self.len as usize)]
    }

    /// How the bytes of the entry compare with a text.
    fn compare(self, bytes: &[u8], text: &[u8]) -> Ordering
        ensures { result ≡ slice_cmp nat_cmp (entry_of bytes.now self) text.now }
    {
        self.of(bytes).cmp(&text)
    }

    /// The span with the key of its entry behind so many bytes.
    pub(crate) fn keyed(self, bytes: &[u8], shared: usize) -> Span
        ensures entry { entry_of bytes.now result ≡ entry_of bytes.now self }
        ensures key { result.key ≡ key_of (drop shared (entry_of bytes.now result)) }
    {
        let text = self.of(bytes);
        let rest = &text[text.len().min(shared)..];
        Span {
            key: key_of(rest),
            start: self.start,
            len: self.len,
        }
    }

    /// How the entry compares with another, first by their keys.
    pub(crate) fn compare_keyed(self, other: Span, bytes: &[u8]) -> Ordering
        ensures { result ≡ keyed_cmp bytes.now self other }
    {
        if self.key == other.key {
            return self.of(bytes).cmp(&other.of(bytes));
        }
        self.key.cmp(&other.key)
    }
}

/// Whether the text is one of the entries, which are in order.
pub(crate) fn is_entry(bytes: &[u8], spans: &[Span], text: &[u8]) -> bool
    requires { IsSortedByKey (entry_of bytes.now) (slice_cmp nat_cmp) spans.now }
    ensures { IsTrue result ↔ Contains (entries_of bytes.now spans.now) text.now }
{
    spans
        .binary_search_by(|span| span.compare(bytes, text))
        .is_ok()
}

/// The most bytes that one of the entries has; 0 where there is none.
pub(crate) fn longest_entry(bytes: &[u8], spans: &[Span]) -> usize
    ensures { All (λ span. length (entry_of bytes.now span) ≤ result) spans.now }
{
    let mut longest = 0;
    for span in spans {
        longest = longest.max(span.of(bytes).len());
    }
    longest
}
