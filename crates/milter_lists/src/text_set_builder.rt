//! How a set of texts is built.

ghost use Rattle.std.specs.Prelude.{◌≡◌, ◌↔◌, ◌+◌, ◌<◌, ◌∷◌, ◌++◌, [], Err, List, OnErr, OnOk, length, ℕ};
ghost use Rattle.std.specs.List.{Contains};
ghost use Rattle.std.specs.List.Sorted.{IsPermutation};
ghost use Rattle.milter_lists.specs.Entries.{bytes_of};
ghost use Rattle.milter_lists.specs.declared.entry_fault.EntryFault.TheVariants as faults;

use crate::entry_fault::EntryFault;
use crate::sort::sort_spans;
use crate::span::Span;
use crate::text_set::TextSet;
use std::alloc::Global;
use std::marker::Model;

/// The most entries that a set may have.
pub const ENTRIES_MAX: usize = 1_000_000;

/// The most bytes that the entries of a set may have: 200 MiB.
pub const BYTES_MAX: usize = 209_715_200;

/// The entries of a set that is being built, in the order in which they came.
#[derive(Debug, Drop)]
pub struct TextSetBuilder {
    // The bytes of the entries, one after the other.
    bytes: Vec<u8>,
    spans: Vec<Span>,
}

impl Model for TextSetBuilder {
    ghost use Rattle.std.specs.Prelude.{List, ℕ};
    ghost use Rattle.milter_lists.specs.Entries.{HasEntries, entries_of};

    ghost Value = { List (List ℕ) };

    ghost view = { λ b. entries_of b.bytes.items b.spans.items };

    ghost invariant = { λ b. HasEntries b.bytes.items b.spans.items };
}

impl TextSetBuilder {
    /// No entries. Doesn't allocate.
    pub fn new(alloc: Global) -> Self
        ensures { result ≡ [] }
    {
        TextSetBuilder {
            bytes: Vec::new(alloc),
            spans: Vec::new(alloc),
        }
    }

    /// Adds a copy of an entry, which may be there already. After an error the entries are as they were.
    pub fn push(&mut self, entry: &[u8]) -> Result<(), EntryFault>
        ensures ok { OnOk result (self.new ≡ self.old ++ entry.now ∷ []) }
        ensures err { OnErr result (self.new ≡ self.old) }
        ensures many { (result ≡ Err faults.TooManyEntries) ↔ (length self.old ≡ ENTRIES_MAX) }
        ensures long { (result ≡ Err faults.TooManyBytes) ↔ ((length self.old < ENTRIES_MAX)
            × (BYTES_MAX < bytes_of self.old + length entry.now)) }
    {
        if self.spans.len() == ENTRIES_MAX {
            return Err(EntryFault::TooManyEntries);
        }
        if entry.len() > BYTES_MAX - self.bytes.len() {
            return Err(EntryFault::TooManyBytes);
        }
        let span = Span {
            key: 0,
            start: self.bytes.len() as u32,
            len: entry.len() as u32,
        };
        self.spans.reserve(1)?;
        self.bytes.extend_from_slice(entry)?;
        self.spans.push(span)?;
        Ok(())
    }

    /// The set of the entries. It takes time in their number times its logarithm. Doesn't allocate.
    pub fn build(self) -> TextSet
        ensures order { IsPermutation self result }
        ensures texts { (text : List ℕ) → Contains result text ↔ Contains self text }
    {
        let TextSetBuilder { bytes, mut spans } = self;
        sort_spans(bytes.as_slice(), &mut spans);
        TextSet::new(bytes, spans)
    }
}
