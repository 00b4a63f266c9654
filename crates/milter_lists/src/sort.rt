//! The spans of entries are put in order.

ghost use Rattle.std.specs.Prelude.{◌≡◌};
ghost use Rattle.std.specs.Cmp.Lexicographic.{slice_cmp};
ghost use Rattle.std.specs.List.Sorted.{IsPermutation, IsSortedByKey};
ghost use Rattle.std.specs.Ordering.{nat_cmp};
ghost use Rattle.milter_lists.specs.Entries.{entries_of, entry_of};
ghost use Rattle.milter_lists.specs.Keys.{AreKeyed, BeginWith};

use crate::key::shared_len;
use crate::span::Span;

/// Puts the spans in the order of their entries. Few entries are compared byte by byte: each has a key of the first
/// bytes behind those that all entries begin with.
pub(crate) fn sort_spans(bytes: &[u8], spans: &mut Vec<Span>)
    ensures permutation { IsPermutation (entries_of bytes.now spans.old.items) (entries_of bytes.now spans.new.items) }
    ensures sorted { IsSortedByKey (entry_of bytes.now) (slice_cmp nat_cmp) spans.new.items }
{
    let prefix = shared_prefix(bytes, spans.as_slice());
    set_keys(bytes, prefix.len(), spans);
    spans.sort_unstable_by(|a, b| a.compare_keyed(*b, bytes));
}

/// Bytes that all entries begin with.
fn shared_prefix<'a>(bytes: &'a [u8], spans: &[Span]) -> &'a [u8]
    ensures { BeginWith bytes.now result.now spans.now }
{
    // The bytes begin with the first entry.
    let mut prefix = bytes;
    for span in spans {
        prefix = &prefix[..shared_len(prefix, span.of(bytes))];
    }
    prefix
}

/// Gives each span the key of its entry behind so many bytes.
fn set_keys(bytes: &[u8], shared: usize, spans: &mut Vec<Span>)
    ensures entries { entries_of bytes.now spans.new.items ≡ entries_of bytes.now spans.old.items }
    ensures keys { AreKeyed bytes.now shared spans.new.items }
{
    for place in 0..spans.len() {
        spans[place] = spans[place].keyed(bytes, shared);
    }
}
