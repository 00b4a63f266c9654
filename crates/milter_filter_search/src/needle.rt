//! What values are compared with: a text, or the entries of a list.

ghost use Rattle.std.specs.Prelude.{◌≡◌, IfOk, IsTrue, List, ℕ};
ghost use Rattle.milter_filter_search.specs.Needles.{key_matches, matches};

use crate::pattern::{Pattern, Test};
use milter_address::canonical_domain;
use milter_fields::{NoMemory, Text};
use milter_lists::SharedList;
use milter_text::TextCase;
use std::alloc::Global;

/// How many entries of two lists are compared in the time of a lookup.
const ENTRIES_A_LOOKUP: usize = 256;

/// What values are compared with.
#[derive(Clone, Copy, Debug)]
pub enum Needle<'a> {
    /// A text.
    Text(Pattern<'a>),
    /// A text, with which the canonical forms of values as domains are compared:
    /// [`canonical_domain`](milter_address::canonical_domain).
    Domain(Pattern<'a>),
    /// The entries of a list.
    List(&'a SharedList),
}

impl<'a> Needle<'a> {
    /// Whether it is found in the value. Allocates the canonical form of a domain, and what
    /// [`TextList::has`](milter_lists::TextList::has) does; `NoMemory` where memory is refused.
    pub fn matches(&self, alloc: Global, value: &[u8]) -> Result<bool, NoMemory>
        ensures { IfOk result (λ found. found ≡ matches self.now value.now) }
    {
        match self {
            Needle::Text(pattern) => Ok(pattern.is_found_in(value)),
            Needle::Domain(pattern) => {
                let domain = canonical_domain(alloc, value)?;
                Ok(pattern.is_found_in(&domain))
            }
            Needle::List(list) => list.as_list().has(alloc, value),
        }
    }

    /// Whether it takes less time to see that a search was for the same than to look at so many items.
    pub(crate) fn is_worth_keeping(&self, items: usize) -> bool {
        match self {
            Needle::Text(_) | Needle::Domain(_) => true,
            Needle::List(list) => list.as_list().len() / ENTRIES_A_LOOKUP <= items,
        }
    }
}

/// A text that is looked for, as a search keeps it.
#[derive(Debug, Drop)]
pub(crate) struct KeptPattern {
    case: TextCase,
    test: Test,
    text: Text,
}

impl KeptPattern {
    ghost use Rattle.milter_filter_search.specs.Texts.{finds};

    /// A copy of the pattern.
    fn of(alloc: Global, pattern: &Pattern<'_>) -> Result<Self, NoMemory> {
        Ok(KeptPattern {
            case: pattern.case,
            test: pattern.test,
            text: Text::copy_of(alloc, pattern.text)?,
        })
    }

    /// Whether it is a copy of the pattern.
    fn is_for(&self, pattern: &Pattern<'_>) -> bool
        ensures { IsTrue result → (value : List ℕ) → finds self.now.case self.now.test self.now.text value
            ≡ finds pattern.now.case pattern.now.test pattern.now.text.now value }
    {
        self.case == pattern.case
            && self.test == pattern.test
            && self.text.as_slice() == pattern.text
    }

    /// The pattern.
    fn as_pattern(&self) -> Pattern<'_>
        ensures case { result.case ≡ self.now.case }
        ensures test { result.test ≡ self.now.test }
        ensures text { result.text.now ≡ self.now.text }
    {
        Pattern {
            case: self.case,
            test: self.test,
            text: self.text.as_slice(),
        }
    }
}

/// What values are compared with, as a search keeps it.
#[derive(Debug, Drop)]
pub(crate) enum KeptNeedle {
    /// A text.
    Text(KeptPattern),
    /// A text, with which the canonical forms of domains are compared.
    Domain(KeptPattern),
    /// A list, of which the search is an owner.
    List(SharedList),
}

impl KeptNeedle {
    /// A copy of the needle.
    pub(crate) fn of(alloc: Global, needle: &Needle<'_>) -> Result<Self, NoMemory> {
        Ok(match needle {
            Needle::Text(pattern) => KeptNeedle::Text(KeptPattern::of(alloc, pattern)?),
            Needle::Domain(pattern) => KeptNeedle::Domain(KeptPattern::of(alloc, pattern)?),
            Needle::List(list) => KeptNeedle::List(list.share()?),
        })
    }

    /// Whether it is a copy of the needle.
    pub(crate) fn is_for(&self, needle: &Needle<'_>) -> bool
        ensures { IsTrue result → (value : List ℕ) → key_matches self.now value ≡ matches needle.now value }
    {
        match (self, needle) {
            (KeptNeedle::Text(kept), Needle::Text(pattern)) => kept.is_for(pattern),
            (KeptNeedle::Domain(kept), Needle::Domain(pattern)) => kept.is_for(pattern),
            (KeptNeedle::List(kept), Needle::List(list)) => kept.has_same_entries(list),
            _ => false,
        }
    }

    /// Whether it is probably a copy of the needle. It takes little time, also where it has a large list.
    pub(crate) fn resembles(&self, needle: &Needle<'_>) -> bool {
        match (self, needle) {
            (KeptNeedle::List(kept), Needle::List(list)) => {
                let (kept, list) = (kept.as_list(), list.as_list());
                kept.kind() == list.kind() && kept.len() == list.len()
            }
            _ => self.is_for(needle),
        }
    }

    /// The needle.
    pub(crate) fn as_needle(&self) -> Needle<'_>
        ensures { (value : List ℕ) → matches result value ≡ key_matches self.now value }
    {
        match self {
            KeptNeedle::Text(kept) => Needle::Text(kept.as_pattern()),
            KeptNeedle::Domain(kept) => Needle::Domain(kept.as_pattern()),
            KeptNeedle::List(list) => Needle::List(list),
        }
    }
}
