//! What is looked for in a body, and whether it occurs there.

ghost use Rattle.std.specs.Prelude.{◌≡◌, ◌<◌, IfOk, IsTrue, List, length, ℕ};
ghost use Rattle.std.specs.List.{All};
ghost use Rattle.milter_filter_search.specs.Searches.{HasRead, IsUnread, occurs_in, read_to_end};

use crate::pattern::Pattern;
use crate::text_case::contains;
use milter_fields::{NoMemory, Text};
use milter_text::TextCase;
use std::alloc::Global;
use std::marker::Model;

/// A text that is looked for in a body, and whether it occurs in the first bytes of it.
#[derive(Debug, Drop)]
pub(crate) struct BodySearch {
    case: TextCase,
    text: Text,
    // How many bytes were looked at.
    looked: usize,
    // Whether it occurs in these.
    found: bool,
}

impl Model for BodySearch {
    ghost use Rattle.milter_filter_search.specs.Searches.{BodySearch};

    ghost Value = { BodySearch };

    ghost view = { λ s. record { case = s.case; text = s.text; looked = s.looked; found = s.found } };
}

impl BodySearch {
    /// A search for this, of nothing yet.
    fn new(alloc: Global, pattern: &Pattern<'_>) -> Result<Self, NoMemory>
        ensures { IfOk result IsUnread }
    {
        Ok(BodySearch {
            case: pattern.case,
            text: Text::copy_of(alloc, pattern.text)?,
            looked: 0,
            found: contains(pattern.case, b"", pattern.text),
        })
    }

    /// Whether it is a search for this.
    pub(crate) fn is_for(&self, pattern: &Pattern<'_>) -> bool
        ensures { IsTrue result → (self.now.case ≡ pattern.now.case) × (self.now.text ≡ pattern.now.text.now) }
    {
        self.case == pattern.case && self.text.as_slice() == pattern.text
    }

    /// Whether it has looked at so many bytes.
    pub(crate) fn has_looked_at(&self, count: usize) -> bool
        ensures { IsTrue result → self.now.looked ≡ count }
    {
        self.looked == count
    }

    /// Whether the text occurs.
    pub(crate) fn found(&self) -> bool
        ensures { result ≡ self.now.found }
    {
        self.found
    }

    /// Forgets what was found.
    fn reset(&mut self)
        ensures { IsUnread self.new }
    {
        self.looked = 0;
        self.found = contains(self.case, b"", self.text.as_slice());
    }

    /// Whether the text occurs in the bytes, of which those that were looked at aren't looked at again, but for as many
    /// as the text has.
    fn occurs_in(&self, bytes: &[u8]) -> bool
        requires { HasRead bytes.now self.now }
        ensures { result ≡ occurs_in self.now bytes.now }
    {
        if self.found {
            return true;
        }
        let text = self.text.as_slice();
        let start = self.looked.saturating_sub(text.len());
        contains(self.case, &bytes[start..], text)
    }

    /// Looks at the bytes that it has not looked at yet.
    fn look_at(&mut self, bytes: &[u8])
        requires { HasRead bytes.now self.old }
        ensures { self.new ≡ read_to_end bytes.now self.old }
    {
        self.found = self.occurs_in(bytes);
        self.looked = bytes.len();
    }
}

/// Forgets what each of the searches found.
pub(crate) fn reset_all(searches: &mut [BodySearch])
    ensures { All IsUnread searches.new }
{
    for search in searches.iter_mut() {
        search.reset();
    }
}

/// Has the search in this place, which is a search for this, look at the bytes; none where memory is refused, or where
/// there is no search in the place before.
pub(crate) fn look_at_all(
    alloc: Global,
    searches: &mut Vec<BodySearch>,
    place: usize,
    pattern: &Pattern<'_>,
    bytes: &[u8],
)
    requires { All (HasRead bytes.now) searches.old.items }
    ensures { All (HasRead bytes.now) searches.new.items }
{
    if begin(alloc, searches, place, pattern) {
        searches[place].look_at(bytes);
    }
}

/// Whether there is a search for this in its place, perhaps a new one.
fn begin(alloc: Global, searches: &mut Vec<BodySearch>, place: usize, pattern: &Pattern<'_>) -> bool
    ensures there { IsTrue result → place < length searches.new.items }
    ensures looked { (bytes : List ℕ) → All (HasRead bytes) searches.old.items →
        All (HasRead bytes) searches.new.items }
{
    if let Some(search) = searches.get(place) {
        if search.is_for(pattern) {
            return true;
        }
    }
    put(alloc, searches, place, pattern)
}

/// Puts a search for this, of nothing yet, in its place, where memory isn't refused and there is a search in the place
/// before.
fn put(alloc: Global, searches: &mut Vec<BodySearch>, place: usize, pattern: &Pattern<'_>) -> bool
    ensures there { IsTrue result → place < length searches.new.items }
    ensures looked { (bytes : List ℕ) → All (HasRead bytes) searches.old.items →
        All (HasRead bytes) searches.new.items }
{
    let Ok(search) = BodySearch::new(alloc, pattern) else {
        return false;
    };
    if place < searches.len() {
        searches[place] = search;
        return true;
    }
    place == searches.len() && searches.push(search).is_ok()
}
