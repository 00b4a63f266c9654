//! The body of a message, and what of it was searched for texts.

ghost use Rattle.std.specs.Prelude.{◌≡◌, ◌++◌, [], OnErr, OnOk};
ghost use Rattle.milter_filter_search.specs.declared.pattern.Test.TheVariants as tests;
ghost use Rattle.milter_filter_search.specs.Texts.{finds};

use crate::body_search::{BodySearch, look_at_all, reset_all};
use crate::pattern::{Pattern, Test};
use crate::text_case::contains;
use milter_fields::NoMemory;
use std::alloc::Global;
use std::marker::Model;

/// The bytes of a body, and what of them was searched for texts.
#[derive(Debug, Drop)]
pub struct Body {
    bytes: Vec<u8>,
    // What was searched for, each in its place.
    searches: Vec<BodySearch>,
}

impl Model for Body {
    ghost use Rattle.std.specs.Prelude.{List, ℕ};
    ghost use Rattle.std.specs.List.{All};
    ghost use Rattle.milter_filter_search.specs.Searches.{HasRead};

    ghost Value = { List ℕ };

    ghost view = { λ b. b.bytes.items };

    ghost invariant = { λ b. All (HasRead b.bytes.items) b.searches.items };
}

impl Body {
    /// No bytes. Doesn't allocate.
    pub fn new(alloc: Global) -> Self
        ensures { result ≡ [] }
    {
        Body {
            bytes: Vec::new(alloc),
            searches: Vec::new(alloc),
        }
    }

    /// The bytes. Doesn't allocate.
    pub fn as_slice(&self) -> &[u8]
        ensures { result.now ≡ self.now }
    {
        self.bytes.as_slice()
    }

    /// Takes a copy of the bytes of a chunk. After `NoMemory` the body is as it was.
    pub fn extend(&mut self, chunk: &[u8]) -> Result<(), NoMemory>
        ensures ok { OnOk result (self.new ≡ self.old ++ chunk.now) }
        ensures err { OnErr result (self.new ≡ self.old) }
    {
        self.bytes.extend_from_slice(chunk)?;
        Ok(())
    }

    /// Gives up all bytes. What is searched for is remembered. Doesn't allocate.
    pub fn clear(&mut self)
        ensures { self.new ≡ [] }
    {
        self.bytes.clear();
        reset_all(self.searches.as_mut_slice());
    }

    /// Whether the pattern is found in the body. Where the same was searched for in this place it isn't looked for
    /// again. Doesn't allocate.
    pub fn finds(&self, place: usize, pattern: &Pattern<'_>) -> bool
        ensures { result ≡ finds pattern.now.case pattern.now.test pattern.now.text.now self.now }
    {
        match pattern.test {
            Test::Has | Test::Lacks => self.has(place, pattern),
            _ => pattern.is_found_in(self.as_slice()),
        }
    }

    /// Whether the text occurs in the body.
    fn has(&self, place: usize, pattern: &Pattern<'_>) -> bool
        ensures { result ≡ finds pattern.now.case tests.Has pattern.now.text.now self.now }
    {
        if let Some(search) = self.searches.get(place) {
            if search.is_for(pattern) && search.has_looked_at(self.bytes.len()) {
                return search.found();
            }
        }
        contains(pattern.case, self.as_slice(), pattern.text)
    }

    /// Searches the body for what [`Body::finds`] is going to be asked for in this place: of it those bytes alone that
    /// came since it was searched for the same in this place, and as many before them as the text has. Where memory is
    /// refused nothing is remembered.
    pub fn search(&mut self, alloc: Global, place: usize, pattern: &Pattern<'_>)
        ensures { self.new ≡ self.old }
    {
        let Body { bytes, searches } = self;
        look_at_all(alloc, searches, place, pattern, bytes.as_slice());
    }
}
