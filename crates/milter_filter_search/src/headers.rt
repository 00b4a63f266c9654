//! The header fields of a message, and what was looked for among them.

ghost use Rattle.std.specs.Prelude.{◌≡◌, ◌++◌, ◌∷◌, ◌&&◌, [], IfOk, OnErr, OnOk};
ghost use Rattle.std.specs.List.{list_any};
ghost use Rattle.milter_fields.specs.Borrowed.{header_of};
ghost use Rattle.milter_filter_search.specs.Needles.{matches};
ghost use Rattle.milter_filter_search.specs.Texts.{is_named, values_named};

use crate::header_key::{HeaderKey, finds_in_header};
use crate::needle::Needle;
use crate::search::{Search, look_at_all, reset_all};
use milter_fields::{Header, HeaderRef, NoMemory, header_len};
use std::alloc::Global;
use std::marker::Model;

/// The most header fields of a message whose texts are used again in the next.
const KEPT_MAX: usize = 64;
/// The most bytes of both strings of a header field whose texts are used again.
const KEPT_LEN_MAX: usize = 1024;

/// A list of header fields, and what was looked for among them. After its end there are header fields to be filled
/// again: at most 64, of at most 1,024 bytes when they were last filled.
#[derive(Debug, Drop)]
pub struct Headers {
    fields: Vec<Header>,
    len: usize,
    // What was looked for, each in its place.
    searches: Vec<Search<HeaderKey>>,
}

impl Model for Headers {
    ghost use Rattle.std.specs.Prelude.{◌≤◌, List, length, take};
    ghost use Rattle.std.specs.List.{All};
    ghost use Rattle.milter_fields.specs.declared.header.Header.{Header};
    ghost use Rattle.milter_filter_search.specs.Needles.{header_found};
    ghost use Rattle.milter_filter_search.specs.Searches.{HasLooked};

    ghost Value = { List Header };

    ghost view = { λ h. take h.len h.fields.items };

    ghost invariant = { λ h. (h.len ≤ length h.fields.items)
        × All (HasLooked header_found (take h.len h.fields.items)) h.searches.items };
}

impl Headers {
    /// No header fields. Doesn't allocate.
    pub fn new(alloc: Global) -> Self
        ensures { result ≡ [] }
    {
        Headers {
            fields: Vec::new(alloc),
            len: 0,
            searches: Vec::new(alloc),
        }
    }

    /// The header fields, in order. Doesn't allocate.
    pub fn as_slice(&self) -> &[Header]
        ensures { result.now ≡ self.now }
    {
        &self.fields[..self.len]
    }

    /// Takes a copy of the header field. After `NoMemory` the list is as it was.
    pub fn push(&mut self, alloc: Global, header: &HeaderRef<'_>) -> Result<(), NoMemory>
        ensures ok { OnOk result (self.new ≡ self.old ++ header_of header.now ∷ []) }
        ensures err { OnErr result (self.new ≡ self.old) }
    {
        if self.len < self.fields.len() {
            header.copy_to(&mut self.fields[self.len])?;
        } else {
            self.fields.push(header.to_header(alloc)?)?;
        }
        self.len += 1;
        Ok(())
    }

    /// Gives up all header fields. What is searched for is remembered. Doesn't allocate.
    pub fn clear(&mut self)
        ensures { self.new ≡ [] }
    {
        self.len = 0;
        keep_small(&mut self.fields);
        reset_all(self.searches.as_mut_slice());
    }

    /// Whether the needle is found in the value of a header field of this name, in which ASCII case doesn't count.
    /// Where the same was looked for in this place it isn't looked for again. Allocates as [`Needle::matches`] does;
    /// `NoMemory` where memory is refused.
    pub fn finds(
        &self,
        alloc: Global,
        place: usize,
        name: &[u8],
        needle: &Needle<'_>,
    ) -> Result<bool, NoMemory>
        ensures { IfOk result (λ found. found ≡ list_any (matches needle.now) (values_named name.now self.now)) }
    {
        let fields = &self.fields[..self.len];
        if let Some(search) = self.searches.get(place) {
            let is_worth = search.looked == fields.len() && needle.is_worth_keeping(fields.len());
            if is_worth && search.key.is_for(name, needle) {
                return Ok(search.found);
            }
        }
        finds_named(alloc, name, needle, fields)
    }

    /// Looks among the header fields for what [`Headers::finds`] is going to be asked for in this place: only among
    /// those that came since the same was looked for in this place. Where memory is refused no more is remembered.
    pub fn search(&mut self, alloc: Global, place: usize, name: &[u8], needle: &Needle<'_>)
        ensures { self.new ≡ self.old }
    {
        let Headers {
            fields,
            len,
            searches,
        } = self;
        if !needle.is_worth_keeping(*len) {
            return;
        }
        match new_key(alloc, searches.get(place), name, needle) {
            Ok(key) => look_at_all(alloc, searches, place, key, &fields[..*len]),
            Err(NoMemory) => {}
        }
    }
}

/// A key for a new search, unless this search is probably one for the same.
fn new_key(
    alloc: Global,
    search: Option<&Search<HeaderKey>>,
    name: &[u8],
    needle: &Needle<'_>,
) -> Result<Option<HeaderKey>, NoMemory> {
    if let Some(search) = search {
        if search.key.resembles(name, needle) {
            return Ok(None);
        }
    }
    Ok(Some(HeaderKey::new(alloc, name, needle)?))
}

/// Whether the needle is found in the value of one of the header fields, of this name.
fn finds_named(
    alloc: Global,
    name: &[u8],
    needle: &Needle<'_>,
    fields: &[Header],
) -> Result<bool, NoMemory>
    ensures { IfOk result (λ found. found ≡ list_any (matches needle.now) (values_named name.now fields.now)) }
{
    for header in fields {
        if finds_in_header(alloc, name, needle, header)? {
            return Ok(true);
        }
    }
    Ok(false)
}

/// Gives up the header fields that are not to be filled again.
fn keep_small(fields: &mut Vec<Header>) {
    fields.truncate(KEPT_MAX);
    fields.retain(|header| header_len(header) <= KEPT_LEN_MAX);
}
