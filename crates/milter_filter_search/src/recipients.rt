//! The recipients of a message, and what was looked for among them.

ghost use Rattle.std.specs.Prelude.{◌≡◌, ◌++◌, ◌∷◌, [], IfOk, OnErr, OnOk, map};
ghost use Rattle.std.specs.List.{list_any};
ghost use Rattle.milter_filter_search.specs.Needles.{matches, part_of};

use crate::needle::Needle;
use crate::path_key::{PathKey, PathPart, finds_in_path};
use crate::search::{Search, look_at_all, reset_all};
use milter_fields::{NoMemory, Path};
use std::alloc::Global;
use std::marker::Model;

/// A list of recipients, and what was looked for among them.
#[derive(Debug, Drop)]
pub struct Recipients {
    paths: Vec<Path>,
    // What was looked for, each in its place.
    searches: Vec<Search<PathKey>>,
}

impl Model for Recipients {
    ghost use Rattle.std.specs.Prelude.{List};
    ghost use Rattle.std.specs.List.{All};
    ghost use Rattle.milter_fields.specs.declared.path.Path.{Path};
    ghost use Rattle.milter_filter_search.specs.Needles.{path_found};
    ghost use Rattle.milter_filter_search.specs.Searches.{HasLooked};

    ghost Value = { List Path };

    ghost view = { λ r. r.paths.items };

    ghost invariant = { λ r. All (HasLooked path_found r.paths.items) r.searches.items };
}

impl Recipients {
    /// No recipients. Doesn't allocate.
    pub fn new(alloc: Global) -> Self
        ensures { result ≡ [] }
    {
        Recipients {
            paths: Vec::new(alloc),
            searches: Vec::new(alloc),
        }
    }

    /// The recipients, in order. Doesn't allocate.
    pub fn as_slice(&self) -> &[Path]
        ensures { result.now ≡ self.now }
    {
        self.paths.as_slice()
    }

    /// Adds a recipient. After `NoMemory` the list is as it was.
    pub fn push(&mut self, path: Path) -> Result<(), NoMemory>
        ensures ok { OnOk result (self.new ≡ self.old ++ path ∷ []) }
        ensures err { OnErr result (self.new ≡ self.old) }
    {
        self.paths.push(path)?;
        Ok(())
    }

    /// Gives up all recipients. What is looked for is remembered. Doesn't allocate.
    pub fn clear(&mut self)
        ensures { self.new ≡ [] }
    {
        self.paths.clear();
        reset_all(self.searches.as_mut_slice());
    }

    /// Whether the needle is found in this part of one of the recipients. Where the same was looked for in this place
    /// it isn't looked for again. Allocates as [`Needle::matches`] does, and canonical addresses; `NoMemory` where
    /// memory is refused.
    pub fn finds(
        &self,
        alloc: Global,
        place: usize,
        part: PathPart,
        needle: &Needle<'_>,
    ) -> Result<bool, NoMemory>
        ensures { IfOk result (λ found. found ≡ list_any (matches needle.now) (map (part_of part) self.now)) }
    {
        let count = self.paths.len();
        if let Some(search) = self.searches.get(place) {
            let is_worth = search.looked == count && needle.is_worth_keeping(count);
            if is_worth && search.key.is_for(part, needle) {
                return Ok(search.found);
            }
        }
        finds_among(alloc, part, needle, self.paths.as_slice())
    }

    /// Looks among the recipients for what [`Recipients::finds`] is going to be asked for in this place: only among
    /// those that came since the same was looked for in this place. Where memory is refused no more is remembered.
    pub fn search(&mut self, alloc: Global, place: usize, part: PathPart, needle: &Needle<'_>)
        ensures { self.new ≡ self.old }
    {
        let Recipients { paths, searches } = self;
        if !needle.is_worth_keeping(paths.len()) {
            return;
        }
        match new_key(alloc, searches.get(place), part, needle) {
            Ok(key) => look_at_all(alloc, searches, place, key, paths.as_slice()),
            Err(NoMemory) => {}
        }
    }
}

/// A key for a new search, unless this search is probably one for the same.
fn new_key(
    alloc: Global,
    search: Option<&Search<PathKey>>,
    part: PathPart,
    needle: &Needle<'_>,
) -> Result<Option<PathKey>, NoMemory> {
    if let Some(search) = search {
        if search.key.resembles(part, needle) {
            return Ok(None);
        }
    }
    Ok(Some(PathKey::new(alloc, part, needle)?))
}

/// Whether the needle is found in this part of one of the paths.
fn finds_among(
    alloc: Global,
    part: PathPart,
    needle: &Needle<'_>,
    paths: &[Path],
) -> Result<bool, NoMemory>
    ensures { IfOk result (λ found. found ≡ list_any (matches needle.now) (map (part_of part) paths.now)) }
{
    for path in paths {
        if finds_in_path(alloc, part, needle, path)? {
            return Ok(true);
        }
    }
    Ok(false)
}
