//! Names that are looked for among macros, and where their values were found.

ghost use Rattle.std.specs.Prelude.{◌≡◌, ◌<◌, ◌+◌, ◌↔◌, IfOk, IsTrue, List, length, option_map};
ghost use Rattle.std.specs.List.{All};
ghost use Rattle.milter_protocol.specs.Seen.{value_in};
ghost use Rattle.milter_filter_stream.specs.declared.macro_list.MacroGroup.{MacroGroup};
ghost use Rattle.milter_filter_stream.specs.MacroLists.{pairs_of};
ghost use Rattle.milter_filter_stream.specs.MacroSearches.{HasLooked, IsFor, IsUnlooked, unlooked};

use crate::macro_list::{MacroGroup, MacroPosition};
use crate::macro_values::{last_pair, value_at};
use milter_wire::{NoMemory, Text};
use std::alloc::Global;
use std::marker::Model;

/// A name that is looked for among macros, and where the value is that the first packets last gave to it.
#[derive(Debug, Drop)]
pub(crate) struct MacroSearch {
    name: Text,
    // How many packets were looked at.
    looked: usize,
    // Where the value is, if these gave one.
    found: Option<MacroPosition>,
}

impl Model for MacroSearch {
    ghost use Rattle.milter_filter_stream.specs.MacroSearches.{MacroSearch};

    ghost Value = { MacroSearch };

    ghost view = { λ s. record { name = s.name; looked = s.looked; found = s.found } };
}

impl MacroSearch {
    /// A search for this name, of nothing yet.
    fn new(alloc: Global, name: &[u8]) -> Result<Self, NoMemory>
        ensures { IfOk result (λ search. search ≡ unlooked name.now) }
    {
        Ok(MacroSearch {
            name: Text::copy_of(alloc, name)?,
            looked: 0,
            found: None,
        })
    }

    /// Whether it is a search for this name.
    pub(crate) fn is_for(&self, name: &[u8]) -> bool
        ensures { IsTrue result ↔ self.now.name ≡ name.now }
    {
        self.name.as_slice() == name
    }

    /// Whether it has looked at so many packets.
    pub(crate) fn has_looked_at(&self, count: usize) -> bool
        ensures { IsTrue result ↔ self.now.looked ≡ count }
    {
        self.looked == count
    }

    /// The value that these packets, which it has all looked at, last gave to its name.
    pub(crate) fn value<'a>(&self, groups: &'a [MacroGroup]) -> Option<&'a [u8]>
        requires looked { HasLooked groups.now self.now }
        requires all { self.now.looked ≡ length groups.now }
        ensures { option_map (λ value. value.now) result ≡ value_in (pairs_of groups.now) self.now.name }
    {
        let position = self.found?;
        value_at(groups, position)
    }

    /// Forgets what was found.
    fn reset(&mut self)
        ensures { self.new ≡ unlooked self.old.name }
    {
        self.looked = 0;
        self.found = None;
    }

    /// Looks at the first packet that it has not looked at yet.
    fn look_at_next(&mut self, groups: &[MacroGroup])
        requires left { self.old.looked < length groups.now }
        requires looked { HasLooked groups.now self.old }
        ensures looked { HasLooked groups.now self.new }
        ensures more { self.new.looked ≡ self.old.looked + 1 }
        ensures name { self.new.name ≡ self.old.name }
    {
        let group = self.looked;
        if let Some(pair) = last_pair(groups[group].pairs.as_slice(), self.name.as_slice()) {
            self.found = Some(MacroPosition { group, pair });
        }
        self.looked += 1;
    }

    /// Looks at the packets that it has not looked at yet.
    fn look_at(&mut self, groups: &[MacroGroup])
        requires { HasLooked groups.now self.old }
        ensures looked { HasLooked groups.now self.new }
        ensures all { self.new.looked ≡ length groups.now }
        ensures name { self.new.name ≡ self.old.name }
    {
        while self.looked < groups.len() {
            self.look_at_next(groups);
        }
    }
}

/// Forgets what each of the searches found.
pub(crate) fn reset_all(searches: &mut [MacroSearch])
    ensures { All IsUnlooked searches.new }
{
    for search in searches.iter_mut() {
        search.reset();
    }
}

/// Has the search in this place, which is a search for this name, look at the packets; none where memory is refused, or
/// where there is no search in the place before.
pub(crate) fn look_at_all(
    alloc: Global,
    searches: &mut Vec<MacroSearch>,
    place: usize,
    name: &[u8],
    groups: &[MacroGroup],
)
    requires { All (HasLooked groups.now) searches.old.items }
    ensures { All (HasLooked groups.now) searches.new.items }
{
    if begin(alloc, searches, place, name) {
        searches[place].look_at(groups);
    }
}

/// Whether there is a search for this name in its place, perhaps a new one.
fn begin(alloc: Global, searches: &mut Vec<MacroSearch>, place: usize, name: &[u8]) -> bool
    ensures there { IsTrue result → IsFor name.now searches.new.items place }
    ensures looked { (groups : List MacroGroup) → All (HasLooked groups) searches.old.items →
        All (HasLooked groups) searches.new.items }
{
    if let Some(search) = searches.get(place) {
        if search.is_for(name) {
            return true;
        }
    }
    put(alloc, searches, place, name)
}

/// Puts a search for this name, of nothing yet, in its place, where memory isn't refused and there is a search in the
/// place before.
fn put(alloc: Global, searches: &mut Vec<MacroSearch>, place: usize, name: &[u8]) -> bool
    ensures there { IsTrue result → IsFor name.now searches.new.items place }
    ensures looked { (groups : List MacroGroup) → All (HasLooked groups) searches.old.items →
        All (HasLooked groups) searches.new.items }
{
    let Ok(search) = MacroSearch::new(alloc, name) else {
        return false;
    };
    if place < searches.len() {
        searches[place] = search;
        return true;
    }
    place == searches.len() && searches.push(search).is_ok()
}
