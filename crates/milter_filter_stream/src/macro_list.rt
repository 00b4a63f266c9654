//! The macros that a filter is shown, and what was searched for among them.

ghost use Rattle.std.specs.Prelude.{◌≡◌, [], OnErr, OnOk, option_map};
ghost use Rattle.std.specs.List.{filter};
ghost use Rattle.milter_protocol.specs.Seen.{value_in};

use crate::macro_search::{MacroSearch, look_at_all, reset_all};
use crate::macro_values::last_value;
use milter_wire::{NoMemory, Pairs, PairsRef};
use std::alloc::Global;
use std::marker::Model;

/// The macros of a packet, and whether they stay for the whole connection.
#[derive(Debug, Drop)]
pub(crate) struct MacroGroup {
    pub(crate) pairs: Pairs,
    pub(crate) of_connection: bool,
}

/// Where a macro is, both counted from 0.
#[derive(Clone, Copy, Debug)]
pub(crate) struct MacroPosition {
    /// The packet.
    pub(crate) group: usize,
    /// The macro in it.
    pub(crate) pair: usize,
}

/// The macros that came, packet by packet: those of the connection, and those of the message. And what was searched for
/// among them.
#[derive(Debug, Drop)]
pub(crate) struct MacroList {
    groups: Vec<MacroGroup>,
    // What was searched for, each in its place.
    searches: Vec<MacroSearch>,
}

impl Model for MacroList {
    ghost use Rattle.std.specs.List.{All};
    ghost use Rattle.milter_filter_stream.specs.MacroLists.{Macros, macros_of};
    ghost use Rattle.milter_filter_stream.specs.MacroSearches.{HasLooked};

    ghost Value = { Macros };

    ghost view = { λ m. macros_of m.groups.items };

    ghost invariant = { λ m. All (HasLooked m.groups.items) m.searches.items };
}

impl MacroList {
    ghost use Rattle.milter_filter_stream.specs.MacroLists.{macros_with};

    /// No macros. Doesn't allocate.
    pub(crate) fn new(alloc: Global) -> Self
        ensures shown { result.shown ≡ [] }
        ensures connection { result.connection ≡ [] }
    {
        MacroList {
            groups: Vec::new(alloc),
            searches: Vec::new(alloc),
        }
    }

    /// Keeps copies of the macros of a packet, all or none.
    pub(crate) fn note(
        &mut self,
        alloc: Global,
        pairs: &PairsRef<'_>,
        of_connection: bool,
    ) -> Result<(), NoMemory>
        ensures ok { OnOk result (self.new ≡ macros_with of_connection pairs.now self.old) }
        ensures err { OnErr result (self.new ≡ self.old) }
    {
        let pairs = pairs.to_pairs(alloc)?;
        self.groups.push(MacroGroup {
            pairs,
            of_connection,
        })?;
        Ok(())
    }

    /// Gives up all macros but those of the connection. What is searched for is remembered. Doesn't allocate.
    pub(crate) fn end_message(&mut self)
        ensures shown { self.new.shown ≡ self.old.connection }
        ensures connection { self.new.connection ≡ self.old.connection }
    {
        let MacroList { groups, searches } = self;
        keep_connection(groups);
        reset_all(searches);
    }

    /// Gives up all macros. What is searched for is remembered. Doesn't allocate.
    pub(crate) fn clear(&mut self)
        ensures shown { self.new.shown ≡ [] }
        ensures connection { self.new.connection ≡ [] }
    {
        self.groups.clear();
        reset_all(&mut self.searches);
    }

    /// The value that was last given to a name. Doesn't allocate.
    pub(crate) fn value(&self, name: &[u8]) -> Option<&[u8]>
        ensures { option_map (λ value. value.now) result ≡ value_in self.now.shown name.now }
    {
        last_value(&self.groups, name)
    }

    /// The value that was last given to a name. Where it was searched for in this place it isn't looked for again.
    /// Doesn't allocate.
    pub(crate) fn value_at(&self, place: usize, name: &[u8]) -> Option<&[u8]>
        ensures { option_map (λ value. value.now) result ≡ value_in self.now.shown name.now }
    {
        let groups = self.groups.as_slice();
        if let Some(search) = self.searches.get(place) {
            if search.is_for(name) && search.has_looked_at(groups.len()) {
                return search.value(groups);
            }
        }
        last_value(groups, name)
    }

    /// Looks for the value that [`MacroList::value_at`] is going to be asked for in this place: only in the packets
    /// that came since it was looked for in this place. Where memory is refused nothing is remembered.
    pub(crate) fn search(&mut self, alloc: Global, place: usize, name: &[u8])
        ensures { self.new ≡ self.old }
    {
        let MacroList { groups, searches } = self;
        look_at_all(alloc, searches, place, name, groups.as_slice());
    }
}

/// Keeps the macros that stay for the whole connection.
fn keep_connection(groups: &mut Vec<MacroGroup>)
    ensures { groups.new.items ≡ filter (λ group. group.of_connection) groups.old.items }
{
    groups.retain(|group| group.of_connection);
}
