//! Fields with names, in an order.

ghost use Rattle.std.specs.Prelude.{◌≡◌, ◌+◌, ◌-◌, ◌<◌, ◌≤◌, ◌^◌, ◌==◌, ◌++◌, [], IfOk, OnOk, if◌then◌else◌, is_some, length, map, option_map, replicate, slice_get};
ghost use Rattle.std.specs.List.{insert, remove};
ghost use Rattle.milter_field_index.specs.Fields.{group_of, member_of};
ghost use Rattle.milter_field_index.specs.Occurrence.{nth};

use crate::ranked::Ranked;
use crate::sequence::Sequence;
use std::alloc::{AllocError, Global};
use std::marker::Model;

/// How many names a group has.
const GROUP_LEN: u32 = 1024;

/// Fields in an order, each with an id and a name, which is a number. The ids are 0, 1, 2 .. in the order in which the
/// fields were inserted. An edit, or a look for the n-th field of a name, costs about as much as the root of how many
/// fields there are. Names should be small numbers: each, up to the highest of its group, takes some 60 bytes.
#[derive(Debug, Drop)]
pub struct FieldIndex {
    /// The name of each field that was ever inserted, by its id.
    names: Vec<u32>,
    /// The ids of the fields, in order.
    ids: Sequence,
    /// The groups of the names of the fields, in order.
    top: Ranked,
    /// For each group the numbers in it of the names of its fields, in order.
    groups: Vec<Ranked>,
}

impl Model for FieldIndex {
    ghost use Rattle.std.specs.Prelude.{length, map};
    ghost use Rattle.milter_field_index.specs.Fields.{Fields, Indexed, entry_of};

    ghost Value = { Fields };

    ghost view = { λ f. record { inserted = length f.names.items; entries = map (entry_of f.names.items) f.ids } };

    ghost invariant = { λ f. Indexed f.names.items f.ids f.top f.groups.items };
}

impl FieldIndex {
    /// No fields.
    pub fn new(alloc: Global) -> Result<Self, AllocError>
        ensures { IfOk result (λ fields. fields ≡ record { inserted = 0; entries = [] }) }
    {
        Ok(FieldIndex {
            names: Vec::new(alloc),
            ids: Sequence::new(alloc)?,
            top: Ranked::new(alloc)?,
            groups: Vec::new(alloc),
        })
    }

    /// How many fields there are.
    pub fn len(&self) -> usize
        ensures { result ≡ length self.now.entries }
    {
        self.ids.len()
    }

    /// The id of the field at a position; `None` past the end.
    pub fn id(&self, position: usize) -> Option<u32>
        ensures { result ≡ option_map (λ entry. entry.id) (slice_get self.now.entries position) }
    {
        self.ids.get(position)
    }

    /// The ids of the fields, in order.
    pub fn ids(&self, alloc: Global) -> Result<Vec<u32>, AllocError>
        ensures { IfOk result (λ ids. ids.items ≡ map (λ entry. entry.id) self.now.entries) }
    {
        self.ids.to_vec(alloc)
    }

    /// The position of the field with this number among those of a name, counted from 0; `None` where there are fewer.
    pub fn nth(&self, name: u32, number: usize) -> Option<usize>
        ensures { result ≡ nth (λ entry. entry.name == name) number self.now.entries }
    {
        let group = group_of(name);
        if group as usize >= self.groups.len() {
            return None;
        }
        let rank = self.groups[group as usize].select(member_of(name), number)?;
        self.top.select(group, rank)
    }

    /// Inserts a field of a name after so many others. Its id is the number of fields that were inserted before. After
    /// an `Err` nothing is left.
    pub fn insert(self, alloc: Global, position: usize, name: u32) -> Result<Self, AllocError>
        requires within { position ≤ length self.entries }
        requires few { self.inserted < 2 ^ 32 - 1 }
        ensures { IfOk result (λ fields. fields ≡ record {
          inserted = self.inserted + 1;
          entries = insert self.entries position (record { id = self.inserted; name = name });
        }) }
    {
        let FieldIndex {
            mut names,
            mut ids,
            mut top,
            mut groups,
        } = self;
        let group = group_of(name);
        let rank = top.rank(group, position);
        grow(alloc, &mut groups, group)?;
        groups[group as usize].insert(alloc, rank, member_of(name))?;
        top.insert(alloc, position, group)?;
        ids.insert(alloc, position, names.len() as u32)?;
        names.push(name)?;
        Ok(FieldIndex {
            names,
            ids,
            top,
            groups,
        })
    }

    /// Deletes the field at a position, and returns its id; `None` past the end.
    pub fn remove(&mut self, position: usize) -> Option<u32>
        ensures value { result ≡ option_map (λ entry. entry.id) (slice_get self.old.entries position) }
        ensures rest { self.new ≡ (if is_some result
            then record { inserted = self.old.inserted; entries = remove self.old.entries position } else self.old) }
    {
        let id = self.ids.remove(position)?;
        let group = group_of(self.names[id as usize]);
        let rank = self.top.rank(group, position);
        self.top.remove(position);
        self.groups[group as usize].remove(rank);
        Some(id)
    }
}

/// The group of a name.
fn group_of(name: u32) -> u32
    ensures { result ≡ group_of name }
{
    name / GROUP_LEN
}

/// The number of a name in its group.
fn member_of(name: u32) -> u32
    ensures { result ≡ member_of name }
{
    name % GROUP_LEN
}

/// Adds empty groups until there is one with this index.
fn grow(alloc: Global, groups: &mut Vec<Ranked>, group: u32) -> Result<(), AllocError>
    ensures more { OnOk result (groups.new.items
        ≡ groups.old.items ++ replicate (length groups.new.items - length groups.old.items) []) }
    ensures reaches { OnOk result (group < length groups.new.items) }
{
    while groups.len() <= group as usize {
        groups.push(Ranked::new(alloc)?)?;
    }
    Ok(())
}
