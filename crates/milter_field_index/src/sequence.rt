//! Sequences of numbers.

ghost use Rattle.std.specs.Prelude.{◌≡◌, ◌+◌, ◌-◌, ◌<◌, ◌≤◌, ◌^◌, [], IfOk, OnErr, OnOk, if◌then◌else◌, is_some, length, slice_get};
ghost use Rattle.std.specs.List.{insert, remove};
ghost use Rattle.milter_field_index.specs.Blocks.{IsPlace, at, joined, lengths};

use crate::blocks::Blocks;
use crate::row::Place;
use std::alloc::{AllocError, Global};
use std::marker::Model;

/// A sequence of numbers. There are fewer than 2^32 of them. An insertion or a deletion costs about as much as the root
/// of its length.
#[derive(Debug, Drop)]
pub struct Sequence {
    blocks: Blocks,
    /// How many numbers there are.
    len: usize,
}

impl Model for Sequence {
    ghost use Rattle.std.specs.Prelude.{ℕ, List, ◌≡◌, length};
    ghost use Rattle.milter_field_index.specs.Blocks.{joined};

    ghost Value = { List ℕ };

    ghost view = { λ s. joined s.blocks };

    ghost invariant = { λ s. s.len ≡ length (joined s.blocks) };
}

impl Sequence {
    /// The empty sequence.
    pub fn new(alloc: Global) -> Result<Self, AllocError>
        ensures { IfOk result (λ sequence. sequence ≡ []) }
    {
        Ok(Sequence {
            blocks: Blocks::new(alloc)?,
            len: 0,
        })
    }

    /// How many numbers there are.
    pub fn len(&self) -> usize
        ensures { result ≡ length self.now }
    {
        self.len
    }

    /// The number with this index; `None` past the end.
    pub fn get(&self, index: usize) -> Option<u32>
        ensures { result ≡ slice_get self.now index }
    {
        match self.blocks.find(index) {
            Some(place) => Some(self.blocks.block(place.block)[place.offset]),
            None => None,
        }
    }

    /// Inserts a number after so many others. After an `Err` all is as before.
    pub fn insert(&mut self, alloc: Global, index: usize, number: u32) -> Result<(), AllocError>
        requires within { index ≤ length self.old }
        requires few { length self.old < 2 ^ 32 - 1 }
        ensures ok { OnOk result (self.new ≡ insert self.old index number) }
        ensures err { OnErr result (self.new ≡ self.old) }
    {
        let place = place_for(alloc, &mut self.blocks, self.len, index)?;
        self.blocks.insert(place, number)?;
        self.len += 1;
        Ok(())
    }

    /// Deletes the number with this index, and returns it; `None` past the end.
    pub fn remove(&mut self, index: usize) -> Option<u32>
        ensures value { result ≡ slice_get self.old index }
        ensures rest { self.new ≡ (if is_some result then remove self.old index else self.old) }
    {
        match self.blocks.find(index) {
            Some(place) => {
                self.len -= 1;
                Some(self.blocks.remove(place))
            }
            None => None,
        }
    }

    /// The numbers, in order.
    pub fn to_vec(&self, alloc: Global) -> Result<Vec<u32>, AllocError>
        ensures { IfOk result (λ numbers. numbers.items ≡ self.now) }
    {
        let mut numbers = Vec::new(alloc);
        for block in 0..self.blocks.lens().len() {
            numbers.extend_from_slice(self.blocks.block(block))?;
        }
        Ok(numbers)
    }
}

/// The place of a new number after so many others, where there are `len` in all.
fn place_for(
    alloc: Global,
    blocks: &mut Blocks,
    len: usize,
    index: usize,
) -> Result<Place, AllocError>
    requires len { len ≡ length (joined blocks.old) }
    requires within { index ≤ len }
    ensures same { joined blocks.new ≡ joined blocks.old }
    ensures found { IfOk result (λ p. IsPlace (lengths blocks.new) p.block p.offset index) }
    ensures inside { IfOk result (λ p. p.offset ≤ length (at blocks.new p.block)) }
{
    if index == len {
        return blocks.place_at_end(alloc);
    }
    blocks.place_for(alloc, index)
}
