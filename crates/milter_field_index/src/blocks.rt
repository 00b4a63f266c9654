//! Numbers in blocks.

ghost use Rattle.std.specs.Prelude.{◌≡◌, ◌+◌, ◌-◌, ◌<◌, ◌≤◌, ◌^◌, [], ◌∷◌, IfOk, IfSome, IsSome, ◌↔◌, OnErr, OnOk, drop, length, slice_index_or, take};
ghost use Rattle.milter_field_index.specs.Blocks.{IsPlace, at, halved, insert_in, joined, lengths, remove_in};

use crate::row::{Place, find, find_new, split_row};
use std::alloc::{AllocError, Global};
use std::marker::Model;

/// The most numbers in a short block: before one more comes, the block is split. An insertion moves those behind it in
/// its block, out of a cache that is far away where there are many blocks, so blocks are short where a split is cheap.
pub(crate) const SHORT_LEN: u32 = 1024;

/// Numbers in blocks, with the length of each block. There is at least one block, and there are fewer than 2^32
/// numbers.
#[derive(Debug, Drop)]
pub(crate) struct Blocks {
    blocks: Vec<Vec<u32>>,
    lens: Vec<u32>,
}

impl Model for Blocks {
    ghost use Rattle.std.specs.Prelude.{ℕ, List, map};
    ghost use Rattle.milter_field_index.specs.Blocks.{Measured};

    ghost Value = { List (List ℕ) };

    ghost view = { λ b. map (λ block. block.items) b.blocks.items };

    ghost invariant = { λ b. Measured b.lens.items (map (λ block. block.items) b.blocks.items) };
}

impl Blocks {
    /// One block, with nothing in it.
    pub(crate) fn new(alloc: Global) -> Result<Self, AllocError>
        ensures { IfOk result (λ blocks. blocks ≡ [] ∷ []) }
    {
        let mut blocks = Vec::new(alloc);
        blocks.push(Vec::new(alloc))?;
        let mut lens = Vec::new(alloc);
        lens.push(0)?;
        Ok(Blocks { blocks, lens })
    }

    /// The length of each block.
    pub(crate) fn lens(&self) -> &[u32]
        ensures lens { result.now ≡ lengths self.now }
        ensures some { 0 < length self.now }
        ensures few { length (joined self.now) < 2 ^ 32 }
    {
        self.lens.as_slice()
    }

    /// A block.
    pub(crate) fn block(&self, index: usize) -> &[u32]
        requires { index < length self.now }
        ensures { result.now ≡ at self.now index }
    {
        self.blocks[index].as_slice()
    }

    /// The place of the number with this index among all.
    pub(crate) fn find(&self, index: usize) -> Option<Place>
        ensures found { IfSome result (λ p. IsPlace (lengths self.now) p.block p.offset index) }
        ensures inside { IfSome result (λ p. p.offset < length (at self.now p.block)) }
        ensures exact { IsSome result ↔ (index < length (joined self.now)) }
    {
        find(self.lens.as_slice(), index)
    }

    /// The place of a new number after so many others.
    pub(crate) fn find_new(&self, index: usize) -> Place
        requires { index ≤ length (joined self.now) }
        ensures found { IsPlace (lengths self.now) result.block result.offset index }
        ensures inside { result.offset ≤ length (at self.now result.block) }
        ensures few { length (joined self.now) < 2 ^ 32 }
    {
        find_new(self.lens.as_slice(), index)
    }

    /// The place after all numbers.
    pub(crate) fn end(&self) -> Place
        ensures found { IsPlace (lengths self.now) result.block result.offset (length (joined self.now)) }
        ensures inside { result.offset ≡ length (at self.now result.block) }
        ensures few { length (joined self.now) < 2 ^ 32 }
    {
        let block = self.lens.len() - 1;
        Place {
            block,
            offset: self.lens[block] as usize,
        }
    }

    /// The place of a new number after so many others: its block is split if it is full.
    pub(crate) fn place_for(&mut self, alloc: Global, index: usize) -> Result<Place, AllocError>
        requires { index ≤ length (joined self.old) }
        ensures same { joined self.new ≡ joined self.old }
        ensures found { IfOk result (λ p. IsPlace (lengths self.new) p.block p.offset index) }
        ensures inside { IfOk result (λ p. p.offset ≤ length (at self.new p.block)) }
    {
        let place = self.find_new(index);
        let len = self.lens[place.block];
        if len < SHORT_LEN {
            return Ok(place);
        }
        let half = len / 2;
        self.split(alloc, place.block, half)?;
        Ok(self.find_new(index))
    }

    /// The place of a new number after all others: in a new block if the last one is full.
    pub(crate) fn place_at_end(&mut self, alloc: Global) -> Result<Place, AllocError>
        ensures same { joined self.new ≡ joined self.old }
        ensures found { IfOk result (λ p. IsPlace (lengths self.new) p.block p.offset (length (joined self.old))) }
        ensures inside { IfOk result (λ p. p.offset ≤ length (at self.new p.block)) }
    {
        let place = self.end();
        if place.offset < SHORT_LEN as usize {
            return Ok(place);
        }
        self.split(alloc, place.block, place.offset as u32)?;
        Ok(self.end())
    }

    /// Inserts a number at a place. After an `Err` all is as before.
    pub(crate) fn insert(&mut self, place: Place, number: u32) -> Result<(), AllocError>
        requires block { place.block < length self.old }
        requires offset { place.offset ≤ length (at self.old place.block) }
        requires few { length (joined self.old) < 2 ^ 32 - 1 }
        ensures ok { OnOk result (self.new ≡ insert_in self.old place.block place.offset number) }
        ensures err { OnErr result (self.new ≡ self.old) }
    {
        self.blocks[place.block].insert(place.offset, number)?;
        self.lens[place.block] += 1;
        Ok(())
    }

    /// Deletes the number at a place.
    pub(crate) fn remove(&mut self, place: Place) -> u32
        requires block { place.block < length self.old }
        requires offset { place.offset < length (at self.old place.block) }
        ensures value { result ≡ slice_index_or (at self.old place.block) place.offset 0 }
        ensures rest { self.new ≡ remove_in self.old place.block place.offset }
    {
        self.lens[place.block] -= 1;
        self.blocks[place.block].remove(place.offset)
    }

    /// Makes two blocks of one, of which the first keeps so many numbers. After an `Err` all is as before.
    pub(crate) fn split(&mut self, alloc: Global, block: usize, half: u32) -> Result<(), AllocError>
        requires within { block < length self.old }
        requires long { half ≤ length (at self.old block) }
        ensures ok { OnOk result (self.new
            ≡ halved block (take half (at self.old block)) (drop half (at self.old block)) self.old) }
        ensures err { OnErr result (self.new ≡ self.old) }
    {
        let rest = self.lens[block] - half;
        let lens = split_row(alloc, self.lens.as_slice(), block, half, rest)?;
        let high = Vec::from_slice(alloc, &self.blocks[block].as_slice()[half as usize..])?;
        self.blocks.insert(block + 1, high)?;
        self.blocks[block].truncate(half as usize);
        self.lens = lens;
        Ok(())
    }
}
