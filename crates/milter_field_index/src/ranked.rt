//! Sequences of symbols, with ranks.

ghost use Rattle.std.specs.Prelude.{◌≡◌, ◌+◌, ◌-◌, ◌<◌, ◌≤◌, ◌^◌, ◌==◌, [], IfOk, OnErr, OnOk, if◌then◌else◌, is_some, length, slice_get, take};
ghost use Rattle.std.specs.List.{insert, remove};
ghost use Rattle.milter_field_index.specs.Blocks.{IsPlace, at, count_of, insert_in, joined, lengths};
ghost use Rattle.milter_field_index.specs.Counted.{Counted};
ghost use Rattle.milter_field_index.specs.Occurrence.{nth};

use crate::blocks::{Blocks, SHORT_LEN};
use crate::occurrence::{count_before, nth_in};
use crate::row::{Place, find, sum_of};
use crate::rows::Rows;
use crate::symbols::Symbols;
use std::alloc::{AllocError, Global};
use std::marker::Model;

/// The most symbols with which blocks are short.
const FEW_SYMBOLS: usize = 8;

/// The most symbols in a block where there are more than a few: a split then costs the more the more there are.
const LONG_LEN: u32 = 2048;

/// A sequence of symbols, which are small numbers. There are fewer than 2^32 of them. Each symbol up to the highest
/// that was ever inserted has a row of its counts in the blocks, so an occurrence is found at the cost of the root of
/// the length. Where all symbols are the same, one more is the last: the sequence is then the same wherever it comes.
#[derive(Debug, Drop)]
pub struct Ranked {
    blocks: Blocks,
    rows: Rows,
    symbols: Symbols,
    /// How many symbols there are.
    len: usize,
}

impl Model for Ranked {
    ghost use Rattle.std.specs.Prelude.{ℕ, List};
    ghost use Rattle.milter_field_index.specs.Blocks.{joined};
    ghost use Rattle.milter_field_index.specs.Symbols.{IsRanked};

    ghost Value = { List ℕ };

    ghost view = { λ r. joined r.blocks };

    ghost invariant = { λ r. IsRanked r.symbols r.len r.rows r.blocks };
}

impl Ranked {
    /// The empty sequence.
    pub fn new(alloc: Global) -> Result<Self, AllocError>
        ensures { IfOk result (λ sequence. sequence ≡ []) }
    {
        Ok(Ranked {
            blocks: Blocks::new(alloc)?,
            rows: Rows::new(alloc),
            symbols: Symbols::Absent,
            len: 0,
        })
    }

    /// How often a symbol comes before an index.
    pub fn rank(&self, symbol: u32, index: usize) -> usize
        requires { index ≤ length self.now }
        ensures { result ≡ count_of symbol (take index self.now) }
    {
        if self.symbols.are_all(symbol) {
            return index;
        }
        if symbol as usize >= self.rows.len() {
            return 0;
        }
        let place = self.blocks.find_new(index);
        let row = self.rows.row(symbol);
        let total = row[place.block] as usize;
        let block = self.blocks.block(place.block);
        sum_of(&row[..place.block]) + count_before(block, place.offset, symbol, total)
    }

    /// The index of the occurrence of a symbol with this number, counted from 0.
    pub fn select(&self, symbol: u32, number: usize) -> Option<usize>
        ensures { result ≡ nth (λ other. other == symbol) number self.now }
    {
        if self.symbols.are_all(symbol) {
            return (number < self.len).then_some(number);
        }
        if symbol as usize >= self.rows.len() {
            return None;
        }
        let lens = self.blocks.lens();
        let place = find(self.rows.row(symbol), number)?;
        let index = nth_in(self.blocks.block(place.block), symbol, place.offset)?;
        Some(sum_of(&lens[..place.block]) + index)
    }

    /// Inserts a symbol after so many others. After an `Err` all is as before.
    pub fn insert(&mut self, alloc: Global, index: usize, symbol: u32) -> Result<(), AllocError>
        requires within { index ≤ length self.old }
        requires few { length self.old < 2 ^ 32 - 1 }
        ensures ok { OnOk result (self.new ≡ insert self.old index symbol) }
        ensures err { OnErr result (self.new ≡ self.old) }
    {
        if self.symbols.are_all(symbol) {
            return self.push(alloc, symbol);
        }
        self.insert_at(alloc, index, symbol)
    }

    /// Inserts a symbol after all others. After an `Err` all is as before.
    fn push(&mut self, alloc: Global, symbol: u32) -> Result<(), AllocError>
        requires { length self.old < 2 ^ 32 - 1 }
        ensures ok { OnOk result (self.new ≡ insert self.old (length self.old) symbol) }
        ensures err { OnErr result (self.new ≡ self.old) }
    {
        let Ranked {
            blocks,
            rows,
            symbols,
            len,
        } = self;
        rows.grow(alloc, symbol, blocks.lens().len())?;
        let place = place_at_end(alloc, blocks, rows)?;
        put(blocks, rows, place, symbol)?;
        *symbols = symbols.with(symbol);
        *len += 1;
        Ok(())
    }

    /// Inserts a symbol after so many others. After an `Err` all is as before.
    fn insert_at(&mut self, alloc: Global, index: usize, symbol: u32) -> Result<(), AllocError>
        requires within { index ≤ length self.old }
        requires few { length self.old < 2 ^ 32 - 1 }
        ensures ok { OnOk result (self.new ≡ insert self.old index symbol) }
        ensures err { OnErr result (self.new ≡ self.old) }
    {
        let Ranked {
            blocks,
            rows,
            symbols,
            len,
        } = self;
        rows.grow(alloc, symbol, blocks.lens().len())?;
        let place = place_for(alloc, blocks, rows, index)?;
        put(blocks, rows, place, symbol)?;
        *symbols = symbols.with(symbol);
        *len += 1;
        Ok(())
    }

    /// Deletes the symbol at an index, and returns it; `None` past the end.
    pub fn remove(&mut self, index: usize) -> Option<u32>
        ensures value { result ≡ slice_get self.old index }
        ensures rest { self.new ≡ (if is_some result then remove self.old index else self.old) }
    {
        match self.blocks.find(index) {
            Some(place) => {
                let symbol = self.blocks.remove(place);
                let count = self.rows.row(symbol)[place.block];
                self.rows.set(symbol, place.block, count - 1);
                self.len -= 1;
                Some(symbol)
            }
            None => None,
        }
    }
}

/// The most symbols in a block, where so many have rows.
fn block_len(rows: usize) -> u32 {
    if rows <= FEW_SYMBOLS {
        SHORT_LEN
    } else {
        LONG_LEN
    }
}

/// The place of a new symbol after so many others: its block is split if it is full.
fn place_for(
    alloc: Global,
    blocks: &mut Blocks,
    rows: &mut Rows,
    index: usize,
) -> Result<Place, AllocError>
    requires counted { Counted rows.old blocks.old }
    requires within { index ≤ length (joined blocks.old) }
    ensures counted { Counted rows.new blocks.new }
    ensures same { joined blocks.new ≡ joined blocks.old }
    ensures rows { length rows.new ≡ length rows.old }
    ensures found { IfOk result (λ p. IsPlace (lengths blocks.new) p.block p.offset index) }
    ensures inside { IfOk result (λ p. p.offset ≤ length (at blocks.new p.block)) }
{
    let place = blocks.find_new(index);
    let len = blocks.lens()[place.block];
    if len < block_len(rows.len()) {
        return Ok(place);
    }
    let half = len / 2;
    split(alloc, blocks, rows, place.block, half)?;
    Ok(blocks.find_new(index))
}

/// The place of a new symbol after all others: in a new block if the last one is full.
fn place_at_end(alloc: Global, blocks: &mut Blocks, rows: &mut Rows) -> Result<Place, AllocError>
    requires counted { Counted rows.old blocks.old }
    ensures counted { Counted rows.new blocks.new }
    ensures same { joined blocks.new ≡ joined blocks.old }
    ensures rows { length rows.new ≡ length rows.old }
    ensures found { IfOk result (λ p. IsPlace (lengths blocks.new) p.block p.offset (length (joined blocks.new))) }
    ensures inside { IfOk result (λ p. p.offset ≤ length (at blocks.new p.block)) }
{
    let place = blocks.end();
    if place.offset < SHORT_LEN as usize {
        return Ok(place);
    }
    split(alloc, blocks, rows, place.block, place.offset as u32)?;
    Ok(blocks.end())
}

/// Makes two blocks of one, of which the first keeps so many symbols. After an `Err` all is as before.
fn split(
    alloc: Global,
    blocks: &mut Blocks,
    rows: &mut Rows,
    block: usize,
    half: u32,
) -> Result<(), AllocError>
    requires counted { Counted rows.old blocks.old }
    requires block { block < length blocks.old }
    requires few { length (joined blocks.old) < 2 ^ 32 }
    requires long { half ≤ length (at blocks.old block) }
    ensures counted { Counted rows.new blocks.new }
    ensures same { joined blocks.new ≡ joined blocks.old }
    ensures rows { length rows.new ≡ length rows.old }
{
    let (low, high) = blocks.block(block).split_at(half as usize);
    let split = rows.split(alloc, block, low, high)?;
    blocks.split(alloc, block, half)?;
    *rows = split;
    Ok(())
}

/// Inserts a symbol at a place. After an `Err` all is as before.
fn put(blocks: &mut Blocks, rows: &mut Rows, place: Place, symbol: u32) -> Result<(), AllocError>
    requires counted { Counted rows.old blocks.old }
    requires row { symbol < length rows.old }
    requires block { place.block < length blocks.old }
    requires offset { place.offset ≤ length (at blocks.old place.block) }
    requires few { length (joined blocks.old) < 2 ^ 32 - 1 }
    ensures counted { Counted rows.new blocks.new }
    ensures ok { OnOk result (blocks.new ≡ insert_in blocks.old place.block place.offset symbol) }
    ensures err { OnErr result (blocks.new ≡ blocks.old) }
{
    let count = rows.row(symbol)[place.block];
    blocks.insert(place, symbol)?;
    rows.set(symbol, place.block, count + 1);
    Ok(())
}
