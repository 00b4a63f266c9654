//! Rows of counts, one row for each symbol.

ghost use Rattle.std.specs.Prelude.{◌≡◌, ◌+◌, ◌-◌, ◌<◌, ◌≤◌, ◌^◌, ◌++◌, ℕ, [], IfOk, OnOk, length, replicate, slice_index_or, slice_set};
ghost use Rattle.milter_field_index.specs.Blocks.{at, count_of, halved};

use crate::occurrence::count_in;
use crate::row::split_row;
use std::alloc::{AllocError, Global};
use std::marker::Model;

/// Rows of counts: one row for each symbol, with a count for each block. There are at most 2^32.
#[derive(Debug, Drop)]
pub(crate) struct Rows {
    rows: Vec<Vec<u32>>,
}

impl Model for Rows {
    ghost use Rattle.std.specs.Prelude.{ℕ, List, ◌≤◌, ◌^◌, length, map};

    ghost Value = { List (List ℕ) };

    ghost view = { λ r. map (λ row. row.items) r.rows.items };

    ghost invariant = { λ r. length r.rows.items ≤ 2 ^ 32 };
}

impl Rows {
    /// No rows.
    pub(crate) fn new(alloc: Global) -> Self
        ensures { result ≡ [] }
    {
        Rows {
            rows: Vec::new(alloc),
        }
    }

    /// How many rows there are.
    pub(crate) fn len(&self) -> usize
        ensures { result ≡ length self.now }
    {
        self.rows.len()
    }

    /// The row of a symbol.
    pub(crate) fn row(&self, symbol: u32) -> &[u32]
        requires { symbol < length self.now }
        ensures { result.now ≡ at self.now symbol }
    {
        self.rows[symbol as usize].as_slice()
    }

    /// Adds rows of zeros until the symbol has one. After an `Err` some of them may have been added.
    pub(crate) fn grow(
        &mut self,
        alloc: Global,
        symbol: u32,
        blocks: usize,
    ) -> Result<(), AllocError>
        ensures more { length self.old ≤ length self.new }
        ensures zeros { self.new ≡ self.old ++ replicate (length self.new - length self.old) (replicate blocks 0) }
        ensures reaches { OnOk result (symbol < length self.new) }
    {
        while self.rows.len() <= symbol as usize {
            let zeros = vec![in alloc; 0u32; blocks]?;
            self.rows.push(zeros)?;
        }
        Ok(())
    }

    /// Replaces a count.
    pub(crate) fn set(&mut self, symbol: u32, block: usize, count: u32)
        requires symbol { symbol < length self.old }
        requires block { block < length (at self.old symbol) }
        ensures { self.new ≡ slice_set self.old symbol (slice_set (at self.old symbol) block count) }
    {
        self.rows[symbol as usize][block] = count;
    }

    /// The rows after a block was split into two.
    pub(crate) fn split(
        &self,
        alloc: Global,
        block: usize,
        low: &[u32],
        high: &[u32],
    ) -> Result<Rows, AllocError>
        requires within { (symbol : ℕ) → symbol < length self.now → block < length (at self.now symbol) }
        requires total { (symbol : ℕ) → symbol < length self.now
            → slice_index_or (at self.now symbol) block 0 ≡ count_of symbol low.now + count_of symbol high.now }
        requires low { length low.now < 2 ^ 32 }
        ensures len { IfOk result (λ rows. length rows ≡ length self.now) }
        ensures each { IfOk result (λ rows. (symbol : ℕ) → symbol < length self.now
            → at rows symbol ≡ halved block (count_of symbol low.now) (count_of symbol high.now) (at self.now symbol)) }
    {
        let mut rows = Vec::with_capacity(alloc, self.rows.len())?;
        for symbol in 0..self.rows.len() {
            let row = self.rows[symbol].as_slice();
            let (first, second) = counts_in(low, high, symbol as u32, row[block]);
            rows.push(split_row(alloc, row, block, first, second)?)?;
        }
        Ok(Rows { rows })
    }
}

/// How often a symbol occurs in each of two lists, where it occurs `total` times in both. Most symbols do in neither.
fn counts_in(low: &[u32], high: &[u32], symbol: u32, total: u32) -> (u32, u32)
    requires few { length low.now < 2 ^ 32 }
    requires total { total ≡ count_of symbol low.now + count_of symbol high.now }
    ensures low { result.0 ≡ count_of symbol low.now }
    ensures high { result.1 ≡ count_of symbol high.now }
{
    if total == 0 {
        return (0, 0);
    }
    let first = count_in(low, symbol) as u32;
    (first, total - first)
}
