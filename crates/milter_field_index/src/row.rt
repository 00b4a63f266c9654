//! Rows of counts, one for each block.

ghost use Rattle.std.specs.Prelude.{◌≡◌, ◌+◌, ◌^◌, ◌<◌, ◌≤◌, ◌↔◌, IfOk, IfSome, IsSome, length, slice_index_or, take};
ghost use Rattle.std.specs.List.{sum};
ghost use Rattle.milter_field_index.specs.Blocks.{IsPlace, halved};

use std::alloc::{AllocError, Global};

/// A place in a list of blocks: what is counted before the block makes a number, together with the offset.
#[derive(Clone, Copy, Debug, Drop)]
pub(crate) struct Place {
    /// The index of the block.
    pub block: usize,
    /// What is left of the number in this block.
    pub offset: usize,
}

/// The number of counts that are added at once.
const CHUNK_LEN: usize = 64;

/// The sum of some counts.
pub(crate) fn sum_of(counts: &[u32]) -> usize
    requires { sum counts.now < 2 ^ 32 }
    ensures { result ≡ sum counts.now }
{
    let total: u32 = counts.iter().sum();
    total as usize
}

/// A block before which no more than the number is counted, and what is then left of it.
fn skip(row: &[u32], number: usize) -> Place
    requires { sum row.now < 2 ^ 32 }
    ensures within { result.block ≤ length row.now }
    ensures adds_up { sum (take result.block row.now) + result.offset ≡ number }
{
    let mut left = number;
    for chunk in 0..row.len() / CHUNK_LEN {
        let block = chunk * CHUNK_LEN;
        let count = sum_of(&row[block..block + CHUNK_LEN]);
        if left < count {
            return Place {
                block,
                offset: left,
            };
        }
        left -= count;
    }
    Place {
        block: row.len() / CHUNK_LEN * CHUNK_LEN,
        offset: left,
    }
}

/// The block in which the one with this number is counted, and its number there; `None` where fewer are counted.
pub(crate) fn find(row: &[u32], number: usize) -> Option<Place>
    requires { sum row.now < 2 ^ 32 }
    ensures found { IfSome result (λ p. IsPlace row.now p.block p.offset number) }
    ensures inside { IfSome result (λ p. p.offset < slice_index_or row.now p.block 0) }
    ensures exact { IsSome result ↔ (number < sum row.now) }
{
    let start = skip(row, number);
    let mut left = start.offset;
    for block in start.block..row.len() {
        let count = row[block] as usize;
        if left < count {
            return Some(Place {
                block,
                offset: left,
            });
        }
        left -= count;
    }
    None
}

/// The block in which a new one comes after so many others, and how many come before it there.
pub(crate) fn find_new(row: &[u32], number: usize) -> Place
    requires some { 0 < length row.now }
    requires within { number ≤ sum row.now }
    requires few { sum row.now < 2 ^ 32 }
    ensures found { IsPlace row.now result.block result.offset number }
    ensures inside { result.offset ≤ slice_index_or row.now result.block 0 }
{
    if number == 0 {
        return Place {
            block: 0,
            offset: 0,
        };
    }
    match find(row, number - 1) {
        Some(place) => Place {
            block: place.block,
            offset: place.offset + 1,
        },
        None => unreachable!(),
    }
}

/// The row with two counts in place of one.
pub(crate) fn split_row(
    alloc: Global,
    row: &[u32],
    block: usize,
    low: u32,
    high: u32,
) -> Result<Vec<u32>, AllocError>
    requires { block < length row.now }
    ensures { IfOk result (λ split. split.items ≡ halved block low high row.now) }
{
    let mut split = Vec::with_capacity(alloc, row.len() + 1)?;
    split.extend_from_slice(&row[..block])?;
    split.push(low)?;
    split.push(high)?;
    split.extend_from_slice(&row[block + 1..])?;
    Ok(split)
}
