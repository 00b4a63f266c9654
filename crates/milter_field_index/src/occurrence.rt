//! Occurrences of a symbol in a list.

ghost use Rattle.std.specs.Prelude.{◌≡◌, ◌<◌, ◌==◌, ◌≤◌, ◌^◌, drop, length, take};
ghost use Rattle.milter_field_index.specs.Blocks.{count_of};
ghost use Rattle.milter_field_index.specs.Occurrence.{nth, shifted};

/// The number of symbols that are counted at once.
const CHUNK_LEN: usize = 64;

/// How often a symbol occurs. The count has the width of a symbol, so that several are compared at once.
pub(crate) fn count_in(symbols: &[u32], symbol: u32) -> usize
    requires { length symbols.now < 2 ^ 32 }
    ensures { result ≡ count_of symbol symbols.now }
{
    let mut count: u32 = 0;
    for other in symbols {
        if *other == symbol {
            count += 1;
        }
    }
    count as usize
}

/// How often a symbol occurs before an offset, where it occurs `total` times in all. It counts from the nearer end.
pub(crate) fn count_before(symbols: &[u32], offset: usize, symbol: u32, total: usize) -> usize
    requires within { offset ≤ length symbols.now }
    requires few { length symbols.now < 2 ^ 32 }
    requires total { total ≡ count_of symbol symbols.now }
    ensures { result ≡ count_of symbol (take offset symbols.now) }
{
    if offset <= symbols.len() / 2 {
        return count_in(&symbols[..offset], symbol);
    }
    total - count_in(&symbols[offset..], symbol)
}

/// The index of the occurrence of a symbol with this number, counted from 0.
pub(crate) fn nth_in(symbols: &[u32], symbol: u32, number: usize) -> Option<usize>
    ensures { result ≡ nth (λ other. other == symbol) number symbols.now }
{
    let mut left = number;
    for chunk in 0..symbols.len() / CHUNK_LEN {
        let start = chunk * CHUNK_LEN;
        let count = count_in(&symbols[start..start + CHUNK_LEN], symbol);
        if left < count {
            return nth_from(symbols, start, symbol, left);
        }
        left -= count;
    }
    nth_from(symbols, symbols.len() / CHUNK_LEN * CHUNK_LEN, symbol, left)
}

/// The index of the occurrence with this number among those from an index on.
fn nth_from(symbols: &[u32], start: usize, symbol: u32, number: usize) -> Option<usize>
    requires { start ≤ length symbols.now }
    ensures { result ≡ shifted start (nth (λ other. other == symbol) number (drop start symbols.now)) }
{
    let mut left = number;
    for index in start..symbols.len() {
        if symbols[index] == symbol {
            if left == 0 {
                return Some(index);
            }
            left -= 1;
        }
    }
    None
}
