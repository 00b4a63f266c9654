//! Ranges of numbers, and the search among them.

ghost use Rattle.std.specs.Prelude.{◌≡◌, ◌≤◌, length};
ghost use Rattle.std.specs.List.Sorted.{IsNonDecreasingBy, IsPermutation};
ghost use Rattle.milter_lists.specs.Ranges.{AreRising, IsBegunCount, has_number, raised};

/// The numbers from the first to the last, both of them too; none where the last is less.
#[derive(Clone, Copy, Debug, PartialEq, Eq)]
pub struct NumberRange {
    /// The least number.
    pub first: u128,
    /// The greatest number.
    pub last: u128,
}

/// Puts the ranges in the order of their first numbers.
pub(crate) fn sort_ranges(ranges: &mut Vec<NumberRange>)
    ensures permutation { IsPermutation ranges.old.items ranges.new.items }
    ensures sorted { IsNonDecreasingBy (λ range. range.first) ranges.new.items }
{
    ranges.sort_unstable_by_key(|range| range.first);
}

/// Has each range end with the last number of all ranges up to it.
pub(crate) fn raise_ends(ranges: &mut Vec<NumberRange>)
    ensures { ranges.new.items ≡ raised 0 ranges.old.items }
{
    let mut end = 0;
    for range in ranges.iter_mut() {
        end = range.last.max(end);
        range.last = end;
    }
}

/// Whether the number is in one of the ranges, of which neither the first nor the last numbers fall.
pub(crate) fn is_in_range(ranges: &[NumberRange], number: u128) -> bool
    requires { AreRising ranges.now }
    ensures { result ≡ has_number ranges.now number }
{
    match count_begun(ranges, number).checked_sub(1) {
        Some(at) => number <= ranges[at].last,
        None => false,
    }
}

/// How many of the ranges begin at the number or before it.
fn count_begun(ranges: &[NumberRange], number: u128) -> usize
    requires { AreRising ranges.now }
    ensures begun { IsBegunCount number ranges.now result }
    ensures bound { result ≤ length ranges.now }
{
    ranges.partition_point(|range| range.first <= number)
}
