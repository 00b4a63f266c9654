//! Sets of numbers.

ghost use Rattle.std.specs.Prelude.{◌≡◌, ◌↔◌, ◌<◌, ◌^◌, IsTrue, length};
ghost use Rattle.milter_lists.specs.Ranges.{has_number};

use crate::number_range::{NumberRange, is_in_range};
use std::marker::Model;

/// A set of numbers that stays as it is, made by a [`crate::RangeSetBuilder`]: those of its ranges.
#[derive(Debug, Drop)]
pub struct RangeSet {
    // In the order of their first numbers, and of their last.
    ranges: Vec<NumberRange>,
}

impl Model for RangeSet {
    ghost use Rattle.std.specs.Prelude.{List};
    ghost use Rattle.milter_lists.specs.declared.number_range.NumberRange.{NumberRange};
    ghost use Rattle.milter_lists.specs.Ranges.{AreRising};

    ghost Value = { List NumberRange };

    ghost view = { λ s. s.ranges.items };

    ghost invariant = { λ s. AreRising s.ranges.items };
}

impl RangeSet {
    ghost use Rattle.milter_lists.specs.Ranges.{AreRising};

    /// The set of these ranges, of which neither the first nor the last numbers fall.
    pub(crate) fn new(ranges: Vec<NumberRange>) -> Self
        requires { AreRising ranges.items }
        ensures { result ≡ ranges.items }
    {
        RangeSet { ranges }
    }

    /// Whether the number is in one of the ranges. It is compared with few of them: about the logarithm of their
    /// number. Doesn't allocate.
    pub fn contains(&self, number: u128) -> bool
        ensures { result ≡ has_number self.now number }
    {
        is_in_range(self.ranges.as_slice(), number)
    }

    /// Whether both have the same ranges. It takes time in their number. Doesn't allocate.
    pub fn has_same_ranges(&self, other: &RangeSet) -> bool
        ensures { IsTrue result → self.now ≡ other.now }
    {
        self.ranges.as_slice() == other.ranges.as_slice()
    }

    /// How many ranges it has.
    pub fn len(&self) -> usize
        ensures value { result ≡ length self.now }
        ensures bound { result < 2 ^ 63 }
    {
        self.ranges.len()
    }

    /// Whether it has no ranges.
    pub fn is_empty(&self) -> bool
        ensures { IsTrue result ↔ (length self.now ≡ 0) }
    {
        self.ranges.len() == 0
    }
}
